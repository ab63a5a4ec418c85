//! The packets that a list permits, and those that it has to deny.

ghost use Rattle.std.specs.Prelude.{◌≡◌, ℕ, List, IfOk};
ghost use Rattle.fws_ios_put_sources.specs.Picking.{is_at, is_picked, place_in, place_of, IsPick};

use fws_net::{Outcome, Rewrite};
use fws_num::Memory;
use fws_tree::{Relabelling, Tree};
use fws_truth::fields::{ENTRY, FLAGS};
use indexmap::IndexSet;
use std::alloc::Global;

// The entry and the flags, of which no list asks here.
const ENTRY_AND_FLAGS: u16 = ENTRY | FLAGS;

// The place of the list that gives an address.
fn place_in(addrs: &IndexSet<u32>, addr: u32) -> usize
    ensures { result ≡ place_in addrs.now.keys addr }
{
    match addrs.get_index_of(&addr) {
        Some(place) => place,
        None => addrs.len(),
    }
}

// The place of the list that gives the source; where none is written it is behind all lists.
fn place_of(addrs: &IndexSet<u32>, rewrite: &Rewrite) -> usize
    ensures { result ≡ place_of addrs.now.keys rewrite.now }
{
    match rewrite.src {
        Some(end) => place_in(addrs, end.addr),
        None => addrs.len(),
    }
}

// Whether a place is this one, or is behind it.
fn is_at(later: bool, place: usize, n: usize) -> bool
    ensures { result ≡ is_at later place n }
{
    if later { place < n } else { place == n }
}

/// Whether an outcome accepts, with a source that is given at a place, or behind it.
#[derive(Drop)]
struct GivenAt<'a> {
    /// The addresses that lists give, by the places of the lists.
    addrs: &'a IndexSet<u32>,
    /// The place.
    place: usize,
    /// Whether it is to be given behind it.
    later: bool,
}

impl Relabelling<Outcome, bool> for GivenAt<'_> {
    ghost use Rattle.fws_ios_put_sources.specs.Picking.{is_picked};

    ghost gives = { λ s o. is_picked s.addrs.now.keys s.place s.later o };

    fn leaf(&self, _alloc: Global, leaf: &Outcome) -> Result<bool, Memory> {
        match leaf {
            Outcome::Drop => Ok(false),
            Outcome::Accept(rewrite) => Ok(is_at(
                self.later,
                self.place,
                place_of(self.addrs, rewrite),
            )),
        }
    }
}

/// The packets that are accepted, with a source that is given at a place or behind it, whatever their entry and their flags. Fails
/// if memory runs out.
pub(crate) fn picked(
    alloc: Global,
    crossing: &Tree<Outcome>,
    addrs: &IndexSet<u32>,
    place: usize,
    later: bool,
) -> Result<Tree<bool>, Memory>
    ensures tops { IfOk result (λ t. t.0 ≡ crossing.now.0) }
    ensures picked { IfOk result (λ t. IsPick crossing.now.0 crossing.now.1 addrs.now.keys place later t.1) }
{
    let all = crossing.relabel(
        alloc,
        &GivenAt {
            addrs,
            place,
            later,
        },
    )?;
    all.exists(alloc, ENTRY_AND_FLAGS)
}
