//! Points that agree in all fields but some and have different leaves.
//!
//! The question is whether what a tree gives depends on fields on which it must not depend, as the destination of a packet on
//! its flags. A walk over pairs of points would meet their product. Projecting the fields away answers it for a tree of truth
//! values (`true_near`): somewhere near a point the tree is true, so let both trees be true together and project one of them.
//!
//! For leaves of any kind: give each leaf a number. If two leaves differ, their numbers differ in some binary digit. So for each
//! digit make two trees of truth values, one of the leaves with the digit set and one of those without, and ask whether there
//! are near points of which the one has the first and the other the second. A leaf that doesn't count is in neither.
//!
//! The cost: as many digits as the number of leaves has, and a few changes of the tree for each. Nothing walks over pairs of
//! nodes or leaves.

ghost use Rattle.std.specs.Prelude.{◌≡◌, ◌<◌, IfOk, All, Contains};
ghost use Rattle.fws_place.specs.Apart.{has_bit, is_marked, place_in, HasValuesAmong, AreFoundApart};

use crate::exact::put_leaf;
use crate::true_near::true_together;
use fws_box::Point;
use fws_num::Memory;
use fws_tree::{Leaf, Relabelling, Tree};
use indexmap::IndexSet;
use std::alloc::Global;

// The leaves, each once. Fails if memory runs out.
fn once<L: Leaf>(alloc: Global, leaves: &[L]) -> Result<IndexSet<L>, Memory>
    ensures { IfOk result (λ kept. All (Contains kept.keys) leaves.now) }
{
    let mut kept = IndexSet::new(alloc);
    for leaf in leaves {
        put_leaf(alloc, &mut kept, leaf)?;
    }
    Ok(kept)
}

// The place of a leaf among others.
fn place_in<L: Leaf>(kept: &IndexSet<L>, leaf: &L) -> u64
    ensures { result ≡ place_in L.PartialEq.eq kept.now.keys leaf.now }
{
    match kept.get_index_of(leaf) {
        Some(place) => place as u64,
        None => 0,
    }
}

// Whether the bit of a number that stands for this power of 2 is set.
fn has_bit(size: u64, number: u64) -> bool
    requires { 0 < size }
    ensures { result ≡ has_bit size number }
{
    number / size % 2 == 1
}

/// Whether a leaf counts and the bit of its place is set, or isn't.
#[derive(Drop)]
struct ByBit<'a, L: Leaf> {
    /// The leaf that doesn't count.
    off: &'a L,
    /// Those that have a place.
    kept: &'a IndexSet<L>,
    /// The power of 2 for which the bit stands.
    size: u64,
    /// Whether it is to be set.
    set: bool,
    ghost some: { 0 < size },
}

// Whether the leaf counts and its bit is as it is to be.
fn is_marked<L: Leaf>(by: &ByBit<'_, L>, leaf: &L) -> bool
    ensures { result ≡ is_marked L.PartialEq.eq by.now.off.now by.now.kept.now.keys by.now.size by.now.set leaf.now }
{
    if *leaf == *by.off {
        return false;
    }
    let bit = has_bit(by.size, place_in(by.kept, leaf));
    if by.set { bit } else { !bit }
}

impl<L: Leaf> Relabelling<L, bool> for ByBit<'_, L> {
    ghost use Rattle.fws_place.specs.Apart.{is_marked};

    ghost gives = { λ s x. is_marked L.PartialEq.eq s.off.now s.kept.now.keys s.size s.set x };

    fn leaf(&self, _alloc: Global, leaf: &L) -> Result<bool, Memory> {
        Ok(is_marked(self, leaf))
    }
}

// Two points that agree in all fields whose bits aren't set and have leaves that count, of whose places the bit for this power of 2
// differs. Fails if memory runs out.
fn apart_by<L: Leaf>(
    alloc: Global,
    tree: &Tree<L>,
    off: &L,
    kept: &IndexSet<L>,
    size: u64,
    fields: u16,
) -> Result<Option<(Point, Point)>, Memory>
    requires { 0 < size }
    ensures { IfOk result (λ found. AreFoundApart (λ x. has_bit size (place_in L.PartialEq.eq kept.now.keys x)) fields tree.now.0 tree.now.1 off.now found) }
{
    let set = ByBit {
        off,
        kept,
        size,
        set: true,
    };
    let clear = ByBit {
        off,
        kept,
        size,
        set: false,
    };
    let first = tree.relabel(alloc, &set)?;
    let second = tree.relabel(alloc, &clear)?;
    true_together(alloc, &first, &second, fields)
}

// Two points that agree in all fields whose bits aren't set and have different leaves that count, where those that are kept are all
// of the tree's. Fails if memory runs out.
fn apart_among<L: Leaf>(
    alloc: Global,
    tree: &Tree<L>,
    off: &L,
    kept: &IndexSet<L>,
    fields: u16,
) -> Result<Option<(Point, Point)>, Memory>
    requires { HasValuesAmong tree.now.1 kept.now.keys }
    ensures { IfOk result (AreFoundApart (λ x. x) fields tree.now.0 tree.now.1 off.now) }
{
    let count = kept.len() as u64;
    let mut size: u64 = 1;
    while size < count {
        if let Some(found) = apart_by(alloc, tree, off, kept, size, fields)? {
            return Ok(Some(found));
        }
        size *= 2;
    }
    Ok(None)
}

/// Two points that agree in all fields whose bits aren't set and have different leaves, neither of which is the one that doesn't
/// count, if there are any. Fails if memory runs out. The work is that of a few changes of the tree for each binary digit of the
/// number of leaves.
pub(crate) fn apart<L: Leaf>(
    alloc: Global,
    tree: &Tree<L>,
    off: &L,
    fields: u16,
) -> Result<Option<(Point, Point)>, Memory>
    ensures { IfOk result (AreFoundApart (λ x. x) fields tree.now.0 tree.now.1 off.now) }
{
    let kept = once(alloc, tree.shared().leaves)?;
    apart_among(alloc, tree, off, &kept, fields)
}
