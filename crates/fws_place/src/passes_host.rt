//! Whether the host's own packets pass as they are.

ghost use Rattle.std.specs.Prelude.{◌≡◌, IfOk};
ghost use Rattle.fws_net.specs.Points.{tops_of};
ghost use Rattle.fws_net.specs.Routes.{IsSound};
ghost use Rattle.fws_place.specs.declared.clause.Clause.TheVariants.{PassesHost};
ghost use Rattle.fws_place.specs.Clauses.{BreaksHost, BreaksHostEstablished};
ghost use Rattle.fws_place.specs.Found.{IsSought};
ghost use Rattle.fws_place.specs.Seen.{Tells};
ghost use Rattle.fws_tree.specs.Regular.{AreRegular};

use crate::breach::Pair;
use crate::drops_ahead_of_lookup::host_sides;
use crate::drops_no_established::dropped;
use crate::naming::{named_packet, named_pair};
use fws_net::{Outcome, Site};
use fws_num::Memory;
use fws_tree::{Relabelling, Tables, Tree};
use std::alloc::Global;

/// Whether an outcome drops or writes something.
struct Changing;

impl Relabelling<Outcome, bool> for Changing {
    ghost use Rattle.std.specs.Prelude.{not};
    ghost use Rattle.fws_place.specs.Unchanged.{is_unchanged};

    ghost gives = { λ s o. not (is_unchanged o) };

    fn leaf(&self, _alloc: Global, leaf: &Outcome) -> Result<bool, Memory> {
        match leaf {
            Outcome::Drop => Ok(true),
            Outcome::Accept(rewrite) => Ok(rewrite.src.is_some() || rewrite.dst.is_some()),
        }
    }
}

// The tree that tells of each new packet whether it is one of the host's that doesn't pass as it is.
fn changed_host(alloc: Global, site: &Site, tables: &Tables) -> Result<Tree<bool>, Memory>
    requires sound { IsSound site.now }
    requires regular { AreRegular site.now tables.now }
    ensures tops { IfOk result (λ t. t.0 ≡ tops_of site.now) }
    ensures tells { IfOk result (λ t. Tells site.now (λ p r. BreaksHost tables.now p) t.1) }
{
    let sides = host_sides(alloc, site)?;
    let changed = tables.fresh.relabel(alloc, &Changing)?;
    changed.restrict(alloc, &sides, false)
}

// The tree that tells of each pair whether it is a dropped one of the host's.
fn dropped_host(alloc: Global, site: &Site, tables: &Tables) -> Result<Tree<bool>, Memory>
    requires sound { IsSound site.now }
    requires regular { AreRegular site.now tables.now }
    ensures tops { IfOk result (λ t. t.0 ≡ tops_of site.now) }
    ensures tells { IfOk result (λ t. Tells site.now (BreaksHostEstablished site.now tables.now) t.1) }
{
    let sides = host_sides(alloc, site)?;
    let dropped = dropped(alloc, site, tables)?;
    dropped.restrict(alloc, &sides, false)
}

// A new packet of the host that doesn't pass as it is, by the tree that tells of them, or else a pair of the host that is
// dropped.
fn changed_or_dropped(
    alloc: Global,
    site: &Site,
    tables: &Tables,
    changed: &Tree<bool>,
) -> Result<Option<(Pair, Option<Pair>)>, Memory>
    requires sound { IsSound site.now }
    requires regular { AreRegular site.now tables.now }
    requires tops { changed.now.0 ≡ tops_of site.now }
    requires tells { Tells site.now (λ p r. BreaksHost tables.now p) changed.now.1 }
    ensures { IfOk result (λ found. IsSought site.now tables.now PassesHost found) }
{
    if let Some(found) = named_packet(alloc, site, changed)? {
        return Ok(Some(found));
    }
    let dropped = dropped_host(alloc, site, tables)?;
    named_pair(alloc, site, &dropped)
}

/// A new packet of the host that isn't accepted as it is, or else a pair of the host that is dropped, if there is one. Fails if
/// memory runs out.
pub(crate) fn passes_host(
    alloc: Global,
    site: &Site,
    tables: &Tables,
) -> Result<Option<(Pair, Option<Pair>)>, Memory>
    requires sound { IsSound site.now }
    requires regular { AreRegular site.now tables.now }
    ensures { IfOk result (λ found. IsSought site.now tables.now PassesHost found) }
{
    let changed = changed_host(alloc, site, tables)?;
    changed_or_dropped(alloc, site, tables, &changed)
}
