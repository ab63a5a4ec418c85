//! Whether established packets are dropped by what one rule can see.

ghost use Rattle.std.specs.Prelude.{◌≡◌, ◌&&◌, not, IfOk};
ghost use Rattle.fws_net.specs.Points.{tops_of};
ghost use Rattle.fws_net.specs.Routes.{IsSound};
ghost use Rattle.fws_place.specs.declared.clause.Clause.TheVariants.{DropsByOneView};
ghost use Rattle.fws_place.specs.Clauses.{BreaksByOneView};
ghost use Rattle.fws_place.specs.Found.{IsSought};
ghost use Rattle.fws_place.specs.Seen.{IsAcceptedPair, IsAcceptedSomewhere, IsAcceptedAlike, Tells};
ghost use Rattle.fws_tree.specs.Plain.{value};
ghost use Rattle.fws_tree.specs.Regular.{AreRegular};
ghost use Rattle.fws_place.specs.Kept.{AreMixed};

use crate::breach::Pair;
use crate::drops_ahead_of_lookup::together;
use crate::lost::without_lost;
use crate::naming::named_pair;
use crate::seeing::{accepted, seen};
use fws_net::Site;
use fws_num::Memory;
use fws_tree::{Relabelling, Tables, Tree};
use std::alloc::Global;

/// Whether a pair is dropped alone. A leaf tells of the pair, of its packet in some connection, and of the pairs that
/// look like it behind routing, whether it is accepted.
struct DroppedAlone;

impl Relabelling<(bool, (bool, bool)), bool> for DroppedAlone {
    ghost use Rattle.std.specs.Prelude.{◌&&◌, not};

    ghost gives = { λ s leaf. not leaf.0 && leaf.1.0 && leaf.1.1 };

    fn leaf(&self, _alloc: Global, leaf: &(bool, (bool, bool))) -> Result<bool, Memory> {
        Ok(!leaf.0 && leaf.1.0 && leaf.1.1)
    }
}

// The tree that is true where the first one is false and both others are true.
fn dropped_alone(
    alloc: Global,
    accepted: &Tree<bool>,
    packet: &Tree<bool>,
    behind: &Tree<bool>,
) -> Result<Tree<bool>, Memory>
    requires packet { packet.now.0 ≡ accepted.now.0 }
    requires behind { behind.now.0 ≡ accepted.now.0 }
    ensures tops { IfOk result (λ t. t.0 ≡ accepted.now.0) }
    ensures value { IfOk result (λ t. AreMixed (λ a b c. not a && b && c) accepted.now.0 accepted.now.1 packet.now.1 behind.now.1 t.1) }
{
    let all = together(alloc, accepted, packet, behind)?;
    all.relabel(alloc, &DroppedAlone)
}

// The tree that tells of each pair whether it breaks the clause, of what is accepted and of what rules see.
fn breaking_seen(
    alloc: Global,
    site: &Site,
    tables: &Tables,
    accepted: &Tree<bool>,
    packet: &Tree<bool>,
    behind: &Tree<bool>,
) -> Result<Tree<bool>, Memory>
    requires sound { IsSound site.now }
    requires regular { AreRegular site.now tables.now }
    requires accepted_tops { accepted.now.0 ≡ tops_of site.now }
    requires accepted { Tells site.now (IsAcceptedPair tables.now) accepted.now.1 }
    requires packet_tops { packet.now.0 ≡ tops_of site.now }
    requires packet { Tells site.now (λ p r. IsAcceptedSomewhere site.now tables.now p) packet.now.1 }
    requires behind_tops { behind.now.0 ≡ tops_of site.now }
    requires behind { Tells site.now (IsAcceptedAlike site.now tables.now) behind.now.1 }
    ensures tops { IfOk result (λ t. t.0 ≡ tops_of site.now) }
    ensures tells { IfOk result (λ t. Tells site.now (BreaksByOneView site.now tables.now) t.1) }
{
    let dropped = dropped_alone(alloc, accepted, packet, behind)?;
    without_lost(alloc, site, dropped)
}

// The tree that tells of each pair whether it breaks the clause, of what is accepted.
fn breaking_accepted(
    alloc: Global,
    site: &Site,
    tables: &Tables,
    accepted: &Tree<bool>,
) -> Result<Tree<bool>, Memory>
    requires sound { IsSound site.now }
    requires regular { AreRegular site.now tables.now }
    requires accepted_tops { accepted.now.0 ≡ tops_of site.now }
    requires accepted { Tells site.now (IsAcceptedPair tables.now) accepted.now.1 }
    ensures tops { IfOk result (λ t. t.0 ≡ tops_of site.now) }
    ensures tells { IfOk result (λ t. Tells site.now (BreaksByOneView site.now tables.now) t.1) }
{
    let seen = seen(alloc, site, tables)?;
    breaking_seen(alloc, site, tables, accepted, &seen.packet, &seen.behind)
}

// The tree that tells of each pair whether it breaks the clause.
fn breaking(alloc: Global, site: &Site, tables: &Tables) -> Result<Tree<bool>, Memory>
    requires sound { IsSound site.now }
    requires regular { AreRegular site.now tables.now }
    ensures tops { IfOk result (λ t. t.0 ≡ tops_of site.now) }
    ensures tells { IfOk result (λ t. Tells site.now (BreaksByOneView site.now tables.now) t.1) }
{
    let accepted = accepted(alloc, site, tables)?;
    breaking_accepted(alloc, site, tables, &accepted)
}

/// A pair that is dropped though its packet is accepted in some connection and some pair that looks like it behind routing is too,
/// if there is one. Fails if memory runs out.
pub(crate) fn drops_by_one_view(
    alloc: Global,
    site: &Site,
    tables: &Tables,
) -> Result<Option<(Pair, Option<Pair>)>, Memory>
    requires sound { IsSound site.now }
    requires regular { AreRegular site.now tables.now }
    ensures { IfOk result (λ found. IsSought site.now tables.now DropsByOneView found) }
{
    let breaking = breaking(alloc, site, tables)?;
    named_pair(alloc, site, &breaking)
}
