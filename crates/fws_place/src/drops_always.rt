//! Whether established packets are dropped where their packets always are.

ghost use Rattle.std.specs.Prelude.{◌≡◌, IfOk};
ghost use Rattle.fws_net.specs.Points.{tops_of};
ghost use Rattle.fws_net.specs.Routes.{IsSound};
ghost use Rattle.fws_place.specs.declared.clause.Clause.TheVariants.{DropsAlways};
ghost use Rattle.fws_place.specs.AheadOfLookup.{IsDroppedOfPacket};
ghost use Rattle.fws_place.specs.Clauses.{BreaksAlways};
ghost use Rattle.fws_place.specs.Found.{IsSought};
ghost use Rattle.fws_place.specs.Seen.{IsAcceptedPair, Tells};
ghost use Rattle.fws_tree.specs.Regular.{AreRegular};

use crate::breach::Pair;
use crate::drops_ahead_of_lookup::dropped_of_packet;
use crate::lost::without_lost;
use crate::naming::named_pair;
use crate::seeing::{accepted, accepted_somewhere};
use fws_net::Site;
use fws_num::Memory;
use fws_tree::{Tables, Tree};
use std::alloc::Global;

// The tree that tells of each pair whether it is dropped though its packet is accepted, in some connection or when it is
// new.
fn dropped_sometimes(
    alloc: Global,
    site: &Site,
    tables: &Tables,
    accepted: &Tree<bool>,
) -> Result<Tree<bool>, Memory>
    requires regular { AreRegular site.now tables.now }
    requires accepted_tops { accepted.now.0 ≡ tops_of site.now }
    requires accepted { Tells site.now (IsAcceptedPair tables.now) accepted.now.1 }
    ensures tops { IfOk result (λ t. t.0 ≡ tops_of site.now) }
    ensures tells { IfOk result (λ t. Tells site.now (IsDroppedOfPacket site.now tables.now) t.1) }
{
    let packet = accepted_somewhere(alloc, site, tables)?;
    dropped_of_packet(alloc, site, tables, accepted, &packet)
}

// The tree that tells of each pair whether it breaks the clause.
fn breaking(alloc: Global, site: &Site, tables: &Tables) -> Result<Tree<bool>, Memory>
    requires sound { IsSound site.now }
    requires regular { AreRegular site.now tables.now }
    ensures tops { IfOk result (λ t. t.0 ≡ tops_of site.now) }
    ensures tells { IfOk result (λ t. Tells site.now (BreaksAlways site.now tables.now) t.1) }
{
    let accepted = accepted(alloc, site, tables)?;
    let dropped = dropped_sometimes(alloc, site, tables, &accepted)?;
    without_lost(alloc, site, dropped)
}

/// A pair that is dropped and not lost though its packet is accepted, in some connection or when it is new, if there is one. Fails
/// if memory runs out.
pub(crate) fn drops_always(
    alloc: Global,
    site: &Site,
    tables: &Tables,
) -> Result<Option<(Pair, Option<Pair>)>, Memory>
    requires sound { IsSound site.now }
    requires regular { AreRegular site.now tables.now }
    ensures { IfOk result (λ found. IsSought site.now tables.now DropsAlways found) }
{
    let breaking = breaking(alloc, site, tables)?;
    named_pair(alloc, site, &breaking)
}
