//! Whether the destinations of the host's own packets are kept.

ghost use Rattle.std.specs.Prelude.{◌≡◌, true, IfOk};
ghost use Rattle.fws_net.specs.Points.{tops_of};
ghost use Rattle.fws_net.specs.Routes.{IsSound};
ghost use Rattle.fws_place.specs.declared.clause.Clause.TheVariants.{KeepsHostDestinations};
ghost use Rattle.fws_place.specs.Clauses.{IsAcceptedWith};
ghost use Rattle.fws_place.specs.Found.{IsSought};
ghost use Rattle.fws_place.specs.Pairs.{is_host};
ghost use Rattle.fws_place.specs.Rewritings.{writes_destination};
ghost use Rattle.fws_place.specs.Seen.{Tells};
ghost use Rattle.fws_tree.specs.Regular.{AreRegular};

use crate::asking::{Asked, accepted_with};
use crate::breach::Pair;
use crate::drops_ahead_of_lookup::host_sides;
use crate::naming::named_packet;
use fws_net::Site;
use fws_num::Memory;
use fws_tree::{Tables, Tree};
use std::alloc::Global;

// The tree that tells of each new packet whether it is one of the host's with a destination written.
fn breaking(alloc: Global, site: &Site, tables: &Tables) -> Result<Tree<bool>, Memory>
    requires sound { IsSound site.now }
    requires regular { AreRegular site.now tables.now }
    ensures tops { IfOk result (λ t. t.0 ≡ tops_of site.now) }
    ensures tells { IfOk result (λ t. Tells site.now (λ p r. (is_host p ≡ true) × IsAcceptedWith tables.now writes_destination p) t.1) }
{
    let sides = host_sides(alloc, site)?;
    let writing = accepted_with(alloc, site, tables, Asked::Destination)?;
    writing.restrict(alloc, &sides, false)
}

/// A new packet of the host that is accepted and has a destination written, if there is one. Fails if memory runs out.
pub(crate) fn keeps_host_destinations(
    alloc: Global,
    site: &Site,
    tables: &Tables,
) -> Result<Option<(Pair, Option<Pair>)>, Memory>
    requires sound { IsSound site.now }
    requires regular { AreRegular site.now tables.now }
    ensures { IfOk result (λ found. IsSought site.now tables.now KeepsHostDestinations found) }
{
    let tree = breaking(alloc, site, tables)?;
    named_packet(alloc, site, &tree)
}
