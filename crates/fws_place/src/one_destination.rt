//! Whether destinations are written whatever flags and ICMP types are.

ghost use Rattle.std.specs.Prelude.{IfOk};
ghost use Rattle.fws_net.specs.Routes.{IsSound};
ghost use Rattle.fws_place.specs.declared.clause.Clause.TheVariants.{OneDestination};
ghost use Rattle.fws_place.specs.Found.{IsSought};
ghost use Rattle.fws_tree.specs.Regular.{AreRegular};

use crate::breach::Pair;
use crate::one_end::{Compared, different_ends};
use fws_net::Site;
use fws_num::Memory;
use fws_tree::Tables;
use std::alloc::Global;

/// Two new packets that arrive, agree in all but flags and ICMP types and get different destinations, if there are any. Fails if
/// memory runs out.
pub(crate) fn one_destination(
    alloc: Global,
    site: &Site,
    tables: &Tables,
) -> Result<Option<(Pair, Option<Pair>)>, Memory>
    requires sound { IsSound site.now }
    requires regular { AreRegular site.now tables.now }
    ensures { IfOk result (λ found. IsSought site.now tables.now OneDestination found) }
{
    different_ends(alloc, site, tables, Compared::Destinations)
}
