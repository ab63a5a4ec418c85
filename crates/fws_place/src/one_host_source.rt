//! Whether the sources of the host's packets are written whatever flags and ICMP types are.

ghost use Rattle.std.specs.Prelude.{IfOk};
ghost use Rattle.fws_net.specs.Routes.{IsSound};
ghost use Rattle.fws_place.specs.declared.clause.Clause.TheVariants.{OneHostSource};
ghost use Rattle.fws_place.specs.Found.{IsSought};
ghost use Rattle.fws_tree.specs.Regular.{AreRegular};

use crate::breach::Pair;
use crate::one_end::{Compared, different_ends};
use fws_net::Site;
use fws_num::Memory;
use fws_tree::Tables;
use std::alloc::Global;

/// Two new packets of the host that agree in all but flags and ICMP types and get different sources, if there are any. Fails if
/// memory runs out.
pub(crate) fn one_host_source(
    alloc: Global,
    site: &Site,
    tables: &Tables,
) -> Result<Option<(Pair, Option<Pair>)>, Memory>
    requires sound { IsSound site.now }
    requires regular { AreRegular site.now tables.now }
    ensures { IfOk result (λ found. IsSought site.now tables.now OneHostSource found) }
{
    different_ends(alloc, site, tables, Compared::HostSources)
}
