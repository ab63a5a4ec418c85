//! Whether whole addresses are written.

ghost use Rattle.std.specs.Prelude.{IfOk};
ghost use Rattle.fws_net.specs.Routes.{IsSound};
ghost use Rattle.fws_place.specs.declared.clause.Clause.TheVariants.{WritesWholeAddresses};
ghost use Rattle.fws_place.specs.Found.{IsSought};
ghost use Rattle.fws_tree.specs.Regular.{AreRegular};

use crate::asking::{Asked, packet_with};
use crate::breach::Pair;
use fws_net::Site;
use fws_num::Memory;
use fws_tree::Tables;
use std::alloc::Global;

/// A new packet that is accepted and has less than a whole address written, if there is one. Fails if memory runs out.
pub(crate) fn writes_whole_addresses(
    alloc: Global,
    site: &Site,
    tables: &Tables,
) -> Result<Option<(Pair, Option<Pair>)>, Memory>
    requires sound { IsSound site.now }
    requires regular { AreRegular site.now tables.now }
    ensures { IfOk result (λ found. IsSought site.now tables.now WritesWholeAddresses found) }
{
    packet_with(alloc, site, tables, Asked::Network)
}
