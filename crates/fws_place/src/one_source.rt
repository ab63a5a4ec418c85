//! Whether the sources of packets from the inside to the outside are written whatever entry and flags are.

ghost use Rattle.std.specs.Prelude.{IfOk};
ghost use Rattle.fws_net.specs.Routes.{IsSound};
ghost use Rattle.fws_place.specs.declared.clause.Clause.TheVariants.{OneSource};
ghost use Rattle.fws_place.specs.Found.{IsSought};
ghost use Rattle.fws_tree.specs.Regular.{AreRegular};

use crate::apart::apart;
use crate::breach::Pair;
use crate::named_two::packets_at;
use crate::outgoing::outgoing_sources;
use fws_net::{Outcome, Site};
use fws_num::Memory;
use fws_tree::Tables;
use fws_truth::fields::{ENTRY, FLAGS};
use std::alloc::Global;

// The fields of the entry and of flags, by their bits.
const ENTRY_AND_FLAGS: u16 = ENTRY | FLAGS;

/// Two new packets that go from the inside to the outside, agree in all but entry and flags and get different sources, if there are
/// any. Fails if memory runs out.
pub(crate) fn one_source(
    alloc: Global,
    site: &Site,
    tables: &Tables,
) -> Result<Option<(Pair, Option<Pair>)>, Memory>
    requires sound { IsSound site.now }
    requires regular { AreRegular site.now tables.now }
    ensures { IfOk result (λ found. IsSought site.now tables.now OneSource found) }
{
    let tree = outgoing_sources(alloc, site, tables)?;
    match apart(alloc, &tree, &Outcome::Drop, ENTRY_AND_FLAGS)? {
        None => Ok(None),
        Some(points) => Ok(Some(packets_at(&points.0, &points.1))),
    }
}
