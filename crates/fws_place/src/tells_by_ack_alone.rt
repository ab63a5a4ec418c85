//! Whether flags tell packets apart by ACK and RST alone.

ghost use Rattle.std.specs.Prelude.{◌≡◌, IfOk};
ghost use Rattle.fws_net.specs.Points.{tops_of};
ghost use Rattle.fws_net.specs.Routes.{IsSound};
ghost use Rattle.fws_place.specs.declared.clause.Clause.TheVariants.{TellsByAckAlone};
ghost use Rattle.fws_place.specs.AheadOfLookup.{IsAcceptedNew};
ghost use Rattle.fws_place.specs.ByAck.{AreSoughtSuch};
ghost use Rattle.fws_place.specs.Clauses.{BreaksByAckAhead, BreaksByAckEstablished, BreaksByAckNew, NamesPackets, NamesPairs};
ghost use Rattle.fws_place.specs.Found.{IsSought};
ghost use Rattle.fws_place.specs.Seen.{IsAcceptedPair, Tells};
ghost use Rattle.fws_tree.specs.Regular.{AreRegular};

use crate::ack_ahead::ahead_at;
use crate::breach::Pair;
use crate::by_ack::told_by_more;
use crate::drops_ahead_of_lookup::accepted_new;
use crate::named_two::{packets_at, pairs_at};
use crate::seeing::{accepted, accepted_somewhere};
use fws_net::Site;
use fws_num::Memory;
use fws_tree::{Tables, Tree};
use std::alloc::Global;

// Two new packets that flags tell apart though ACK and RST are the same.
fn new_by_more(
    alloc: Global,
    site: &Site,
    tables: &Tables,
    new: &Tree<bool>,
) -> Result<Option<(Pair, Option<Pair>)>, Memory>
    requires sound { IsSound site.now }
    requires tops { new.now.0 ≡ tops_of site.now }
    requires tells { Tells site.now (λ p r. IsAcceptedNew tables.now p) new.now.1 }
    ensures { IfOk result (AreSoughtSuch (NamesPackets site.now (BreaksByAckNew tables.now))) }
{
    match told_by_more(alloc, site, new)? {
        None => Ok(None),
        Some(points) => Ok(Some(packets_at(&points.0, &points.1))),
    }
}

// Two pairs that flags tell apart though ACK and RST are the same.
fn established_by_more(
    alloc: Global,
    site: &Site,
    tables: &Tables,
) -> Result<Option<(Pair, Option<Pair>)>, Memory>
    requires sound { IsSound site.now }
    requires regular { AreRegular site.now tables.now }
    ensures { IfOk result (AreSoughtSuch (NamesPairs site.now (BreaksByAckEstablished site.now tables.now))) }
{
    let accepted = accepted(alloc, site, tables)?;
    match told_by_more(alloc, site, &accepted)? {
        None => Ok(None),
        Some(points) => Ok(Some(pairs_at(&points.0, &points.1))),
    }
}

// Two packets that differ in flags alone: with ACK or RST it is dropped when it is new and accepted in some connection,
// and without them it is dropped in each.
fn ahead(
    alloc: Global,
    site: &Site,
    tables: &Tables,
    new: &Tree<bool>,
) -> Result<Option<(Pair, Option<Pair>)>, Memory>
    requires sound { IsSound site.now }
    requires regular { AreRegular site.now tables.now }
    requires tops { new.now.0 ≡ tops_of site.now }
    requires tells { Tells site.now (λ p r. IsAcceptedNew tables.now p) new.now.1 }
    ensures { IfOk result (AreSoughtSuch (NamesPackets site.now (BreaksByAckAhead site.now tables.now))) }
{
    let sometimes = accepted_somewhere(alloc, site, tables)?;
    match ahead_at(alloc, site, &sometimes, new)? {
        None => Ok(None),
        Some(points) => Ok(Some(packets_at(&points.0, &points.1))),
    }
}

// Two packets or pairs that break the clause, of which new packets are accepted.
fn told_of_new(
    alloc: Global,
    site: &Site,
    tables: &Tables,
    new: &Tree<bool>,
) -> Result<Option<(Pair, Option<Pair>)>, Memory>
    requires sound { IsSound site.now }
    requires regular { AreRegular site.now tables.now }
    requires tops { new.now.0 ≡ tops_of site.now }
    requires tells { Tells site.now (λ p r. IsAcceptedNew tables.now p) new.now.1 }
    ensures { IfOk result (λ found. IsSought site.now tables.now TellsByAckAlone found) }
{
    if let Some(found) = new_by_more(alloc, site, tables, new)? {
        return Ok(Some(found));
    }
    if let Some(found) = established_by_more(alloc, site, tables)? {
        return Ok(Some(found));
    }
    ahead(alloc, site, tables, new)
}

/// Two packets or pairs that arrive and differ in flags alone, though these may tell packets apart by ACK and RST alone, if there
/// are any. Fails if memory runs out.
pub(crate) fn tells_by_ack_alone(
    alloc: Global,
    site: &Site,
    tables: &Tables,
) -> Result<Option<(Pair, Option<Pair>)>, Memory>
    requires sound { IsSound site.now }
    requires regular { AreRegular site.now tables.now }
    ensures { IfOk result (λ found. IsSought site.now tables.now TellsByAckAlone found) }
{
    let new = accepted_new(alloc, site, tables)?;
    told_of_new(alloc, site, tables, &new)
}
