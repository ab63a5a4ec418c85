//! The way of a packet through the tables (iptables(8)).

ghost use Rattle.std.specs.Prelude.{◌≡◌, IfOk};
ghost use Rattle.fws_net.specs.Routes.{IsSound};
ghost use Rattle.fws_ipt.specs.Walk.{builtin_from, builtin_walk, visit, visits, arriving, delivered, forwarded, sent_out, go_to, routed, entering, way_of, outcome_of, walk};

use crate::builtin::builtin_at;
use crate::config::{IptConfig, IptTable};
use crate::hook::Hook;
use crate::model::acting::Scene;
use crate::model::chains::builtin_walk;
use crate::model::writing::tracked_at;
use crate::passage::Passage;
use fws_net::{Exit, Kind, Outcome, Packet, Rewrite, Site, exit_of};
use fws_num::Memory;
use std::alloc::Global;

/// A packet of a class, and what it goes through.
#[derive(Clone, Copy)]
struct Trip<'a> {
    config: &'a IptConfig,
    site: &'a Site,
    packet: &'a Packet,
    kind: &'a Kind,
}

/// The packet behind the built-in chain of a table at the hook; none where it is dropped.
fn table_visit(
    alloc: Global,
    trip: &Trip,
    is_est: bool,
    table: IptTable,
    hook: Hook,
    m: Passage,
) -> Result<Option<Passage>, Memory>
    requires { IsSound trip.now.site.now }
    ensures { IfOk result (λ o. o ≡ builtin_walk trip.now.config.now.chains trip.now.site.now trip.now.packet.now is_est hook (builtin_from 0 table hook trip.now.config.now.chains) m) }
{
    let scene = Scene {
        chains: trip.config.chains.as_slice(),
        site: trip.site,
        entered: *trip.packet,
        is_est,
        hook,
    };
    builtin_walk(alloc, &scene, builtin_at(table, hook, scene.chains), m)
}

/// The packet behind the chain of a table at the hook. An established packet doesn't meet the chains
/// of nat.
fn visit(
    alloc: Global,
    trip: &Trip,
    table: IptTable,
    hook: Hook,
    m: Passage,
) -> Result<Option<Passage>, Memory>
    requires { IsSound trip.now.site.now }
    ensures { IfOk result (λ o. o ≡ visit trip.now.config.now trip.now.site.now trip.now.packet.now trip.now.kind.now table hook m) }
{
    match trip.kind {
        Kind::New => table_visit(alloc, trip, false, table, hook, m),
        Kind::Est(r) => match table {
            IptTable::Nat => Ok(Some(tracked_at(r, hook, &m))),
            IptTable::Filter | IptTable::Mangle => {
                table_visit(alloc, trip, true, table, hook, m)
            }
        },
    }
}

/// The packet behind these chains, in their order.
fn visits(
    alloc: Global,
    trip: &Trip,
    places: &[(IptTable, Hook)],
    m: Passage,
) -> Result<Option<Passage>, Memory>
    requires { IsSound trip.now.site.now }
    ensures { IfOk result (λ o. o ≡ visits trip.now.config.now trip.now.site.now trip.now.packet.now trip.now.kind.now places.now m) }
{
    let mut now = m;
    for (table, hook) in places {
        match visit(alloc, trip, *table, *hook, now)? {
            Some(m) => now = m,
            None => return Ok(None),
        }
    }
    Ok(Some(now))
}

/// What an arriving packet meets before it is routed.
const ARRIVING: [(IptTable, Hook); 2] = [
    (IptTable::Mangle, Hook::Prerouting),
    (IptTable::Nat, Hook::Prerouting),
];

/// What a delivered packet meets.
const DELIVERED: [(IptTable, Hook); 3] = [
    (IptTable::Mangle, Hook::Input),
    (IptTable::Filter, Hook::Input),
    (IptTable::Nat, Hook::Input),
];

/// What a forwarded packet meets.
const FORWARDED: [(IptTable, Hook); 4] = [
    (IptTable::Mangle, Hook::Forward),
    (IptTable::Filter, Hook::Forward),
    (IptTable::Mangle, Hook::Postrouting),
    (IptTable::Nat, Hook::Postrouting),
];

/// What a packet of the host itself meets.
const SENT_OUT: [(IptTable, Hook); 5] = [
    (IptTable::Mangle, Hook::Output),
    (IptTable::Nat, Hook::Output),
    (IptTable::Filter, Hook::Output),
    (IptTable::Mangle, Hook::Postrouting),
    (IptTable::Nat, Hook::Postrouting),
];

/// The packet behind what it meets once it is routed to this exit.
fn go_to(alloc: Global, trip: &Trip, exit: Exit, m: Passage) -> Result<Option<Passage>, Memory>
    requires { IsSound trip.now.site.now }
    ensures { IfOk result (λ o. o ≡ go_to trip.now.config.now trip.now.site.now trip.now.packet.now trip.now.kind.now exit m) }
{
    match exit {
        Exit::Deliver => visits(alloc, trip, &DELIVERED, m),
        Exit::Out(_) => visits(alloc, trip, &FORWARDED, m),
        Exit::Lost => Ok(None),
    }
}

/// Routes the packet by its destination as it stands, and goes on.
fn routed(alloc: Global, trip: &Trip, m: Passage) -> Result<Option<Passage>, Memory>
    requires { IsSound trip.now.site.now }
    ensures { IfOk result (λ o. o ≡ routed trip.now.config.now trip.now.site.now trip.now.packet.now trip.now.kind.now m) }
{
    let exit = exit_of(trip.site, trip.packet.entry, m.packet.dst);
    go_to(alloc, trip, exit, m)
}

/// The packet as it enters.
fn entering(p: &Packet) -> Passage
    ensures { result ≡ entering p.now }
{
    Passage {
        packet: *p,
        mark: 0,
        wrote: Rewrite::nothing(),
    }
}

/// The packet behind its whole way.
fn way_of(alloc: Global, trip: &Trip) -> Result<Option<Passage>, Memory>
    requires { IsSound trip.now.site.now }
    ensures { IfOk result (λ o. o ≡ way_of trip.now.config.now trip.now.site.now trip.now.packet.now trip.now.kind.now) }
{
    let m = entering(trip.packet);
    if trip.packet.entry == 0 {
        return visits(alloc, trip, &SENT_OUT, m);
    }
    match visits(alloc, trip, &ARRIVING, m)? {
        Some(m) => routed(alloc, trip, m),
        None => Ok(None),
    }
}

/// The outcome for a packet of the class.
fn outcome_of(kind: &Kind, end: Option<Passage>) -> Outcome
    ensures { result ≡ outcome_of kind.now end }
{
    match end {
        None => Outcome::Drop,
        Some(m) => match kind {
            Kind::New => Outcome::Accept(m.wrote),
            Kind::Est(_) => Outcome::Accept(Rewrite::nothing()),
        },
    }
}

/// What becomes of a packet of a class. An established packet is accepted without a rewriting: it
/// leaves with the ends of its connection.
pub fn walk_packet(
    alloc: Global,
    c: &IptConfig,
    site: &Site,
    p: &Packet,
    k: &Kind,
) -> Result<Outcome, Memory>
    requires { IsSound site.now }
    ensures { IfOk result (λ o. o ≡ walk c.now site.now p.now k.now) }
{
    let trip = Trip {
        config: c,
        site,
        packet: p,
        kind: k,
    };
    Ok(outcome_of(k, way_of(alloc, &trip)?))
}
