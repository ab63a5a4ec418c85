//! The way of a packet through the parts of flat code.

ghost use Rattle.std.specs.Prelude.{◌≡◌, ◌++◌, nat_eq, IfOk, OnOk};
ghost use Rattle.std.specs.List.{list_any};
ghost use Rattle.fws_net.specs.Routes.{IsSound};
ghost use Rattle.fws_net.specs.Transits.{onwards, used_onwards};
ghost use Rattle.fws_flat.specs.Uses.{part_used, parts_used, used_places, uses};
ghost use Rattle.fws_flat.specs.Walk.{part_walk, parts_walk, way_of, means};

use crate::code::{Flat, Part};
use crate::model::acting::Scene;
use crate::model::parts::part_walk;
use fws_net::{Exit, Kind, Outcome, Packet, Site, Transit, exit_of, outcome_of};
use fws_num::{Items, Memory};
use std::alloc::Global;

/// A packet of a class, and what it goes through.
#[derive(Clone, Copy)]
struct Trip<'a> {
    flat: &'a Flat,
    site: &'a Site,
    packet: &'a Packet,
    kind: &'a Kind,
}

/// The packet behind a part; none where it drops it.
fn part_behind(
    alloc: Global,
    trip: &Trip,
    part: &Part,
    t: Transit,
    log: &mut Vec<u32>,
) -> Result<Option<Transit>, Memory>
    requires { IsSound trip.now.site.now }
    ensures walked { IfOk result (λ o. o ≡ part_walk trip.now.flat.now.code trip.now.site.now trip.now.packet.now trip.now.kind.now part.now t) }
    ensures logged { OnOk result (log.new.items ≡ log.old.items ++ part_used trip.now.flat.now.code trip.now.site.now trip.now.packet.now trip.now.kind.now part.now t) }
{
    let scene = Scene {
        code: trip.flat.code.as_slice(),
        site: trip.site,
        packet: trip.packet,
        kind: trip.kind,
        part: *part,
    };
    let end = part_walk(alloc, &scene, t, log)?;
    Ok(end)
}

/// The packet behind these parts, in their order; none where one drops it.
fn parts_walk(
    alloc: Global,
    trip: &Trip,
    parts: &[Part],
    t: Transit,
    log: &mut Vec<u32>,
) -> Result<Option<Transit>, Memory>
    requires { IsSound trip.now.site.now }
    ensures walked { IfOk result (λ o. o ≡ parts_walk trip.now.flat.now.code trip.now.site.now trip.now.packet.now trip.now.kind.now parts.now t) }
    ensures logged { OnOk result (log.new.items ≡ log.old.items ++ parts_used trip.now.flat.now.code trip.now.site.now trip.now.packet.now trip.now.kind.now parts.now t) }
{
    let mut now = t;
    for part in parts {
        match part_behind(alloc, trip, part, now, log)? {
            Some(t) => now = t,
            None => return Ok(None),
        }
    }
    Ok(Some(now))
}

/// The packet behind what it meets once it is routed to this exit.
fn go_to(
    alloc: Global,
    trip: &Trip,
    exit: Exit,
    t: Transit,
    log: &mut Vec<u32>,
) -> Result<Option<Transit>, Memory>
    requires { IsSound trip.now.site.now }
    ensures walked { let f = trip.now.flat.now in IfOk result (λ o. o ≡ onwards (parts_walk f.code trip.now.site.now trip.now.packet.now trip.now.kind.now f.deliver) (parts_walk f.code trip.now.site.now trip.now.packet.now trip.now.kind.now f.forward) exit t) }
    ensures logged { let f = trip.now.flat.now in OnOk result (log.new.items ≡ log.old.items ++ used_onwards (parts_used f.code trip.now.site.now trip.now.packet.now trip.now.kind.now f.deliver) (parts_used f.code trip.now.site.now trip.now.packet.now trip.now.kind.now f.forward) exit t) }
{
    match exit {
        Exit::Deliver => parts_walk(alloc, trip, trip.flat.deliver.as_slice(), t, log),
        Exit::Out(_) => parts_walk(alloc, trip, trip.flat.forward.as_slice(), t, log),
        Exit::Lost => Ok(None),
    }
}

/// The packet behind its whole way.
fn way_of(alloc: Global, trip: &Trip, log: &mut Vec<u32>) -> Result<Option<Transit>, Memory>
    requires { IsSound trip.now.site.now }
    ensures walked { IfOk result (λ o. o ≡ way_of trip.now.flat.now trip.now.site.now trip.now.packet.now trip.now.kind.now) }
    ensures logged { OnOk result (log.new.items ≡ log.old.items ++ used_places trip.now.flat.now trip.now.site.now trip.now.packet.now trip.now.kind.now) }
{
    let entered = Transit::entered(alloc, trip.packet);
    if trip.packet.entry == 0 {
        return parts_walk(alloc, trip, trip.flat.send.as_slice(), entered, log);
    }
    match parts_walk(alloc, trip, trip.flat.arrive.as_slice(), entered, log)? {
        Some(t) => {
            let exit = exit_of(trip.site, trip.packet.entry, t.packet.dst);
            go_to(alloc, trip, exit, t, log)
        }
        None => Ok(None),
    }
}

/// What becomes of a packet of a class.
pub fn walk_packet(
    alloc: Global,
    f: &Flat,
    site: &Site,
    p: &Packet,
    k: &Kind,
) -> Result<Outcome, Memory>
    requires { IsSound site.now }
    ensures { IfOk result (λ o. o ≡ means f.now site.now p.now k.now) }
{
    let trip = Trip {
        flat: f,
        site,
        packet: p,
        kind: k,
    };
    let mut log = Vec::new(alloc);
    let end = way_of(alloc, &trip, &mut log)?;
    Ok(outcome_of(k, &end))
}

/// The places of the instructions that the walk of a packet of a class uses, in the order in which it comes to
/// them.
pub fn used_places(
    alloc: Global,
    f: &Flat,
    site: &Site,
    p: &Packet,
    k: &Kind,
) -> Result<Items<u32>, Memory>
    requires { IsSound site.now }
    ensures { IfOk result (λ places. places ≡ used_places f.now site.now p.now k.now) }
{
    let trip = Trip {
        flat: f,
        site,
        packet: p,
        kind: k,
    };
    let mut log = Vec::new(alloc);
    way_of(alloc, &trip, &mut log)?;
    Ok(Items::from_vec(log))
}

/// Whether the place is among these.
fn has_place(places: &[u32], n: u32) -> bool
    ensures { result ≡ list_any (nat_eq n) places.now }
{
    places.iter().any(|place| n == *place)
}

/// Whether the walk of a packet of a class comes to instruction `n` and its condition holds
/// there.
pub fn uses(
    alloc: Global,
    f: &Flat,
    site: &Site,
    p: &Packet,
    k: &Kind,
    n: u32,
) -> Result<bool, Memory>
    requires { IsSound site.now }
    ensures { IfOk result (λ b. b ≡ uses f.now site.now p.now k.now n) }
{
    let places = used_places(alloc, f, site, p, k)?;
    Ok(has_place(places.as_slice(), n))
}
