//! The way of a packet through the stages of a diagram.

ghost use Rattle.std.specs.Prelude.{◌≡◌, ◌++◌, IfOk, OnOk};
ghost use Rattle.std.specs.List.{list_any};
ghost use Rattle.fws_net.specs.Routes.{IsSound};
ghost use Rattle.fws_net.specs.Transits.{onwards, used_onwards};
ghost use Rattle.fws_ifcl.specs.Uses.{stage_used, stages_used, used_places, is_place, uses};
ghost use Rattle.fws_ifcl.specs.Walk.{stage_walk, stages_walk, way_of, means};

use crate::diagram::{Ifcl, Place, Stage};
use crate::model::acting::Scene;
use crate::model::chains::stage_walk;
use fws_net::{Exit, Kind, Outcome, Packet, Site, Transit, exit_of, outcome_of};
use fws_num::{Items, Memory};
use std::alloc::Global;

/// A packet of a class, and what it goes through.
#[derive(Clone, Copy)]
struct Trip<'a> {
    diagram: &'a Ifcl,
    site: &'a Site,
    packet: &'a Packet,
    kind: &'a Kind,
}

/// The packet behind a stage; none where it drops it.
fn stage_behind(
    alloc: Global,
    trip: &Trip,
    stage: &Stage,
    t: Transit,
    log: &mut Vec<Place>,
) -> Result<Option<Transit>, Memory>
    requires { IsSound trip.now.site.now }
    ensures walked { IfOk result (λ o. o ≡ stage_walk trip.now.diagram.now.chains trip.now.site.now trip.now.packet.now trip.now.kind.now stage.now t) }
    ensures logged { OnOk result (log.new.items ≡ log.old.items ++ stage_used trip.now.diagram.now.chains trip.now.site.now trip.now.packet.now trip.now.kind.now stage.now t) }
{
    let scene = Scene {
        chains: trip.diagram.chains.as_slice(),
        site: trip.site,
        packet: trip.packet,
        kind: trip.kind,
        stage: *stage,
    };
    let end = stage_walk(alloc, &scene, t, log)?;
    Ok(end)
}

/// The packet behind these stages, in their order; none where one drops it.
fn stages_walk(
    alloc: Global,
    trip: &Trip,
    stages: &[Stage],
    t: Transit,
    log: &mut Vec<Place>,
) -> Result<Option<Transit>, Memory>
    requires { IsSound trip.now.site.now }
    ensures walked { IfOk result (λ o. o ≡ stages_walk trip.now.diagram.now.chains trip.now.site.now trip.now.packet.now trip.now.kind.now stages.now t) }
    ensures logged { OnOk result (log.new.items ≡ log.old.items ++ stages_used trip.now.diagram.now.chains trip.now.site.now trip.now.packet.now trip.now.kind.now stages.now t) }
{
    let mut now = t;
    for stage in stages {
        match stage_behind(alloc, trip, stage, now, log)? {
            Some(t) => now = t,
            None => return Ok(None),
        }
    }
    Ok(Some(now))
}

/// The packet behind what it meets once it is routed to this exit.
fn go_to(
    alloc: Global,
    trip: &Trip,
    exit: Exit,
    t: Transit,
    log: &mut Vec<Place>,
) -> Result<Option<Transit>, Memory>
    requires { IsSound trip.now.site.now }
    ensures walked { let f = trip.now.diagram.now in IfOk result (λ o. o ≡ onwards (stages_walk f.chains trip.now.site.now trip.now.packet.now trip.now.kind.now f.deliver) (stages_walk f.chains trip.now.site.now trip.now.packet.now trip.now.kind.now f.forward) exit t) }
    ensures logged { let f = trip.now.diagram.now in OnOk result (log.new.items ≡ log.old.items ++ used_onwards (stages_used f.chains trip.now.site.now trip.now.packet.now trip.now.kind.now f.deliver) (stages_used f.chains trip.now.site.now trip.now.packet.now trip.now.kind.now f.forward) exit t) }
{
    match exit {
        Exit::Deliver => stages_walk(alloc, trip, trip.diagram.deliver.as_slice(), t, log),
        Exit::Out(_) => stages_walk(alloc, trip, trip.diagram.forward.as_slice(), t, log),
        Exit::Lost => Ok(None),
    }
}

/// The packet behind its whole way.
fn way_of(alloc: Global, trip: &Trip, log: &mut Vec<Place>) -> Result<Option<Transit>, Memory>
    requires { IsSound trip.now.site.now }
    ensures walked { IfOk result (λ o. o ≡ way_of trip.now.diagram.now trip.now.site.now trip.now.packet.now trip.now.kind.now) }
    ensures logged { OnOk result (log.new.items ≡ log.old.items ++ used_places trip.now.diagram.now trip.now.site.now trip.now.packet.now trip.now.kind.now) }
{
    let entered = Transit::entered(alloc, trip.packet);
    if trip.packet.entry == 0 {
        return stages_walk(alloc, trip, trip.diagram.send.as_slice(), entered, log);
    }
    match stages_walk(alloc, trip, trip.diagram.arrive.as_slice(), entered, log)? {
        Some(t) => {
            let exit = exit_of(trip.site, trip.packet.entry, t.packet.dst);
            go_to(alloc, trip, exit, t, log)
        }
        None => Ok(None),
    }
}

/// What becomes of a packet of a class.
pub fn walk_packet(
    alloc: Global,
    f: &Ifcl,
    site: &Site,
    p: &Packet,
    k: &Kind,
) -> Result<Outcome, Memory>
    requires { IsSound site.now }
    ensures { IfOk result (λ o. o ≡ means f.now site.now p.now k.now) }
{
    let trip = Trip {
        diagram: f,
        site,
        packet: p,
        kind: k,
    };
    let mut log = Vec::new(alloc);
    let end = way_of(alloc, &trip, &mut log)?;
    Ok(outcome_of(k, &end))
}

/// The places of the rules that the walk of a packet of a class uses, in the order in which it comes to
/// them.
pub fn used_places(
    alloc: Global,
    f: &Ifcl,
    site: &Site,
    p: &Packet,
    k: &Kind,
) -> Result<Items<Place>, Memory>
    requires { IsSound site.now }
    ensures { IfOk result (λ places. places ≡ used_places f.now site.now p.now k.now) }
{
    let trip = Trip {
        diagram: f,
        site,
        packet: p,
        kind: k,
    };
    let mut log = Vec::new(alloc);
    way_of(alloc, &trip, &mut log)?;
    Ok(Items::from_vec(log))
}

/// Whether two places are the same.
fn is_place(a: Place, b: Place) -> bool
    ensures { result ≡ is_place a b }
{
    a.chain == b.chain && a.rule == b.rule
}

/// Whether the place is among these.
fn has_place(places: &[Place], at: Place) -> bool
    ensures { result ≡ list_any (is_place at) places.now }
{
    places.iter().any(|place| is_place(at, *place))
}

/// Whether the walk of a packet of a class comes to the rule at the place and its condition holds there.
pub fn uses(
    alloc: Global,
    f: &Ifcl,
    site: &Site,
    p: &Packet,
    k: &Kind,
    at: Place,
) -> Result<bool, Memory>
    requires { IsSound site.now }
    ensures { IfOk result (λ b. b ≡ uses f.now site.now p.now k.now at) }
{
    let places = used_places(alloc, f, site, p, k)?;
    Ok(has_place(places.as_slice(), at))
}
