//! The way of a packet through its passes (ipfw(8)).

ghost use Rattle.std.specs.Prelude.{◌≡◌, IfOk};
ghost use Rattle.fws_net.specs.Routes.{IsSound};
ghost use Rattle.fws_ipfw.specs.Walk.{walk, way_of};

use crate::config::IpfwConfig;
use crate::model::acting::Scene;
use crate::model::rules::pass_walk;
use fws_net::{Exit, Kind, Outcome, Packet, Site, Transit, exit_of, outcome_of};
use fws_num::Memory;
use std::alloc::Global;

/// The packet behind its whole way; none where it is dropped.
fn way_of(
    alloc: Global,
    c: &IpfwConfig,
    site: &Site,
    p: &Packet,
    k: &Kind,
) -> Result<Option<Transit>, Memory>
    requires { IsSound site.now }
    ensures { IfOk result (λ o. o ≡ way_of c.now site.now p.now k.now) }
{
    let inward = Scene {
        config: c,
        site,
        packet: p,
        kind: k,
        outward: false,
    };
    let outward = Scene {
        config: c,
        site,
        packet: p,
        kind: k,
        outward: true,
    };
    let t = Transit::entered(alloc, p);
    if p.entry == 0 {
        return pass_walk(alloc, &outward, t.with_tracked_dst(k));
    }
    let Some(t) = pass_walk(alloc, &inward, t)? else {
        return Ok(None);
    };
    match exit_of(site, p.entry, t.packet.dst) {
        Exit::Deliver => Ok(Some(t)),
        Exit::Out(_) => pass_walk(alloc, &outward, t),
        Exit::Lost => Ok(None),
    }
}

/// What becomes of a packet of a class. An established packet is accepted without a rewriting: it
/// leaves with the ends of its connection.
pub fn walk_packet(
    alloc: Global,
    c: &IpfwConfig,
    site: &Site,
    p: &Packet,
    k: &Kind,
) -> Result<Outcome, Memory>
    requires { IsSound site.now }
    ensures { IfOk result (λ o. o ≡ walk c.now site.now p.now k.now) }
{
    Ok(outcome_of(k, &way_of(alloc, c, site, p, k)?))
}
