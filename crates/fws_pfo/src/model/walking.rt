//! The way of a packet through its passes (pf.conf(5) of OpenBSD).

ghost use Rattle.std.specs.Prelude.{◌≡◌, IfOk};
ghost use Rattle.fws_net.specs.Routes.{IsSound};
ghost use Rattle.fws_pfo.specs.Walk.{pass_of, walk, way_of};

use crate::config::PfoConfig;
use crate::model::acting::Scene;
use crate::model::rules::pass_walk;
use fws_net::{Exit, Kind, Outcome, Packet, Site, Transit, exit_of, outcome_of};
use fws_num::Memory;
use std::alloc::Global;

/// The packet behind a pass; none where it is blocked. An established packet passes, and has the
/// destination with which it leaves behind the in pass.
fn pass_of(alloc: Global, scene: &Scene, k: &Kind, t: Transit) -> Result<Option<Transit>, Memory>
    requires { IsSound scene.now.site.now }
    ensures { IfOk result (λ o. o ≡ pass_of scene.now.config.now scene.now.site.now scene.now.packet.now k.now scene.now.outward t) }
{
    match k {
        Kind::New => pass_walk(alloc, scene, t),
        Kind::Est(_) => {
            if scene.outward {
                Ok(Some(t))
            } else {
                Ok(Some(t.with_tracked_dst(k)))
            }
        }
    }
}

/// The packet behind its whole way; none where it is dropped.
fn way_of(
    alloc: Global,
    c: &PfoConfig,
    site: &Site,
    p: &Packet,
    k: &Kind,
) -> Result<Option<Transit>, Memory>
    requires { IsSound site.now }
    ensures { IfOk result (λ o. o ≡ way_of c.now site.now p.now k.now) }
{
    let inward = Scene {
        config: c,
        site,
        packet: p,
        outward: false,
    };
    let outward = Scene {
        config: c,
        site,
        packet: p,
        outward: true,
    };
    let t = Transit::entered(alloc, p);
    if p.entry == 0 {
        return pass_of(alloc, &outward, k, t);
    }
    let Some(t) = pass_of(alloc, &inward, k, t)? else {
        return Ok(None);
    };
    match exit_of(site, p.entry, t.packet.dst) {
        Exit::Deliver => Ok(Some(t)),
        Exit::Out(_) => pass_of(alloc, &outward, k, t),
        Exit::Lost => Ok(None),
    }
}

/// What becomes of a packet of a class. An established packet is accepted without a rewriting: it
/// leaves with the ends of its connection.
pub fn walk_packet(
    alloc: Global,
    c: &PfoConfig,
    site: &Site,
    p: &Packet,
    k: &Kind,
) -> Result<Outcome, Memory>
    requires { IsSound site.now }
    ensures { IfOk result (λ o. o ≡ walk c.now site.now p.now k.now) }
{
    Ok(outcome_of(k, &way_of(alloc, c, site, p, k)?))
}
