//! The way of a packet (Cisco IOS).

ghost use Rattle.std.specs.Prelude.{◌≡◌, ◌&&◌, IfOk};
ghost use Rattle.fws_net.specs.Conditions.{is_shown};
ghost use Rattle.fws_net.specs.Routes.{IsSound};
ghost use Rattle.fws_net.specs.Showing.{receiving, sending};
ghost use Rattle.fws_ios.specs.Walk.{arrived, forwarded, routed_as, sent_as, walk, way_of};

use crate::config::IosConfig;
use crate::model::listing::Scene;
use crate::model::meeting::met;
use crate::model::translating::{translated_in, translated_out};
use fws_iv::Ivs;
use fws_net::{Exit, Kind, Outcome, Packet, Site, Transit, exit_of, outcome_of, sending_entry};
use fws_num::Memory;
use std::alloc::Global;

/// Whether the interface is shown and is a member.
fn is_shown(entry: Option<u8>, set: &Ivs) -> bool
    ensures { result ≡ is_shown entry set.now }
{
    match entry {
        Some(entry) => set.has(u32::from(entry)),
        None => false,
    }
}

/// The packet as it is routed: a destination is translated that comes in by the outside, and an
/// established packet has that with which it leaves.
fn routed_as(scene: &Scene, t: Transit) -> Transit
    ensures { result ≡ routed_as scene.now.config.now scene.now.site.now scene.now.packet.now scene.now.kind.now t }
{
    match scene.kind {
        Kind::New => {
            if is_shown(t.packet.receiving(), &scene.config.outside) {
                translated_in(scene, t)
            } else {
                t
            }
        }
        Kind::Est(_) => t.with_tracked_dst(scene.kind),
    }
}

/// Whether the packet comes in by the inside and goes out by the outside.
fn goes_outside(scene: &Scene, t: &Transit) -> bool
    requires { IsSound scene.now.site.now }
    ensures { result ≡ (is_shown (receiving t.now.packet) scene.now.config.now.inside && is_shown (sending scene.now.site.now t.now.packet) scene.now.config.now.outside) }
{
    is_shown(t.packet.receiving(), &scene.config.inside)
        && is_shown(sending_entry(scene.site, &t.packet), &scene.config.outside)
}

/// The packet as it is sent: a source is translated that comes in by the inside and goes out by the
/// outside, and an established packet has that with which it leaves.
fn sent_as(alloc: Global, scene: &Scene, t: Transit) -> Result<Transit, Memory>
    requires { IsSound scene.now.site.now }
    ensures { IfOk result (λ u. u ≡ sent_as scene.now.config.now scene.now.site.now scene.now.packet.now scene.now.kind.now t) }
{
    match scene.kind {
        Kind::New => {
            if goes_outside(scene, &t) {
                translated_out(alloc, scene, t)
            } else {
                Ok(t)
            }
        }
        Kind::Est(_) => Ok(t.with_tracked_src(scene.kind)),
    }
}

/// A packet that arrives, as it is routed behind the list of its entry; none where that denies it.
fn arrived(alloc: Global, scene: &Scene, t: Transit) -> Result<Option<Transit>, Memory>
    requires { IsSound scene.now.site.now }
    ensures { IfOk result (λ o. o ≡ arrived scene.now.config.now scene.now.site.now scene.now.packet.now scene.now.kind.now t) }
{
    match met(alloc, scene, false, t)? {
        Some(t) => Ok(Some(routed_as(scene, t))),
        None => Ok(None),
    }
}

/// A packet that is forwarded, behind the list of its exit; none where that denies it.
fn forwarded(alloc: Global, scene: &Scene, t: Transit) -> Result<Option<Transit>, Memory>
    requires { IsSound scene.now.site.now }
    ensures { IfOk result (λ o. o ≡ forwarded scene.now.config.now scene.now.site.now scene.now.packet.now scene.now.kind.now t) }
{
    met(alloc, scene, true, sent_as(alloc, scene, t)?)
}

/// The packet behind its whole way; none where it is dropped. What is delivered meets no list of an exit,
/// and the host's own meets no list at all.
fn way_of(
    alloc: Global,
    c: &IosConfig,
    site: &Site,
    p: &Packet,
    k: &Kind,
) -> Result<Option<Transit>, Memory>
    requires { IsSound site.now }
    ensures { IfOk result (λ o. o ≡ way_of c.now site.now p.now k.now) }
{
    let scene = Scene {
        config: c,
        site,
        packet: p,
        kind: k,
    };
    let t = Transit::entered(alloc, p);
    if p.entry == 0 {
        return Ok(Some(t));
    }
    let Some(t) = arrived(alloc, &scene, t)? else {
        return Ok(None);
    };
    match exit_of(site, p.entry, t.packet.dst) {
        Exit::Deliver => Ok(Some(t)),
        Exit::Out(_) => forwarded(alloc, &scene, t),
        Exit::Lost => Ok(None),
    }
}

/// What becomes of a packet of a class. An established packet is accepted without a rewriting: it
/// leaves with the ends of its connection.
pub fn walk_packet(
    alloc: Global,
    c: &IosConfig,
    site: &Site,
    p: &Packet,
    k: &Kind,
) -> Result<Outcome, Memory>
    requires { IsSound site.now }
    ensures { IfOk result (λ o. o ≡ walk c.now site.now p.now k.now) }
{
    Ok(outcome_of(k, &way_of(alloc, c, site, p, k)?))
}
