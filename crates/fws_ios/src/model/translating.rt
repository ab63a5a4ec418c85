//! What address translation makes of a new packet (Cisco IOS).

ghost use Rattle.std.specs.Prelude.{◌≡◌, true, ◌&&◌, nat_eq, IfOk};
ghost use Rattle.std.specs.Option.{option_map_or};
ghost use Rattle.fws_net.specs.Fates.{has_ports};
ghost use Rattle.fws_net.specs.Routes.{IsSound};
ghost use Rattle.fws_ios.specs.Walk.{first_end, inner_end, is_end, is_of_proto, listed_end, outer_end, source_end, translated_in, translated_out};

use crate::config::IosNat;
use crate::model::listing::{Scene, says};
use fws_net::{End, Packet, Transit};
use fws_num::Memory;
use std::alloc::Global;

const TCP: u8 = 6;

const UDP: u8 = 17;

/// Whether the packet is of this protocol, if there is one.
fn is_of_proto(wanted: Option<u8>, proto: u8) -> bool
    ensures { result ≡ is_of_proto wanted proto }
{
    match wanted {
        Some(wanted) => proto == wanted,
        None => true,
    }
}

/// Whether packets of the protocol have ports.
fn has_ports(proto: u8) -> bool
    ensures { result ≡ has_ports proto }
{
    proto == TCP || proto == UDP
}

/// Whether the packet has ports and this is one, if there is one.
fn is_port(wanted: Option<u16>, proto: u8, port: u16) -> bool
    ensures { result ≡ option_map_or (λ n. has_ports proto && nat_eq n port) wanted true }
{
    match wanted {
        Some(wanted) => has_ports(proto) && wanted == port,
        None => true,
    }
}

/// Whether the end is this address, and where it has a port, this port of a packet that has ports.
fn is_end(end: &End, proto: u8, addr: u32, port: u16) -> bool
    ensures { result ≡ is_end end.now proto addr port }
{
    end.addr == addr && is_port(end.port, proto, port)
}

/// The inner end of a static to whose outer end the packet goes.
fn inner_end(p: &Packet, nat: &IosNat) -> Option<End>
    ensures { result ≡ inner_end p.now nat.now }
{
    match nat {
        IosNat::Static {
            proto,
            local,
            global,
        } => {
            if is_of_proto(*proto, p.proto) && is_end(global, p.proto, p.dst, p.dport) {
                Some(*local)
            } else {
                None
            }
        }
        IosNat::List { .. } => None,
    }
}

/// The outer end of a static from whose inner end the packet comes.
fn outer_end(p: &Packet, nat: &IosNat) -> Option<End>
    ensures { result ≡ outer_end p.now nat.now }
{
    match nat {
        IosNat::Static {
            proto,
            local,
            global,
        } => {
            if is_of_proto(*proto, p.proto) && is_end(local, p.proto, p.src, p.sport) {
                Some(*global)
            } else {
                None
            }
        }
        IosNat::List { .. } => None,
    }
}

/// The address for a list that permits the packet; one that isn't defined permits none.
fn listed_end(
    alloc: Global,
    scene: &Scene,
    nat: &IosNat,
    t: &Transit,
) -> Result<Option<End>, Memory>
    requires { IsSound scene.now.site.now }
    ensures { IfOk result (λ e. e ≡ listed_end scene.now.config.now scene.now.site.now scene.now.kind.now t.now nat.now) }
{
    match nat {
        IosNat::Static { .. } => Ok(None),
        IosNat::List { list, addr } => {
            if says(alloc, scene, true, false, list.as_slice(), t)? {
                Ok(Some(End::host(*addr, None)))
            } else {
                Ok(None)
            }
        }
    }
}

/// The first inner end that is given.
fn first_inner_end(p: &Packet, nats: &[IosNat]) -> Option<End>
    ensures { result ≡ first_end (inner_end p.now) nats.now }
{
    for nat in nats {
        if let Some(end) = inner_end(p, nat) {
            return Some(end);
        }
    }
    None
}

/// The first outer end that is given.
fn first_outer_end(p: &Packet, nats: &[IosNat]) -> Option<End>
    ensures { result ≡ first_end (outer_end p.now) nats.now }
{
    for nat in nats {
        if let Some(end) = outer_end(p, nat) {
            return Some(end);
        }
    }
    None
}

/// The first address that is given for a list.
fn first_listed_end(
    alloc: Global,
    scene: &Scene,
    nats: &[IosNat],
    t: &Transit,
) -> Result<Option<End>, Memory>
    requires { IsSound scene.now.site.now }
    ensures { IfOk result (λ e. e ≡ first_end (listed_end scene.now.config.now scene.now.site.now scene.now.kind.now t.now) nats.now) }
{
    for nat in nats {
        if let Some(end) = listed_end(alloc, scene, nat, t)? {
            return Ok(Some(end));
        }
    }
    Ok(None)
}

/// The source of a packet by its first static, else by its first list.
fn source_end(alloc: Global, scene: &Scene, t: &Transit) -> Result<Option<End>, Memory>
    requires { IsSound scene.now.site.now }
    ensures { IfOk result (λ e. e ≡ source_end scene.now.config.now scene.now.site.now scene.now.kind.now t.now) }
{
    let nats = scene.config.nats.as_slice();
    match first_outer_end(&t.packet, nats) {
        Some(end) => Ok(Some(end)),
        None => first_listed_end(alloc, scene, nats, t),
    }
}

/// A new packet with the inner end of its first static.
pub(crate) fn translated_in(scene: &Scene, t: Transit) -> Transit
    ensures { result ≡ translated_in scene.now.packet.now scene.now.config.now t }
{
    match first_inner_end(&t.packet, scene.config.nats.as_slice()) {
        Some(end) => t.with_dst(scene.packet, end),
        None => t,
    }
}

/// A new packet with the outer end of its first static, else with the address for its first list.
pub(crate) fn translated_out(alloc: Global, scene: &Scene, t: Transit) -> Result<Transit, Memory>
    requires { IsSound scene.now.site.now }
    ensures { IfOk result (λ u. u ≡ translated_out scene.now.packet.now scene.now.config.now scene.now.site.now scene.now.kind.now t) }
{
    match source_end(alloc, scene, &t)? {
        Some(end) => Ok(t.with_src(scene.packet, end)),
        None => Ok(t),
    }
}
