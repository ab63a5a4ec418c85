//! What instances of address translation make of a packet (ipfw(8)).

ghost use Rattle.std.specs.Prelude.{◌≡◌, true, nat_eq, None, Some, MatchOption};
ghost use Rattle.std.specs.List.{find};
ghost use Rattle.std.specs.Option.{option_map_or};
ghost use Rattle.fws_ipfw.specs.Walk.{comes_from_addr, comes_from_port, goes_to_addr, goes_to_port, is_end, is_of_proto, redirect_in, redirect_out, tracked_on, nat_numbered, translated, translated_by, translated_in, translated_out};

use crate::config::{IpfwNat, Redirect};
use crate::pass::Pass;
use fws_net::{End, Kind, Packet, Transit};

/// Whether the end is this address, and this port where it has one.
fn is_end(end: &End, addr: u32, port: u16) -> bool
    ensures { result ≡ is_end end.now addr port }
{
    end.addr == addr && is_port(end.port, port)
}

/// Whether the port is this one, where there is one.
fn is_port(wanted: Option<u16>, port: u16) -> bool
    ensures { result ≡ option_map_or (nat_eq port) wanted true }
{
    match wanted {
        Some(wanted) => port == wanted,
        None => true,
    }
}

/// Whether ports are redirected for this protocol.
fn is_of_proto(redirect: &Redirect, proto: u8) -> bool
    ensures { result ≡ is_of_proto redirect.now proto }
{
    match redirect.proto {
        Some(own) => proto == own,
        None => false,
    }
}

/// Whether the packet goes to the outer end of a redirect of ports.
fn goes_to_port(p: &Packet, redirect: &Redirect) -> bool
    ensures { result ≡ goes_to_port p.now redirect.now }
{
    is_of_proto(redirect, p.proto) && is_end(&redirect.public, p.dst, p.dport)
}

/// Whether the packet goes to the outer address of a redirect of addresses.
fn goes_to_addr(p: &Packet, redirect: &Redirect) -> bool
    ensures { result ≡ goes_to_addr p.now redirect.now }
{
    redirect.proto.is_none() && is_end(&redirect.public, p.dst, p.dport)
}

/// Whether the packet comes from the inner end of a redirect of ports.
fn comes_from_port(p: &Packet, redirect: &Redirect) -> bool
    ensures { result ≡ comes_from_port p.now redirect.now }
{
    is_of_proto(redirect, p.proto) && is_end(&redirect.local, p.src, p.sport)
}

/// Whether the packet comes from the inner address of a redirect of addresses.
fn comes_from_addr(p: &Packet, redirect: &Redirect) -> bool
    ensures { result ≡ comes_from_addr p.now redirect.now }
{
    redirect.proto.is_none() && is_end(&redirect.local, p.src, p.sport)
}

/// The first redirect of ports to whose outer end the packet goes.
fn port_in(redirects: &[Redirect], p: &Packet) -> Option<Redirect>
    ensures { result ≡ find (goes_to_port p.now) redirects.now }
{
    redirects
        .iter()
        .copied()
        .find(|redirect| goes_to_port(p, redirect))
}

/// The first redirect of addresses to whose outer address the packet goes.
fn addr_in(redirects: &[Redirect], p: &Packet) -> Option<Redirect>
    ensures { result ≡ find (goes_to_addr p.now) redirects.now }
{
    redirects
        .iter()
        .copied()
        .find(|redirect| goes_to_addr(p, redirect))
}

/// The first redirect of ports from whose inner end the packet comes.
fn port_out(redirects: &[Redirect], p: &Packet) -> Option<Redirect>
    ensures { result ≡ find (comes_from_port p.now) redirects.now }
{
    redirects
        .iter()
        .copied()
        .find(|redirect| comes_from_port(p, redirect))
}

/// The first redirect of addresses from whose inner address the packet comes.
fn addr_out(redirects: &[Redirect], p: &Packet) -> Option<Redirect>
    ensures { result ≡ find (comes_from_addr p.now) redirects.now }
{
    redirects
        .iter()
        .copied()
        .find(|redirect| comes_from_addr(p, redirect))
}

/// The redirect of a packet that comes in.
fn redirect_in(redirects: &[Redirect], p: &Packet) -> Option<Redirect>
    ensures { result ≡ redirect_in redirects.now p.now }
{
    match port_in(redirects, p) {
        Some(redirect) => Some(redirect),
        None => addr_in(redirects, p),
    }
}

/// The redirect of a packet that goes out.
fn redirect_out(redirects: &[Redirect], p: &Packet) -> Option<Redirect>
    ensures { result ≡ redirect_out redirects.now p.now }
{
    match port_out(redirects, p) {
        Some(redirect) => Some(redirect),
        None => addr_out(redirects, p),
    }
}

/// A new packet that entered as `p` and comes in, behind the instance.
fn translated_in(nat: &IpfwNat, p: &Packet, t: Transit) -> Transit
    ensures { result ≡ translated_in nat.now p.now t }
{
    match redirect_in(nat.redirects.as_slice(), &t.packet) {
        Some(redirect) => t.with_dst(p, redirect.local),
        None => t,
    }
}

/// A new packet that entered as `p` and goes out, behind the instance.
fn translated_out(nat: &IpfwNat, p: &Packet, t: Transit) -> Transit
    ensures { result ≡ translated_out nat.now p.now t }
{
    let end = match redirect_out(nat.redirects.as_slice(), &t.packet) {
        Some(redirect) => redirect.public,
        None => End::host(nat.alias, None),
    };
    t.with_src(p, end)
}

/// An established packet gets the end with which it leaves; a new one stays.
pub(crate) fn tracked_on(k: &Kind, outward: bool, t: Transit) -> Transit
    ensures { result ≡ tracked_on k.now outward t }
{
    if outward {
        t.with_tracked_src(k)
    } else {
        t.with_tracked_dst(k)
    }
}

/// The instance with this number.
fn nat_numbered(number: u32, nats: &[IpfwNat]) -> Option<&IpfwNat>
    ensures { MatchOption result (nat_numbered number nats.now ≡ None) (λ nat. nat_numbered number nats.now ≡ Some nat.now) }
{
    for nat in nats {
        if nat.number == number {
            return Some(nat);
        }
    }
    None
}

/// A packet that entered as `p`, behind an instance.
fn translated_by(p: &Packet, k: &Kind, outward: bool, nat: &IpfwNat, t: Transit) -> Transit
    ensures { result ≡ translated_by p.now k.now outward nat.now t }
{
    match k {
        Kind::New => {
            if outward {
                translated_out(nat, p, t)
            } else {
                translated_in(nat, p, t)
            }
        }
        Kind::Est(_) => tracked_on(k, outward, t),
    }
}

/// A packet that entered as `p`, behind a rule that names the instance with this number.
pub(crate) fn translated(
    nats: &[IpfwNat],
    p: &Packet,
    k: &Kind,
    outward: bool,
    number: u32,
    m: Pass,
) -> Pass
    ensures { result ≡ translated p.now k.now outward (nat_numbered number nats.now) m }
{
    if m.translated {
        return m;
    }
    let transit = match nat_numbered(number, nats) {
        Some(nat) => translated_by(p, k, outward, nat, m.transit),
        None => m.transit,
    };
    Pass {
        transit,
        translated: true,
    }
}
