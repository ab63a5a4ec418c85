//! Local addresses, routes and exits.

ghost use Rattle.std.specs.Prelude.{◌≡◌, ◌≤◌, length, map, [], ◌∷◌, Some};
ghost use Rattle.std.specs.List.{list_any};
ghost use Rattle.fws_iv.specs.Prefixes.{agree};
ghost use Rattle.fws_net.specs.RouteLaws.{LongestPrefixesLead, RoutesAreEntries};
ghost use Rattle.fws_net.specs.Routes.{has_addr, is_loopback, is_local, joined, leads, longer, longest, net_line, nets_from, prefixes_of, route_of, exit_at, IsSound};

use crate::exit::Exit;
use crate::site::{Address, Iface, RouteLine, Site};
use fws_num::Prefix;

/// The entry number of the first interface.
pub(crate) const FIRST_ENTRY: u8 = 2;

/// Whether two addresses agree in their first `n` bits, of which 32 is all.
pub(crate) fn agree(n: u8, a: u32, b: u32) -> bool
    ensures { result ≡ agree n a b }
{
    let low = 32u8.saturating_sub(n);
    // 64 bits, since nothing of 32 bits may be shifted by 32
    u64::from(a) >> low == u64::from(b) >> low
}

/// Whether it is an address of 127.0.0.0/8.
fn is_loopback(a: u32) -> bool
    ensures { result ≡ is_loopback a }
{
    a >> 24 == 127
}

/// Whether the interface has the address.
pub(crate) fn has_addr(face: &Iface, a: u32) -> bool
    ensures { result ≡ has_addr face.now a }
{
    face.addrs.as_slice().iter().any(|own| own.addr == a)
}

/// Whether it is the address of an interface.
fn is_own(faces: &[Iface], a: u32) -> bool
    ensures { result ≡ list_any (λ face. has_addr face a) faces.now }
{
    faces.iter().any(|face| has_addr(face, a))
}

/// Whether it is the address of an interface or one of 127.0.0.0/8.
pub fn is_local(site: &Site, a: u32) -> bool
    ensures { result ≡ is_local site.now a }
{
    is_own(site.faces.as_slice(), a) || is_loopback(a)
}

/// The network of an address of the interface with this entry number.
pub(crate) fn net_line(entry: u8, own: Address) -> RouteLine
    ensures { result ≡ net_line entry own }
{
    RouteLine {
        net: Prefix {
            addr: own.addr,
            len: own.len,
        },
        face: entry,
    }
}

/// Whether the network holds the address.
fn leads(line: RouteLine, a: u32) -> bool
    ensures { result ≡ leads line a }
{
    agree(line.net.len, line.net.addr, a)
}

/// The longer of two networks, the first where they are equally long.
fn longer(line: RouteLine, other: RouteLine) -> RouteLine
    ensures { result ≡ longer line (Some other) }
{
    if other.net.len <= line.net.len {
        line
    } else {
        other
    }
}

/// The best network so far, or this one where it holds the address and is longer than the best.
fn better(best: Option<RouteLine>, line: RouteLine, a: u32) -> Option<RouteLine>
    ensures { result ≡ joined best (longest (line ∷ []) a) }
{
    if !leads(line, a) {
        return best;
    }
    match best {
        Some(other) => Some(longer(other, line)),
        None => Some(line),
    }
}

/// The best network so far, or the longest of these that holds the address where it is longer.
fn best_of_lines(mut best: Option<RouteLine>, lines: &[RouteLine], a: u32) -> Option<RouteLine>
    ensures { result ≡ joined best (longest lines.now a) }
{
    for line in lines {
        best = better(best, *line, a);
    }
    best
}

/// The best network so far, or the longest network of an interface's addresses that holds the
/// address where it is longer.
fn best_of_nets(
    mut best: Option<RouteLine>,
    entry: u8,
    addrs: &[Address],
    a: u32,
) -> Option<RouteLine>
    ensures { result ≡ joined best (longest (map (net_line entry) addrs.now) a) }
{
    for own in addrs {
        best = better(best, net_line(entry, *own), a);
    }
    best
}

/// The longest network of the interfaces' addresses that holds the address.
fn best_of_faces(faces: &[Iface], a: u32) -> Option<RouteLine>
    requires { length faces.now ≤ 62 }
    ensures { result ≡ longest (nets_from 2 faces.now) a }
{
    let mut best = None;
    let mut entry = FIRST_ENTRY;
    for face in faces {
        best = best_of_nets(best, entry, face.addrs.as_slice(), a);
        entry += 1;
    }
    best
}

/// The longest prefix of the site that holds the address.
fn best_prefix(site: &Site, a: u32) -> Option<RouteLine>
    requires { IsSound site.now }
    ensures { result ≡ longest (prefixes_of site.now) a }
{
    let best = best_of_faces(site.faces.as_slice(), a);
    best_of_lines(best, site.routes.as_slice(), a)
}

/// The entry number, 2 to 63, of the interface to which a packet for the address is sent: that of the
/// longest prefix which holds it, else the default interface's.
pub fn route(site: &Site, a: u32) -> u8
    requires { IsSound site.now }
    ensures { result ≡ route_of site.now a }
{
    match best_prefix(site, a) {
        Some(line) => line.face,
        None => site.fallback,
    }
}

/// Where a packet from this entry number leaves, which has this destination when it is routed.
pub fn exit_of(site: &Site, entry: u8, dst: u32) -> Exit
    requires { IsSound site.now }
    ensures { result ≡ exit_at site.now entry dst }
{
    if is_local(site, dst) {
        if entry == 0 {
            Exit::Out(1)
        } else {
            Exit::Deliver
        }
    } else if entry == 0 || site.forwarding {
        Exit::Out(route(site, dst))
    } else {
        Exit::Lost
    }
}

/// Does nothing: the clause is a law of routes. The longest prefix that holds an address leads it, and
/// the default interface one that no prefix holds.
pub fn longest_prefixes_lead()
    ensures { LongestPrefixesLead }
{}

/// Does nothing: the clause is a law of routes. Every address is led to an interface.
pub fn routes_are_entries()
    ensures { RoutesAreEntries }
{}
