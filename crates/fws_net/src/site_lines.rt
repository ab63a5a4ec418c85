//! What is checked of a line of a site file against the lines before it.

ghost use Rattle.std.specs.Prelude.{◌≡◌, ◌+◌, ◌<◌, ◌≤◌, ◌&&◌, nat_le, length, IfOk, OnOk, IfSome};
ghost use Rattle.std.specs.List.{list_any, list_all};
ghost use Rattle.std.specs.Str.{bytes_eq};
ghost use Rattle.fws_net.specs.Reading.{CauseGiven};
ghost use Rattle.fws_net.specs.Routes.{has_addr};
ghost use Rattle.fws_net.specs.SiteLines.{share_name, names_taken, name_taken, entry_from, entry_of, nets_meet, meets_loopback, meets_earlier, is_same_net, is_net_of_address, is_net_of_route, most_faces, face_overlaps, face_admitted, address_overlaps, address_count, address_admitted, route_overlaps, route_admitted, are_addressed, has_addresses, loopback_admitted};

use crate::answer::LineFault;
use crate::cause::{SiteCause, SiteFault};
use crate::draft::Form;
use crate::routes::{FIRST_ENTRY, agree, has_addr};
use crate::site::{Address, Iface, Names, RouteLine, Site};
use fws_num::Prefix;

/// The most interfaces of a site of the first form.
const MOST_FACES_FIRST: usize = 14;

/// The most interfaces of a site.
const MOST_FACES: usize = 62;

/// The most addresses of a site.
const MOST_ADDRESSES: usize = 1024;

/// The most routes of a site.
const MOST_ROUTES: usize = 4096;

/// The network 127.0.0.0/8.
const LOOPBACK: Address = Address {
    addr: 127 << 24,
    len: 8,
};

/// Whether one of the four names is that of the other in the same system.
fn share_name(a: &Names, b: &Names) -> bool
    ensures { result ≡ share_name a.now b.now }
{
    a.ipt.as_slice() == b.ipt.as_slice()
        || a.ipfw.as_slice() == b.ipfw.as_slice()
        || a.pf.as_slice() == b.pf.as_slice()
        || a.ios.as_slice() == b.ios.as_slice()
}

/// Whether one of the four names is taken by an earlier interface.
fn names_taken(seen: &[Iface], names: &Names) -> bool
    ensures { result ≡ names_taken seen.now names.now }
{
    seen.iter().any(|other| share_name(&other.names, names))
}

/// Whether it is the name of an earlier interface.
fn is_earlier_name(seen: &[Iface], name: &[u8]) -> bool
    ensures { result ≡ list_any (λ other. bytes_eq other.name name.now) seen.now }
{
    seen.iter().any(|other| other.name.as_slice() == name)
}

/// Whether the name in the site is that of the host, of loopback or of an earlier interface.
fn name_taken(seen: &[Iface], name: &[u8]) -> bool
    ensures { result ≡ name_taken seen.now name.now }
{
    name == b"host".as_slice() || name == b"lo".as_slice() || is_earlier_name(seen, name)
}

/// The entry number of the interface with this name.
fn find_entry(faces: &[Iface], name: &[u8]) -> Option<u8>
    requires { length faces.now ≤ 62 }
    ensures value { result ≡ entry_from 2 faces.now name.now }
    ensures in_range { IfSome result (λ entry. (2 ≤ entry) × (entry ≤ length faces.now + 1)) }
{
    let mut entry = FIRST_ENTRY;
    for face in faces {
        if face.name.as_slice() == name {
            return Some(entry);
        }
        entry += 1;
    }
    None
}

/// The entry number of the interface that a line names.
pub(crate) fn entry_of(faces: &[Iface], name: &[u8]) -> Result<u8, SiteFault>
    requires { length faces.now ≤ 62 }
    ensures given { CauseGiven result (entry_of faces.now name.now) }
    ensures in_range { IfOk result (λ entry. (2 ≤ entry) × (entry ≤ length faces.now + 1)) }
{
    match find_entry(faces, name) {
        Some(entry) => Ok(entry),
        None => Err(LineFault::Bad(SiteCause::Names)),
    }
}

/// Whether the networks of two addresses share an address.
fn nets_meet(own: Address, other: Address) -> bool
    ensures { result ≡ nets_meet own other }
{
    agree(own.len.min(other.len), own.addr, other.addr)
}

/// Whether the network of the address meets 127.0.0.0/8.
fn meets_loopback(own: Address) -> bool
    ensures { result ≡ meets_loopback own }
{
    nets_meet(LOOPBACK, own)
}

/// Whether the network of the address meets one of the interface.
fn meets_face(face: &Iface, own: Address) -> bool
    ensures { result ≡ list_any (λ other. nets_meet other own) face.now.addrs }
{
    face.addrs
        .as_slice()
        .iter()
        .any(|other| nets_meet(*other, own))
}

/// Whether the network of the address meets one of an earlier interface.
fn meets_earlier(seen: &[Iface], own: Address) -> bool
    ensures { result ≡ meets_earlier seen.now own }
{
    seen.iter().any(|face| meets_face(face, own))
}

/// Whether two networks, each given by an address and its length, are the same.
fn is_same_net(a: u32, n: u8, b: u32, m: u8) -> bool
    ensures { result ≡ is_same_net a n b m }
{
    n == m && agree(n, a, b)
}

/// Whether the network is that of an address of the interface.
fn is_net_of_face(face: &Iface, addr: u32, len: u8) -> bool
    ensures { result ≡ list_any (λ own. is_same_net own.addr own.len addr len) face.now.addrs }
{
    face.addrs
        .as_slice()
        .iter()
        .any(|own| is_same_net(own.addr, own.len, addr, len))
}

/// Whether the network is that of an earlier address.
fn is_net_of_address(seen: &[Iface], addr: u32, len: u8) -> bool
    ensures { result ≡ is_net_of_address seen.now addr len }
{
    seen.iter().any(|face| is_net_of_face(face, addr, len))
}

/// Whether the network is that of an earlier route.
fn is_net_of_route(seen: &[RouteLine], addr: u32, len: u8) -> bool
    ensures { result ≡ is_net_of_route seen.now addr len }
{
    seen.iter()
        .any(|line| is_same_net(line.net.addr, line.net.len, addr, len))
}

/// Whether the network of an address on the line meets that of an earlier interface, or 127.0.0.0/8.
fn face_overlaps(seen: &[Iface], face: &Iface) -> bool
    ensures { result ≡ face_overlaps seen.now face.now }
{
    face.addrs
        .as_slice()
        .iter()
        .any(|own| meets_earlier(seen, *own) || meets_loopback(*own))
}

/// The most interfaces of a site of this form.
fn most_faces(form: Form) -> usize
    ensures value { result ≡ most_faces form }
    ensures small { result ≤ 62 }
{
    match form {
        Form::First => MOST_FACES_FIRST,
        Form::Second => MOST_FACES,
    }
}

/// A well spelled interface after the earlier ones.
pub(crate) fn admit_face(form: Form, seen: &[Iface], face: Iface) -> Result<Iface, SiteFault>
    ensures given { CauseGiven result (face_admitted form seen.now face) }
    ensures few { OnOk result (length seen.now < 62) }
{
    if face_overlaps(seen, &face) {
        return Err(LineFault::Bad(SiteCause::Overlap));
    }
    if name_taken(seen, face.name.as_slice()) || names_taken(seen, &face.names) {
        return Err(LineFault::Bad(SiteCause::Names));
    }
    if seen.len() >= most_faces(form) {
        return Err(LineFault::Bad(SiteCause::Count));
    }
    Ok(face)
}

/// Whether an interface has the address.
fn is_address(seen: &[Iface], addr: u32) -> bool
    ensures { result ≡ list_any (λ face. has_addr face addr) seen.now }
{
    seen.iter().any(|face| has_addr(face, addr))
}

/// Whether the address is an earlier one, or its network is that of an earlier one or meets
/// 127.0.0.0/8.
fn address_overlaps(seen: &[Iface], own: Address) -> bool
    ensures { result ≡ address_overlaps seen.now own }
{
    is_address(seen, own.addr) || is_net_of_address(seen, own.addr, own.len) || meets_loopback(own)
}

/// Whether there are as many addresses as a site may have.
fn is_full(seen: &[Iface]) -> bool
    ensures { result ≡ nat_le 1024 (address_count seen.now) }
{
    let mut room = MOST_ADDRESSES;
    for face in seen {
        let count = face.addrs.as_slice().len();
        if count >= room {
            return true;
        }
        room -= count;
    }
    false
}

/// The entry number of the interface to which a well spelled address belongs.
pub(crate) fn admit_address(seen: &[Iface], name: &[u8], own: Address) -> Result<u8, SiteFault>
    requires { length seen.now ≤ 62 }
    ensures given { CauseGiven result (address_admitted seen.now name.now own) }
    ensures in_range { IfOk result (λ entry. (2 ≤ entry) × (entry ≤ length seen.now + 1)) }
{
    if address_overlaps(seen, own) {
        return Err(LineFault::Bad(SiteCause::Overlap));
    }
    let entry = entry_of(seen, name)?;
    if is_full(seen) {
        return Err(LineFault::Bad(SiteCause::Count));
    }
    Ok(entry)
}

/// Whether the network is that of an earlier address or route.
fn route_overlaps(site: &Site, net: Prefix) -> bool
    ensures { result ≡ route_overlaps site.now net }
{
    is_net_of_address(site.faces.as_slice(), net.addr, net.len)
        || is_net_of_route(site.routes.as_slice(), net.addr, net.len)
}

/// The entry number of the interface to which a well spelled route leads.
pub(crate) fn admit_route(site: &Site, net: Prefix, name: &[u8]) -> Result<u8, SiteFault>
    requires { length site.now.faces ≤ 62 }
    ensures { CauseGiven result (route_admitted site.now net name.now) }
{
    if route_overlaps(site, net) {
        return Err(LineFault::Bad(SiteCause::Overlap));
    }
    let entry = entry_of(site.faces.as_slice(), name)?;
    if site.routes.as_slice().len() >= MOST_ROUTES {
        return Err(LineFault::Bad(SiteCause::Count));
    }
    Ok(entry)
}

/// Whether there is an interface, and each has an address.
pub(crate) fn are_addressed(faces: &[Iface]) -> bool
    ensures { result ≡ are_addressed faces.now }
{
    faces.len() >= 1 && all_have_addresses(faces)
}

fn all_have_addresses(faces: &[Iface]) -> bool
    ensures { result ≡ list_all has_addresses faces.now }
{
    faces.iter().all(|face| face.addrs.as_slice().len() >= 1)
}

/// The names of loopback, if no interface has one of them.
pub(crate) fn admit_loopback(seen: &[Iface], names: Names) -> Result<Names, SiteFault>
    ensures { CauseGiven result (loopback_admitted seen.now names) }
{
    if names_taken(seen, &names) {
        Err(LineFault::Bad(SiteCause::Names))
    } else {
        Ok(names)
    }
}
