//! The interfaces of a site: their addresses and networks, and their names in the four systems.

ghost use Rattle.std.specs.Prelude.{◌≡◌, ◌+◌, ◌≤◌, Some, length, IfOk, IfSome};
ghost use Rattle.std.specs.Option.{option_map};
ghost use Rattle.fws_net.specs.Faces.{entries_beginning, entry_named, face_addr, face_addrs, face_at, first_addr, face_nets, name_in, with_entry};
ghost use Rattle.fws_net.specs.Routes.{IsSound};

use crate::packet::Lang;
use crate::routes::FIRST_ENTRY;
use crate::sets::{agreeing_set, net_set, own_set};
use crate::site::{Iface, Names, Site};
use fws_iv::{Ivs, one};
use fws_num::{Memory, Text};
use std::alloc::Global;

/// The entry number of loopback.
const LOOPBACK_ENTRY: u8 = 1;

/// 127.0.0.1, the address of loopback.
pub const LOOPBACK_ADDR: u32 = (127 << 24) + 1;

/// The length of loopback's network.
const LOOPBACK_LEN: u8 = 8;

/// The interface with this entry number, which the host and loopback don't have.
fn face_at(site: &Site, entry: u8) -> Option<&Iface>
    ensures { option_map (λ face. face.now) result ≡ face_at site.now entry }
{
    if entry < FIRST_ENTRY {
        return None;
    }
    site.faces.as_slice().get(usize::from(entry - FIRST_ENTRY))
}

/// The first address of the interface; 0 where it has none.
fn first_addr(face: &Iface) -> u32
    ensures { result ≡ first_addr face.now }
{
    match face.addrs.as_slice().first() {
        Some(own) => own.addr,
        None => 0,
    }
}

/// The first address of the interface with this entry number; 127.0.0.1 for loopback, and 0 where no
/// interface has the number.
pub fn face_addr(site: &Site, entry: u8) -> u32
    ensures { result ≡ face_addr site.now entry }
{
    if entry == LOOPBACK_ENTRY {
        return LOOPBACK_ADDR;
    }
    match face_at(site, entry) {
        Some(face) => first_addr(face),
        None => 0,
    }
}

/// The addresses of the interface with this entry number; 127.0.0.1 for loopback, and none where no interface has the number. Fails
/// if memory runs out.
pub fn face_addrs(alloc: Global, site: &Site, entry: u8) -> Result<Ivs, Memory>
    ensures { IfOk result (λ s. s ≡ face_addrs site.now entry) }
{
    if entry == LOOPBACK_ENTRY {
        return one(alloc, LOOPBACK_ADDR, LOOPBACK_ADDR);
    }
    match face_at(site, entry) {
        Some(face) => own_set(alloc, face),
        None => Ok(Ivs::none(alloc)),
    }
}

/// The addresses of the networks of the interface with this entry number; 127.0.0.0/8 for loopback, and none where no interface has
/// the number. Fails if memory runs out.
pub fn face_nets(alloc: Global, site: &Site, entry: u8) -> Result<Ivs, Memory>
    ensures { IfOk result (λ s. s ≡ face_nets site.now entry) }
{
    if entry == LOOPBACK_ENTRY {
        return agreeing_set(alloc, LOOPBACK_LEN, LOOPBACK_ADDR);
    }
    match face_at(site, entry) {
        Some(face) => net_set(alloc, face),
        None => Ok(Ivs::none(alloc)),
    }
}

impl Names {
    /// The name in this system.
    pub fn name_in(&self, lang: Lang) -> &Text
        ensures { result.now ≡ name_in lang self.now }
    {
        match lang {
            Lang::Iptables => &self.ipt,
            Lang::Ipfw => &self.ipfw,
            Lang::Pf => &self.pf,
            Lang::Ios => &self.ios,
        }
    }
}

/// The entry number of the interface with this name in the system: 1 for loopback, else that of the
/// first such interface, 2 to 63. There is none where no interface has the name.
pub fn entry_named(site: &Site, lang: Lang, name: &[u8]) -> Option<u8>
    requires { IsSound site.now }
    ensures value { result ≡ entry_named lang site.now name.now }
    ensures in_range { IfSome result (λ e. (1 ≤ e) × (e ≤ length site.now.faces + 1)) }
{
    if site.lo.name_in(lang).as_slice() == name {
        return Some(LOOPBACK_ENTRY);
    }
    let mut entry = FIRST_ENTRY;
    for face in site.faces.as_slice() {
        if face.names.name_in(lang).as_slice() == name {
            return Some(entry);
        }
        entry += 1;
    }
    None
}

/// The set with the entry number, if its name begins with the front.
fn with_entry(alloc: Global, entry: u8, name: &Text, front: &[u8], set: Ivs) -> Result<Ivs, Memory>
    ensures { IfOk result (λ s. s ≡ with_entry entry name.now front.now set) }
{
    if name.as_slice().starts_with(front) {
        set.with_range(alloc, u32::from(entry), u32::from(entry))
    } else {
        Ok(set)
    }
}

/// The entry numbers of the interfaces, and of loopback, whose names in the system begin with the front. Fails if memory runs out.
pub fn entries_beginning(
    alloc: Global,
    site: &Site,
    lang: Lang,
    front: &[u8],
) -> Result<Ivs, Memory>
    requires { IsSound site.now }
    ensures { IfOk result (λ s. s ≡ entries_beginning lang site.now front.now) }
{
    let lo = site.lo.name_in(lang);
    let mut set = with_entry(alloc, LOOPBACK_ENTRY, lo, front, Ivs::none(alloc))?;
    let mut entry = FIRST_ENTRY;
    for face in site.faces.as_slice() {
        set = with_entry(alloc, entry, face.names.name_in(lang), front, set)?;
        entry += 1;
    }
    Ok(set)
}
