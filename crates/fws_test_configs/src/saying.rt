//! Calls on what a site says of addresses, names and entries.

ghost use Rattle.fws_net.specs.Routes.{IsSound};

use crate::calls::Call;
use crate::found::{Found, Spelling};
use crate::numbers::{address, byte, decimal};
use crate::stop::Stop;
use fws_iv::Ivs;
use fws_net::{
    Exit, Lang, Site, entries_beginning, entry_named, exit_of, face_addr, face_addrs, face_nets,
    is_local, local_set, route, route_set, tops,
};
use fws_num::{Memory, value_named};

/// What is asked of an address.
#[derive(Clone, Copy)]
enum OfAddress {
    Route,
    Local,
}

/// What is asked of an entry.
#[derive(Clone, Copy)]
enum OfEntry {
    Routes,
    Addr,
    Addrs,
    Nets,
}

/// What is asked of a name.
#[derive(Clone, Copy)]
enum OfName {
    Named,
    Beginning,
}

/// What is asked of a site.
#[derive(Clone, Copy)]
enum Asks {
    Address(OfAddress),
    Entry(OfEntry),
    Name(OfName),
    Exit,
    Locals,
    Tops,
}

/// The names of calls.
const CALLS: [(&[u8], Asks); 11] = [
    (b"route", Asks::Address(OfAddress::Route)),
    (b"local", Asks::Address(OfAddress::Local)),
    (b"exit", Asks::Exit),
    (b"route-set", Asks::Entry(OfEntry::Routes)),
    (b"local-set", Asks::Locals),
    (b"face-addr", Asks::Entry(OfEntry::Addr)),
    (b"face-addrs", Asks::Entry(OfEntry::Addrs)),
    (b"face-nets", Asks::Entry(OfEntry::Nets)),
    (b"named", Asks::Name(OfName::Named)),
    (b"beginning", Asks::Name(OfName::Beginning)),
    (b"tops", Asks::Tops),
];

/// The names of systems.
const SYSTEMS: [(&[u8], Lang); 4] = [
    (b"ipt", Lang::Iptables),
    (b"ipfw", Lang::Ipfw),
    (b"pf", Lang::Pf),
    (b"ios", Lang::Ios),
];

/// The system of this name.
fn system_named(name: &[u8]) -> Result<Lang, Stop> {
    value_named(&SYSTEMS, name).ok_or(Stop::Malformed)
}

/// An entry number.
fn entry_number(text: &[u8]) -> Result<u8, Stop> {
    Ok(byte(decimal(text)?))
}

/// Adds where a packet leaves: `deliver`, `lost`, or `out` and the entry number.
fn put_exit(found: &mut Found, exit: Exit) -> Result<(), Memory> {
    match exit {
        Exit::Deliver => found.put(b"deliver"),
        Exit::Lost => found.put(b"lost"),
        Exit::Out(entry) => {
            found.put(b"out")?;
            found.put_number(u64::from(entry))
        }
    }
}

/// Adds the addresses of a set, if there was memory for it.
fn put_addresses(found: &mut Found, set: Result<Ivs, Memory>) -> Result<(), Memory> {
    found.put_set(Spelling::Addresses, set)
}

/// Adds the entries whose names begin so, if there was memory for them.
fn put_beginning(found: &mut Found, site: &Site, system: Lang, name: &[u8]) -> Result<(), Memory>
    requires { IsSound site.now }
{
    let entries = entries_beginning(found.alloc, site, system, name);
    found.put_set(Spelling::Decimal, entries)
}

/// Adds the greatest value of each field.
fn put_tops(found: &mut Found, site: &Site) -> Result<(), Memory>
    requires { IsSound site.now }
{
    for top in tops(site) {
        found.put_number(u64::from(top))?;
    }
    Ok(())
}

/// Adds what is asked of an address.
fn put_of_address(found: &mut Found, site: &Site, asks: OfAddress, a: u32) -> Result<(), Memory>
    requires { IsSound site.now }
{
    match asks {
        OfAddress::Route => found.put_number(u64::from(route(site, a))),
        OfAddress::Local => found.put_answer(is_local(site, a)),
    }
}

/// Adds what is asked of an entry.
fn put_of_entry(found: &mut Found, site: &Site, asks: OfEntry, entry: u8) -> Result<(), Memory>
    requires { IsSound site.now }
{
    let alloc = found.alloc;
    match asks {
        OfEntry::Routes => put_addresses(found, route_set(alloc, site, entry)),
        OfEntry::Addr => found.put_address(face_addr(site, entry)),
        OfEntry::Addrs => put_addresses(found, face_addrs(alloc, site, entry)),
        OfEntry::Nets => put_addresses(found, face_nets(alloc, site, entry)),
    }
}

/// Adds what is asked of a name in a system.
fn put_of_name(
    found: &mut Found,
    site: &Site,
    asks: OfName,
    system: Lang,
    name: &[u8],
) -> Result<(), Memory>
    requires { IsSound site.now }
{
    match asks {
        OfName::Named => found.put_option(entry_named(site, system, name).map(u64::from)),
        OfName::Beginning => put_beginning(found, site, system, name),
    }
}

/// Adds where a packet to the address of a text leaves that came from an entry.
fn put_exit_of(found: &mut Found, site: &Site, call: &Call) -> Result<(), Stop>
    requires { IsSound site.now }
{
    let entry = entry_number(call.with)?;
    let a = address(call.text)?;
    Ok(put_exit(found, exit_of(site, entry, a))?)
}

/// Adds the addresses of the site itself.
fn put_locals(found: &mut Found, site: &Site) -> Result<(), Memory>
    requires { IsSound site.now }
{
    let locals = local_set(found.alloc, site);
    put_addresses(found, locals)
}

/// Adds what a call gives.
pub fn call_saying(found: &mut Found, site: &Site, call: &Call) -> Result<(), Stop>
    requires { IsSound site.now }
{
    let text = call.text;
    match value_named(&CALLS, call.name) {
        Some(Asks::Address(asks)) => Ok(put_of_address(found, site, asks, address(text)?)?),
        Some(Asks::Entry(asks)) => Ok(put_of_entry(found, site, asks, entry_number(text)?)?),
        Some(Asks::Name(asks)) => {
            let system = system_named(call.with)?;
            Ok(put_of_name(found, site, asks, system, text)?)
        }
        Some(Asks::Exit) => put_exit_of(found, site, call),
        Some(Asks::Locals) => Ok(put_locals(found, site)?),
        Some(Asks::Tops) => Ok(put_tops(found, site)?),
        None => Err(Stop::Malformed),
    }
}
