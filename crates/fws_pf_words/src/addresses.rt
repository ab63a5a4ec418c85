//! Addresses as words say them (pf.conf(5)).

ghost use Rattle.std.specs.Prelude.{◌≡◌, IfOk};
ghost use Rattle.fws_net.specs.Reading.{CauseGiven};
ghost use Rattle.fws_net.specs.Routes.{IsSound};
ghost use Rattle.fws_pf.specs.Values.{face_name_part, face_part, host_part, is_route_word, modified, modified_part, network_part, networks_part, range_part, self_set};

use crate::items::begins_with_digit;
use fws_iv::{Ivs, one};
use fws_net::{
    Cause, LOOPBACK_ADDR, Lang, ReadFault, Site, all_own_set, entry_named, face_addrs, face_nets,
    prefix_set,
};
use fws_num::{Memory, read_prefix, read_quad, split_once};
use fws_pf::Part;
use fws_rules::{is, is_one_of};
use std::alloc::Global;

/// What may stand behind a colon and is left out.
const MODIFIERS: [&[u8]; 3] = [b"broadcast", b"peer", b"0"];

/// The addresses of all interfaces, and 127.0.0.1.
fn self_set(alloc: Global, site: &Site) -> Result<Ivs, Memory>
    ensures { IfOk result (λ s. s ≡ self_set site.now) }
{
    let own = all_own_set(alloc, site.faces.as_slice())?;
    own.with_range(alloc, LOOPBACK_ADDR, LOOPBACK_ADDR)
}

/// Why what stands behind a colon is refused: it is left out, or no form of an address.
pub fn modified(text: &[u8]) -> Cause
    ensures { result ≡ modified text.now }
{
    if is_one_of(&MODIFIERS, text) {
        Cause::LeftOut
    } else {
        Cause::Syntax
    }
}

/// The networks of an interface, whose name begins with no digit.
fn networks_part(alloc: Global, site: &Site, name: &[u8]) -> Result<Part, ReadFault>
    requires { IsSound site.now }
    ensures { CauseGiven result (networks_part site.now name.now) }
{
    if begins_with_digit(name) {
        return Err(ReadFault::Bad(Cause::Syntax));
    }
    match entry_named(site, Lang::Pf, name) {
        Some(entry) => Ok(Part::Set(face_nets(alloc, site, entry)?)),
        None => Err(ReadFault::Bad(Cause::NoInterface)),
    }
}

/// What an interface with a word behind a colon stands for.
fn modified_part(
    alloc: Global,
    site: &Site,
    name: &[u8],
    modifier: &[u8],
) -> Result<Part, ReadFault>
    requires { IsSound site.now }
    ensures { CauseGiven result (modified_part site.now (name.now, modifier.now)) }
{
    if is(modifier, b"network") {
        networks_part(alloc, site, name)
    } else {
        Err(ReadFault::Bad(modified(modifier)))
    }
}

/// The addresses of an interface.
fn face_part(alloc: Global, site: &Site, name: &[u8]) -> Result<Part, ReadFault>
    requires { IsSound site.now }
    ensures { CauseGiven result (face_part site.now name.now) }
{
    match entry_named(site, Lang::Pf, name) {
        Some(entry) => Ok(Part::Set(face_addrs(alloc, site, entry)?)),
        None => Err(ReadFault::Bad(Cause::NoInterface)),
    }
}

/// A network, or the addresses of an interface.
fn network_part(alloc: Global, site: &Site, text: &[u8]) -> Result<Part, ReadFault>
    requires { IsSound site.now }
    ensures { CauseGiven result (network_part site.now text.now) }
{
    match read_prefix(text) {
        Some(net) => Ok(Part::Set(prefix_set(alloc, &net)?)),
        None => {
            if begins_with_digit(text) {
                Err(ReadFault::Bad(Cause::Syntax))
            } else {
                face_part(alloc, site, text)
            }
        }
    }
}

/// Whether the word says where a packet has no route, or the wrong one.
fn is_route_word(text: &[u8]) -> bool
    ensures { result ≡ is_route_word text.now }
{
    is(text, b"no-route") || is(text, b"urpf-failed")
}

/// Addresses, but for an address by itself.
pub(crate) fn host_part(alloc: Global, site: &Site, text: &[u8]) -> Result<Part, ReadFault>
    requires { IsSound site.now }
    ensures { CauseGiven result (host_part site.now text.now) }
{
    if is(text, b"any") {
        return Ok(Part::Every);
    }
    if is(text, b"self") {
        return Ok(Part::Set(self_set(alloc, site)?));
    }
    if is_route_word(text) {
        return Err(ReadFault::Bad(Cause::LeftOut));
    }
    match split_once(text, b':') {
        Some((name, modifier)) => modified_part(alloc, site, name, modifier),
        None => network_part(alloc, site, text),
    }
}

/// The addresses of an interface whose name alone stands in parentheses.
pub(crate) fn face_name_part(alloc: Global, site: &Site, text: &[u8]) -> Result<Part, ReadFault>
    requires { IsSound site.now }
    ensures { CauseGiven result (face_name_part site.now text.now) }
{
    match split_once(text, b':') {
        Some((_, modifier)) => Err(ReadFault::Bad(modified(modifier))),
        None => face_part(alloc, site, text),
    }
}

/// The range from this address to the one that the text spells, which is no less.
pub(crate) fn range_part(alloc: Global, lo: u32, text: &[u8]) -> Result<Part, ReadFault>
    ensures { CauseGiven result (range_part lo text.now) }
{
    match read_quad(text) {
        Some(hi) => {
            if lo <= hi {
                Ok(Part::Set(one(alloc, lo, hi)?))
            } else {
                Err(ReadFault::Bad(Cause::Syntax))
            }
        }
        None => Err(ReadFault::Bad(Cause::Syntax)),
    }
}
