//! Interfaces, protocols and types of ICMP messages as words say them (pf.conf(5)).

ghost use Rattle.std.specs.Prelude.{◌≡◌};
ghost use Rattle.fws_net.specs.Reading.{CauseGiven};
ghost use Rattle.fws_net.specs.Routes.{IsSound};
ghost use Rattle.fws_pf.specs.Values.{begins_with_digit, entry_of, icmp_type_named, icmp_type_of, icmp_type_part, interface_part, protocol_part};

use fws_iv::one;
use fws_net::{Cause, Lang, ReadFault, Site, entry_named};
use fws_num::{read_dec, read_protocol, value_named};
use fws_pf::Part;
use fws_rules::is;
use std::alloc::Global;

/// Types of ICMP messages by their names.
const ICMP_TYPES: [(&[u8], u8); 4] = [
    (b"echorep", 0),
    (b"unreach", 3),
    (b"echoreq", 8),
    (b"timex", 11),
];

/// Whether the text begins with a digit.
pub fn begins_with_digit(text: &[u8]) -> bool
    ensures { result ≡ begins_with_digit text.now }
{
    match text.first() {
        Some(byte) => byte.is_ascii_digit(),
        None => false,
    }
}

/// The entry number of the interface that pf calls so; `lo` stands for loopback where no interface has this name.
fn entry_of(site: &Site, text: &[u8]) -> Option<u8>
    requires { IsSound site.now }
    ensures { result ≡ entry_of site.now text.now }
{
    match entry_named(site, Lang::Pf, text) {
        Some(entry) => Some(entry),
        None => if is(text, b"lo") { Some(1) } else { None },
    }
}

/// The entry number of an interface.
pub(crate) fn interface_part(alloc: Global, site: &Site, text: &[u8]) -> Result<Part, ReadFault>
    requires { IsSound site.now }
    ensures { CauseGiven result (interface_part site.now text.now) }
{
    match entry_of(site, text) {
        Some(entry) => Ok(Part::Set(one(alloc, u32::from(entry), u32::from(entry))?)),
        None => Err(ReadFault::Bad(Cause::NoInterface)),
    }
}

/// The number of a protocol.
pub(crate) fn protocol_part(alloc: Global, text: &[u8]) -> Result<Part, ReadFault>
    ensures { CauseGiven result (protocol_part text.now) }
{
    match read_protocol(text) {
        Some(n) => Ok(Part::Set(one(alloc, u32::from(n), u32::from(n))?)),
        None => Err(ReadFault::Bad(Cause::Syntax)),
    }
}

/// The type of this name.
#[tactic(auto, unfolding(fws_pf::specs::Values::icmp_type_named))]
fn icmp_type_named(text: &[u8]) -> Option<u8>
    ensures { result ≡ icmp_type_named text.now }
{
    value_named(&ICMP_TYPES, text)
}

/// The type that a decimal 0 to 255 or a name spells.
fn icmp_type_of(text: &[u8]) -> Option<u8>
    ensures { result ≡ icmp_type_of text.now }
{
    match read_dec(text, 255) {
        Some(n) => Some(n as u8),
        None => icmp_type_named(text),
    }
}

/// The number of a type of ICMP messages.
pub(crate) fn icmp_type_part(alloc: Global, text: &[u8]) -> Result<Part, ReadFault>
    ensures { CauseGiven result (icmp_type_part text.now) }
{
    if is(text, b"code") {
        return Err(ReadFault::Bad(Cause::LeftOut));
    }
    match icmp_type_of(text) {
        Some(n) => Ok(Part::Set(one(alloc, u32::from(n), u32::from(n))?)),
        None => Err(ReadFault::Bad(Cause::Syntax)),
    }
}
