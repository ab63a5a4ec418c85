//! The values of words, and the tests that they mean (Cisco IOS).

ghost use Rattle.std.specs.Prelude.{◌≡◌, ◌≤◌, IfOk};
ghost use Rattle.std.specs.List.{list_all};
ghost use Rattle.fws_num.specs.Numbers.{is_digit};
ghost use Rattle.fws_rules.specs.Literals.{one};
ghost use Rattle.fws_ios.specs.Values.{address_literal, address_test, has_ports, icmp_type_named, icmp_type_of, is_netmask, is_number, is_prefix_length, port_literal, port_test, ports_above, ports_below, protocol_value, range_literal, wildcard_len, wildcard_of};
ghost use Rattle.fws_ios_read.specs.Ports.{compared_literal, compared_ports};

use fws_ios::{Place, PortWord};
use fws_iv::{Ivs, one};
use fws_net::{Lit, Test, agreeing_set};
use fws_num::{Memory, read_dec, read_ios_protocol, read_quad, value_named};
use fws_rules::{is, negative, positive};
use std::alloc::Global;

/// Whether each byte is a digit.
fn are_digits(text: &[u8]) -> bool
    ensures { result ≡ list_all is_digit text.now }
{
    text.iter().all(|c| c.is_ascii_digit())
}

/// Whether it is a decimal number, of any size.
pub(crate) fn is_number(text: &[u8]) -> bool
    ensures { result ≡ is_number text.now }
{
    match text.first() {
        Some(_) => are_digits(text),
        None => false,
    }
}

/// The protocol; none for every one, which is spelled `ip`.
pub(crate) fn read_protocol_value(text: &[u8]) -> Option<Option<u8>>
    ensures { result ≡ protocol_value text.now }
{
    if is(text, b"ip") {
        return Some(None);
    }
    let protocol = read_ios_protocol(text)?;
    Some(Some(protocol))
}

/// The wildcard of the first bits: its other bits are ones.
fn wildcard_of(len: u8) -> u32
    requires { len ≤ 32 }
    ensures { result ≡ wildcard_of len }
{
    (2u64.pow(32 - u32::from(len)) - 1) as u32
}

/// How many bits are compared under a wildcard; none for one that isn't zeros followed by ones.
#[tactic(auto, unfolding(fws_ios::specs::Values::wildcard_len))]
pub(crate) fn wildcard_len(wildcard: u32) -> Option<u8>
    ensures { result ≡ wildcard_len wildcard }
{
    for len in 0..33 {
        if wildcard_of(len) == wildcard {
            return Some(len);
        }
    }
    None
}

/// Whether it is a mask whose other bits are a wildcard of zeros followed by ones.
pub(crate) fn is_netmask(text: &[u8]) -> bool
    ensures { result ≡ is_netmask text.now }
{
    match read_quad(text) {
        Some(mask) => wildcard_len(u32::MAX - mask).is_some(),
        None => false,
    }
}

/// Whether it is a number of bits of an address.
pub(crate) fn is_prefix_length(text: &[u8]) -> bool
    ensures { result ≡ is_prefix_length text.now }
{
    read_dec(text, 32).is_some()
}

/// The test of addresses at a place.
fn address_test(place: Place, set: Ivs) -> Test
    ensures { result ≡ address_test place set }
{
    match place {
        Place::Source => Test::Src(set),
        Place::Destination => Test::Dst(set),
    }
}

/// The addresses that agree with this one in their first bits.
pub(crate) fn address_literal(
    alloc: Global,
    place: Place,
    len: u8,
    addr: u32,
) -> Result<Lit, Memory>
    ensures { IfOk result (λ lit. lit ≡ address_literal place len addr) }
{
    let set = agreeing_set(alloc, len, addr)?;
    Ok(positive(address_test(place, set)))
}

/// The test of ports at a place.
fn port_test(place: Place, set: Ivs) -> Test
    ensures { result ≡ port_test place set }
{
    match place {
        Place::Source => Test::Sport(set),
        Place::Destination => Test::Dport(set),
    }
}

/// The ports below this one; none below 0.
fn ports_below(alloc: Global, port: u16) -> Result<Ivs, Memory>
    ensures { IfOk result (λ set. set ≡ ports_below port) }
{
    if port == 0 {
        return Ok(Ivs::none(alloc));
    }
    one(alloc, 0, u32::from(port - 1))
}

/// The ports above this one; none above 65535.
fn ports_above(alloc: Global, port: u16) -> Result<Ivs, Memory>
    ensures { IfOk result (λ set. set ≡ ports_above port) }
{
    if port < 65535 {
        one(alloc, u32::from(port) + 1, 65535)
    } else {
        Ok(Ivs::none(alloc))
    }
}

/// This port by itself.
fn single_port(alloc: Global, port: u16) -> Result<Ivs, Memory>
    ensures { IfOk result (λ set. set ≡ one port port) }
{
    one(alloc, u32::from(port), u32::from(port))
}

/// The ports that are compared so with this one, or else that are equal to it.
fn compared_ports(alloc: Global, word: PortWord, port: u16) -> Result<Ivs, Memory>
    ensures { IfOk result (λ set. set ≡ compared_ports word port) }
{
    match word {
        PortWord::Equal | PortWord::Range | PortWord::Unequal => single_port(alloc, port),
        PortWord::Less => ports_below(alloc, port),
        PortWord::Greater => ports_above(alloc, port),
    }
}

/// The literal of a test of the ports that are compared so.
fn compared_literal(word: PortWord, test: Test) -> Lit
    ensures { result ≡ compared_literal word test }
{
    match word {
        PortWord::Unequal => negative(test),
        PortWord::Equal | PortWord::Range | PortWord::Less | PortWord::Greater => positive(test),
    }
}

/// The literal of a port that is compared so; that of a range needs its last port too.
pub(crate) fn port_literal(
    alloc: Global,
    place: Place,
    word: PortWord,
    port: u16,
) -> Result<Lit, Memory>
    ensures { IfOk result (λ lit. lit ≡ port_literal place word port) }
{
    let set = compared_ports(alloc, word, port)?;
    Ok(compared_literal(word, port_test(place, set)))
}

/// The literal of a range of ports.
pub(crate) fn range_literal(
    alloc: Global,
    place: Place,
    first: u16,
    last: u16,
) -> Result<Lit, Memory>
    requires { first ≤ last }
    ensures { IfOk result (λ lit. lit ≡ range_literal place first last) }
{
    let set = one(alloc, u32::from(first), u32::from(last))?;
    Ok(positive(port_test(place, set)))
}

/// Whether the protocol is TCP or UDP.
pub(crate) fn has_ports(protocol: Option<u8>) -> bool
    ensures { result ≡ has_ports protocol }
{
    match protocol {
        Some(number) => number == 6 || number == 17,
        None => false,
    }
}

/// ICMP types by their names in Cisco IOS, from IANA's registry of ICMP types.
const ICMP_TYPES: [(&[u8], u8); 4] = [
    (b"echo", 8),
    (b"echo-reply", 0),
    (b"unreachable", 3),
    (b"time-exceeded", 11),
];

/// The ICMP type of this name.
#[tactic(auto, unfolding(fws_ios::specs::Values::icmp_type_named))]
fn icmp_type_named(name: &[u8]) -> Option<u8>
    ensures { result ≡ icmp_type_named name.now }
{
    value_named(&ICMP_TYPES, name)
}

/// The ICMP type that a decimal 0 to 255 or a name spells.
pub(crate) fn read_icmp_type(text: &[u8]) -> Option<u8>
    ensures { result ≡ icmp_type_of text.now }
{
    match read_dec(text, 255) {
        Some(number) => Some(number as u8),
        None => icmp_type_named(text),
    }
}
