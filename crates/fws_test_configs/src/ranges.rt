//! Calls that read ports, addresses and prefixes as ranges, and the check that goes first.

use crate::calls::Call;
use crate::found::{Found, Spelling};
use crate::numbers::one_byte;
use crate::stop::Stop;
use fws_iv::Ivs;
use fws_net::{
    Cause, Checks, prefix_set, read_address_range, read_addresses_between, read_port_range,
    read_ports,
};
use fws_num::{Memory, Word, read_prefix, value_named, words};

/// What is read of a text.
#[derive(Clone, Copy)]
enum Reads {
    Addresses,
    AddressRange,
    Prefix,
    First,
}

/// What a call asks; of ports it is given a byte besides.
#[derive(Clone, Copy)]
enum Asks {
    PortRange,
    Ports,
    Read(Reads),
}

/// The names of calls.
const CALLS: [(&[u8], Asks); 6] = [
    (b"port-range", Asks::PortRange),
    (b"ports", Asks::Ports),
    (b"addresses", Asks::Read(Reads::Addresses)),
    (b"address-range", Asks::Read(Reads::AddressRange)),
    (b"prefix", Asks::Read(Reads::Prefix)),
    (b"first", Asks::Read(Reads::First)),
];

/// Adds both ports, or `none`.
fn put_port_range(found: &mut Found, pair: Option<(u16, u16)>) -> Result<(), Memory> {
    found.put_pair(pair.map(|p| (u64::from(p.0), u64::from(p.1))))
}

/// Adds both addresses, or `none`.
fn put_addresses(found: &mut Found, pair: Option<(u32, u32)>) -> Result<(), Memory> {
    match pair {
        Some((lo, hi)) => {
            found.put_address(lo)?;
            found.put_address(hi)
        }
        None => found.put(b"none"),
    }
}

/// Adds the set of a list of ports, or `none`.
fn put_ports(found: &mut Found, ports: Option<Ivs>) -> Result<(), Memory> {
    match ports {
        Some(ports) => found.put_parts(Spelling::Decimal, ports.parts()),
        None => found.put(b"none"),
    }
}

/// Adds the addresses of a prefix, or `none`.
fn put_prefix(found: &mut Found, text: &[u8]) -> Result<(), Memory> {
    match read_prefix(text) {
        Some(prefix) => found.put_set(Spelling::Addresses, prefix_set(found.alloc, &prefix)),
        None => found.put(b"none"),
    }
}

/// Whether one of the words is this one.
fn has_word(words: &[Word], wanted: &[u8]) -> bool {
    for word in words {
        if word.is(wanted) {
            return true;
        }
    }
    false
}

/// Adds the cause of the check that goes first of those that words name, or `none`.
fn put_first(found: &mut Found, words: &[Word]) -> Result<(), Memory> {
    let checks = Checks {
        left_out: has_word(words, b"left-out"),
        backward: has_word(words, b"backward"),
        shape: has_word(words, b"shape"),
        expand: has_word(words, b"expand"),
    };
    let said: &[u8] = match checks.first() {
        None => b"none",
        Some(Cause::LeftOut) => b"left-out",
        Some(Cause::Backward) => b"backward",
        Some(Cause::Shape) => b"shape",
        Some(Cause::Expand) => b"expand",
        Some(_) => b"another",
    };
    found.put(said)
}

/// Adds the set of a list of ports with this byte between both ends of a range.
fn put_listed_ports(found: &mut Found, byte: u8, text: &[u8]) -> Result<(), Memory> {
    let ports = read_ports(found.alloc, byte, text)?;
    put_ports(found, ports)
}

/// Adds the cause of the check that goes first of those that a text names.
fn put_first_of(found: &mut Found, text: &[u8]) -> Result<(), Memory> {
    let words = words(found.alloc, text, 1)?;
    put_first(found, words.as_slice())
}

/// Adds what is read of a text.
fn put_read(found: &mut Found, reads: Reads, text: &[u8]) -> Result<(), Memory> {
    match reads {
        Reads::Addresses => put_addresses(found, read_addresses_between(text)),
        Reads::AddressRange => put_addresses(found, read_address_range(text)),
        Reads::Prefix => put_prefix(found, text),
        Reads::First => put_first_of(found, text),
    }
}

/// Adds what a call gives.
pub fn call_ranges(found: &mut Found, call: &Call) -> Result<(), Stop> {
    let text = call.text;
    match value_named(&CALLS, call.name) {
        Some(Asks::PortRange) => {
            Ok(put_port_range(found, read_port_range(one_byte(call.with)?, text))?)
        }
        Some(Asks::Ports) => Ok(put_listed_ports(found, one_byte(call.with)?, text)?),
        Some(Asks::Read(reads)) => Ok(put_read(found, reads, text)?),
        None => Err(Stop::Malformed),
    }
}
