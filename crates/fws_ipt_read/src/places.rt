//! Ends that a translation writes: addresses, ports and networks.

ghost use Rattle.std.specs.Prelude.{◌≡◌};
ghost use Rattle.fws_net.specs.Reading.{CauseGiven};
ghost use Rattle.fws_ipt.specs.Values.{is_ports, is_place, address_and_port, placed_ports, placed_alone, place_of, to_port, is_masked, is_numbered, with_length, network_of};

use fws_net::{Cause, ReadFault, read_addresses_between};
use fws_num::{
    Prefix, read_dec, read_port, read_ports_between, read_prefix, read_quad, split_once,
};

/// Whether it is a port or a range of ports.
fn is_ports(text: &[u8]) -> bool
    ensures { result ≡ is_ports text.now }
{
    read_port(text).is_some() || read_ports_between(b'-', text).is_some()
}

/// Whether it is nothing, an address or a range of addresses.
fn is_place(text: &[u8]) -> bool
    ensures { result ≡ is_place text.now }
{
    text.is_empty() || read_quad(text).is_some() || read_addresses_between(text).is_some()
}

/// The address and the port, if both are spelled.
fn address_and_port(front: &[u8], back: &[u8]) -> Option<(u32, Option<u16>)>
    ensures { result ≡ address_and_port front.now back.now }
{
    let address = read_quad(front)?;
    let port = read_port(back)?;
    Some((address, Some(port)))
}

/// An address with something behind a colon. Ranges, and a port alone, are left out.
fn placed_ports(front: &[u8], back: &[u8]) -> Result<(u32, Option<u16>), ReadFault>
    ensures { CauseGiven result (placed_ports front.now back.now) }
{
    match address_and_port(front, back) {
        Some(place) => Ok(place),
        None => {
            if is_place(front) && is_ports(back) {
                Err(ReadFault::Bad(Cause::LeftOut))
            } else {
                Err(ReadFault::Bad(Cause::Syntax))
            }
        }
    }
}

/// An address alone. A range is left out.
fn placed_alone(text: &[u8]) -> Result<(u32, Option<u16>), ReadFault>
    ensures { CauseGiven result (placed_alone text.now) }
{
    match read_quad(text) {
        Some(address) => Ok((address, None)),
        None => {
            if read_addresses_between(text).is_some() {
                Err(ReadFault::Bad(Cause::LeftOut))
            } else {
                Err(ReadFault::Bad(Cause::Syntax))
            }
        }
    }
}

/// The value of `--to-source` and `--to-destination`: an address, and maybe a port behind a colon. A
/// range of either, and a port alone, are left out.
pub(crate) fn read_place(text: &[u8]) -> Result<(u32, Option<u16>), ReadFault>
    ensures { CauseGiven result (place_of text.now) }
{
    match split_once(text, b':') {
        Some((front, back)) => placed_ports(front, back),
        None => placed_alone(text),
    }
}

/// The value of `--to-ports`: a port. A range is left out.
pub(crate) fn read_to_port(text: &[u8]) -> Result<u16, ReadFault>
    ensures { CauseGiven result (to_port text.now) }
{
    match read_port(text) {
        Some(port) => Ok(port),
        None => {
            if read_ports_between(b'-', text).is_some() {
                Err(ReadFault::Bad(Cause::LeftOut))
            } else {
                Err(ReadFault::Bad(Cause::Syntax))
            }
        }
    }
}

/// Whether a mask stands behind a slash.
fn is_masked(text: &[u8]) -> bool
    ensures { result ≡ is_masked text.now }
{
    match split_once(text, b'/') {
        Some((_, mask)) => read_quad(mask).is_some(),
        None => false,
    }
}

/// Whether it is an address with a number behind a slash.
fn is_numbered(text: &[u8]) -> bool
    ensures { result ≡ is_numbered text.now }
{
    match split_once(text, b'/') {
        Some((address, number)) => {
            read_quad(address).is_some() && read_dec(number, u64::MAX).is_some()
        }
        None => false,
    }
}

/// The network that the text spells, which has a length that isn't 0.
fn with_length(text: &[u8], network: Prefix) -> Result<Prefix, ReadFault>
    ensures { CauseGiven result (with_length text.now network) }
{
    if network.len == 0 || is_masked(text) {
        Err(ReadFault::Bad(Cause::LeftOut))
    } else {
        Ok(network)
    }
}

/// The value of `--to`: an address, and maybe a length from 1 to 32 behind a slash. Any other number, and
/// a mask, are left out.
pub(crate) fn read_network(text: &[u8]) -> Result<Prefix, ReadFault>
    ensures { CauseGiven result (network_of text.now) }
{
    match read_prefix(text) {
        Some(network) => with_length(text, network),
        None => {
            if is_numbered(text) {
                Err(ReadFault::Bad(Cause::LeftOut))
            } else {
                Err(ReadFault::Bad(Cause::Syntax))
            }
        }
    }
}
