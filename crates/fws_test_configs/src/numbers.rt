//! Numbers of texts, of the widths that packets have.

use crate::stop::Stop;
use fws_net::Site;
use fws_num::{read_dec, read_quad};

/// A number of 8 bits; a greater one counts as the greatest.
pub fn byte(n: u32) -> u8 {
    u8::try_from(n).unwrap_or(u8::MAX)
}

/// A number of 16 bits; a greater one counts as the greatest.
pub fn short(n: u32) -> u16 {
    u16::try_from(n).unwrap_or(u16::MAX)
}

/// A decimal number of 32 bits.
pub fn decimal(text: &[u8]) -> Result<u32, Stop> {
    match read_dec(text, u64::from(u32::MAX)) {
        Some(n) => Ok(u32::try_from(n).unwrap_or(u32::MAX)),
        None => Err(Stop::Malformed),
    }
}

/// An address.
pub fn address(text: &[u8]) -> Result<u32, Stop> {
    read_quad(text).ok_or(Stop::Malformed)
}

/// A number, in decimal or as an address.
pub fn number(text: &[u8]) -> Result<u32, Stop> {
    decimal(text).or(address(text))
}

/// The entry number of this name.
pub fn entry(site: &Site, name: &[u8]) -> Result<u32, Stop> {
    if name == b"host".as_slice() {
        return Ok(0);
    }
    if name == b"lo".as_slice() {
        return Ok(1);
    }
    let mut number: u32 = 2;
    for face in site.faces.as_slice() {
        if face.name.as_slice() == name {
            return Ok(number);
        }
        number = number.saturating_add(1);
    }
    Err(Stop::Malformed)
}

/// The byte of a text that has one.
pub fn one_byte(text: &[u8]) -> Result<u8, Stop> {
    match text {
        [byte] => Ok(*byte),
        _ => Err(Stop::Malformed),
    }
}
