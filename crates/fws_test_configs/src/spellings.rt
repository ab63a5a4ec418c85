//! Calls that read and spell numbers, words and lines.

use crate::calls::Call;
use crate::found::Found;
use crate::numbers::{decimal, one_byte};
use crate::stop::Stop;
use fws_num::{
    Comments, Memory, Prefix, read_dec, read_ios_protocol, read_port, read_ports_between,
    read_prefix, read_protocol, read_quad, split_once, value_named,
};

/// What is read of a text.
#[derive(Clone, Copy)]
enum Reads {
    Quad,
    Prefix,
    Port,
    Protocol,
    IosProtocol,
    Words,
}

/// What is done with a text by a byte.
#[derive(Clone, Copy)]
enum ByByte {
    Ports,
    Split,
    Pieces,
}

/// What is done with a text by its comments.
#[derive(Clone, Copy)]
enum ByComments {
    Uncommented,
    Lines,
}

/// What a call does with a text.
#[derive(Clone, Copy)]
enum Does {
    Read(Reads),
    ByByte(ByByte),
    ByComments(ByComments),
    Dec,
    PutDec,
    PutQuad,
}

/// The names of calls.
const CALLS: [(&[u8], Does); 14] = [
    (b"dec", Does::Dec),
    (b"quad", Does::Read(Reads::Quad)),
    (b"prefix", Does::Read(Reads::Prefix)),
    (b"port", Does::Read(Reads::Port)),
    (b"ports", Does::ByByte(ByByte::Ports)),
    (b"protocol", Does::Read(Reads::Protocol)),
    (b"ios-protocol", Does::Read(Reads::IosProtocol)),
    (b"put-dec", Does::PutDec),
    (b"put-quad", Does::PutQuad),
    (b"uncommented", Does::ByComments(ByComments::Uncommented)),
    (b"split", Does::ByByte(ByByte::Split)),
    (b"pieces", Does::ByByte(ByByte::Pieces)),
    (b"words", Does::Read(Reads::Words)),
    (b"lines", Does::ByComments(ByComments::Lines)),
];

/// The names of comments.
const COMMENTS: [(&[u8], Comments); 4] = [
    (b"hash-line", Comments::HashLine),
    (b"pf", Comments::Pf),
    (b"ipfw", Comments::Ipfw),
    (b"ios", Comments::Ios),
];

/// The comments of this name.
fn comments_named(name: &[u8]) -> Result<Comments, Stop> {
    value_named(&COMMENTS, name).ok_or(Stop::Malformed)
}

/// A number of 64 bits.
fn long(text: &[u8]) -> Result<u64, Stop> {
    read_dec(text, u64::MAX).ok_or(Stop::Malformed)
}

/// The address and the length of a prefix.
fn parts_of(prefix: Prefix) -> (u64, u64) {
    (u64::from(prefix.addr), u64::from(prefix.len))
}

/// Both ports.
fn both_of(ports: (u16, u16)) -> (u64, u64) {
    (u64::from(ports.0), u64::from(ports.1))
}

/// Adds what stands in front of the first such byte and what stands behind it, or `none`.
fn put_split(found: &mut Found, text: &[u8], byte: u8) -> Result<(), Memory> {
    match split_once(text, byte) {
        Some((front, behind)) => {
            found.put(front)?;
            found.put(behind)
        }
        None => found.put(b"none"),
    }
}

/// Adds what is read of a text.
fn put_read(found: &mut Found, reads: Reads, text: &[u8]) -> Result<(), Memory> {
    match reads {
        Reads::Quad => found.put_option(read_quad(text).map(u64::from)),
        Reads::Prefix => found.put_pair(read_prefix(text).map(parts_of)),
        Reads::Port => found.put_option(read_port(text).map(u64::from)),
        Reads::Protocol => found.put_option(read_protocol(text).map(u64::from)),
        Reads::IosProtocol => found.put_option(read_ios_protocol(text).map(u64::from)),
        Reads::Words => found.put_words(text),
    }
}

/// Adds what is done with a text by a byte.
fn put_by_byte(found: &mut Found, does: ByByte, byte: u8, text: &[u8]) -> Result<(), Memory> {
    match does {
        ByByte::Ports => found.put_pair(read_ports_between(byte, text).map(both_of)),
        ByByte::Split => put_split(found, text, byte),
        ByByte::Pieces => found.put_pieces(byte, text),
    }
}

/// Adds what is done with a text by its comments.
fn put_by_comments(
    found: &mut Found,
    does: ByComments,
    comments: Comments,
    text: &[u8],
) -> Result<(), Memory> {
    match does {
        ByComments::Uncommented => found.put(comments.uncommented(text)),
        ByComments::Lines => found.put_lines(comments, text),
    }
}

/// Adds what a call gives.
pub fn call_spellings(found: &mut Found, call: &Call) -> Result<(), Stop> {
    let text = call.text;
    let with = call.with;
    match value_named(&CALLS, call.name) {
        Some(Does::Read(reads)) => Ok(put_read(found, reads, text)?),
        Some(Does::ByByte(does)) => Ok(put_by_byte(found, does, one_byte(with)?, text)?),
        Some(Does::ByComments(does)) => {
            Ok(put_by_comments(found, does, comments_named(with)?, text)?)
        }
        Some(Does::Dec) => Ok(found.put_option(read_dec(text, long(with)?))?),
        Some(Does::PutDec) => Ok(found.put_number(long(text)?)?),
        Some(Does::PutQuad) => Ok(found.put_address(decimal(text)?)?),
        None => Err(Stop::Malformed),
    }
}
