//! Numbers, ends, classes and outcomes as words spell them.

use crate::stop::Stop;
use fws_net::{End, Kind, Outcome, Packet, Rec, Rewrite, Site};
use fws_num::{Word, read_dec, read_prefix, read_quad, split_once};

/// The entry of this name: `host`, `lo` or an interface's.
fn entry(site: &Site, name: &[u8]) -> Result<u32, Stop> {
    if name == b"host".as_slice() {
        return Ok(0);
    }
    if name == b"lo".as_slice() {
        return Ok(1);
    }
    let mut number: u32 = 2;
    for face in site.faces.as_slice() {
        if face.name.as_slice() == name {
            return Ok(number);
        }
        number = number.saturating_add(1);
    }
    Err(Stop::Malformed)
}

/// A decimal number of 32 bits.
pub fn decimal(text: &[u8]) -> Result<u32, Stop> {
    match read_dec(text, u64::from(u32::MAX)) {
        Some(n) => Ok(u32::try_from(n).unwrap_or(u32::MAX)),
        None => Err(Stop::Malformed),
    }
}

/// An address.
fn address(text: &[u8]) -> Result<u32, Stop> {
    read_quad(text).ok_or(Stop::Malformed)
}

/// A number of 8 bits; a greater one counts as the greatest.
pub fn byte(n: u32) -> u8 {
    u8::try_from(n).unwrap_or(u8::MAX)
}

/// A number of 16 bits; a greater one counts as the greatest.
pub fn short(n: u32) -> u16 {
    u16::try_from(n).unwrap_or(u16::MAX)
}

/// A decimal number, an address, or the entry of this name.
pub fn number(site: &Site, text: &[u8]) -> Result<u32, Stop> {
    decimal(text).or(address(text)).or(entry(site, text))
}

/// The numbers of just so many words.
fn numbers<const N: usize>(site: &Site, words: &[Word]) -> Result<[u32; N], Stop> {
    if words.len() != N {
        return Err(Stop::Malformed);
    }
    let mut numbers = [0; N];
    for (place, word) in words.iter().take(N).enumerate() {
        numbers[place] = number(site, word.text.as_slice())?;
    }
    Ok(numbers)
}

/// The end of a network `A/n`, of a length from 1.
fn net_end(text: &[u8]) -> Result<End, Stop> {
    match read_prefix(text) {
        Some(net) if net.len > 0 => Ok(End::net(net)),
        _ => Err(Stop::Malformed),
    }
}

/// An end `A`, `A:port` or `A/n`.
pub fn end_of(text: &[u8]) -> Result<End, Stop> {
    if text.contains(&b'/') {
        return net_end(text);
    }
    match split_once(text, b':') {
        Some((a, port)) => Ok(End::host(address(a)?, Some(short(decimal(port)?)))),
        None => Ok(End::host(address(text)?, None)),
    }
}

/// The packet of eight words: entry, protocol, destination, its port, source, its port, flags and type.
pub fn packet_of(site: &Site, words: &[Word]) -> Result<Packet, Stop> {
    let [entry, proto, dst, dport, src, sport, flags, icmp] = numbers::<8>(site, words)?;
    Ok(Packet {
        entry: byte(entry),
        proto: byte(proto),
        dst,
        dport: short(dport),
        src,
        sport: short(sport),
        flags: byte(flags),
        icmp: byte(icmp),
    })
}

/// The class `new`, or `est` and the ends with which the packet leaves: destination, its port, source and its port.
pub fn kind_of(site: &Site, words: &[Word]) -> Result<Kind, Stop> {
    match words {
        [state] if state.is(b"new") => Ok(Kind::New),
        [state, ends @ ..] if state.is(b"est") => {
            let [rdst, rdport, rsrc, rsport] = numbers::<4>(site, ends)?;
            Ok(Kind::Est(Rec {
                rdst,
                rdport: short(rdport),
                rsrc,
                rsport: short(rsport),
            }))
        }
        _ => Err(Stop::Malformed),
    }
}

/// What is written, with what `src=END` or `dst=END` writes.
fn with_end(wrote: Rewrite, text: &[u8]) -> Result<Rewrite, Stop> {
    let Some((side, end)) = split_once(text, b'=') else {
        return Err(Stop::Malformed);
    };
    let end = Some(end_of(end)?);
    if side == b"src".as_slice() {
        Ok(Rewrite {
            src: end,
            dst: wrote.dst,
        })
    } else if side == b"dst".as_slice() {
        Ok(Rewrite {
            src: wrote.src,
            dst: end,
        })
    } else {
        Err(Stop::Malformed)
    }
}

/// The outcome `drop`, or `accept` and what is written: `src=END`, `dst=END`.
pub fn outcome_of(words: &[Word]) -> Result<Outcome, Stop> {
    match words {
        [verdict] if verdict.is(b"drop") => Ok(Outcome::Drop),
        [verdict, ends @ ..] if verdict.is(b"accept") => {
            let mut wrote = Rewrite::nothing();
            for end in ends {
                wrote = with_end(wrote, end.text.as_slice())?;
            }
            Ok(Outcome::Accept(wrote))
        }
        _ => Err(Stop::Malformed),
    }
}
