//! Options of rules.

use fws_iv::Iv;
use fws_net::Site;
use fws_num::{Memory, Text, put_dec, put_quad};
use fws_suggest::is_network;
use std::alloc::Global;

/// A text of these words.
pub(crate) fn words(alloc: Global, text: &[u8]) -> Result<Text, Memory> {
    Text::of(alloc, text)
}

/// The length of the network that a range is.
pub(crate) fn length_of(range: Iv) -> u32 {
    let size = range.hi.saturating_sub(range.lo);
    let mut length = 32u32;
    for bits in 0..32u32 {
        if size >> bits == 0 {
            break;
        }
        length = 31u32.saturating_sub(bits);
    }
    length
}

/// Appends an address, or a network with its length.
pub(crate) fn put_network(out: &mut Text, range: Iv) -> Result<(), Memory> {
    put_quad(out, range.lo)?;
    if range.lo != range.hi {
        out.put(b"/")?;
        put_dec(out, u64::from(length_of(range)))?;
    }
    Ok(())
}

/// A test of addresses by one range, of sources or of destinations.
pub(crate) fn address_option(
    alloc: Global,
    is_source: bool,
    not: bool,
    range: Iv,
) -> Result<Text, Memory> {
    let mut out = Text::new(alloc);
    let sign: &[u8] = if not { b"! " } else { b"" };
    if is_network(range) {
        out.put(sign)?;
        out.put(if is_source { b"-s " } else { b"-d " })?;
        put_network(&mut out, range)?;
    } else {
        out.put(b"-m iprange ")?;
        out.put(sign)?;
        out.put(if is_source {
            b"--src-range "
        } else {
            b"--dst-range "
        })?;
        put_quad(&mut out, range.lo)?;
        out.put(b"-")?;
        put_quad(&mut out, range.hi)?;
    }
    Ok(out)
}

/// A test for the host's own addresses.
pub(crate) fn local_option(alloc: Global, is_source: bool, not: bool) -> Result<Text, Memory> {
    let mut out = Text::of(alloc, b"-m addrtype ")?;
    out.put(if not { b"! " } else { b"" })?;
    out.put(if is_source {
        b"--src-type LOCAL"
    } else {
        b"--dst-type LOCAL"
    })?;
    Ok(out)
}

/// A test for the addresses of the host's interfaces: all of its own ones but those of loopback.
pub(crate) fn face_option(alloc: Global, is_source: bool) -> Result<Text, Memory> {
    let mut out = local_option(alloc, is_source, false)?;
    out.put(if is_source {
        b" ! -s 127.0.0.0/8"
    } else {
        b" ! -d 127.0.0.0/8"
    })?;
    Ok(out)
}

/// Whether a range has an address.
fn has(range: Iv, address: u32) -> bool {
    range.lo <= address && address <= range.hi
}

/// Whether one of the ranges has an address.
fn is_in(ranges: &[Iv], address: u32) -> bool {
    for range in ranges {
        if has(*range, address) {
            return true;
        }
    }
    false
}

/// The addresses of the host's interfaces.
fn face_addresses(alloc: Global, site: &Site) -> Result<Vec<u32>, Memory> {
    let mut all = Vec::new(alloc);
    for face in site.faces.as_slice() {
        for address in face.addrs.as_slice() {
            all.push(address.addr)?;
        }
    }
    Ok(all)
}

/// Whether all addresses of a range are among those.
fn is_made_of(range: Iv, addresses: &[u32]) -> bool {
    let size = u64::from(range.hi.saturating_sub(range.lo)).saturating_add(1);
    let mut count: u64 = 0;
    for address in addresses {
        if has(range, *address) {
            count = count.saturating_add(1);
        }
    }
    count == size
}

/// Of ranges that have all addresses of the host's interfaces those that have others, too: where at least two ranges have nothing
/// else, so that it is shorter to name these addresses by their kind.
pub(crate) fn without_own(
    alloc: Global,
    site: &Site,
    ranges: &[Iv],
) -> Result<Option<Vec<Iv>>, Memory> {
    let own = face_addresses(alloc, site)?;
    for address in &own {
        if !is_in(ranges, *address) {
            return Ok(None);
        }
    }
    let mut others = Vec::new(alloc);
    for range in ranges {
        if !is_made_of(*range, &own) {
            others.push(*range)?;
        }
    }
    Ok(if others.len().saturating_add(2) <= ranges.len() {
        Some(others)
    } else {
        None
    })
}

/// The name of a protocol, or its number.
pub(crate) fn put_protocol(out: &mut Text, number: u32) -> Result<(), Memory> {
    match number {
        1 => out.put(b"icmp"),
        2 => out.put(b"igmp"),
        6 => out.put(b"tcp"),
        17 => out.put(b"udp"),
        47 => out.put(b"gre"),
        50 => out.put(b"esp"),
        51 => out.put(b"ah"),
        89 => out.put(b"ospf"),
        _ => put_dec(out, u64::from(number)),
    }
}

/// A test of the protocol.
pub(crate) fn protocol_option(alloc: Global, not: bool, number: u32) -> Result<Text, Memory> {
    let mut out = Text::of(alloc, if not { b"! -p " } else { b"-p " })?;
    put_protocol(&mut out, number)?;
    Ok(out)
}

/// Appends a port, or two with a colon between.
pub(crate) fn put_ports(out: &mut Text, range: Iv) -> Result<(), Memory> {
    put_dec(out, u64::from(range.lo))?;
    if range.lo != range.hi {
        out.put(b":")?;
        put_dec(out, u64::from(range.hi))?;
    }
    Ok(())
}

/// Appends the names of flags with commas between.
pub(crate) fn put_flags(out: &mut Text, flags: u32) -> Result<(), Memory> {
    let names: [(u32, &[u8]); 6] = [
        (1, b"FIN"),
        (2, b"SYN"),
        (4, b"RST"),
        (8, b"PSH"),
        (16, b"ACK"),
        (32, b"URG"),
    ];
    if flags == 0 {
        return out.put(b"NONE");
    }
    let mut is_first = true;
    for (bit, name) in names {
        if flags & bit != 0 {
            if !is_first {
                out.put(b",")?;
            }
            out.put(name)?;
            is_first = false;
        }
    }
    Ok(())
}

/// Appends a mark.
pub(crate) fn put_mark(out: &mut Text, mark: u32) -> Result<(), Memory> {
    out.put(b"0x")?;
    let digits = b"0123456789abcdef";
    let mut is_first = true;
    for place in (0..8u32).rev() {
        let digit = mark.checked_shr(place.saturating_mul(4)).unwrap_or(0) & 15;
        if is_first && digit == 0 && place > 0 {
            continue;
        }
        is_first = false;
        if let Some(byte) = digits.get(digit as usize) {
            out.put(&[*byte])?;
        }
    }
    Ok(())
}
