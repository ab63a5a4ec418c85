//! Words of rules.

use fws_iv::Iv;
use fws_num::{Memory, Text, put_dec, put_quad};
use fws_suggest::{Address, AddressForm, FlagCube, Ranges, Stop, Style, is_network};

/// Appends an address, or a network with its length.
fn put_network(out: &mut Text, range: Iv) -> Result<(), Memory> {
    put_quad(out, range.lo)?;
    if range.lo != range.hi {
        let length = range.hi.saturating_sub(range.lo).leading_zeros();
        out.put(b"/")?;
        put_dec(out, u64::from(length))?;
    }
    Ok(())
}

/// Appends networks with commas between. It gives up where a range isn't one.
fn put_networks(out: &mut Text, style: &Style, ranges: Ranges) -> Result<(), Stop> {
    for place in 0..style.count(ranges) {
        let range = style.range(ranges, place);
        if !is_network(range) {
            return Err(Stop::Late);
        }
        if place > 0 {
            out.put(b",")?;
        }
        put_network(out, range)?;
    }
    Ok(())
}

/// Appends addresses.
pub(crate) fn put_addresses(out: &mut Text, style: &Style, address: &Address) -> Result<(), Stop> {
    match address.form {
        AddressForm::Any => {
            out.put(b"any")?;
            return Ok(());
        }
        AddressForm::Positive => {}
        AddressForm::Negated => out.put(b"not ")?,
        AddressForm::Mixed | AddressForm::WithLocal => return Err(Stop::Late),
    }
    if address.is_local {
        out.put(b"me")?;
        return Ok(());
    }
    put_networks(out, style, address.ranges)
}

/// Appends ranges of numbers with commas between.
pub(crate) fn put_numbers(out: &mut Text, ranges: &[Iv]) -> Result<(), Memory> {
    let mut is_first = true;
    for range in ranges {
        if !is_first {
            out.put(b",")?;
        }
        is_first = false;
        put_dec(out, u64::from(range.lo))?;
        if range.lo != range.hi {
            out.put(b"-")?;
            put_dec(out, u64::from(range.hi))?;
        }
    }
    Ok(())
}

/// Appends a protocol by its name or its number.
pub(crate) fn put_protocol(out: &mut Text, number: u32) -> Result<(), Memory> {
    match number {
        1 => out.put(b"icmp"),
        2 => out.put(b"igmp"),
        6 => out.put(b"tcp"),
        17 => out.put(b"udp"),
        47 => out.put(b"gre"),
        50 => out.put(b"esp"),
        51 => out.put(b"ah"),
        89 => out.put(b"ospf"),
        _ => put_dec(out, u64::from(number)),
    }
}

/// The name of a flag, by the place of its bit.
fn flag_name(place: u32) -> &'static [u8] {
    match place {
        0 => b"fin",
        1 => b"syn",
        2 => b"rst",
        3 => b"psh",
        4 => b"ack",
        _ => b"urg",
    }
}

/// Appends the test of a cube of flags.
pub(crate) fn put_flags(out: &mut Text, cube: FlagCube, not: bool) -> Result<(), Memory> {
    if not {
        out.put(b"not ")?;
    }
    if cube.mask == 18 && cube.want == 2 {
        return out.put(b"setup");
    }
    out.put(b"tcpflags ")?;
    let mut is_first = true;
    for place in 0..6u32 {
        if (cube.mask >> place) & 1 == 0 {
            continue;
        }
        if !is_first {
            out.put(b",")?;
        }
        is_first = false;
        if (cube.want >> place) & 1 == 0 {
            out.put(b"!")?;
        }
        out.put(flag_name(place))?;
    }
    Ok(())
}
