//! Words of entries.

use fws_iv::Iv;
use fws_num::{Memory, Text, put_dec, put_quad};
use fws_suggest::{Address, AddressForm, Ports, Ranges, Stop, Style, is_network};
use std::alloc::Global;

/// An address, or a network with its wildcard.
fn range_word(alloc: Global, range: Iv) -> Result<Text, Memory> {
    let mut text = Text::new(alloc);
    if range.lo == range.hi {
        text.put(b"host ")?;
        put_quad(&mut text, range.lo)?;
        return Ok(text);
    }
    put_quad(&mut text, range.lo)?;
    text.put(b" ")?;
    put_quad(&mut text, range.hi.saturating_sub(range.lo))?;
    Ok(text)
}

/// Appends the ways to write ranges of addresses. It gives up where one isn't a network.
fn put_ranges(
    choices: &mut Vec<Text>,
    alloc: Global,
    style: &Style,
    ranges: Ranges,
) -> Result<(), Stop> {
    for place in 0..style.count(ranges) {
        let range = style.range(ranges, place);
        if !is_network(range) {
            return Err(Stop::Late);
        }
        choices.push(range_word(alloc, range)?)?;
    }
    Ok(())
}

/// Appends the ways to write addresses, an entry for each.
fn put_addresses(
    choices: &mut Vec<Text>,
    alloc: Global,
    style: &Style,
    address: &Address,
) -> Result<(), Stop> {
    match address.form {
        AddressForm::Any => {
            choices.push(Text::of(alloc, b"any")?)?;
            Ok(())
        }
        AddressForm::Positive => put_ranges(choices, alloc, style, address.ranges),
        _ => Err(Stop::Late),
    }
}

/// The ways to write addresses, an entry for each.
pub(crate) fn addresses(
    alloc: Global,
    style: &Style,
    address: &Address,
) -> Result<Vec<Text>, Stop> {
    let mut choices = Vec::new(alloc);
    put_addresses(&mut choices, alloc, style, address)?;
    Ok(choices)
}

/// Appends the test of a range of ports.
fn put_port_range(out: &mut Text, range: Iv) -> Result<(), Memory> {
    if range.lo == range.hi {
        out.put(b"eq ")?;
        put_dec(out, u64::from(range.lo))
    } else if range.hi == 65535 {
        out.put(b"gt ")?;
        put_dec(out, u64::from(range.lo.saturating_sub(1)))
    } else if range.lo == 0 {
        out.put(b"lt ")?;
        put_dec(out, u64::from(range.hi.saturating_add(1)))
    } else {
        out.put(b"range ")?;
        put_dec(out, u64::from(range.lo))?;
        out.put(b" ")?;
        put_dec(out, u64::from(range.hi))
    }
}

/// The test of a range of ports, or of all but its first.
fn port_word(alloc: Global, range: Iv, is_negated: bool) -> Result<Text, Memory> {
    let mut text = Text::new(alloc);
    if is_negated {
        text.put(b"neq ")?;
        put_dec(&mut text, u64::from(range.lo))?;
    } else {
        put_port_range(&mut text, range)?;
    }
    Ok(text)
}

/// The ways to write ports, an entry for each.
pub(crate) fn port_tests(alloc: Global, ports: &Ports) -> Result<Vec<Text>, Memory> {
    let mut choices = Vec::new(alloc);
    for range in &ports.ranges {
        choices.push(port_word(alloc, *range, ports.is_negated)?)?;
    }
    Ok(choices)
}

/// Appends a protocol by its name or its number.
fn put_protocol(out: &mut Text, number: u32) -> Result<(), Memory> {
    match number {
        1 => out.put(b"icmp"),
        2 => out.put(b"igmp"),
        6 => out.put(b"tcp"),
        17 => out.put(b"udp"),
        47 => out.put(b"gre"),
        50 => out.put(b"esp"),
        51 => out.put(b"ahp"),
        89 => out.put(b"ospf"),
        _ => put_dec(out, u64::from(number)),
    }
}

/// A protocol by its name or its number.
pub(crate) fn protocol(alloc: Global, number: u32) -> Result<Text, Memory> {
    let mut text = Text::new(alloc);
    put_protocol(&mut text, number)?;
    Ok(text)
}

/// A number.
pub(crate) fn decimal(alloc: Global, number: u32) -> Result<Text, Memory> {
    let mut text = Text::new(alloc);
    put_dec(&mut text, u64::from(number))?;
    Ok(text)
}
