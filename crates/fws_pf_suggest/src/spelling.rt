//! Parts of statements as they are written.

use crate::names::Names;
use fws_iv::Iv;
use fws_net::Site;
use fws_num::{Memory, Text, put_dec, put_quad};
use fws_suggest::{
    Address, AddressForm, DST, Policy, Ranges, Side, Space, Stop, Style, is_network,
};
use std::alloc::Global;

/// The length of the network that a range is.
fn length_of(range: Iv) -> u32 {
    let size = range.hi.saturating_sub(range.lo);
    let mut length = 32u32;
    for bits in 0..32u32 {
        if size >> bits == 0 {
            break;
        }
        length = 31u32.saturating_sub(bits);
    }
    length
}

/// The interface whose one network the range is.
fn network_face(site: &Site, range: Iv) -> Option<u32> {
    let length = length_of(range);
    let mut entry = 2u32;
    for face in site.faces.as_slice() {
        if let [own] = face.addrs.as_slice() {
            if u32::from(own.len) == length && own.addr >= range.lo && own.addr <= range.hi {
                return Some(entry);
            }
        }
        entry = entry.saturating_add(1);
    }
    None
}

/// Appends a range of addresses.
fn put_range(names: &mut Names, out: &mut Text, range: Iv) -> Result<(), Memory> {
    if !is_network(range) {
        put_quad(out, range.lo)?;
        out.put(b" - ")?;
        return put_quad(out, range.hi);
    }
    if range.lo == range.hi {
        return put_quad(out, range.lo);
    }
    if let Some(entry) = network_face(names.site, range) {
        names.put_interface(out, entry)?;
        return out.put(b":network");
    }
    put_quad(out, range.lo)?;
    out.put(b"/")?;
    put_dec(out, u64::from(length_of(range)))
}

/// A range of addresses.
fn range_text(names: &mut Names, range: Iv) -> Result<Text, Memory> {
    let mut out = Text::new(names.alloc);
    put_range(names, &mut out, range)?;
    Ok(out)
}

/// Appends items with `{` and `}` round them where they are several.
pub(crate) fn put_list(out: &mut Text, items: &[Text]) -> Result<(), Memory> {
    if let [only] = items {
        return out.put(only.as_slice());
    }
    out.put(b"{ ")?;
    put_items(out, items)?;
    out.put(b" }")
}

/// Appends items with commas between.
fn put_items(out: &mut Text, items: &[Text]) -> Result<(), Memory> {
    let mut is_first = true;
    for item in items {
        if !is_first {
            out.put(b", ")?;
        }
        is_first = false;
        out.put(item.as_slice())?;
    }
    Ok(())
}

/// Appends the host's own addresses, or all but these.
fn put_own(names: &mut Names, out: &mut Text, not: bool) -> Result<(), Memory> {
    if not {
        let table = names.own_table()?;
        return put_table(out, true, table.as_slice());
    }
    out.put(b"{ self, ")?;
    names.put_interface(out, 1)?;
    out.put(b":network }")
}

/// All addresses of ranges, as destinations.
fn all_of(space: &mut Space, ranges: &[Iv]) -> Result<Side, Memory> {
    let mut all = Side::EMPTY;
    for range in ranges {
        let side = space.range(DST, range.lo, range.hi)?;
        all = space.either(all, side)?;
    }
    Ok(all)
}

/// The interface to which all ranges are routed, as far as they are destinations of the host's networks.
fn behind(policy: &mut Policy, ranges: &[Iv]) -> Result<Option<u32>, Memory> {
    let side = all_of(&mut policy.space, ranges)?;
    let mut found = None;
    for exit in &policy.exits {
        if policy.space.meets(side, exit.side)? {
            if found.is_some() {
                return Ok(None);
            }
            found = Some(exit.entry);
        }
    }
    Ok(found)
}

/// Appends addresses as items, with a mark of negation ahead where that is asked.
fn put_short(out: &mut Text, not: bool, items: &[Text]) -> Result<(), Memory> {
    if not {
        out.put(b"! ")?;
    }
    put_list(out, items)
}

/// Appends the name of a table, with a mark of negation ahead where that is asked.
fn put_table(out: &mut Text, not: bool, name: &[u8]) -> Result<(), Memory> {
    out.put(if not { b"! <" } else { b"<" })?;
    out.put(name)?;
    out.put(b">")
}

/// Appends addresses as a table.
fn put_as_table(
    names: &mut Names,
    out: &mut Text,
    policy: &mut Policy,
    not: bool,
    ranges: &[Iv],
    items: &[Text],
) -> Result<(), Memory> {
    let mut members = Text::new(names.alloc);
    put_items(&mut members, items)?;
    let entry = behind(policy, ranges)?;
    let table = names.table(members, entry)?;
    put_table(out, not, table.as_slice())
}

/// Appends ranges of addresses: in a list, or in a table where they are many or negated.
fn put_ranges(
    names: &mut Names,
    out: &mut Text,
    policy: &mut Policy,
    not: bool,
    ranges: &[Iv],
) -> Result<(), Memory> {
    let mut items = Vec::new(names.alloc);
    for range in ranges {
        items.push(range_text(names, *range)?)?;
    }
    if items.len() == 1 || (!not && items.len() <= 3) {
        return put_short(out, not, &items);
    }
    put_as_table(names, out, policy, not, ranges, &items)
}

/// The ranges at a place of a style.
fn ranges_of(alloc: Global, style: &Style, place: Ranges) -> Result<Vec<Iv>, Memory> {
    let mut ranges = Vec::new(alloc);
    for number in 0..style.count(place) {
        ranges.push(style.range(place, number))?;
    }
    Ok(ranges)
}

/// Appends addresses.
pub(crate) fn put_addresses(
    names: &mut Names,
    out: &mut Text,
    policy: &mut Policy,
    style: &Style,
    address: &Address,
) -> Result<(), Stop> {
    let not = match address.form {
        AddressForm::Any => return Ok(out.put(b"any")?),
        AddressForm::Positive => false,
        AddressForm::Negated => true,
        AddressForm::Mixed | AddressForm::WithLocal => return Err(Stop::Late),
    };
    if address.is_local {
        return Ok(put_own(names, out, not)?);
    }
    let ranges = ranges_of(names.alloc, style, address.ranges)?;
    Ok(put_ranges(names, out, policy, not, &ranges)?)
}

/// A port, or two with a colon between.
fn port_text(alloc: Global, range: Iv) -> Result<Text, Memory> {
    let mut out = number(alloc, range.lo)?;
    if range.lo != range.hi {
        out.put(b":")?;
        put_dec(&mut out, u64::from(range.hi))?;
    }
    Ok(out)
}

/// Appends ranges of ports behind ` port `.
pub(crate) fn put_ports(alloc: Global, out: &mut Text, ranges: &[Iv]) -> Result<(), Memory> {
    let mut items = Vec::new(alloc);
    for range in ranges {
        items.push(port_text(alloc, *range)?)?;
    }
    out.put(b" port ")?;
    put_list(out, &items)
}

/// A number in decimal.
pub(crate) fn number(alloc: Global, value: u32) -> Result<Text, Memory> {
    let mut out = Text::new(alloc);
    put_dec(&mut out, u64::from(value))?;
    Ok(out)
}

/// A protocol by its name or its number.
pub(crate) fn protocol_name(alloc: Global, number: u32) -> Result<Text, Memory> {
    let mut out = Text::new(alloc);
    put_protocol(&mut out, number)?;
    Ok(out)
}

/// Appends a protocol by its name or its number.
fn put_protocol(out: &mut Text, number: u32) -> Result<(), Memory> {
    match number {
        1 => out.put(b"icmp"),
        2 => out.put(b"igmp"),
        6 => out.put(b"tcp"),
        17 => out.put(b"udp"),
        47 => out.put(b"gre"),
        50 => out.put(b"esp"),
        51 => out.put(b"ah"),
        89 => out.put(b"ospf"),
        _ => put_dec(out, u64::from(number)),
    }
}

/// Appends the letters of flags.
pub(crate) fn put_flags(out: &mut Text, flags: u32) -> Result<(), Memory> {
    let letters: [(u32, &[u8]); 6] = [
        (1, b"F"),
        (2, b"S"),
        (4, b"R"),
        (8, b"P"),
        (16, b"A"),
        (32, b"U"),
    ];
    for (bit, letter) in letters {
        if flags & bit != 0 {
            out.put(letter)?;
        }
    }
    Ok(())
}
