//! What a statement asks of packets.

use crate::names::Names;
use crate::spelling::{number, protocol_name, put_addresses, put_flags, put_list, put_ports};
use fws_num::{Memory, Text};
use fws_suggest::{
    DPORT, DST, ENTRY, FLAGS, FlagCube, ICMP, PROTO, Policy, Ranges, Region, SPORT, SRC, Side,
    Space, Stop, Style, TAG,
};
use std::alloc::Global;

/// What a statement asks: what stands ahead of the options of its kind, and these in all ways that are needed.
#[derive(Drop)]
pub(crate) struct Parts {
    /// The interface, the protocol, and the addresses and ports.
    pub(crate) body: Text,
    /// Flags, ICMP types and tags, once for each statement.
    pub(crate) tails: Vec<Text>,
}

/// The values of a side, as many as a statement may name.
fn values_of(alloc: Global, space: &Space, field: usize, side: Side) -> Result<Vec<u32>, Memory> {
    let mut values = Vec::new(alloc);
    for part in &space.parts(field, side)? {
        for value in part.lo..=part.hi.min(part.lo.saturating_add(255)) {
            values.push(value)?;
        }
    }
    Ok(values)
}

/// How many of the entries aren't meant.
fn count_others(meant: &[u32], all: &[u32]) -> usize {
    all.iter().filter(|entry| !meant.contains(*entry)).count()
}

/// The first of the entries that isn't meant.
fn first_other(meant: &[u32], all: &[u32]) -> Option<u32> {
    all.iter().find(|entry| !meant.contains(*entry)).copied()
}

/// Appends interfaces in a list, if they are several.
fn put_entries(names: &mut Names, out: &mut Text, entries: &[u32]) -> Result<(), Memory> {
    let mut items = Vec::new(names.alloc);
    for entry in entries {
        items.push(names.interface(*entry)?)?;
    }
    put_list(out, &items)
}

/// Appends interfaces behind `on`, with a blank behind them: nothing where all are meant, or none.
fn put_interfaces(
    names: &mut Names,
    out: &mut Text,
    meant: &[u32],
    all: &[u32],
) -> Result<(), Memory> {
    let Some(other) = first_other(meant, all) else {
        return Ok(());
    };
    if meant.is_empty() {
        return Ok(());
    }
    if meant.len() > 1 && count_others(meant, all) == 1 {
        out.put(b"on ! ")?;
        names.put_interface(out, other)?;
    } else {
        out.put(b"on ")?;
        put_entries(names, out, meant)?;
    }
    out.put(b" ")
}

/// Appends the interfaces where packets come in.
fn put_entry(names: &mut Names, out: &mut Text, policy: &Policy, side: Side) -> Result<(), Memory> {
    if side == policy.space.full(ENTRY) {
        return Ok(());
    }
    let mut meant = Vec::new(names.alloc);
    for entry in &values_of(names.alloc, &policy.space, ENTRY, side)? {
        if *entry > 0 {
            meant.push(*entry)?;
        }
    }
    let mut all = Vec::new(names.alloc);
    for entry in 1..policy.entries {
        all.push(entry)?;
    }
    put_interfaces(names, out, &meant, &all)
}

/// Appends the interfaces where packets leave.
fn put_exits(
    names: &mut Names,
    out: &mut Text,
    policy: &mut Policy,
    style: &Style,
    exits: Ranges,
) -> Result<(), Memory> {
    let mut meant = Vec::new(names.alloc);
    for place in 0..style.count(exits) {
        meant.push(style.range(exits, place).lo)?;
    }
    let mut all = Vec::new(names.alloc);
    for exit in &policy.exits {
        if policy.space.meets(exit.side, style.universe)? {
            all.push(exit.entry)?;
        }
    }
    put_interfaces(names, out, &meant, &all)
}

/// Appends protocols behind `proto`, with a blank behind them.
fn put_protocols(names: &Names, out: &mut Text, space: &Space, side: Side) -> Result<(), Memory> {
    if side == space.full(PROTO) {
        return Ok(());
    }
    let mut items = Vec::new(names.alloc);
    for value in &values_of(names.alloc, space, PROTO, side)? {
        items.push(protocol_name(names.alloc, *value)?)?;
    }
    out.put(b"proto ")?;
    put_list(out, &items)?;
    out.put(b" ")
}

/// Appends the ports of a field, where some are asked.
fn put_port_test(
    names: &Names,
    out: &mut Text,
    policy: &mut Policy,
    style: &Style,
    field: usize,
    side: Side,
) -> Result<(), Stop> {
    if side == policy.space.full(field) {
        return Ok(());
    }
    let ports = style.ports(&mut policy.space, field, side)?;
    if ports.is_negated {
        return Err(Stop::Late);
    }
    Ok(put_ports(names.alloc, out, ports.ranges.as_slice())?)
}

/// The addresses and ports of one end.
fn hosts_of(
    names: &mut Names,
    policy: &mut Policy,
    style: &mut Style,
    region: &Region,
    is_source: bool,
) -> Result<Text, Stop> {
    let mut out = Text::new(names.alloc);
    let (address, field) = if is_source {
        (style.source(&mut policy.space, region.side(SRC))?, SPORT)
    } else {
        let destination = style.destination(&mut policy.space, region.side(DST))?;
        (destination.address, DPORT)
    };
    put_addresses(names, &mut out, policy, style, &address)?;
    put_port_test(names, &mut out, policy, style, field, region.side(field))?;
    Ok(out)
}

/// Appends the test of ICMP types, with a blank ahead of it.
fn put_types(alloc: Global, out: &mut Text, space: &Space, side: Side) -> Result<(), Memory> {
    if side == space.full(ICMP) {
        return Ok(());
    }
    let mut items = Vec::new(alloc);
    for value in &values_of(alloc, space, ICMP, side)? {
        items.push(number(alloc, *value)?)?;
    }
    out.put(b" icmp-type ")?;
    put_list(out, &items)
}

/// Appends the test of the tag, with a blank ahead of it.
fn put_tag_test(out: &mut Text, space: &Space, side: Side) -> Result<(), Memory> {
    if side == space.full(TAG) {
        return Ok(());
    }
    let is_tagged = space.values(TAG, side)?.has(1);
    out.put(if is_tagged {
        b" tagged RDR"
    } else {
        b" ! tagged RDR"
    })
}

/// A test of flags, with a blank ahead of it, and what stands behind it.
fn flag_tail(alloc: Global, cube: FlagCube, behind: &[u8]) -> Result<Text, Memory> {
    let mut tail = Text::of(alloc, b" flags ")?;
    put_flags(&mut tail, cube.want)?;
    tail.put(b"/")?;
    put_flags(&mut tail, cube.mask)?;
    tail.put(behind)?;
    Ok(tail)
}

/// The tests of flags, each with what stands behind it.
fn flag_tails(
    alloc: Global,
    space: &Space,
    style: &Style,
    side: Side,
    behind: &[u8],
) -> Result<Vec<Text>, Stop> {
    let flags = style.flags(space, side)?;
    if flags.is_negated {
        return Err(Stop::Late);
    }
    let mut tails = Vec::new(alloc);
    for cube in &flags.cubes {
        tails.push(flag_tail(alloc, *cube, behind)?)?;
    }
    Ok(tails)
}

/// What stands behind the addresses.
fn tails_of(
    alloc: Global,
    space: &Space,
    style: &Style,
    region: &Region,
) -> Result<Vec<Text>, Stop> {
    let mut behind = Text::new(alloc);
    put_types(alloc, &mut behind, space, region.side(ICMP))?;
    put_tag_test(&mut behind, space, region.side(TAG))?;
    let flags = region.side(FLAGS);
    if flags != space.full(FLAGS) {
        return flag_tails(alloc, space, style, flags, behind.as_slice());
    }
    let mut tails = Vec::new(alloc);
    tails.push(behind)?;
    Ok(tails)
}

/// Appends the interfaces where packets leave, which go with the destinations of a region.
fn put_leaving(
    names: &mut Names,
    out: &mut Text,
    policy: &mut Policy,
    style: &mut Style,
    region: &Region,
) -> Result<(), Stop> {
    let destination = style.destination(&mut policy.space, region.side(DST))?;
    if let Some(exits) = destination.exits {
        put_exits(names, out, policy, style, exits)?;
    }
    Ok(())
}

/// Appends both ends, in one word where all are meant.
fn put_ends(out: &mut Text, source: &[u8], destination: &[u8]) -> Result<(), Memory> {
    if source == b"any".as_slice() && destination == b"any".as_slice() {
        return out.put(b"all");
    }
    out.put(b"from ")?;
    out.put(source)?;
    out.put(b" to ")?;
    out.put(destination)
}

/// Appends what stands ahead of the options of a statement's kind.
fn put_body(
    names: &mut Names,
    out: &mut Text,
    policy: &mut Policy,
    style: &mut Style,
    region: &Region,
    is_leaving: bool,
) -> Result<(), Stop> {
    if is_leaving {
        put_leaving(names, out, policy, style, region)?;
    } else {
        put_entry(names, out, policy, region.side(ENTRY))?;
    }
    put_protocols(names, out, &policy.space, region.side(PROTO))?;
    let source = hosts_of(names, policy, style, region, true)?;
    let destination = hosts_of(names, policy, style, region, false)?;
    Ok(put_ends(out, source.as_slice(), destination.as_slice())?)
}

/// What a statement asks of the packets of a region: by the interface where they come in, or by the one where they leave.
pub(crate) fn parts_of(
    names: &mut Names,
    policy: &mut Policy,
    style: &mut Style,
    region: &Region,
    is_leaving: bool,
) -> Result<Parts, Stop> {
    let mut body = Text::new(names.alloc);
    put_body(names, &mut body, policy, style, region, is_leaving)?;
    let tails = tails_of(names.alloc, &policy.space, style, region)?;
    Ok(Parts { body, tails })
}
