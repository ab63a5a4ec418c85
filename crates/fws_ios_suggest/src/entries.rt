//! The entries of lists.

use crate::words::{addresses, decimal, port_tests, protocol};
use fws_iv::Iv;
use fws_num::Memory;
use fws_suggest::{
    DPORT, DST, FLAGS, ICMP, PROTO, Phrases, Policy, Region, SPORT, SRC, Side, Space, Stop, Style,
};
use std::alloc::Global;

/// The last value of a range that entries may name.
fn last_of(range: Iv) -> u32 {
    range.hi.min(range.lo.saturating_add(255))
}

/// The values of a side, as many as entries may name.
fn values_of(alloc: Global, space: &Space, field: usize, side: Side) -> Result<Vec<u32>, Memory> {
    let parts = space.parts(field, side)?;
    let mut values = Vec::new(alloc);
    for part in &parts {
        for value in part.lo..=last_of(*part) {
            values.push(value)?;
        }
    }
    Ok(values)
}

/// Appends protocols as choices.
fn choose_protocols(out: &mut Phrases, alloc: Global, numbers: &[u32]) -> Result<(), Stop> {
    let mut choices = Vec::new(alloc);
    for number in numbers {
        choices.push(protocol(alloc, *number)?)?;
    }
    out.choose(&choices)
}

/// Appends the protocols.
fn put_protocols(out: &mut Phrases, policy: &Policy, side: Side) -> Result<(), Stop> {
    if side == policy.space.full(PROTO) {
        out.put(b"ip")?;
        return Ok(());
    }
    let numbers = values_of(policy.alloc, &policy.space, PROTO, side)?;
    choose_protocols(out, policy.alloc, &numbers)
}

/// Appends the source.
fn put_source(
    out: &mut Phrases,
    policy: &mut Policy,
    style: &mut Style,
    side: Side,
) -> Result<(), Stop> {
    let source = style.source(&mut policy.space, side)?;
    let choices = addresses(policy.alloc, style, &source)?;
    out.choose(&choices)
}

/// Appends the destination.
fn put_destination(
    out: &mut Phrases,
    policy: &mut Policy,
    style: &mut Style,
    side: Side,
) -> Result<(), Stop> {
    let destination = style.destination(&mut policy.space, side)?;
    let choices = addresses(policy.alloc, style, &destination.address)?;
    out.choose(&choices)
}

/// Appends the ways to write the ports of a side.
fn choose_ports(
    out: &mut Phrases,
    policy: &mut Policy,
    style: &Style,
    field: usize,
    side: Side,
) -> Result<(), Stop> {
    let ports = style.ports(&mut policy.space, field, side)?;
    let choices = port_tests(policy.alloc, &ports)?;
    out.choose(&choices)
}

/// Appends the ports of a field, where some are asked.
fn put_ports(
    out: &mut Phrases,
    policy: &mut Policy,
    style: &Style,
    field: usize,
    side: Side,
) -> Result<(), Stop> {
    if side == policy.space.full(field) {
        return Ok(());
    }
    choose_ports(out, policy, style, field, side)
}

/// Appends ICMP types as choices.
fn choose_types(out: &mut Phrases, alloc: Global, types: &[u32]) -> Result<(), Stop> {
    let mut choices = Vec::new(alloc);
    for number in types {
        choices.push(decimal(alloc, *number)?)?;
    }
    out.choose(&choices)
}

/// Appends the ICMP types, where some are asked.
fn put_types(out: &mut Phrases, policy: &Policy, side: Side) -> Result<(), Stop> {
    if side == policy.space.full(ICMP) {
        return Ok(());
    }
    let types = values_of(policy.alloc, &policy.space, ICMP, side)?;
    choose_types(out, policy.alloc, &types)
}

/// Whether flags are those that `established` asks for: of which ACK or RST is set.
fn are_later(space: &Space, side: Side) -> Result<bool, Memory> {
    let values = space.values(FLAGS, side)?;
    for flags in 0..64u32 {
        if values.has(flags) != (flags & 20 != 0) {
            return Ok(false);
        }
    }
    Ok(true)
}

/// Appends the flags, where some are asked. It gives up where these aren't those that `established` asks for.
fn put_flags(out: &mut Phrases, policy: &Policy, side: Side) -> Result<(), Stop> {
    if side == policy.space.full(FLAGS) {
        return Ok(());
    }
    if !are_later(&policy.space, side)? {
        return Err(Stop::Late);
    }
    out.put(b"established")?;
    Ok(())
}

/// Appends what entries say of the packets of a region.
fn put_region(
    out: &mut Phrases,
    policy: &mut Policy,
    style: &mut Style,
    region: &Region,
) -> Result<(), Stop> {
    put_protocols(out, policy, region.side(PROTO))?;
    put_source(out, policy, style, region.side(SRC))?;
    put_ports(out, policy, style, SPORT, region.side(SPORT))?;
    put_destination(out, policy, style, region.side(DST))?;
    put_ports(out, policy, style, DPORT, region.side(DPORT))?;
    put_types(out, policy, region.side(ICMP))?;
    put_flags(out, policy, region.side(FLAGS))
}

/// What entries say of the packets of a region, behind `permit` or `deny`.
pub(crate) fn body(
    policy: &mut Policy,
    style: &mut Style,
    region: &Region,
) -> Result<Phrases, Stop> {
    let mut out = Phrases::new(policy.alloc)?;
    put_region(&mut out, policy, style, region)?;
    Ok(out)
}
