//! Routes as sets of addresses.

ghost use Rattle.std.specs.Prelude.{◌≡◌, ℕ, ◌+◌, ◌<◌, ◌≤◌, ◌^◌, ◌++◌, ◌&&◌, ◌||◌, nat_eq, nat_lt, length, map, IfOk, OnOk};
ghost use Rattle.std.specs.List.{list_all};
ghost use Rattle.fws_iv.specs.Ivs.{has, AreRanges};
ghost use Rattle.fws_iv.specs.Prefixes.{agree, IsBlock};
ghost use Rattle.fws_net.specs.RouteSets.{leads_alike, is_within, is_block, nets_within, block_entry, first_half, second_half, AreFrom};
ghost use Rattle.fws_net.specs.Routes.{led_to, net_line, nets_from, prefixes_of, route_of, IsSound};

use crate::routes::{FIRST_ENTRY, agree, net_line};
use crate::site::{Address, Iface, RouteLine, Site};
use fws_iv::{Iv, Ivs};
use fws_num::{Memory, Prefix};
use std::alloc::Global;

/// All addresses.
const EVERYWHERE: Prefix = Prefix { addr: 0, len: 0 };

/// Appends the networks of an interface's addresses.
fn put_nets(lines: &mut Vec<RouteLine>, entry: u8, addrs: &[Address]) -> Result<(), Memory>
    ensures { OnOk result (lines.new.items ≡ lines.old.items ++ map (net_line entry) addrs.now) }
{
    for own in addrs {
        lines.push(net_line(entry, *own))?;
    }
    Ok(())
}

/// The networks of the interfaces' addresses.
fn nets(alloc: Global, faces: &[Iface]) -> Result<Vec<RouteLine>, Memory>
    requires { length faces.now ≤ 62 }
    ensures { IfOk result (λ lines. lines.items ≡ nets_from 2 faces.now) }
{
    let mut lines = Vec::new(alloc);
    let mut entry = FIRST_ENTRY;
    for face in faces {
        put_nets(&mut lines, entry, face.addrs.as_slice())?;
        entry += 1;
    }
    Ok(lines)
}

/// The prefixes of the site.
fn prefixes(alloc: Global, site: &Site) -> Result<Vec<RouteLine>, Memory>
    requires { IsSound site.now }
    ensures { IfOk result (λ lines. lines.items ≡ prefixes_of site.now) }
{
    let mut lines = nets(alloc, site.faces.as_slice())?;
    lines.extend_from_slice(site.routes.as_slice())?;
    Ok(lines)
}

/// Whether the network begins with the bits of the block, and is longer.
fn is_within(block: Prefix, line: RouteLine) -> bool
    ensures { result ≡ is_within block line }
{
    block.len < line.net.len && agree(block.len, block.addr, line.net.addr)
}

/// Whether the network is the block.
fn is_block(block: Prefix, line: RouteLine) -> bool
    ensures { result ≡ is_block block line }
{
    line.net.len == block.len && agree(block.len, block.addr, line.net.addr)
}

/// The networks within the block that are longer.
fn nets_within(alloc: Global, block: Prefix, lines: &[RouteLine]) -> Result<Vec<RouteLine>, Memory>
    ensures { IfOk result (λ kept. kept.items ≡ nets_within block lines.now) }
{
    let mut kept = Vec::new(alloc);
    for line in lines {
        if is_within(block, *line) {
            kept.push(*line)?;
        }
    }
    Ok(kept)
}

/// The entry number to which the first network that is the block leads, else another one.
fn block_entry(block: Prefix, lines: &[RouteLine], other: u8) -> u8
    ensures { result ≡ block_entry block lines.now other }
{
    for line in lines {
        if is_block(block, *line) {
            return line.face;
        }
    }
    other
}

/// Whether the network leads to the entry if that is asked, and to another one if not.
fn leads_alike(line: RouteLine, entry: u8, is_asked: bool) -> bool
    ensures { result ≡ leads_alike entry is_asked line }
{
    (line.face == entry) == is_asked
}

/// Whether all of the networks lead to the entry if that is asked, and none of them if not.
fn all_lead_alike(lines: &[RouteLine], entry: u8, is_asked: bool) -> bool
    ensures { result ≡ list_all (leads_alike entry is_asked) lines.now }
{
    lines.iter().all(|line| leads_alike(*line, entry, is_asked))
}

/// The addresses of the block whose next bit is 0.
fn first_half(block: Prefix) -> Prefix
    requires { block.len < 32 }
    ensures { result ≡ first_half block }
{
    Prefix {
        addr: block.addr,
        len: block.len + 1,
    }
}

/// The addresses of the block whose next bit is 1.
fn second_half(block: Prefix) -> Prefix
    requires short { block.len < 32 }
    requires block { IsBlock block }
    ensures { result ≡ second_half block }
{
    Prefix {
        addr: block.addr + 2u32.pow(31 - u32::from(block.len)),
        len: block.len + 1,
    }
}

/// Appends the block's addresses, where they are asked for.
fn put_range(ranges: &mut Vec<Iv>, block: Prefix, is_asked: bool) -> Result<(), Memory>
    requires block { IsBlock block }
    requires ranges { AreRanges ranges.old.items }
    ensures members { OnOk result ((v : ℕ) → has ranges.new.items v ≡ (has ranges.old.items v || (agree block.len block.addr v && is_asked))) }
    ensures ranges { OnOk result (AreRanges ranges.new.items) }
{
    if is_asked {
        ranges.push(Iv {
            lo: block.addr,
            hi: block.last(),
        })?;
    }
    Ok(())
}

/// Appends the addresses of the block that are led to the entry: by the longest network that holds
/// them, or to the other entry where none does. Every network is as long as the block or longer. A
/// block is divided where some of its addresses may be led to the entry and others not.
fn put_block(
    alloc: Global,
    ranges: &mut Vec<Iv>,
    block: Prefix,
    lines: &[RouteLine],
    other: u8,
    entry: u8,
) -> Result<(), Memory>
    requires block { IsBlock block }
    requires lines { AreFrom block.len lines.now }
    requires ranges { AreRanges ranges.old.items }
    ensures members { OnOk result ((v : ℕ) → has ranges.new.items v ≡ (has ranges.old.items v || (agree block.len block.addr v && nat_eq (led_to lines.now other v) entry))) }
    ensures ranges { OnOk result (AreRanges ranges.new.items) }
{
    let longer = nets_within(alloc, block, lines)?;
    let rest = block_entry(block, lines, other);
    let is_asked = rest == entry;
    if all_lead_alike(&longer, entry, is_asked) {
        put_range(ranges, block, is_asked)?;
        return Ok(());
    }
    put_block(alloc, ranges, first_half(block), &longer, rest, entry)?;
    put_block(alloc, ranges, second_half(block), &longer, rest, entry)?;
    Ok(())
}

/// The addresses for which packets are sent to the interface with this entry number: those that the site's longest prefix leads to
/// it, and for the default interface those that no prefix holds. The time is nearly linear in the number of prefixes. Fails if
/// memory runs out.
pub fn route_set(alloc: Global, site: &Site, entry: u8) -> Result<Ivs, Memory>
    requires { IsSound site.now }
    ensures { IfOk result (λ s. (a : ℕ) → has s a ≡ (nat_eq (route_of site.now a) entry && nat_lt a (2 ^ 32))) }
{
    let lines = prefixes(alloc, site)?;
    let mut ranges = Vec::new(alloc);
    put_block(alloc, &mut ranges, EVERYWHERE, &lines, site.fallback, entry)?;
    Ivs::of_ranges(alloc, &ranges)
}
