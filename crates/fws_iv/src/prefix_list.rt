//! Sets of addresses as prefixes.

ghost use Rattle.std.specs.Prelude.{◌≡◌, ◌<◌, ◌≤◌, ◌⊎◌, ℕ, ◌+◌, ◌*◌, ◌%◌, ◌^◌, length, All, IfOk, OnOk};
ghost use Rattle.fws_iv.specs.Ivs.{has};
ghost use Rattle.fws_iv.specs.Prefixes.{some_prefix_has, AddsRange, AscendFrom, EndBy, IsBlock};

use crate::ivs::Ivs;
use fws_num::{Memory, Prefix};
use std::alloc::Global;

/// Appends the prefix of the `2 ^ bits` addresses from `from` on, and gives the number behind them. If memory runs out the list is
/// as before.
fn put_block(out: &mut Vec<Prefix>, from: u64, bits: u32) -> Result<u64, Memory>
    requires bits { bits ≤ 32 }
    requires aligned { from % 2 ^ bits ≡ 0 }
    requires fits { from + 2 ^ bits ≤ 2 ^ 32 }
    requires room { EndBy from out.old.items }
    ensures next { IfOk result (λ next. next ≡ from + 2 ^ bits) }
    ensures ends { OnOk result (EndBy (from + 2 ^ bits) out.new.items) }
    ensures members { OnOk result (AddsRange out.old.items out.new.items from (from + 2 ^ bits)) }
    ensures count { OnOk result (length out.new.items ≡ length out.old.items + 1) }
{
    out.push(Prefix {
        addr: from as u32,
        len: (32 - bits) as u8,
    })?;
    Ok(from + 2u64.pow(bits))
}

/// Appends the prefixes of blocks of which each is larger than the one before, from `from` on, up to
/// the first that would end past `end`; gives the number behind them.
fn put_growing(out: &mut Vec<Prefix>, from: u64, end: u64) -> Result<u64, Memory>
    requires order { from ≤ end }
    requires fits { end ≤ 2 ^ 32 }
    requires room { EndBy from out.old.items }
    ensures order { IfOk result (λ next. (from ≤ next) × (next ≤ end)) }
    ensures ends { IfOk result (λ next. EndBy next out.new.items) }
    ensures members { IfOk result (λ next. AddsRange out.old.items out.new.items from next) }
    ensures aligned { IfOk result (λ next. (bits : ℕ) → next + 2 ^ bits ≤ end → next % 2 ^ bits ≡ 0) }
    ensures near { IfOk result (λ next. (next ≡ 0) ⊎ (end < next + 2 ^ 31)) }
    ensures few { IfOk result (λ next. length out.new.items + from ≤ length out.old.items + next) }
    ensures all { OnOk result (length out.new.items ≤ length out.old.items + 32) }
    ensures short { IfOk result (λ next. next < end → length out.new.items ≤ length out.old.items + 31) }
{
    let mut next = from;
    for bits in 0..32u32 {
        if next % 2u64.pow(bits + 1) == 0 {
            continue;
        }
        if next + 2u64.pow(bits) > end {
            return Ok(next);
        }
        next = put_block(out, next, bits)?;
    }
    Ok(next)
}

/// Appends the prefixes of blocks of which each is smaller than the one before, from `from` to the
/// one before `end`, where a block that still fits begins at a multiple of its size.
fn put_shrinking(out: &mut Vec<Prefix>, from: u64, end: u64) -> Result<(), Memory>
    requires order { from ≤ end }
    requires fits { end ≤ 2 ^ 32 }
    requires aligned { (bits : ℕ) → from + 2 ^ bits ≤ end → from % 2 ^ bits ≡ 0 }
    requires room { EndBy from out.old.items }
    ensures ends { OnOk result (EndBy end out.new.items) }
    ensures members { OnOk result (AddsRange out.old.items out.new.items from end) }
    ensures few { OnOk result ((bits : ℕ) → bits ≤ 33 → end < from + 2 ^ bits → length out.new.items ≤ length out.old.items + bits) }
{
    let mut next = from;
    let mut bits = 33;
    while bits > 0 {
        bits -= 1;
        if next + 2u64.pow(bits) <= end {
            next = put_block(out, next, bits)?;
        }
    }
    Ok(())
}

/// Appends the prefixes of the addresses from `from` to the one before `end`.
fn put_range(out: &mut Vec<Prefix>, from: u64, end: u64) -> Result<(), Memory>
    requires order { from ≤ end }
    requires fits { end ≤ 2 ^ 32 }
    requires room { EndBy from out.old.items }
    ensures ends { OnOk result (EndBy end out.new.items) }
    ensures members { OnOk result (AddsRange out.old.items out.new.items from end) }
    ensures few { OnOk result (length out.new.items ≤ length out.old.items + 62) }
{
    let next = put_growing(out, from, end)?;
    put_shrinking(out, next, end)?;
    Ok(())
}

/// The prefixes of a set of addresses, ascending: of each interval the longest blocks from its first address on. The time is linear
/// in the number of prefixes. Fails if memory runs out.
pub fn prefixes(alloc: Global, set: &Ivs) -> Result<Vec<Prefix>, Memory>
    ensures members { IfOk result (λ ps. (v : ℕ) → some_prefix_has ps.items v ≡ has set.now v) }
    ensures sound { IfOk result (λ ps. All IsBlock ps.items) }
    ensures ascending { IfOk result (λ ps. AscendFrom 0 ps.items) }
    ensures few { IfOk result (λ ps. length ps.items ≤ 62 * length set.now) }
{
    let mut out = Vec::new(alloc);
    for part in set.parts() {
        put_range(&mut out, u64::from(part.lo), u64::from(part.hi) + 1)?;
    }
    Ok(out)
}
