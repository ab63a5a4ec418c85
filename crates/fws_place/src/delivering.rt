//! Destinations that are local once an end is written over them.

ghost use Rattle.std.specs.Prelude.{◌≡◌, ℕ, ◌+◌, ◌-◌, ◌%◌, ◌^◌, ◌<◌, ◌≤◌, MatchOption};
ghost use Rattle.fws_iv.specs.Ivs.{has};
ghost use Rattle.fws_net.specs.Fates.{written_addr};
ghost use Rattle.fws_place.specs.Delivered.{is_kept_local, IsFoundFirst, IsFoundIn, IsFoundWritten, IsIn};

use crate::values::next_value;
use fws_iv::Ivs;
use fws_net::End;

// The first destination from a place of a block on that is local once its rest stands behind the address. A block holds
// as many addresses as the rest has values.
fn first_in_block(local: &Ivs, addr: u32, size: u64, block: u64, from: u64) -> Option<u64>
    requires fits { addr + size ≤ 2 ^ 32 }
    requires from { from < size }
    requires aligned { block % size ≡ 0 }
    requires low { block ≤ 2 ^ 33 }
    ensures { IsFoundFirst (is_kept_local local.now addr size) (block + from) (block + size) result }
{
    let begin = addr as u64;
    let top = (begin + size - 1) as u32;
    match next_value(local, begin + from, top) {
        Some(value) => Some(block + (value as u64 - begin)),
        None => None,
    }
}

// The number, if it is no greater than the bound.
fn up_to(d: u64, bound: u32) -> Option<u32>
    ensures { MatchOption result (bound < d) (λ x. (x ≡ d) × (d ≤ bound) × (x < 2 ^ 32)) }
{
    if d <= bound as u64 {
        return Some(d as u32);
    }
    None
}

/// The first destination of the range that is local once its rest stands behind the address.
pub(crate) fn kept_local(local: &Ivs, addr: u32, size: u64, lo: u32, hi: u32) -> Option<u32>
    requires some { 0 < size }
    requires fits { addr + size ≤ 2 ^ 32 }
    ensures { IsIn (is_kept_local local.now addr size) lo hi result }
{
    let from = lo as u64 % size;
    let block = lo as u64 - from;
    if let Some(d) = first_in_block(local, addr, size, block, from) {
        return up_to(d, hi);
    }
    match first_in_block(local, addr, size, block + size, 0) {
        Some(d) => up_to(d, hi),
        None => None,
    }
}

// A destination of the side that is local once its rest stands behind the address.
fn kept_local_of(local: &Ivs, addr: u32, size: u64, side: &Ivs) -> Option<u32>
    requires some { 0 < size }
    requires fits { addr + size ≤ 2 ^ 32 }
    ensures { IsFoundIn (is_kept_local local.now addr size) side.now result }
{
    for part in side.parts() {
        if let Some(d) = kept_local(local, addr, size, part.lo, part.hi) {
            return Some(d);
        }
    }
    None
}

/// How many addresses have the bits that an end writes.
pub(crate) fn size_of(addr: u32, len: u8) -> u64
    requires low { len ≤ 32 }
    requires clear { addr % 2 ^ (32 - len) ≡ 0 }
    ensures size { result ≡ 2 ^ (32 - len) }
    ensures fits { addr + result ≤ 2 ^ 32 }
{
    2u64.pow((32 - len) as u32)
}

/// Does nothing: the clause is that an end writes an address over an address.
pub(crate) fn writes_addresses(end: Option<End>)
    ensures { (d : ℕ) → d < 2 ^ 32 → written_addr end d < 2 ^ 32 }
{
    if let Some(end) = end {
        let _size = size_of(end.addr, end.len);
    }
}

/// A destination of the side that is local once the end is written over it. The work is that of the side's ranges.
pub(crate) fn local_of(local: &Ivs, end: Option<End>, side: &Ivs) -> Option<u32>
    ensures { IsFoundWritten local.now end side.now result }
{
    match end {
        None => kept_local_of(local, 0, 4_294_967_296, side),
        Some(end) => kept_local_of(local, end.addr, size_of(end.addr, end.len), side),
    }
}
