//! Addresses by what stands for them once an end is written.

ghost use Rattle.std.specs.Prelude.{◌≡◌, ◌<◌, ◌≤◌, ◌+◌, ◌-◌, ◌%◌, ◌^◌, ◌&&◌, ◌||◌, ℕ, true, nat_le, min, IfOk, OnOk};
ghost use Rattle.fws_iv.specs.Ivs.{has, IsRegular};

use fws_iv::{Iv, Ivs, Overlap, one, overlap};
use fws_net::End;
use fws_num::Memory;
use std::alloc::Global;

/// Adds behind the others the addresses from `start` on for which the numbers of the image stand, of which
/// `base` stands for `start`.
fn add_image(out: &mut Ivs, image: &Ivs, base: u32, start: u32) -> Result<(), Memory>
    requires behind { (a v : ℕ) → has out.old a ≡ true → has image.now v ≡ true → a + base < start + v }
    requires above { (v : ℕ) → has image.now v ≡ true → base ≤ v }
    requires fits { (v : ℕ) → has image.now v ≡ true → start + v < base + 2 ^ 32 }
    ensures { OnOk result ((a : ℕ) → has out.new a ≡ (has out.old a || (nat_le start a && has image.now (base + (a - start))))) }
{
    for part in image.parts() {
        out.extend(start + (part.lo - base), start + (part.hi - base))?;
    }
    Ok(())
}

/// Adds behind the others the addresses from `lo` to `hi`, of the block that begins at `start`, for which a
/// number of the set stands.
fn add_block(
    alloc: Global,
    out: &mut Ivs,
    set: &Ivs,
    base: u32,
    start: u32,
    lo: u32,
    hi: u32,
) -> Result<(), Memory>
    requires start { start ≤ lo }
    requires order { lo ≤ hi }
    requires fits { base + (hi - start) < 2 ^ 32 }
    requires behind { (a : ℕ) → has out.old a ≡ true → a < lo }
    ensures { OnOk result ((a : ℕ) → has out.new a ≡ (has out.old a || ((nat_le lo a && nat_le a hi) && has set.now (base + (a - start))))) }
{
    let range = one(alloc, base + (lo - start), base + (hi - start))?;
    let image = set.inter(alloc, &range)?;
    add_image(out, &image, base, start)?;
    Ok(())
}

/// The last number of the block that begins at `start`, or `hi` where that comes sooner.
fn last_in_block(start: u32, size: u32, hi: u32) -> u32
    requires order { start ≤ hi }
    requires size { 0 < size }
    ensures { result ≡ min hi (start + (size - 1)) }
{
    if hi - start < size {
        hi
    } else {
        start + (size - 1)
    }
}

/// Adds behind the others the addresses from `lo` to `hi` for which a number of the set stands: `base` and
/// the rest by `size`.
fn add_range(
    alloc: Global,
    out: &mut Ivs,
    set: &Ivs,
    base: u32,
    size: u32,
    lo: u32,
    hi: u32,
) -> Result<(), Memory>
    requires order { lo ≤ hi }
    requires size { 0 < size }
    requires fits { base + (size - 1) < 2 ^ 32 }
    requires behind { (a : ℕ) → has out.old a ≡ true → a < lo }
    ensures { OnOk result ((a : ℕ) → has out.new a ≡ (has out.old a || ((nat_le lo a && nat_le a hi) && has set.now (base + a % size)))) }
{
    let mut from = lo;
    loop {
        let start = from - from % size;
        let last = last_in_block(start, size, hi);
        add_block(alloc, out, set, base, start, from, last)?;
        if last == hi {
            return Ok(());
        }
        from = last + 1;
    }
}

/// The addresses of the side for which a number of the set stands: `base` and the rest by `size`.
fn members_by_block(
    alloc: Global,
    side: &[Iv],
    set: &Ivs,
    base: u32,
    size: u32,
) -> Result<Ivs, Memory>
    requires side { IsRegular side.now }
    requires size { 0 < size }
    requires fits { base + (size - 1) < 2 ^ 32 }
    ensures { IfOk result (λ s. (a : ℕ) → has s a ≡ (has side.now a && has set.now (base + a % size))) }
{
    let mut out = Ivs::none(alloc);
    for part in side {
        add_range(alloc, &mut out, set, base, size, part.lo, part.hi)?;
    }
    Ok(out)
}

/// The addresses of the side that are in the set with the end written over them.
///
/// Where the set has all of the addresses that the end leads to, or none, the time is that of a copy. Else
/// it grows with the number of blocks of addresses, alike in their first bits, that the side reaches.
#[tactic(auto, using(crate::proofs::Blocks::end_low))]
pub(crate) fn standing_members(
    alloc: Global,
    side: &[Iv],
    end: End,
    set: &Ivs,
) -> Result<Ivs, Memory>
    requires { IsRegular side.now }
    ensures low { IfOk result (λ s. (a : ℕ) → end.addr + a % 2 ^ (32 - end.len) < 2 ^ 32) }
    ensures members { IfOk result (λ s. (a : ℕ) → has s a ≡ (has side.now a && has set.now (end.addr + a % 2 ^ (32 - end.len)))) }
{
    let size = 2u32.pow(32 - u32::from(end.len));
    match overlap(set.parts(), end.addr, end.addr + (size - 1)) {
        Overlap::Whole => Ivs::of_parts(alloc, side),
        Overlap::Apart => Ok(Ivs::none(alloc)),
        Overlap::Part => members_by_block(alloc, side, set, end.addr, size),
    }
}
