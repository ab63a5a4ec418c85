//! Adding an interval at the end of a list.

ghost use Rattle.std.specs.Prelude.{◌≡◌, ◌<◌, ◌≤◌, ◌+◌, ◌&&◌, ◌||◌, ℕ, [], ◌∷◌, Some, OnOk, OnErr, min, max, nat_le, nat_lt, unwrap_or};
ghost use Rattle.fws_iv.specs.declared.iv.Iv.{Iv};
ghost use Rattle.fws_iv.specs.Ivs.{in_part, has, IsRegular, last_start, least, past};

use crate::iv::Iv;
use fws_num::Memory;
use std::alloc::Allocator;

/// The larger of the two.
pub fn larger(a: u32, b: u32) -> u32
    ensures { result ≡ max a b }
{
    if a < b { b } else { a }
}

/// The smaller of the two.
pub fn smaller(a: u32, b: u32) -> u32
    ensures { result ≡ min a b }
{
    if a < b { a } else { b }
}

/// Adds the numbers from `lo` to `hi` to a list of which no interval begins past `lo`: the last interval grows where they meet or
/// touch it. If memory runs out the list is as before.
pub fn join_last<A: Allocator>(out: &mut Vec<Iv, A>, lo: u32, hi: u32) -> Result<(), Memory>
    requires order { lo ≤ hi }
    requires regular { IsRegular out.old.items }
    requires begun { last_start 0 out.old.items ≤ lo }
    ensures regular { IsRegular out.new.items }
    ensures begun { OnOk result (last_start 0 out.new.items ≤ lo) }
    ensures members { OnOk result ((v : ℕ) → has out.new.items v ≡ (has out.old.items v || in_part (record { lo = lo; hi = hi }) v)) }
    ensures first { OnOk result (least out.new.items ≡ Some (unwrap_or (least out.old.items) lo)) }
    ensures alone { OnOk result (out.old.items ≡ [] → out.new.items ≡ record { lo = lo; hi = hi } ∷ []) }
    ensures err { OnErr result (out.new.items ≡ out.old.items) }
{
    let n = out.len();
    if n > 0 && lo as u64 <= out[n - 1].hi as u64 + 1 {
        out[n - 1].hi = larger(out[n - 1].hi, hi);
    } else {
        out.push(Iv { lo, hi })?;
    }
    Ok(())
}

/// Appends the numbers from `lo` on that lie below `end`, where there are any, to a list whose last interval they don't touch. If
/// memory runs out the list is as before.
pub fn put_below<A: Allocator>(out: &mut Vec<Iv, A>, lo: u64, end: u64) -> Result<(), Memory>
    requires fits { end ≤ 4294967296 }
    requires regular { IsRegular out.old.items }
    requires room { past 0 out.old.items ≤ lo }
    ensures regular { IsRegular out.new.items }
    ensures members { OnOk result ((v : ℕ) → has out.new.items v ≡ (has out.old.items v || (nat_le lo v && nat_lt v end))) }
    ensures some { OnOk result (lo < end → past 0 out.new.items ≡ end + 1) }
    ensures none { OnOk result (end ≤ lo → past 0 out.new.items ≡ past 0 out.old.items) }
    ensures err { OnErr result (out.new.items ≡ out.old.items) }
{
    if lo < end {
        out.push(Iv {
            lo: lo as u32,
            hi: (end - 1) as u32,
        })?;
    }
    Ok(())
}
