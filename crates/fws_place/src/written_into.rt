//! Addresses that are members of a set once an end is written over them.

ghost use Rattle.std.specs.Prelude.{◌≡◌, ◌+◌, ◌^◌, ◌<◌, ◌≤◌, not, ℕ, IfOk};
ghost use Rattle.fws_iv.specs.Ivs.{has};
ghost use Rattle.fws_net.specs.Fates.{written_addr};
ghost use Rattle.fws_place.specs.Delivered.{is_kept_local};

use crate::delivering::{kept_local, size_of};
use fws_iv::{Ivs, one};
use fws_net::End;
use fws_num::Memory;
use std::alloc::Global;

// The addresses that are members once their rest by the size stands behind the address; all others are members of the
// other set. The time grows with the ranges of the result.
fn kept_set(alloc: Global, set: &Ivs, others: &Ivs, addr: u32, size: u64) -> Result<Ivs, Memory>
    requires some { 0 < size }
    requires fits { addr + size ≤ 2 ^ 32 }
    requires others { (v : ℕ) → v < 2 ^ 32 → has others.now v ≡ not (has set.now v) }
    ensures { IfOk result (λ s. (d : ℕ) → d < 2 ^ 32 → has s d ≡ is_kept_local set.now addr size d) }
{
    let mut out = Ivs::none(alloc);
    let mut from: u32 = 0;
    while let Some(lo) = kept_local(set, addr, size, from, u32::MAX) {
        match kept_local(others, addr, size, lo, u32::MAX) {
            Some(end) => {
                out.extend(lo, end - 1)?;
                from = end;
            }
            None => {
                out.extend(lo, u32::MAX)?;
                return Ok(out);
            }
        }
    }
    Ok(out)
}

/// The addresses that are members once the end is written over them. Where the set has all or none of the addresses that the end
/// leads to, the result is one range or none; else the time grows with the networks that are as long as the end. Fails if memory
/// runs out.
pub(crate) fn written_into(alloc: Global, set: &Ivs, end: Option<End>) -> Result<Ivs, Memory>
    ensures low { IfOk result (λ s. (d : ℕ) → d < 2 ^ 32 → written_addr end d < 2 ^ 32) }
    ensures members { IfOk result (λ s. (d : ℕ) → d < 2 ^ 32 → has s d ≡ has set.now (written_addr end d)) }
{
    match end {
        None => set.copy(alloc),
        Some(end) => {
            let others = one(alloc, 0, u32::MAX)?.minus(alloc, set)?;
            kept_set(alloc, set, &others, end.addr, size_of(end.addr, end.len))
        }
    }
}
