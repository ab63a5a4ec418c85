//! The union of many ranges.

ghost use Rattle.std.specs.Prelude.{◌≡◌, ℕ, IfOk};
ghost use Rattle.fws_iv.specs.Ivs.{has, AreRanges, IsRegular};

use crate::iv::Iv;
use crate::union::union_into;
use fws_num::Memory;
use std::alloc::Global;

/// The intervals of the numbers of all the ranges: the union of what each half of them has. Of n ranges the time is that of n log n
/// steps. Fails if memory runs out.
#[tactic(auto, using(crate::proofs::Parts::regular_alone))]
pub fn parts_of_ranges(alloc: Global, ranges: &[Iv]) -> Result<Vec<Iv>, Memory>
    requires { AreRanges ranges.now }
    ensures regular { IfOk result (λ parts. IsRegular parts.items) }
    ensures members { IfOk result (λ parts. (v : ℕ) → has parts.items v ≡ has ranges.now v) }
{
    if ranges.len() <= 1 {
        return Ok(Vec::from_slice(alloc, ranges)?);
    }

    let half = ranges.len() / 2;
    let first = parts_of_ranges(alloc, &ranges[..half])?;
    let second = parts_of_ranges(alloc, &ranges[half..])?;
    let mut parts = Vec::new(alloc);
    union_into(&mut parts, &first, &second)?;
    Ok(parts)
}
