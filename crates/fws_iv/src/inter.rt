//! The intersection of two sets.

ghost use Rattle.std.specs.Prelude.{◌≡◌, ◌&&◌, ℕ, [], OnOk};
ghost use Rattle.fws_iv.specs.Ivs.{has, IsRegular};

use crate::iv::Iv;
use crate::joined::{larger, put_below, smaller};
use fws_num::Memory;
use std::alloc::Allocator;

/// Writes the numbers that `a` and `b` share to the empty list `out`. If memory runs out `out` holds some of them. The time is
/// linear.
pub fn inter_into<A: Allocator>(out: &mut Vec<Iv, A>, a: &[Iv], b: &[Iv]) -> Result<(), Memory>
    requires empty { out.old.items ≡ [] }
    requires first { IsRegular a.now }
    requires second { IsRegular b.now }
    ensures regular { OnOk result (IsRegular out.new.items) }
    ensures members { OnOk result ((v : ℕ) → has out.new.items v ≡ (has a.now v && has b.now v)) }
{
    let mut i = 0;
    let mut j = 0;
    while i < a.len() && j < b.len() {
        let x = a[i];
        let y = b[j];
        put_below(
            out,
            larger(x.lo, y.lo) as u64,
            smaller(x.hi, y.hi) as u64 + 1,
        )?;
        // The interval that ends first shares nothing with those that follow the other.
        if x.hi < y.hi {
            i += 1;
        } else {
            j += 1;
        }
    }
    Ok(())
}
