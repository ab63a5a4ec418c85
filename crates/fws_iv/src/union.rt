//! The union of two sets.

ghost use Rattle.std.specs.Prelude.{◌≡◌, ◌<◌, ◌≤◌, ◌||◌, ◌⊎◌, ℕ, true, false, [], length, drop, slice_index_or, IfOk, OnOk};
ghost use Rattle.fws_iv.specs.declared.iv.Iv.{Iv};
ghost use Rattle.fws_iv.specs.Ivs.{has, IsRegular, IsRegularFrom};

use crate::iv::Iv;
use crate::joined::join_last;
use fws_num::Memory;
use std::alloc::Allocator;

// Whether interval `i` of `a` comes next: it is there, and begins no later than interval `j` of `b`.
fn is_first(a: &[Iv], b: &[Iv], i: usize, j: usize) -> bool
    requires some { (i < length a.now) ⊎ (j < length b.now) }
    requires first { IsRegular (drop i a.now) }
    requires second { IsRegular (drop j b.now) }
    ensures first { result ≡ true → (i < length a.now) × ((d : Iv) → IsRegularFrom (slice_index_or a.now i d).lo (drop j b.now)) }
    ensures second { result ≡ false → (j < length b.now) × ((d : Iv) → IsRegularFrom (slice_index_or b.now j d).lo (drop i a.now)) }
{
    i < a.len() && (j >= b.len() || a[i].lo <= b[j].lo)
}

/// Writes the numbers of `a` or `b` to the empty list `out`. If memory runs out `out` holds some of them. The time is linear.
pub fn union_into<A: Allocator>(out: &mut Vec<Iv, A>, a: &[Iv], b: &[Iv]) -> Result<(), Memory>
    requires empty { out.old.items ≡ [] }
    requires first { IsRegular a.now }
    requires second { IsRegular b.now }
    ensures regular { OnOk result (IsRegular out.new.items) }
    ensures members { OnOk result ((v : ℕ) → has out.new.items v ≡ (has a.now v || has b.now v)) }
{
    let mut i = 0;
    let mut j = 0;
    while i < a.len() || j < b.len() {
        if is_first(a, b, i, j) {
            join_last(out, a[i].lo, a[i].hi)?;
            i += 1;
        } else {
            join_last(out, b[j].lo, b[j].hi)?;
            j += 1;
        }
    }
    Ok(())
}
