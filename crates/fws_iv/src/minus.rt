//! The difference of two sets.

ghost use Rattle.std.specs.Prelude.{◌≡◌, ◌&&◌, ℕ, not, [], OnOk, max};
ghost use Rattle.fws_iv.specs.Ivs.{has, IsRegular};

use crate::find::begins_by;
use crate::iv::Iv;
use crate::joined::put_below;
use fws_num::Memory;
use std::alloc::Allocator;

// Where an interval that begins at `lo` goes on, when the numbers below `from` are done.
fn start(lo: u32, from: u64) -> u64
    ensures { result ≡ max lo from }
{
    if (lo as u64) < from { from } else { lo as u64 }
}

/// Writes the numbers of `a` that `b` has not to the empty list `out`. If memory runs out `out` holds some of them. The time is
/// linear.
pub fn minus_into<A: Allocator>(out: &mut Vec<Iv, A>, a: &[Iv], b: &[Iv]) -> Result<(), Memory>
    requires empty { out.old.items ≡ [] }
    requires first { IsRegular a.now }
    requires second { IsRegular b.now }
    ensures regular { OnOk result (IsRegular out.new.items) }
    ensures members { OnOk result ((v : ℕ) → has out.new.items v ≡ (has a.now v && not (has b.now v))) }
{
    let mut i = 0;
    let mut j = 0;
    // The numbers below are done.
    let mut from: u64 = 0;
    while i < a.len() {
        let x = a[i];
        if begins_by(b, j, x.hi) {
            let y = b[j];
            put_below(out, start(x.lo, from), y.lo as u64)?;
            if y.hi <= x.hi {
                from = y.hi as u64 + 1;
                j += 1;
            } else {
                i += 1;
            }
        } else {
            put_below(out, start(x.lo, from), x.hi as u64 + 1)?;
            i += 1;
        }
    }
    Ok(())
}
