//! The search for the interval at a number, and what it tells.

ghost use Rattle.std.specs.Prelude.{◌≡◌, ◌<◌, ◌≤◌, ◌+◌, ◌↔◌, ℕ, true, false, nat_lt, drop, length, slice_index_or};
ghost use Rattle.fws_iv.specs.declared.iv.Iv.{Iv};
ghost use Rattle.fws_iv.specs.Ivs.{has, IsRegular, IsRegularFrom};

use crate::coverage::Overlap;
use crate::iv::Iv;

/// The index of the first interval that ends at `v` or past it, or the count of all where there is
/// none. The time is logarithmic.
pub fn first_reaching(parts: &[Iv], v: u32) -> usize
    requires { IsRegular parts.now }
    ensures bound { result ≤ length parts.now }
    ensures reaches { (d : Iv) → result < length parts.now → v ≤ (slice_index_or parts.now result d).hi }
    ensures members { (w : ℕ) → v ≤ w → has parts.now w ≡ has (drop result parts.now) w }
{
    parts.partition_point(
        |x: &Iv| -> bool
            ensures { result ≡ nat_lt x.now.hi v }
        { x.hi < v },
    )
}

/// Whether interval `i` is there and begins at `hi` or sooner.
pub fn begins_by(parts: &[Iv], i: usize, hi: u32) -> bool
    requires { IsRegular (drop i parts.now) }
    ensures yes { result ≡ true → (i < length parts.now) × ((d : Iv) → (slice_index_or parts.now i d).lo ≤ hi) }
    ensures no { result ≡ false → IsRegularFrom (hi + 1) (drop i parts.now) }
{
    i < parts.len() && parts[i].lo <= hi
}

/// Whether `v` lies in one of the intervals. The time is logarithmic.
pub fn has_number(parts: &[Iv], v: u32) -> bool
    requires { IsRegular parts.now }
    ensures { result ≡ has parts.now v }
{
    let i = first_reaching(parts, v);
    i < parts.len() && parts[i].lo <= v
}

/// How much of the range from `lo` to `hi` lies in the intervals. The time is logarithmic.
pub fn overlap(parts: &[Iv], lo: u32, hi: u32) -> Overlap
    requires regular { IsRegular parts.now }
    requires order { lo ≤ hi }
    ensures apart { result ≡ Overlap.Apart ↔ ((v : ℕ) → lo ≤ v → v ≤ hi → has parts.now v ≡ false) }
    ensures whole { result ≡ Overlap.Whole ↔ ((v : ℕ) → lo ≤ v → v ≤ hi → has parts.now v ≡ true) }
{
    let i = first_reaching(parts, lo);
    if !begins_by(parts, i, hi) {
        Overlap::Apart
    } else if parts[i].lo <= lo && hi <= parts[i].hi {
        Overlap::Whole
    } else {
        Overlap::Part
    }
}
