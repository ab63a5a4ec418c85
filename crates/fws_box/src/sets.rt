//! Sets that lie in an arena.

ghost use Rattle.std.specs.Prelude.{◌≡◌, ◌&&◌, not, ℕ, true, IfOk};
ghost use Rattle.fws_iv.specs.Ivs.{has, IsRegular};

use bumpalo::Bump;
use bumpalo::collections::into_bump_slice;
use fws_iv::{Iv, Overlap, inter_into, minus_into, overlap};
use fws_num::Memory;

/// Whether the sets are one: where they are, they have the same intervals.
fn is_same(a: &[Iv], b: &[Iv]) -> bool
    ensures { result ≡ true → a.now ≡ b.now }
{
    a == b
}

/// Whether all numbers from the least to the greatest of `inner` are ones of `outer`.
fn is_spanned(inner: &[Iv], outer: &[Iv]) -> bool
    requires inner { IsRegular inner.now }
    requires outer { IsRegular outer.now }
    ensures { result ≡ true → (v : ℕ) → has inner.now v ≡ true → has outer.now v ≡ true }
{
    let count = inner.len();
    if count == 0 {
        return true;
    }
    matches!(
        overlap(outer, inner[0].lo, inner[count - 1].hi),
        Overlap::Whole
    )
}

/// Whether each number of `inner` is one of `outer`. Of n and m intervals the time is that of n log m steps; of n where the
/// sets are one, and of log m where one interval of `outer` has all of `inner`.
pub(crate) fn is_within(inner: &[Iv], outer: &[Iv]) -> bool
    requires inner { IsRegular inner.now }
    requires outer { IsRegular outer.now }
    ensures { result ≡ true → (v : ℕ) → has inner.now v ≡ true → has outer.now v ≡ true }
{
    if is_same(inner, outer) {
        return true;
    }
    if is_spanned(inner, outer) {
        return true;
    }
    for part in inner {
        if overlap(outer, part.lo, part.hi) != Overlap::Whole {
            return false;
        }
    }
    true
}

/// How many intervals the numbers that two sets share have at most. Nothing hangs on it but memory.
fn room_for(side: &[Iv], set: &[Iv]) -> usize {
    side.len().saturating_add(set.len()).saturating_sub(1)
}

/// The numbers of the side that are in the set: the side itself where all of them are. Fails if memory runs out.
pub(crate) fn common<'b>(bump: &'b Bump, side: &'b [Iv], set: &[Iv]) -> Result<&'b [Iv], Memory>
    requires side { IsRegular side.now }
    requires set { IsRegular set.now }
    ensures regular { IfOk result (λ s. IsRegular s.now) }
    ensures members { IfOk result (λ s. (v : ℕ) → has s.now v ≡ (has side.now v && has set.now v)) }
{
    if is_within(side, set) {
        return Ok(side);
    }
    let mut both = Vec::with_capacity(bump, room_for(side, set))?;
    inter_into(&mut both, side, set)?;
    Ok(into_bump_slice(both))
}

/// The numbers that the sides share: one of the sides itself where it lies within the other. Fails if memory runs out.
pub(crate) fn shared<'b>(bump: &'b Bump, a: &'b [Iv], b: &'b [Iv]) -> Result<&'b [Iv], Memory>
    requires first { IsRegular a.now }
    requires second { IsRegular b.now }
    ensures regular { IfOk result (λ s. IsRegular s.now) }
    ensures members { IfOk result (λ s. (v : ℕ) → has s.now v ≡ (has a.now v && has b.now v)) }
{
    if is_within(b, a) {
        return Ok(b);
    }
    common(bump, a, b)
}

/// The numbers of the side that are not in the set. Fails if memory runs out.
pub(crate) fn rest<'b>(bump: &'b Bump, side: &[Iv], set: &[Iv]) -> Result<&'b [Iv], Memory>
    requires side { IsRegular side.now }
    requires set { IsRegular set.now }
    ensures regular { IfOk result (λ s. IsRegular s.now) }
    ensures members { IfOk result (λ s. (v : ℕ) → has s.now v ≡ (has side.now v && not (has set.now v))) }
{
    let mut left = Vec::new(bump);
    minus_into(&mut left, side, set)?;
    Ok(into_bump_slice(left))
}
