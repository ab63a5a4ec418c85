//! The values of a side, one after another.

ghost use Rattle.std.specs.Prelude.{◌≡◌, ◌<◌, ◌≤◌, ℕ, false, MatchOption};
ghost use Rattle.fws_iv.specs.Ivs.{has};
ghost use Rattle.fws_place.specs.Gathered.{HasNone, IsNext};

use fws_iv::{Ivs, first_reaching};

/// The least value of the side from one number up to another. The time is logarithmic.
pub(crate) fn next_value(side: &Ivs, from: u64, top: u32) -> Option<u32>
    ensures { MatchOption result (HasNone side.now from top) (IsNext side.now from top) }
{
    if from > u64::from(top) {
        return None;
    }
    let from = from as u32;
    let parts = side.parts();
    let at = first_reaching(parts, from);
    if at < parts.len() {
        let value = parts[at].lo.max(from);
        if value <= top {
            return Some(value);
        }
    }
    None
}
