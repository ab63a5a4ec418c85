//! Bounds of points.

ghost use Rattle.std.specs.Prelude.{◌≡◌, ◌<◌, ◌≤◌, ℕ, [], true, min, max, length, slice_index, slice_index_or, IfOk};
ghost use Rattle.fws_iv.specs.Ivs.{has};
ghost use Rattle.fws_tree.specs.Marks.{sides_of};

use fws_box::{Point, no_sides};
use fws_iv::{Iv, Ivs, one};
use fws_num::Memory;
use fws_tree::Mark;
use std::alloc::Global;

/// The least and the greatest value of each field.
#[derive(Clone, Copy)]
pub(crate) struct Hull {
    /// The least values, in the order of the fields.
    pub lo: Point,
    /// The greatest values. Where one is below the least one there is no point.
    pub hi: Point,
    pub ghost lows: { length lo ≡ 12 },
    pub ghost highs: { length hi ≡ 12 },
}

/// The smaller value of each field.
fn smaller_of(a: &Point, b: &Point) -> Point
    ensures twelve { length result ≡ 12 }
    ensures least { (k : ℕ) → k < 12 → slice_index result k ≡ min (slice_index a.now k) (slice_index b.now k) }
{
    let mut least = *a;
    for k in 0..12 {
        least[k] = least[k].min(b[k]);
    }
    least
}

/// The larger value of each field.
fn larger_of(a: &Point, b: &Point) -> Point
    ensures twelve { length result ≡ 12 }
    ensures greatest { (k : ℕ) → k < 12 → slice_index result k ≡ max (slice_index a.now k) (slice_index b.now k) }
{
    let mut greatest = *a;
    for k in 0..12 {
        greatest[k] = greatest[k].max(b[k]);
    }
    greatest
}

/// The least member of the set; where there is none, a number that no member is below.
pub(crate) fn low_of(set: &[Iv]) -> u32
    ensures { (v : ℕ) → has set.now v ≡ true → result ≤ v }
{
    let mut low = u32::MAX;
    for part in set {
        low = low.min(part.lo);
    }
    low
}

/// The greatest member of the set; where there is none, a number that no member is above.
pub(crate) fn high_of(set: &[Iv]) -> u32
    ensures { (v : ℕ) → has set.now v ≡ true → v ≤ result }
{
    let mut high: u32 = 0;
    for part in set {
        high = high.max(part.hi);
    }
    high
}

/// The least member of each side of the mark.
fn lows_of(mark: &Mark<'_>) -> Point
    ensures twelve { length result ≡ 12 }
    ensures least { (k v : ℕ) → k < 12 → has (slice_index_or (sides_of mark.now) k []) v ≡ true → slice_index result k ≤ v }
{
    let mut lows = [0; 12];
    for k in 0..12 {
        lows[k] = low_of(mark.sides[k]);
    }
    lows
}

/// The greatest member of each side of the mark.
fn highs_of(mark: &Mark<'_>) -> Point
    ensures twelve { length result ≡ 12 }
    ensures greatest { (k v : ℕ) → k < 12 → has (slice_index_or (sides_of mark.now) k []) v ≡ true → v ≤ slice_index result k }
{
    let mut highs = [0; 12];
    for k in 0..12 {
        highs[k] = high_of(mark.sides[k]);
    }
    highs
}

/// The numbers from `lo` to `hi`.
fn set_of(alloc: Global, lo: u32, hi: u32) -> Result<Ivs, Memory>
    ensures { IfOk result (λ s. (v : ℕ) → lo ≤ v → v ≤ hi → has s v ≡ true) }
{
    if lo > hi {
        return Ok(Ivs::none(alloc));
    }
    let set = one(alloc, lo, hi)?;
    Ok(set)
}

impl Hull {
    ghost use Rattle.std.specs.Prelude.{◌≡◌, ◌<◌, ◌≤◌, ◌≢◌, ℕ, List, [], true, length, slice_index, slice_index_or, IfOk};
    ghost use Rattle.fws_box.specs.Sides.{sides_have, IsWithin};
    ghost use Rattle.fws_iv.specs.Ivs.{has};
    ghost use Rattle.fws_tree.specs.Marks.{mark_at, sides_of};
    ghost use Rattle.fws_exec.specs.Hulls.{HasPoint};

    /// The points of which no value is past its top.
    pub(crate) fn of_tops(tops: &Point) -> Hull
        ensures { (p : List ℕ) → IsWithin tops.now p → HasPoint result p }
    {
        Hull {
            lo: [0; 12],
            hi: *tops,
        }
    }

    /// No point.
    pub(crate) fn none() -> Hull {
        Hull {
            lo: [u32::MAX; 12],
            hi: [0; 12],
        }
    }

    /// A hull of the points of both.
    pub(crate) fn with(&self, other: &Hull) -> Hull
        ensures first { (p : List ℕ) → HasPoint self.now p → HasPoint result p }
        ensures second { (p : List ℕ) → HasPoint other.now p → HasPoint result p }
    {
        Hull {
            lo: smaller_of(&self.lo, &other.lo),
            hi: larger_of(&self.hi, &other.hi),
        }
    }

    /// The points that both have.
    pub(crate) fn within(&self, other: &Hull) -> Hull
        ensures { (p : List ℕ) → HasPoint self.now p → HasPoint other.now p → HasPoint result p }
    {
        Hull {
            lo: larger_of(&self.lo, &other.lo),
            hi: smaller_of(&self.hi, &other.hi),
        }
    }

    /// A hull of the points of the mark.
    fn of_mark(mark: &Mark<'_>) -> Hull
        ensures { (p : List ℕ) → length p ≡ 12 → sides_have (sides_of mark.now) p ≡ true → HasPoint result p }
    {
        Hull {
            lo: lows_of(mark),
            hi: highs_of(mark),
        }
    }

    /// A hull of the points that have a label.
    pub(crate) fn of_marks(marks: &[Mark<'_>]) -> Hull
        ensures { (p : List ℕ) → length p ≡ 12 → mark_at marks.now 0 p ≢ 0 → HasPoint result p }
    {
        let mut hull = Hull::none();
        for mark in marks {
            hull = hull.with(&Hull::of_mark(mark));
        }
        hull
    }

    /// The values of each field.
    pub(crate) fn sets(&self, alloc: Global) -> Result<[Ivs; 12], Memory>
        ensures twelve { IfOk result (λ sets. length sets ≡ 12) }
        ensures each { IfOk result (λ sets. (k v : ℕ) → k < 12 → slice_index self.now.lo k ≤ v → v ≤ slice_index self.now.hi k → has (slice_index_or sets k []) v ≡ true) }
    {
        let mut sets = no_sides(alloc);
        for k in 0..12 {
            sets[k] = set_of(alloc, self.lo[k], self.hi[k])?;
        }
        Ok(sets)
    }
}
