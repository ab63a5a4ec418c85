//! Marks as one cell, by halves.

ghost use Rattle.std.specs.Prelude.{◌≡◌, [], slice_index_or, ℕ, ◌+◌, ◌<◌, ◌≤◌, List, map, drop, length, slice_index, if◌then◌else◌, IfOk, OnOk, All, nat_lt};
ghost use Rattle.fws_iv.specs.Ivs.{has, IsRegular};
ghost use Rattle.fws_tree.specs.Building.{Extends};
ghost use Rattle.fws_tree.specs.Held.{AreOrderedFrom, held_at, child_at, pick};
ghost use Rattle.fws_tree.specs.Marks.{mark_at};
ghost use Rattle.fws_box.specs.Sides.{IsWithin, sides_have};

use crate::mark::Mark;
use crate::merge::merge;
use crate::over::Over;
use crate::store::{Cell, Step, Store, add_step};
use fws_iv::Iv;
use fws_num::Memory;
use std::alloc::Global;

// Adds a step behind the others for the values before `lo`.
fn add_before(steps: &mut Vec<Step>, lo: u32, node: u32) -> Result<(), Memory>
    ensures same { OnOk result ((v : ℕ → ℕ) (z x : ℕ) → pick v steps.new.items z x ≡ pick v steps.old.items (if nat_lt x lo then v node else z) x) }
    ensures below { OnOk result ((n : ℕ) → All (λ s. s.node < n) steps.old.items → node < n → All (λ s. s.node < n) steps.new.items) }
{
    if lo > 0 {
        add_step(steps, lo - 1, node)?;
    }
    Ok(())
}

/// Steps, and the cell for the values past them.
#[derive(Drop)]
pub(crate) struct Cuts {
    /// The steps.
    pub(crate) steps: Vec<Step>,
    /// The cell past them.
    pub(crate) last: u32,
}

// The steps of a set of values: cell `on` within it and `off` outside it, up to the top. A part that
// begins past the top has no step.
pub(crate) fn cuts_of(
    alloc: Global,
    side: &[Iv],
    top: u32,
    on: u32,
    off: u32,
) -> Result<Cuts, Memory>
    requires { IsRegular side.now }
    ensures same { IfOk result (λ r. (x : ℕ) → x ≤ top → child_at r.steps.items r.last x ≡ (if has side.now x then on else off)) }
    ensures below { IfOk result (λ r. (n : ℕ) → on < n → off < n → All (λ s. s.node < n) r.steps.items × (r.last < n)) }
{
    let mut steps = Vec::new(alloc);
    for part in side {
        if part.lo > top {
            return Ok(Cuts { steps, last: off });
        }
        add_before(&mut steps, part.lo, off)?;
        if part.hi >= top {
            return Ok(Cuts { steps, last: on });
        }
        add_step(&mut steps, part.hi, on)?;
    }
    Ok(Cuts { steps, last: off })
}

// The side of a field.
fn side_at<'a>(sides: &[&'a [Iv]; 12], field: usize) -> &'a [Iv]
    requires field { field < length sides.now }
    requires regular { All (λ s. IsRegular s.now) sides.now }
    ensures side { result.now ≡ slice_index_or (map (λ s. s.now) sides.now) field [] }
    ensures regular { IsRegular result.now }
{
    sides[field]
}

// The cell over the fields from `field` on that holds the label within the sides, and 0 elsewhere.
fn mark_cell(
    alloc: Global,
    store: &mut Store,
    tops: &[u32; 12],
    sides: &[&[Iv]; 12],
    field: usize,
    label: u32,
) -> Result<u32, Memory>
    requires ordered { AreOrderedFrom 0 store.old }
    requires field { field ≤ 12 }
    requires tops { length tops.now ≡ 12 }
    requires sides { length sides.now ≡ 12 }
    requires regular { All (λ s. IsRegular s.now) sides.now }
    ensures ordered { AreOrderedFrom 0 store.new }
    ensures extends { Extends store.old store.new }
    ensures inside { IfOk result (λ r. r < length store.new) }
    ensures held { IfOk result (λ r. (p : List ℕ) → IsWithin tops.now p → held_at store.new r p ≡ (if sides_have (drop field (map (λ s. s.now) sides.now)) (drop field p) then label else 0)) }
{
    if field == 12 {
        return store.intern(Cell::Leaf(label));
    }
    let on = mark_cell(alloc, store, tops, sides, field + 1, label)?;
    let off = store.intern(Cell::Leaf(0))?;
    let cuts = cuts_of(alloc, side_at(sides, field), tops[field], on, off)?;
    store.cut(field as u8, cuts.steps, cuts.last)
}

/// The cell that holds, at each point within the tops, the label of the first mark that has it, and
/// 0 where none does. The halves of the marks are merged, so that of n marks each is met some log n
/// times.
pub(crate) fn halves(
    alloc: Global,
    store: &mut Store,
    tops: &[u32; 12],
    marks: &[Mark<'_>],
) -> Result<u32, Memory>
    requires ordered { AreOrderedFrom 0 store.old }
    requires tops { length tops.now ≡ 12 }
    ensures ordered { AreOrderedFrom 0 store.new }
    ensures extends { Extends store.old store.new }
    ensures inside { IfOk result (λ r. r < length store.new) }
    ensures held { IfOk result (λ r. (p : List ℕ) → IsWithin tops.now p → held_at store.new r p ≡ mark_at marks.now 0 p) }
{
    let n = marks.len();
    if n == 0 {
        return store.intern(Cell::Leaf(0));
    }
    if n == 1 {
        let mark = marks[0];
        return mark_cell(alloc, store, tops, &mark.sides, 0, mark.label);
    }
    let (first, last) = marks.split_at(n / 2);
    let a = halves(alloc, store, tops, first)?;
    let b = halves(alloc, store, tops, last)?;
    merge(alloc, &mut Over, store, a, b)
}

/// The cell that holds, at each point within the tops, the label of the first mark that has it, and
/// `rest` where none does.
pub(crate) fn marked_cell(
    alloc: Global,
    store: &mut Store,
    tops: &[u32; 12],
    marks: &[Mark<'_>],
    rest: u32,
) -> Result<u32, Memory>
    requires ordered { AreOrderedFrom 0 store.old }
    requires tops { length tops.now ≡ 12 }
    ensures ordered { AreOrderedFrom 0 store.new }
    ensures extends { Extends store.old store.new }
    ensures inside { IfOk result (λ r. r < length store.new) }
    ensures held { IfOk result (λ r. (p : List ℕ) → IsWithin tops.now p → held_at store.new r p ≡ mark_at marks.now rest p) }
{
    let first = halves(alloc, store, tops, marks)?;
    let last = store.intern(Cell::Leaf(rest))?;
    merge(alloc, &mut Over, store, first, last)
}
