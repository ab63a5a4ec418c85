//! A reduced tree out of rows.

ghost use Rattle.std.specs.Prelude.{◌≡◌, ℕ, ◌<◌, ◌∷◌, ◌++◌, List, Some, [], length, slice_get, slice_index, IfOk};
ghost use Rattle.std.specs.List.{range_with_len};
ghost use Rattle.fws_tree.specs.Plain.{IsReduced, value};
ghost use Rattle.fws_box.specs.Sides.{IsWithin};
ghost use Rattle.fws_tree.specs.Building.{AreDifferent, AreNumbersOf};
ghost use Rattle.fws_tree.specs.Held.{AreOrderedFrom, held_at};
ghost use Rattle.fws_tree.specs.Marks.{mark_at};
ghost use Rattle.fws_tree.specs.Rows.{first_leaf};

use crate::finish::finish;
use crate::halves::halves;
use crate::leaf::Leaf;
use crate::mark::Mark;
use crate::numbers::{Numbered, number_leaves};
use crate::row::Row;
use crate::row_marks::marks_of_rows;
use crate::store::Store;
use crate::tree::Tree;
use fws_num::Memory;
use std::alloc::Global;

// The places of leaves by values that are one more, behind the place for the value 0.
fn places_behind(alloc: Global, first: u32, count: usize) -> Result<Vec<u32>, Memory>
    ensures { IfOk result (λ places. places.items ≡ first ∷ [] ++ range_with_len 0 count) }
{
    let mut places = Vec::new(alloc);
    places.push(first)?;
    for n in 0..count {
        match u32::try_from(n) {
            Ok(place) => places.push(place)?,
            Err(_) => return Err(Memory),
        }
    }
    Ok(places)
}

// The reduced tree that has, at each point within the tops, the leaf at place `rest` where the cell holds 0, else the one
// at the place that is one less than what the cell holds.
fn finish_behind<L: Leaf>(
    alloc: Global,
    store: &Store,
    tops: &[u32; 12],
    at: u32,
    rest: u32,
    leaves: &[L],
) -> Result<Tree<L>, Memory>
    requires ordered { AreOrderedFrom 0 store.now }
    requires inside { at < length store.now }
    requires different { AreDifferent leaves.now }
    requires places { (p : List ℕ) → IsWithin tops.now p → slice_index (rest ∷ range_with_len 0 (length leaves.now)) (held_at store.now at p) < length leaves.now }
    ensures tops { IfOk result (λ t. t.0 ≡ tops.now) }
    ensures reduced { IfOk result (λ t. IsReduced t.0 t.1) }
    ensures value { IfOk result (λ t. (p : List ℕ) → IsWithin tops.now p → value t.1 p ≡ slice_get leaves.now (slice_index (rest ∷ range_with_len 0 (length leaves.now)) (held_at store.now at p))) }
{
    let places = places_behind(alloc, rest, leaves.len())?;
    finish(alloc, store, tops, at, places.as_slice(), leaves)
}

// The reduced tree that has, at each point within the tops, the leaf at the place that is one less than the label there,
// and the one at place `rest` where no mark is.
fn from_marks<L: Leaf>(
    alloc: Global,
    tops: &[u32; 12],
    marks: &[Mark<'_>],
    rest: u32,
    leaves: &[L],
) -> Result<Tree<L>, Memory>
    requires different { AreDifferent leaves.now }
    requires places { (p : List ℕ) → IsWithin tops.now p → slice_index (rest ∷ range_with_len 0 (length leaves.now)) (mark_at marks.now 0 p) < length leaves.now }
    ensures tops { IfOk result (λ t. t.0 ≡ tops.now) }
    ensures reduced { IfOk result (λ t. IsReduced t.0 t.1) }
    ensures value { IfOk result (λ t. (p : List ℕ) → IsWithin tops.now p → value t.1 p ≡ slice_get leaves.now (slice_index (rest ∷ range_with_len 0 (length leaves.now)) (mark_at marks.now 0 p))) }
{
    let mut store = Store::new(alloc);
    let root = halves(alloc, &mut store, tops, marks)?;
    finish_behind(alloc, &store, tops, root, rest, leaves)
}

// The reduced tree of rows whose leaves are numbered.
fn from_numbered<L: Leaf>(
    alloc: Global,
    tops: &[u32; 12],
    rows: &[Row<L>],
    numbered: &Numbered<L>,
) -> Result<Tree<L>, Memory>
    requires different { AreDifferent numbered.now.leaves }
    requires numbers { AreNumbersOf numbered.now.leaves numbered.now.numbers.items rows.now }
    requires rest { (x : L) × (slice_get numbered.now.leaves numbered.now.rest ≡ Some x) }
    ensures tops { IfOk result (λ t. t.0 ≡ tops.now) }
    ensures reduced { IfOk result (λ t. IsReduced t.0 t.1) }
    ensures value { IfOk result (λ t. (p : List ℕ) (x : L) → IsWithin tops.now p → slice_get numbered.now.leaves numbered.now.rest ≡ Some x → value t.1 p ≡ Some (first_leaf rows.now x p)) }
{
    let marks = marks_of_rows(alloc, rows, numbered.numbers.as_slice())?;
    from_marks(
        alloc,
        tops,
        marks.as_slice(),
        numbered.rest,
        numbered.leaves.as_slice(),
    )
}

/// The reduced tree over the tops that gives at each point the leaf of the first row that holds it, else `rest`. Fails if memory
/// runs out.
///
/// The rows are made into trees one by one, and these are merged by halves. The time and the memory
/// grow with the nodes of the merged trees: at most with the rows, times the pieces into which they
/// cut each other.
pub fn from_rows<L: Leaf>(
    alloc: Global,
    tops: &[u32; 12],
    rows: &[Row<L>],
    rest: L,
) -> Result<Tree<L>, Memory>
    ensures tops { IfOk result (λ t. t.0 ≡ tops.now) }
    ensures reduced { IfOk result (λ t. IsReduced t.0 t.1) }
    ensures value { IfOk result (λ t. (p : List ℕ) → IsWithin tops.now p → value t.1 p ≡ Some (first_leaf rows.now rest p)) }
{
    let numbered = number_leaves(alloc, rows, rest)?;
    from_numbered(alloc, tops, rows, &numbered)
}
