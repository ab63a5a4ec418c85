//! Two cells together at a field, as steps.

ghost use Rattle.std.specs.Prelude.{◌≡◌, ◌⊎◌, ℕ, ◌+◌, ◌<◌, ◌≤◌, List, [], Some, None, drop, length, slice_get, slice_index, nat_le, if◌then◌else◌, IfOk, IfSome, MatchOption, All};
ghost use Rattle.fws_tree.specs.declared.store.Cell.{Cell};
ghost use Rattle.fws_tree.specs.Held.{AreOrderedFrom, held_at, child_at, field_of};
ghost use Rattle.fws_tree.specs.Merged.{left_at, right_at, IsCutCell};
ghost use Rattle.fws_tree.specs.Parts.{own_steps};

use crate::store::{Cell, Step, Store};
use fws_num::Memory;
use std::alloc::Global;

/// The values of a field up to `hi`, behind the step before, and the two cells for them.
#[derive(Clone, Copy)]
pub(crate) struct Both {
    /// The greatest value.
    pub(crate) hi: u32,
    /// The number of the first cell.
    pub(crate) left: u32,
    /// The number of the second cell.
    pub(crate) right: u32,
}

/// A step over both sides, and where each goes on.
#[derive(Clone, Copy)]
struct Turn {
    both: Both,
    i: usize,
    j: usize,
}

// A step that ends at `hi`, and where each side goes on.
fn turn_to(hi: u32, left: u32, right: u32, i: usize, j: usize) -> Turn
    ensures both { result.both ≡ record { hi = hi; left = left; right = right } }
    ensures i { result.i ≡ i }
    ensures j { result.j ≡ j }
{
    let both = Both { hi, left, right };
    Turn { both, i, j }
}

// The step at the places `i` and `j`: it ends with the one that ends first. None behind both.
fn next_turn(xs: &[Step], x_last: u32, ys: &[Step], y_last: u32, i: usize, j: usize) -> Option<Turn>
    requires i { i ≤ length xs.now }
    requires j { j ≤ length ys.now }
    ensures left { MatchOption result (drop i xs.now ≡ []) (λ t. (x : ℕ) → child_at (drop i xs.now) x_last x ≡ (if nat_le x t.both.hi then t.both.left else child_at (drop t.i xs.now) x_last x)) }
    ensures right { MatchOption result (drop j ys.now ≡ []) (λ t. (x : ℕ) → child_at (drop j ys.now) y_last x ≡ (if nat_le x t.both.hi then t.both.right else child_at (drop t.j ys.now) y_last x)) }
    ensures goes { IfSome result (λ t. (t.i ≤ length xs.now) × (t.j ≤ length ys.now) × (i + j < t.i + t.j)) }
    ensures below { IfSome result (λ t. (n m : ℕ) → All (λ s. s.node < n) xs.now → x_last < n → All (λ s. s.node < m) ys.now → y_last < m → (t.both.left < n) × (t.both.right < m)) }
{
    if i < xs.len() {
        let x = xs[i];
        if j < ys.len() {
            let y = ys[j];
            if x.hi < y.hi {
                return Some(turn_to(x.hi, x.node, y.node, i + 1, j));
            }
            if y.hi < x.hi {
                return Some(turn_to(y.hi, x.node, y.node, i, j + 1));
            }
            return Some(turn_to(x.hi, x.node, y.node, i + 1, j + 1));
        }
        return Some(turn_to(x.hi, x.node, y_last, i + 1, j));
    }
    if j < ys.len() {
        let y = ys[j];
        return Some(turn_to(y.hi, x_last, y.node, i, j + 1));
    }
    None
}

/// The steps over both sides, each of which ends where one of them does.
pub(crate) fn meet_steps(
    alloc: Global,
    xs: &[Step],
    x_last: u32,
    ys: &[Step],
    y_last: u32,
) -> Result<Vec<Both>, Memory>
    ensures left { IfOk result (λ v. (x : ℕ) → left_at v.items x_last x ≡ child_at xs.now x_last x) }
    ensures right { IfOk result (λ v. (x : ℕ) → right_at v.items y_last x ≡ child_at ys.now y_last x) }
    ensures below { IfOk result (λ v. (n m : ℕ) → All (λ s. s.node < n) xs.now → x_last < n → All (λ s. s.node < m) ys.now → y_last < m → All (λ b. (b.left < n) × (b.right < m)) v.items) }
{
    let mut out = Vec::new(alloc);
    let mut i = 0;
    let mut j = 0;
    while let Some(t) = next_turn(xs, x_last, ys, y_last, i, j) {
        out.push(t.both)?;
        i = t.i;
        j = t.j;
    }
    Ok(out)
}

// The steps and the last cell of cell `at` at a field: none and the cell itself, unless it cuts that
// field.
pub(crate) fn view(store: &Store, at: u32, field: u8) -> (&[Step], u32)
    requires ordered { AreOrderedFrom 0 store.now }
    requires inside { at < length store.now }
    ensures held { (p : List ℕ) → held_at store.now at p ≡ held_at store.now (child_at result.0.now result.1 (slice_index p field)) p }
    ensures below { All (λ s. s.node < at + 1) result.0.now }
    ensures last { result.1 < at + 1 }
    ensures own { result.0.now ≡ own_steps field (slice_get store.now at) }
    ensures strict { (c : Cell) → slice_get store.now at ≡ Some c → field_of c ≡ Some field → All (λ s. s.node < at) result.0.now × (result.1 < at) }
{
    match store.cell(at) {
        Cell::Cut(f, steps, last) => if *f == field {
            (steps.as_slice(), *last)
        } else {
            (&[], at)
        },
        Cell::Leaf(_) => (&[], at),
    }
}

// The field that the cell cuts, if it is not a leaf.
pub(crate) fn cut_field(store: &Store, at: u32) -> Option<u8>
    requires inside { at < length store.now }
    ensures { (c : Cell) → slice_get store.now at ≡ Some c → result ≡ field_of c }
{
    match store.cell(at) {
        Cell::Cut(f, _, _) => Some(*f),
        Cell::Leaf(_) => None,
    }
}

// What the cell holds everywhere, if it is a leaf.
pub(crate) fn held_by(store: &Store, at: u32) -> Option<u32>
    requires ordered { AreOrderedFrom 0 store.now }
    requires inside { at < length store.now }
    ensures { MatchOption result (IsCutCell store.now at) (λ n. (p : List ℕ) → held_at store.now at p ≡ n) }
{
    match store.cell(at) {
        Cell::Leaf(n) => Some(*n),
        Cell::Cut(_, _, _) => None,
    }
}

// The lesser of the fields that there are.
pub(crate) fn lesser(f: Option<u8>, g: Option<u8>) -> Option<u8>
    ensures { MatchOption result ((f ≡ None) × (g ≡ None)) (λ h. (f ≡ Some h) ⊎ (g ≡ Some h)) }
{
    match (f, g) {
        (Some(f), Some(g)) => if g < f { Some(g) } else { Some(f) },
        (Some(f), None) => Some(f),
        (None, g) => g,
    }
}
