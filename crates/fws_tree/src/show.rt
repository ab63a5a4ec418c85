//! The reduced tree of a cell.

ghost use Rattle.std.specs.Prelude.{◌≡◌, ℕ, ◌+◌, ◌<◌, ◌≤◌, length, slice_index, IfOk, OnOk, All};
ghost use Rattle.fws_tree.specs.Building.{AreInRow, end_of, Extends, IsArena};
ghost use Rattle.fws_tree.specs.Held.{AreOrderedFrom, child_at};
ghost use Rattle.fws_tree.specs.Shown.{IsShown, AreShown, AreAddedBelow, IsPieced};

use crate::arena::Arena;
use crate::join::{Piece, join};
use crate::memo::Memo;
use crate::node::Node;
use crate::store::{Cell, Step, Store};
use crate::together::view;
use fws_num::Memory;
use std::alloc::Global;

// The steps up to the top as pieces, one behind the other.
fn clip(alloc: Global, steps: &[Step], last: u32, top: u32) -> Result<Vec<Piece<u32>>, Memory>
    ensures row { IfOk result (λ ps. AreInRow 0 ps.items) }
    ensures end { IfOk result (λ ps. end_of 0 ps.items ≡ top + 1) }
    ensures leads { IfOk result (λ ps. All (λ q. (x : ℕ) → q.lo ≤ x → x ≤ q.hi → child_at steps.now last x ≡ q.held) ps.items) }
    ensures below { IfOk result (λ ps. (n : ℕ) → All (λ s. s.node < n) steps.now → last < n → All (λ q. q.held < n) ps.items) }
{
    let mut pieces = Vec::new(alloc);
    let mut lo = 0;
    for s in steps {
        if s.hi >= lo {
            if s.hi >= top {
                pieces.push(Piece {
                    lo,
                    hi: top,
                    held: s.node,
                })?;
                return Ok(pieces);
            }
            pieces.push(Piece {
                lo,
                hi: s.hi,
                held: s.node,
            })?;
            lo = s.hi + 1;
        }
    }
    pieces.push(Piece {
        lo,
        hi: top,
        held: last,
    })?;
    Ok(pieces)
}

// The pieces of a field's range up to the top, each with the cell that is left there of cell `at`.
fn pieces_at(
    alloc: Global,
    store: &Store,
    at: u32,
    field: u8,
    top: u32,
) -> Result<Vec<Piece<u32>>, Memory>
    requires ordered { AreOrderedFrom 0 store.now }
    requires inside { at < length store.now }
    ensures { IfOk result (λ ps. IsPieced store.now at field top ps.items) }
{
    let (steps, last) = view(store, at, field);
    let pieces = clip(alloc, steps, last, top)?;
    Ok(pieces)
}

// The place of a value's leaf: 0 for one behind the end of the list.
fn leaf_place(places: &[u32], value: u32) -> u32
    ensures { result ≡ slice_index places.now value }
{
    match places.get(value as usize) {
        Some(place) => *place,
        None => 0,
    }
}

/// The number of the reduced tree over the fields from `field` on that has, at each point within the
/// tops, the place of the value that cell `at` holds there. It fails at a cell that
/// cuts an earlier field, as if memory ran out: where the fields of cells rise there is none.
pub(crate) fn show(
    alloc: Global,
    store: &Store,
    tops: &[u32; 12],
    places: &[u32],
    arena: &mut Arena,
    memo: &mut Memo,
    field: usize,
    at: u32,
) -> Result<u32, Memory>
    requires ordered { AreOrderedFrom 0 store.now }
    requires inside { at < length store.now }
    requires field { field ≤ 12 }
    requires tops { length tops.now ≡ 12 }
    requires arena { IsArena arena.old }
    requires known { AreShown store.now tops.now places.now arena.old memo.old }
    ensures arena { IsArena arena.new }
    ensures extends { Extends arena.old arena.new }
    ensures shown { IfOk result (λ r. IsShown store.now tops.now places.now field at arena.new r) }
    ensures below { IfOk result (λ r. AreAddedBelow arena.old arena.new r) }
    ensures known { OnOk result (AreShown store.now tops.now places.now arena.new memo.new) }
{
    let own = match store.cell(at) {
        Cell::Leaf(n) => {
            let leaf = arena.intern(Node::Leaf(leaf_place(places, *n)))?;
            return Ok(leaf);
        }
        Cell::Cut(own, _, _) => *own,
    };
    if (own as usize) < field {
        return Err(Memory);
    }
    if own >= 12 {
        return Err(Memory);
    }
    if let Some(r) = memo.recall(own as u32, at) {
        return Ok(r);
    }
    let cuts = pieces_at(alloc, store, at, own, tops[own as usize])?;
    let mut pieces = Vec::new(alloc);
    for cut in &cuts {
        let next = own as usize + 1;
        let node = show(alloc, store, tops, places, arena, memo, next, cut.held)?;
        pieces.push(Piece {
            lo: cut.lo,
            hi: cut.hi,
            held: node,
        })?;
    }
    let whole = join(arena, alloc, own, pieces.as_slice())?;
    memo.note(own as u32, at, whole)?;
    Ok(whole)
}
