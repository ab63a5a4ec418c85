//! Cells copied into another store.

ghost use Rattle.std.specs.Prelude.{◌≡◌, ◌<◌, ℕ, List, length, IfOk, OnOk};
ghost use Rattle.fws_tree.specs.Building.{Extends};
ghost use Rattle.fws_tree.specs.Copied.{AreCopied};
ghost use Rattle.fws_tree.specs.Held.{AreOrderedFrom, held_at};

use crate::memo::Memo;
use crate::store::{Cell, Store, add_step};
use crate::together::{cut_field, held_by, view};
use fws_num::Memory;
use std::alloc::Global;

/// The number in the second store of a cell that holds what the cell of the first one holds. The memo
/// has the cells that were copied before. The time is that of the cells that this one reaches.
pub(crate) fn copied(
    alloc: Global,
    store: &Store,
    fresh: &mut Store,
    memo: &mut Memo,
    at: u32,
) -> Result<u32, Memory>
    requires ordered { AreOrderedFrom 0 store.now }
    requires at { at < length store.now }
    requires fresh { AreOrderedFrom 0 fresh.old }
    requires known { AreCopied store.now fresh.old memo.old }
    ensures ordered { AreOrderedFrom 0 fresh.new }
    ensures extends { Extends fresh.old fresh.new }
    ensures inside { IfOk result (λ r. r < length fresh.new) }
    ensures held { IfOk result (λ r. (p : List ℕ) → held_at fresh.new r p ≡ held_at store.now at p) }
    ensures known { OnOk result (AreCopied store.now fresh.new memo.new) }
{
    if let Some(n) = held_by(store, at) {
        return fresh.intern(Cell::Leaf(n));
    }
    if let Some(r) = memo.recall(0, at) {
        return Ok(r);
    }
    let Some(field) = cut_field(store, at) else {
        unreachable!();
    };
    let (steps, last) = view(store, at, field);
    let mut copies = Vec::new(alloc);
    for s in steps {
        let node = copied(alloc, store, fresh, memo, s.node)?;
        add_step(&mut copies, s.hi, node)?;
    }
    let last = copied(alloc, store, fresh, memo, last)?;
    let whole = fresh.cut(field, copies, last)?;
    memo.note(0, at, whole)?;
    Ok(whole)
}
