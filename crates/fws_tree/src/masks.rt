//! Masks of cells: the bits of all values below each.

ghost use Rattle.std.specs.Prelude.{◌≡◌, ◌<◌, ◌≤◌, ℕ, List, length, slice_index, All};
ghost use Rattle.fws_tree.specs.Bits.{Covers, AreMasks, bits_in};
ghost use Rattle.fws_tree.specs.Held.{AreOrderedFrom, child_at, held_at};

use crate::store::{Cell, Step, Store};
use crate::values::Values;
use fws_num::Memory;

// The masks of the cells that the steps lead to, joined.
fn joined(masks: &[u64], steps: &[Step], last: u32) -> u64
    requires steps { All (λ s. s.node < length masks.now) steps.now }
    requires last { last < length masks.now }
    ensures { (x b : ℕ) → Covers (slice_index masks.now (child_at steps.now last x)) b → Covers result b }
{
    let mut mask = masks[last as usize];
    for step in steps {
        mask |= masks[step.node as usize];
    }
    mask
}

// The mask of the cell at this number, behind the masks of those before it.
fn mask_of(masks: &[u64], store: &Store, at: u32, values: &Values) -> u64
    requires ordered { AreOrderedFrom 0 store.now }
    requires next { at ≡ length masks.now }
    requires inside { at < length store.now }
    requires masks { AreMasks values.now store.now masks.now }
    ensures { (p : List ℕ) → Covers result (bits_in values.now (held_at store.now at p)) }
{
    match store.cell(at) {
        Cell::Leaf(value) => values.bits_of(*value),
        Cell::Cut(_, steps, last) => joined(masks, steps.as_slice(), *last),
    }
}

/// Adds the masks of the cells that have none yet. Fails if memory runs out. The time is that of the cells that are new.
pub(crate) fn catch_up(masks: &mut Vec<u64>, store: &Store, values: &Values) -> Result<(), Memory>
    requires ordered { AreOrderedFrom 0 store.now }
    requires masks { AreMasks values.now store.now masks.old.items }
    ensures { AreMasks values.now store.now masks.new.items }
{
    for at in masks.len()..store.len() {
        let Ok(at) = u32::try_from(at) else {
            return Err(Memory);
        };
        let mask = mask_of(masks.as_slice(), store, at, values);
        masks.push(mask)?;
    }
    Ok(())
}
