//! The value that a cell holds at a point.

ghost use Rattle.std.specs.Prelude.{◌≡◌, ◌<◌, true, nat_lt, Some, length, slice_get, slice_index, IfOk, OnOk};
ghost use Rattle.fws_tree.specs.declared.store.Cell.{Cell};
ghost use Rattle.fws_tree.specs.Held.{AreOrderedFrom, child_at, field_of, held_at};
ghost use Rattle.fws_tree.specs.Parts.{own_steps};
ghost use Rattle.fws_tree.specs.Rising.{Rise, AreRising};

use crate::store::{Step, Store};
use crate::together::{cut_field, held_by, view};
use fws_num::Memory;
use std::alloc::Global;
use std::collections::HashSet;

/// Cells with many steps that were looked through, and whose steps don't fall: in these a step is found by halves.
#[derive(Drop)]
pub(crate) struct Rising {
    // Up to how many steps are looked through one by one.
    few: usize,
    cells: HashSet<u32>,
}

impl Rising {
    ghost use Rattle.std.specs.Prelude.{List};
    ghost use Rattle.fws_tree.specs.declared.store.Cell.{Cell};
    ghost use Rattle.fws_tree.specs.Rising.{AreRising};

    /// No cell yet. Up to so many steps are looked through one by one.
    pub(crate) fn new(alloc: Global, few: usize) -> Rising
        ensures { (cells : List Cell) → AreRising cells result }
    {
        Rising {
            few,
            cells: HashSet::new(alloc),
        }
    }
}

// Whether the greatest values of the steps don't fall.
fn rise(steps: &[Step]) -> bool
    ensures { result ≡ true → Rise steps.now }
{
    for k in 1..steps.len() {
        if steps[k].hi < steps[k - 1].hi {
            return false;
        }
    }
    true
}

// The cell of the first step that reaches the value, else the last one.
fn child_of(steps: &[Step], last: u32, x: u32) -> u32
    ensures { result ≡ child_at steps.now last x }
{
    for step in steps {
        if x <= step.hi {
            return step.node;
        }
    }
    last
}

// The same by halves.
fn child_by_halves(steps: &[Step], last: u32, x: u32) -> u32
    requires { Rise steps.now }
    ensures { result ≡ child_at steps.now last x }
{
    let at = steps.partition_point(
        |step: &Step| -> bool
            ensures { result ≡ nat_lt step.now.hi x }
        { step.hi < x },
    );
    if at < steps.len() {
        return steps[at].node;
    }
    last
}

// Whether the steps of the cell don't fall; those of the noted cells don't. Such a cell is noted.
fn is_rising(
    store: &Store,
    rising: &mut Rising,
    at: u32,
    field: u8,
    steps: &[Step],
) -> Result<bool, Memory>
    requires cut { (c : Cell) → slice_get store.now at ≡ Some c → field_of c ≡ Some field }
    requires own { steps.now ≡ own_steps field (slice_get store.now at) }
    requires rising { AreRising store.now rising.old }
    ensures rising { OnOk result (AreRising store.now rising.new) }
    ensures rise { IfOk result (λ yes. yes ≡ true → Rise steps.now) }
{
    if rising.cells.contains(&at) {
        return Ok(true);
    }
    if !rise(steps) {
        return Ok(false);
    }
    rising.cells.insert(at)?;
    Ok(true)
}

// The cell to which the steps of cell `at` lead at the value.
fn child(
    store: &Store,
    rising: &mut Rising,
    at: u32,
    field: u8,
    steps: &[Step],
    last: u32,
    x: u32,
) -> Result<u32, Memory>
    requires cut { (c : Cell) → slice_get store.now at ≡ Some c → field_of c ≡ Some field }
    requires own { steps.now ≡ own_steps field (slice_get store.now at) }
    requires rising { AreRising store.now rising.old }
    ensures rising { OnOk result (AreRising store.now rising.new) }
    ensures child { IfOk result (λ n. n ≡ child_at steps.now last x) }
{
    if steps.len() <= rising.few {
        return Ok(child_of(steps, last, x));
    }
    if is_rising(store, rising, at, field, steps)? {
        return Ok(child_by_halves(steps, last, x));
    }
    Ok(child_of(steps, last, x))
}

// The point's value of the field; 0 where there is no such field.
fn value_of(p: &[u32; 12], field: u8) -> u32
    ensures { result ≡ slice_index p.now field }
{
    let field = field as usize;
    if field < p.len() { p[field] } else { 0 }
}

/// What the cell holds at the point. Cells with many steps are noted, so that they are looked through once: from then on the time
/// for each of them is logarithmic. Fails if memory runs out.
pub(crate) fn held(
    store: &Store,
    rising: &mut Rising,
    at: u32,
    p: &[u32; 12],
) -> Result<u32, Memory>
    requires ordered { AreOrderedFrom 0 store.now }
    requires inside { at < length store.now }
    requires rising { AreRising store.now rising.old }
    ensures rising { OnOk result (AreRising store.now rising.new) }
    ensures held { IfOk result (λ n. n ≡ held_at store.now at p.now) }
{
    if let Some(value) = held_by(store, at) {
        return Ok(value);
    }
    let Some(field) = cut_field(store, at) else {
        unreachable!();
    };
    let (steps, last) = view(store, at, field);
    let next = child(store, rising, at, field, steps, last, value_of(p, field))?;
    held(store, rising, next, p)
}
