//! The kids of a cut as steps.

ghost use Rattle.std.specs.Prelude.{◌≡◌, ℕ, ◌<◌, ◌≤◌, ◌+◌, IfOk, All, OnOk};
ghost use Rattle.fws_tree.specs.Held.{child_at, over_leaf};
ghost use Rattle.fws_tree.specs.Loaded.{kid_number, named_cell};

use crate::halves::{Cuts, cuts_of};
use crate::node::Kid;
use crate::store::add_step;
use crate::together::meet_steps;
use fws_num::Memory;
use std::alloc::Global;

// Of two numbers the second where the first is 0.
fn over_number(a: u32, b: u32) -> u32
    ensures { result ≡ over_leaf a b }
{
    if a == 0 { b } else { a }
}

// The numbers of the first steps, and those of the second ones where these are 0.
fn join_cuts(alloc: Global, a: &Cuts, b: &Cuts) -> Result<Cuts, Memory>
    ensures { IfOk result (λ r. (x : ℕ) → child_at r.steps.items r.last x ≡ over_leaf (child_at a.now.steps.items a.now.last x) (child_at b.now.steps.items b.now.last x)) }
{
    let met = meet_steps(
        alloc,
        a.steps.as_slice(),
        a.last,
        b.steps.as_slice(),
        b.last,
    )?;
    let mut steps = Vec::new(alloc);
    for both in &met {
        add_step(&mut steps, both.hi, over_number(both.left, both.right))?;
    }
    Ok(Cuts {
        steps,
        last: over_number(a.last, b.last),
    })
}

/// Steps up to the top with one more than the node of the first kid that has a value, and 0 where
/// none has.
pub(crate) fn kid_steps(alloc: Global, kids: &[Kid], top: u32) -> Result<Cuts, Memory>
    ensures { IfOk result (λ r. (x : ℕ) → x ≤ top → child_at r.steps.items r.last x ≡ kid_number kids.now x) }
{
    let n = kids.len();
    if n == 0 {
        return Ok(Cuts {
            steps: Vec::new(alloc),
            last: 0,
        });
    }
    if n == 1 {
        return match kids[0].node.checked_add(1) {
            Some(number) => cuts_of(alloc, kids[0].set.parts(), top, number, 0),
            None => Err(Memory),
        };
    }
    let (first, last) = kids.split_at(n / 2);
    let a = kid_steps(alloc, first, top)?;
    let b = kid_steps(alloc, last, top)?;
    join_cuts(alloc, &a, &b)
}

// The cell for a number that is one more than a place, and the other one for 0.
fn named_cell(at: &[u32], rest: u32, number: u32) -> u32
    ensures value { result ≡ named_cell at.now rest number }
    ensures below { (n : ℕ) → All (λ c. c < n) at.now → rest < n → result < n }
{
    if number == 0 {
        return rest;
    }
    match at.get((number - 1) as usize) {
        Some(cell) => *cell,
        None => rest,
    }
}

/// The same steps with cells in place of numbers.
pub(crate) fn cell_steps(alloc: Global, cuts: &Cuts, at: &[u32], rest: u32) -> Result<Cuts, Memory>
    ensures value { IfOk result (λ r. (x : ℕ) → child_at r.steps.items r.last x ≡ named_cell at.now rest (child_at cuts.now.steps.items cuts.now.last x)) }
    ensures below { IfOk result (λ r. (n : ℕ) → All (λ c. c < n) at.now → rest < n → All (λ s. s.node < n) r.steps.items × (r.last < n)) }
{
    let mut steps = Vec::new(alloc);
    for step in &cuts.steps {
        add_step(&mut steps, step.hi, named_cell(at, rest, step.node))?;
    }
    Ok(Cuts {
        steps,
        last: named_cell(at, rest, cuts.last),
    })
}
