//! Where long paths begin. A table over the chains says it for paths of so many steps, and the table for
//! one step more is made from it.

ghost use Rattle.std.specs.Prelude.{◌≡◌, ℕ, ◌≤◌, length, map, IfOk};
ghost use Rattle.fws_ifcl.specs.Refusals.{begins_path};
ghost use Rattle.fws_unfold.specs.Calls.{AreCalls};
ghost use Rattle.fws_unfold.specs.Levels.{flag_at, is_naming, flag_behind};

use crate::calls::{Calls, Shape};
use fws_num::Memory;
use std::alloc::Global;

/// Whether the table has the chain.
pub(crate) fn flag_at(table: &[bool], c: usize) -> bool
    ensures { result ≡ flag_at table.now c }
{
    table.get(c).copied().unwrap_or(false)
}

/// Whether the chain names some chain.
pub(crate) fn is_naming(shape: &Shape) -> bool
    ensures { result ≡ is_naming shape.now }
{
    shape.names.as_slice().get(0).is_some()
}

/// The chains at which a path of one step begins.
fn naming_table(alloc: Global, shapes: &[Shape]) -> Result<Vec<bool>, Memory>
    ensures { IfOk result (λ v. v.items ≡ map is_naming shapes.now) }
{
    let mut level = Vec::new(alloc);
    for shape in shapes {
        level.push(is_naming(shape))?;
    }
    Ok(level)
}

/// Whether the chain names one that the table has.
fn flag_behind(before: &[bool], shape: &Shape) -> bool
    ensures { result ≡ flag_behind before.now shape.now }
{
    shape
        .names
        .as_slice()
        .iter()
        .any(|c| flag_at(before, *c as usize))
}

/// The table for one step more.
fn level_behind(alloc: Global, shapes: &[Shape], before: &[bool]) -> Result<Vec<bool>, Memory>
    ensures { IfOk result (λ v. v.items ≡ map (flag_behind before.now) shapes.now) }
{
    let mut level = Vec::new(alloc);
    for shape in shapes {
        level.push(flag_behind(before, shape))?;
    }
    Ok(level)
}

/// The chains at which a path of so many steps begins.
#[tactic(auto, using(crate::proofs::Levels::path_behind, crate::proofs::Levels::paths_begin))]
pub(crate) fn path_table(alloc: Global, calls: &Calls, steps: usize) -> Result<Vec<bool>, Memory>
    requires calls { AreCalls calls.now }
    requires some { 1 ≤ steps }
    ensures { IfOk result (λ v. (c : ℕ) → flag_at v.items c ≡ begins_path calls.now.chains.now steps c) }
{
    let mut level = naming_table(alloc, calls.shapes)?;
    for _n in 1..steps {
        level = level_behind(alloc, calls.shapes, level.as_slice())?;
    }
    Ok(level)
}
