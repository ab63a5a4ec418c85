//! The sizes of unfolded chains. Numbers past 1,000,000 are all alike, so that none grows too large.

ghost use Rattle.std.specs.Prelude.{◌≡◌, ℕ, ◌+◌, ◌≤◌, length, map, sum, IfOk};
ghost use Rattle.fws_ifcl.specs.Refusals.{size_within};
ghost use Rattle.fws_unfold.specs.Calls.{AreCalls};
ghost use Rattle.fws_unfold.specs.Levels.{capped, size_at, size_behind};

use crate::calls::{Calls, Shape};
use fws_num::Memory;
use std::alloc::Global;

/// More than a diagram may be unfolded to.
const CAP: u64 = 1_000_001;

/// The sum, or the cap where it is more.
fn capped_sum(a: u64, b: u64) -> u64
    ensures { result ≡ capped (a + b) }
{
    (a.min(CAP) + b.min(CAP)).min(CAP)
}

/// The size that a table has for a chain.
pub(crate) fn size_at(table: &[u64], c: usize) -> u64
    ensures { result ≡ size_at table.now c }
{
    table.get(c).copied().unwrap_or(0)
}

/// The size of a chain, by the sizes of those that it names; at most the cap.
fn size_behind(before: &[u64], shape: &Shape) -> u64
    ensures { result ≡ size_behind before.now shape.now }
{
    let mut size = capped_sum(shape.rules as u64, 0);
    for c in shape.names.as_slice() {
        size = capped_sum(size, size_at(before, *c as usize));
    }
    size
}

/// The sizes that are one chain deeper.
fn sizes_behind(alloc: Global, shapes: &[Shape], before: &[u64]) -> Result<Vec<u64>, Memory>
    ensures { IfOk result (λ v. v.items ≡ map (size_behind before.now) shapes.now) }
{
    let mut level = Vec::new(alloc);
    for shape in shapes {
        level.push(size_behind(before, shape))?;
    }
    Ok(level)
}

/// The sizes of the chains where at most so many may be entered, each at most the cap.
#[tactic(auto, using(crate::proofs::Levels::size_deeper))]
pub(crate) fn size_table(alloc: Global, calls: &Calls, deep: usize) -> Result<Vec<u64>, Memory>
    requires { AreCalls calls.now }
    ensures { IfOk result (λ v. (c : ℕ) → size_at v.items c ≡ capped (size_within calls.now.chains.now deep c)) }
{
    let mut level = Vec::new(alloc);
    for _n in 0..deep {
        level = sizes_behind(alloc, calls.shapes, level.as_slice())?;
    }
    Ok(level)
}
