//! Chains that reach themselves.

ghost use Rattle.std.specs.Prelude.{◌≡◌, ℕ, IfOk};
ghost use Rattle.fws_ifcl.specs.Loops.{NamesChains};
ghost use Rattle.fws_ifcl.specs.Refusals.{first_chain, is_looped};
ghost use Rattle.fws_unfold.specs.Calls.{AreCalls};
ghost use Rattle.fws_unfold.specs.Numbers.{number_at, none_above, all_below, never_rise, NeverRise};

use crate::calls::{Calls, Shape, named};
use crate::numbering::number_chains;
use crate::reaching::reaches_itself;
use fws_ifcl::loops_are_real;
use fws_num::Memory;
use std::alloc::Global;

/// The number of a chain; 0 past the end.
fn number_at(numbers: &[u32], c: usize) -> u32
    ensures { result ≡ number_at numbers.now c }
{
    numbers.get(c).copied().unwrap_or(0)
}

/// Whether none of the chains has a greater number than this.
fn none_above(numbers: &[u32], top: u32, names: &[u32]) -> bool
    ensures { result ≡ none_above numbers.now top names.now }
{
    names.iter().all(|c| number_at(numbers, *c as usize) <= top)
}

/// Whether each of the chains has a smaller number than this.
fn all_below(numbers: &[u32], top: u32, names: &[u32]) -> bool
    ensures { result ≡ all_below numbers.now top names.now }
{
    names.iter().all(|c| number_at(numbers, *c as usize) < top)
}

/// Whether numbers never rise along a call.
fn never_rise(numbers: &[u32], shapes: &[Shape]) -> bool
    ensures { result ≡ never_rise numbers.now 0 shapes.now }
{
    for (c, shape) in shapes.iter().enumerate() {
        if !none_above(numbers, number_at(numbers, c), shape.names.as_slice()) {
            return false;
        }
    }
    true
}

/// Whether the chain reaches itself. It doesn't where its calls all lead to smaller numbers, which never
/// rise.
fn is_looped(alloc: Global, calls: &Calls, numbers: &[u32], c: usize) -> Result<bool, Memory>
    requires calls { AreCalls calls.now }
    requires known { NamesChains calls.now.chains.now }
    requires numbers { NeverRise numbers.now calls.now.chains.now }
    ensures { IfOk result (λ b. b ≡ is_looped calls.now.chains.now c) }
{
    loops_are_real();
    if all_below(numbers, number_at(numbers, c), named(calls.shapes, c)) {
        return Ok(false);
    }
    reaches_itself(alloc, calls, c)
}

/// The first chain that reaches itself.
fn first_looped(alloc: Global, calls: &Calls, numbers: &[u32]) -> Result<Option<usize>, Memory>
    requires calls { AreCalls calls.now }
    requires known { NamesChains calls.now.chains.now }
    requires numbers { NeverRise numbers.now calls.now.chains.now }
    ensures { IfOk result (λ o. o ≡ first_chain (is_looped calls.now.chains.now) 0 calls.now.chains.now) }
{
    for (c, _chain) in calls.chains.iter().enumerate() {
        if is_looped(alloc, calls, numbers, c)? {
            return Ok(Some(c));
        }
    }
    Ok(None)
}

#[tactic(auto, using(crate::proofs::Numbers::numbers_shown, crate::proofs::Numbers::no_numbers))]
/// The first chain that reaches itself. Numbers that don't show where calls lead are not used.
pub(crate) fn loop_of(alloc: Global, calls: &Calls) -> Result<Option<usize>, Memory>
    requires calls { AreCalls calls.now }
    requires known { NamesChains calls.now.chains.now }
    ensures { IfOk result (λ o. o ≡ first_chain (is_looped calls.now.chains.now) 0 calls.now.chains.now) }
{
    let made = number_chains(alloc, calls.shapes)?;
    let numbers = made.as_slice();
    if never_rise(numbers, calls.shapes) {
        return first_looped(alloc, calls, numbers);
    }
    first_looped(alloc, calls, &[])
}
