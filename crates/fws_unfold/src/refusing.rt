//! Which diagrams can't be unfolded.

ghost use Rattle.std.specs.Prelude.{◌≡◌, ℕ, ◌≤◌, Bool, true, false, ◌&&◌, nat_eq, Some, None, option_map, if◌then◌else◌, IfOk};
ghost use Rattle.std.specs.List.{list_any};
ghost use Rattle.fws_ifcl.specs.Loops.{NoLoop};
ghost use Rattle.fws_ifcl.specs.Refusals.{first_chain, is_staged, begins_path, deep_of, names_any, passed_at, long_of, or_else, refusal_of, size_of};
ghost use Rattle.fws_ifcl.specs.Soundness.{ifcl_ok};
ghost use Rattle.fws_unfold.specs.Calls.{AreCalls};
ghost use Rattle.fws_unfold.specs.Levels.{capped, size_at, is_naming};
ghost use Rattle.fws_unfold.specs.Short.{IsShort};

use crate::calls::{Calls, Shape, shapes_of};
use crate::depth::{flag_at, is_naming, path_table};
use crate::loops::loop_of;
use crate::sizes::{size_at, size_table};
use fws_ifcl::{
    Ifcl, Stage, UnfoldRefusal, loops_are_real, ok_diagrams_name_chains, sizes_stand_still,
};
use fws_num::Memory;
use std::alloc::Global;

/// The steps of the shortest path that is too deep: from the first of its 65 chains to the last.
const STEPS: usize = 64;

/// The most rules that a diagram may be unfolded to.
const LIMIT: u64 = 1_000_000;

/// Whether the chain is one of the stages.
fn has_chain(c: usize, stages: &[Stage]) -> bool
    ensures { result ≡ list_any (λ stage. nat_eq c stage.chain) stages.now }
{
    stages.iter().any(|stage| c == stage.chain as usize)
}

/// Whether the chain is one of a stage.
#[tactic(auto, using(crate::proofs::Refused::staged_in))]
pub(crate) fn is_staged(f: &Ifcl, c: usize) -> bool
    ensures { result ≡ is_staged f.now c }
{
    has_chain(c, f.arrive.as_slice())
        || has_chain(c, f.deliver.as_slice())
        || has_chain(c, f.forward.as_slice())
        || has_chain(c, f.send.as_slice())
}

/// The first chain of a stage at which a path of so many steps begins.
fn first_deep(alloc: Global, f: &Ifcl, calls: &Calls, steps: usize) -> Result<Option<usize>, Memory>
    requires calls { AreCalls calls.now }
    requires chains { calls.now.chains.now ≡ f.now.chains }
    requires some { 1 ≤ steps }
    ensures { IfOk result (λ o. o ≡ first_chain (λ c. is_staged f.now c && begins_path f.now.chains steps c) 0 f.now.chains) }
{
    let beginning = path_table(alloc, calls, steps)?;
    for (n, _chain) in f.chains.as_slice().iter().enumerate() {
        if is_staged(f, n) && flag_at(beginning.as_slice(), n) {
            return Ok(Some(n));
        }
    }
    Ok(None)
}

/// The first chain of a stage at which a path of more than 64 chains begins.
fn deep_of(alloc: Global, f: &Ifcl, calls: &Calls) -> Result<Option<usize>, Memory>
    requires calls { AreCalls calls.now }
    requires chains { calls.now.chains.now ≡ f.now.chains }
    ensures { IfOk result (λ o. o ≡ deep_of f.now) }
{
    first_deep(alloc, f, calls, STEPS)
}

/// The size of a chain of a stage; none for the others.
#[tactic(auto, using(crate::proofs::Refused::size_there, crate::proofs::Refused::size_nowhere))]
fn staged_size(f: &Ifcl, sizes: &[u64], c: usize) -> Option<u64>
    requires { (c : ℕ) → is_staged f.now c ≡ true → size_at sizes.now c ≡ capped (size_of f.now.chains c) }
    ensures { result ≡ (if is_staged f.now c then Some (capped (size_of f.now.chains c)) else None) }
{
    if is_staged(f, c) {
        return Some(size_at(sizes, c));
    }
    None
}

/// The chain of a stage with which the unfolded rules pass 1,000,000, by the sizes of the chains.
fn passed_at(f: &Ifcl, sizes: &[u64]) -> Option<usize>
    requires { (c : ℕ) → is_staged f.now c ≡ true → size_at sizes.now c ≡ capped (size_of f.now.chains c) }
    ensures { result ≡ passed_at f.now 0 0 f.now.chains }
{
    let mut sum = 0;
    for (n, _chain) in f.chains.as_slice().iter().enumerate() {
        match staged_size(f, sizes, n) {
            Some(size) => {
                sum += size;
                if sum > LIMIT {
                    return Some(n);
                }
            }
            None => {}
        }
    }
    None
}

/// Whether a rule of a chain names a chain.
fn any_names(shapes: &[Shape]) -> bool
    ensures { result ≡ list_any is_naming shapes.now }
{
    shapes.iter().any(is_naming)
}

/// The chain of a stage with which the unfolded rules pass 1,000,000, where some rule names a chain and
/// no path of more than so many chains begins at a chain of a stage.
#[tactic(auto, using(crate::proofs::Refused::none_named, crate::proofs::Refused::some_named, crate::proofs::Refused::sizes_known))]
fn long_of(alloc: Global, f: &Ifcl, calls: &Calls, deep: usize) -> Result<Option<usize>, Memory>
    requires calls { AreCalls calls.now }
    requires chains { calls.now.chains.now ≡ f.now.chains }
    requires acyclic { NoLoop f.now.chains }
    requires short { IsShort f.now deep }
    ensures { IfOk result (λ o. o ≡ long_of f.now) }
{
    sizes_stand_still();
    if !any_names(calls.shapes) {
        return Ok(None);
    }
    let sizes = size_table(alloc, calls, deep)?;
    Ok(passed_at(f, sizes.as_slice()))
}

/// The number of a chain, as a refusal has it.
fn number(n: usize) -> Result<u32, Memory>
    ensures { IfOk result (λ k. k ≡ n) }
{
    u32::try_from(n).map_err(|_| Memory)
}

/// Why a diagram without loops can't be unfolded.
fn refusal_by_size(alloc: Global, f: &Ifcl, calls: &Calls) -> Result<Option<UnfoldRefusal>, Memory>
    requires calls { AreCalls calls.now }
    requires chains { calls.now.chains.now ≡ f.now.chains }
    requires acyclic { NoLoop f.now.chains }
    ensures { IfOk result (λ r. r ≡ or_else (option_map UnfoldRefusal.Deep (deep_of f.now)) (option_map UnfoldRefusal.Long (long_of f.now))) }
{
    let deep = deep_of(alloc, f, calls)?;
    match deep {
        Some(n) => Ok(Some(UnfoldRefusal::Deep(number(n)?))),
        None => match long_of(alloc, f, calls, STEPS)? {
            Some(n) => Ok(Some(UnfoldRefusal::Long(number(n)?))),
            None => Ok(None),
        },
    }
}

/// Why the diagram can't be unfolded: a chain reaches itself, else a path of calls is too deep, else the
/// rules become too many. None where it can be. Linear in the rules.
pub(crate) fn refusal(alloc: Global, f: &Ifcl) -> Result<Option<UnfoldRefusal>, Memory>
    requires { ifcl_ok f.now ≡ true }
    ensures { IfOk result (λ r. r ≡ refusal_of f.now) }
{
    ok_diagrams_name_chains();
    let chains = f.chains.as_slice();
    let shapes = shapes_of(alloc, chains)?;
    let calls = Calls {
        chains,
        shapes: shapes.as_slice(),
    };
    let looped = loop_of(alloc, &calls)?;
    match looped {
        Some(n) => Ok(Some(UnfoldRefusal::Loop(number(n)?))),
        None => refusal_by_size(alloc, f, &calls),
    }
}
