//! Whether a chain reaches itself, by a search in breadth.

ghost use Rattle.std.specs.Prelude.{◌≡◌, ◌<◌, ℕ, true, false, length, List, map, nat_eq, vec_len, IfOk, OnOk};
ghost use Rattle.std.specs.List.{list_any};
ghost use Rattle.fws_ifcl.specs.declared.diagram.Chain.{Chain};
ghost use Rattle.fws_ifcl.specs.Loops.{NamesChains, Reaches};
ghost use Rattle.fws_ifcl.specs.Refusals.{is_looped};
ghost use Rattle.fws_unfold.specs.declared.calls.Shape.{Shape};
ghost use Rattle.fws_unfold.specs.Calls.{AreCalls};
ghost use Rattle.fws_unfold.specs.Finding.{Found, AllReached, AllFound, Grows};

use crate::calls::{Calls, Shape, named};
use crate::depth::flag_at;
use fws_ifcl::{loops_are_found, loops_are_real};
use fws_num::Memory;
use std::alloc::Global;

/// No flag for any chain.
fn no_flags(alloc: Global, shapes: &[Shape]) -> Result<Vec<bool>, Memory>
    ensures { IfOk result (λ v. v.items ≡ map (λ (shape : Shape). false) shapes.now) }
{
    let mut flags = Vec::new(alloc);
    for _shape in shapes {
        flags.push(false)?;
    }
    Ok(flags)
}

/// Finds the chain, if it wasn't found before.
#[tactic(auto, using(crate::proofs::Searching::grows_same, crate::proofs::Searching::grows_push, crate::proofs::Searching::find_new, crate::proofs::Searching::new_there, crate::proofs::Searching::old_there))]
fn find(seen: &mut Vec<bool>, queue: &mut Vec<u32>, d: u32) -> Result<(), Memory>
    requires { d < vec_len seen.old }
    ensures found { OnOk result ((chains : List Chain) (c : ℕ) → Found chains c seen.old.items queue.old.items → d < length chains → Reaches chains c d → Found chains c seen.new.items queue.new.items) }
    ensures grown { OnOk result (Grows queue.old.items queue.new.items) }
    ensures there { OnOk result ((chains : List Chain) (c : ℕ) → Found chains c seen.old.items queue.old.items → list_any (nat_eq d) queue.new.items ≡ true) }
{
    if flag_at(seen.as_slice(), d as usize) {
        return Ok(());
    }
    seen[d as usize] = true;
    queue.push(d)?;
    Ok(())
}

/// Finds the chains that chain `from` names, in a search that began at chain `c`.
fn find_named(
    calls: &Calls,
    c: usize,
    from: usize,
    seen: &mut Vec<bool>,
    queue: &mut Vec<u32>,
) -> Result<(), Memory>
    requires calls { AreCalls calls.now }
    requires known { NamesChains calls.now.chains.now }
    requires reached { AllReached calls.now.chains.now c from }
    requires found { Found calls.now.chains.now c seen.old.items queue.old.items }
    ensures found { OnOk result (Found calls.now.chains.now c seen.new.items queue.new.items) }
    ensures grown { OnOk result (Grows queue.old.items queue.new.items) }
    ensures all { OnOk result (AllFound calls.now.chains.now queue.new.items from) }
{
    for d in named(calls.shapes, from) {
        find(seen, queue, *d)?;
    }
    Ok(())
}

/// Whether the chain reaches itself. Linear in the rules.
pub(crate) fn reaches_itself(alloc: Global, calls: &Calls, c: usize) -> Result<bool, Memory>
    requires calls { AreCalls calls.now }
    requires known { NamesChains calls.now.chains.now }
    ensures { IfOk result (λ b. b ≡ is_looped calls.now.chains.now c) }
{
    loops_are_found();
    loops_are_real();
    let chains = calls.chains.len();
    let mut seen = no_flags(alloc, calls.shapes)?;
    let mut queue = Vec::new(alloc);
    find_named(calls, c, c, &mut seen, &mut queue)?;
    for k in 0..chains {
        let found = queue.len();
        if found <= k {
            return Ok(flag_at(seen.as_slice(), c));
        }
        let from = queue[k];
        find_named(calls, c, from as usize, &mut seen, &mut queue)?;
    }
    Ok(flag_at(seen.as_slice(), c))
}
