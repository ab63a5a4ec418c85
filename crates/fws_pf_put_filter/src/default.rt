//! The state that needs no test.

ghost use Rattle.std.specs.Prelude.{◌≡◌, ℕ, ◌<◌, ◌≤◌, length, vec_len, All, IfOk};
ghost use Rattle.fws_pf_put_filter.specs.Conds.{IsTestable};
ghost use Rattle.fws_pf_put_filter.specs.States.{state_at};

use crate::tested::Tested;
use fws_iv::{Ivs, cubes};
use fws_num::Memory;
use fws_tree::Kid;
use fws_tree_seen::PacketField;
use std::alloc::Global;

// How many numbers a set has.
fn count(set: &Ivs) -> usize {
    let mut sum: usize = 0;
    for part in set.parts() {
        sum = sum.saturating_add(part.hi.saturating_sub(part.lo) as usize + 1);
    }
    sum
}

// How many entries from 1 to the greatest one a set has.
fn count_entries(top: u32, set: &Ivs) -> usize {
    let mut sum: usize = 0;
    for e in 1..top.saturating_add(1) {
        if set.has(e) {
            sum = sum.saturating_add(1);
        }
    }
    sum
}

// How many tests it takes to test for a set.
fn price(alloc: Global, tested: Tested, set: &Ivs) -> Result<usize, Memory>
    requires { IsTestable tested set.now }
{
    match tested {
        Tested::Entry(top) => Ok(count_entries(top, set)),
        Tested::Field(PacketField::Proto) => Ok(count(set)),
        Tested::Field(PacketField::Icmp) => Ok(count(set)),
        Tested::Field(PacketField::Flags) => Ok(cubes(alloc, set)?.len()),
        Tested::Field(_) => Ok(set.parts().len()),
    }
}

// Sets the sums of the states of kids to 0.
fn forget(kids: &[Kid], states: &[u32], sums: &mut Vec<usize>)
    requires known { All (λ kid. kid.node < length states.now) kids.now }
    requires low { (k : ℕ) → k < length states.now → state_at states.now k < vec_len sums.old }
    ensures { vec_len sums.new ≡ vec_len sums.old }
{
    for kid in kids {
        let state = states[kid.node as usize] as usize;
        sums[state] = 0;
    }
}

/// The place of a kid of the state whose kids together take most tests. The sums of states are 0 before and after. Fails if memory
/// runs out.
pub(crate) fn default_kid(
    alloc: Global,
    tested: Tested,
    kids: &[Kid],
    states: &[u32],
    sums: &mut Vec<usize>,
) -> Result<usize, Memory>
    requires some { 0 < length kids.now }
    requires testable { All (λ kid. IsTestable tested kid.set) kids.now }
    requires known { All (λ kid. kid.node < length states.now) kids.now }
    requires low { (k : ℕ) → k < length states.now → state_at states.now k < vec_len sums.old }
    ensures within { IfOk result (λ at. at < length kids.now) }
    ensures size { vec_len sums.new ≡ vec_len sums.old }
{
    let mut best = 0;
    let mut most = 0;
    for (i, kid) in kids.iter().enumerate() {
        let more = price(alloc, tested, &kid.set)?;
        let state = states[kid.node as usize] as usize;
        let sum = sums[state].saturating_add(more);
        sums[state] = sum;
        if sum > most {
            best = i;
            most = sum;
        }
    }
    forget(kids, states, sums);
    Ok(best)
}
