//! When the numbers in a diagram are right.

ghost use Rattle.std.specs.Prelude.{◌≡◌, ℕ, ◌&&◌, length};
ghost use Rattle.std.specs.List.{list_all};
ghost use Rattle.fws_ifcl.specs.Soundness.{act_ok, rules_ok, chain_ok, stage_ok, ifcl_ok};

use crate::diagram::{Act, Chain, Ifcl, Rule, Stage};

/// Whether the act of the rule at place `at` of so many names one of so many chains, and skips
/// forward to at most one past the rules.
fn act_ok(chains: usize, rules: usize, at: usize, act: Act) -> bool
    ensures { result ≡ act_ok chains rules at act }
{
    match act {
        Act::Call(c) | Act::Goto(c) => (c as usize) < chains,
        Act::Skip(to) => at < to as usize && to as usize <= rules,
        _ => true,
    }
}

/// Whether each of the rules is right.
fn rules_ok(chains: usize, rules: &[Rule]) -> bool
    ensures { result ≡ rules_ok chains (length rules.now) 0 rules.now }
{
    for (at, rule) in rules.iter().enumerate() {
        if !act_ok(chains, rules.len(), at, rule.act) {
            return false;
        }
    }
    true
}

/// Whether each rule of each chain is right.
fn chains_ok(chains: &[Chain]) -> bool
    ensures { result ≡ list_all (chain_ok (length chains.now)) chains.now }
{
    for chain in chains {
        if !rules_ok(chains.len(), chain.rules.as_slice()) {
            return false;
        }
    }
    true
}

/// Whether the stages name some of so many chains.
fn stages_ok(chains: usize, stages: &[Stage]) -> bool
    ensures { result ≡ list_all (stage_ok chains) stages.now }
{
    stages.iter().all(|stage| (stage.chain as usize) < chains)
}

/// Whether every number names a chain, and every skip goes forward, to at most one past the last rule
/// of its chain.
pub fn ifcl_ok(f: &Ifcl) -> bool
    ensures { result ≡ ifcl_ok f.now }
{
    let chains = f.chains.len();
    chains_ok(f.chains.as_slice())
        && stages_ok(chains, f.arrive.as_slice())
        && stages_ok(chains, f.deliver.as_slice())
        && stages_ok(chains, f.forward.as_slice())
        && stages_ok(chains, f.send.as_slice())
}
