//! Which chains reach a chain, and where long paths begin. A table over the chains says it for paths of
//! so many steps, and the table for one step more is made from it.

ghost use Rattle.std.specs.Prelude.{◌≡◌, ℕ, ◌≤◌, Some, None, length, map, IfOk};
ghost use Rattle.std.specs.List.{list_any};
ghost use Rattle.fws_ipt.specs.Refusals.{named_by, all_named, reaches, is_looped, begins_path, names_any};
ghost use Rattle.fws_ipt.specs.Levels.{flag_at, is_met, flag_behind};

use crate::config::{IptChain, IptGo, IptRule};
use fws_num::Memory;
use std::alloc::Global;

/// The chain that a rule jumps or goes to.
pub(crate) fn named_by(go: IptGo) -> Option<u32>
    ensures { result ≡ named_by go }
{
    match go {
        IptGo::Jump(c) | IptGo::Goto(c) => Some(c),
        _ => None,
    }
}

/// Whether the table has the chain.
pub(crate) fn flag_at(table: &[bool], c: usize) -> bool
    ensures { result ≡ flag_at table.now c }
{
    table.get(c).copied().unwrap_or(false)
}

/// Whether it is the chain that is looked for, if one is, or the table has it.
fn is_met(to: Option<usize>, before: &[bool], c: usize) -> bool
    ensures { result ≡ is_met to before.now c }
{
    match to {
        Some(to) => c == to || flag_at(before, c),
        None => flag_at(before, c),
    }
}

/// Whether one of the rules names such a chain.
fn names_met(to: Option<usize>, before: &[bool], rules: &[IptRule]) -> bool
    ensures { result ≡ list_any (is_met to before.now) (all_named rules.now) }
{
    for rule in rules {
        if let Some(c) = named_by(rule.go) {
            if is_met(to, before, c as usize) {
                return true;
            }
        }
    }
    false
}

/// The table for one step more.
fn level_behind(
    alloc: Global,
    chains: &[IptChain],
    to: Option<usize>,
    before: &[bool],
) -> Result<Vec<bool>, Memory>
    ensures { IfOk result (λ v. v.items ≡ map (flag_behind to before.now) chains.now) }
{
    let mut level = Vec::new(alloc);
    for chain in chains {
        level.push(names_met(to, before, chain.rules.as_slice()))?;
    }
    Ok(level)
}

/// The chains that reach the chain.
#[tactic(auto, using(crate::proofs::Levels::reach_behind, crate::proofs::Levels::reach_settled))]
fn reach_table(alloc: Global, chains: &[IptChain], to: usize) -> Result<Vec<bool>, Memory>
    ensures { IfOk result (λ v. (c : ℕ) → flag_at v.items c ≡ reaches chains.now (length chains.now) c to) }
{
    let mut level = Vec::new(alloc);
    for _n in 0..chains.len() {
        let next = level_behind(alloc, chains, Some(to), level.as_slice())?;
        if next.as_slice() == level.as_slice() {
            return Ok(level);
        }
        level = next;
    }
    Ok(level)
}

/// Whether the chain reaches itself.
pub(crate) fn is_looped(alloc: Global, chains: &[IptChain], c: usize) -> Result<bool, Memory>
    ensures { IfOk result (λ b. b ≡ is_looped chains.now c) }
{
    let reaching = reach_table(alloc, chains, c)?;
    Ok(flag_at(reaching.as_slice(), c))
}

/// Whether a rule of the chain names a chain.
pub(crate) fn names_any(chain: &IptChain) -> bool
    ensures { result ≡ names_any chain.now }
{
    chain
        .rules
        .as_slice()
        .iter()
        .any(|rule| named_by(rule.go).is_some())
}

/// The chains at which a path of one step begins.
fn naming_table(alloc: Global, chains: &[IptChain]) -> Result<Vec<bool>, Memory>
    ensures { IfOk result (λ v. v.items ≡ map names_any chains.now) }
{
    let mut level = Vec::new(alloc);
    for chain in chains {
        level.push(names_any(chain))?;
    }
    Ok(level)
}

/// The chains at which a path of so many steps begins.
#[tactic(auto, using(crate::proofs::Levels::path_behind, crate::proofs::Levels::paths_begin))]
pub(crate) fn path_table(
    alloc: Global,
    chains: &[IptChain],
    steps: usize,
) -> Result<Vec<bool>, Memory>
    requires { 1 ≤ steps }
    ensures { IfOk result (λ v. (c : ℕ) → flag_at v.items c ≡ begins_path chains.now steps c) }
{
    let mut level = naming_table(alloc, chains)?;
    for _n in 1..steps {
        level = level_behind(alloc, chains, None, level.as_slice())?;
    }
    Ok(level)
}
