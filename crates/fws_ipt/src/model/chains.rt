//! The walk through the chains of a table (iptables(8)).

ghost use Rattle.std.specs.Prelude.{◌≡◌, nat_eq, IfOk};
ghost use Rattle.std.specs.List.{list_any};
ghost use Rattle.fws_net.specs.Routes.{IsSound};
ghost use Rattle.fws_ipt.specs.Walk.{chain_walk, rules_walk, rules_at, policy_at, by_policy, builtin_walk};

use crate::config::{IptChain, IptRule};
use crate::model::acting::{Scene, Step, rule_step};
use crate::passage::{ChainEnd, Passage};
use fws_num::Memory;
use std::alloc::Global;

/// The rules of the chain with this number.
pub(crate) fn rules_at(chains: &[IptChain], c: usize) -> &[IptRule]
    ensures { result.now ≡ rules_at chains.now c }
{
    match chains.get(c) {
        Some(chain) => chain.rules.as_slice(),
        None => &[],
    }
}

/// Whether the chain is on the path.
fn is_on(path: &[usize], c: usize) -> bool
    ensures { result ≡ list_any (nat_eq c) path.now }
{
    path.iter().any(|on| c == *on)
}

/// Walks rules of the chain that was entered last on the path, while at most `left` chains are entered.
#[cycle(chains)]
fn rules_walk(
    alloc: Global,
    scene: &Scene,
    left: usize,
    path: &[usize],
    rules: &[IptRule],
    m: Passage,
) -> Result<ChainEnd, Memory>
    requires { IsSound scene.now.site.now }
    ensures { IfOk result (λ end. end ≡ rules_walk (chain_walk scene.now.chains.now scene.now.site.now scene.now.entered scene.now.is_est scene.now.hook left path.now) scene.now.site.now scene.now.entered scene.now.is_est scene.now.hook rules.now m) }
{
    let mut now = m;
    for rule in rules {
        match rule_step(alloc, scene, rule, now)? {
            Step::Leave(end) => return Ok(end),
            Step::Onwards(m) => now = m,
            Step::Call(d, m) => match chain_walk(alloc, scene, left, path, d as usize, m)? {
                ChainEnd::Through(m) => now = m,
                end => return Ok(end),
            },
            Step::Switch(d, m) => {
                return chain_walk(alloc, scene, left, path, d as usize, m);
            }
        }
    }
    Ok(ChainEnd::Through(now))
}

/// Walks chain `c`, entered from the chains of the path, while at most `left` chains are entered.
#[cycle(chains)]
fn chain_walk(
    alloc: Global,
    scene: &Scene,
    left: usize,
    path: &[usize],
    c: usize,
    m: Passage,
) -> Result<ChainEnd, Memory>
    requires { IsSound scene.now.site.now }
    ensures { IfOk result (λ end. end ≡ chain_walk scene.now.chains.now scene.now.site.now scene.now.entered scene.now.is_est scene.now.hook left path.now c m) }
{
    if left == 0 {
        return Ok(ChainEnd::Dropped);
    }
    if is_on(path, c) {
        return Ok(ChainEnd::Dropped);
    }
    let mut under = Vec::new(alloc);
    under.push(c)?;
    under.extend_from_slice(path)?;
    rules_walk(
        alloc,
        scene,
        left - 1,
        under.as_slice(),
        rules_at(scene.chains, c),
        m,
    )
}

/// Whether the chain with this number accepts at its end.
fn policy_at(chains: &[IptChain], c: usize) -> bool
    ensures { result ≡ policy_at chains.now c }
{
    match chains.get(c) {
        Some(chain) => chain.policy.unwrap_or(true),
        None => true,
    }
}

/// The packet behind a built-in chain with this policy; none where it is dropped.
fn by_policy(accepts: bool, end: ChainEnd) -> Option<Passage>
    ensures { result ≡ by_policy accepts end }
{
    match end {
        ChainEnd::Accepted(m) => Some(m),
        ChainEnd::Dropped => None,
        ChainEnd::Through(m) => { if accepts { Some(m) } else { None } }
    }
}

/// Walks a built-in chain; one that the file doesn't have accepts.
pub(crate) fn builtin_walk(
    alloc: Global,
    scene: &Scene,
    c: Option<usize>,
    m: Passage,
) -> Result<Option<Passage>, Memory>
    requires { IsSound scene.now.site.now }
    ensures { IfOk result (λ o. o ≡ builtin_walk scene.now.chains.now scene.now.site.now scene.now.entered scene.now.is_est scene.now.hook c m) }
{
    let Some(c) = c else {
        return Ok(Some(m));
    };
    let end = chain_walk(alloc, scene, scene.chains.len(), &[], c, m)?;
    Ok(by_policy(policy_at(scene.chains, c), end))
}
