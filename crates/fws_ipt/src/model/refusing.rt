//! Which configurations can't be unfolded.

ghost use Rattle.std.specs.Prelude.{◌≡◌, ℕ, ◌≤◌, ◌&&◌, IfOk};
ghost use Rattle.std.specs.List.{list_any};
ghost use Rattle.fws_ipt.specs.Refusals.{first_chain, is_builtin, begins_path, loop_of, deep_of, names_any, passed_at, long_of, refusal_of};

use crate::config::{IptChain, IptConfig};
use crate::model::levels::{flag_at, is_looped, names_any, path_table};
use crate::model::sizes::{size_at, size_table};
use crate::refusal::UnfoldRefusal;
use fws_net::Site;
use fws_num::Memory;
use std::alloc::Global;

/// The steps of the shortest path that is too deep: from the first of its 65 chains to the last.
const STEPS: usize = 64;

/// The most rules that a configuration may be unfolded to.
const LIMIT: u64 = 1_000_000;

/// The first chain that reaches itself.
fn loop_of(alloc: Global, chains: &[IptChain]) -> Result<Option<usize>, Memory>
    ensures { IfOk result (λ o. o ≡ loop_of chains.now) }
{
    for (n, _chain) in chains.iter().enumerate() {
        if is_looped(alloc, chains, n)? {
            return Ok(Some(n));
        }
    }
    Ok(None)
}

/// Whether the chain with this number is built in.
fn is_builtin(chains: &[IptChain], c: usize) -> bool
    ensures { result ≡ is_builtin chains.now c }
{
    match chains.get(c) {
        Some(chain) => chain.policy.is_some(),
        None => false,
    }
}

/// The first built-in chain at which a path of so many steps begins.
fn first_deep(alloc: Global, chains: &[IptChain], steps: usize) -> Result<Option<usize>, Memory>
    requires { 1 ≤ steps }
    ensures { IfOk result (λ o. o ≡ first_chain (λ c. is_builtin chains.now c && begins_path chains.now steps c) 0 chains.now) }
{
    let beginning = path_table(alloc, chains, steps)?;
    for (n, _chain) in chains.iter().enumerate() {
        if is_builtin(chains, n) && flag_at(beginning.as_slice(), n) {
            return Ok(Some(n));
        }
    }
    Ok(None)
}

/// The first built-in chain at which a path of more than 64 chains begins.
fn deep_of(alloc: Global, chains: &[IptChain]) -> Result<Option<usize>, Memory>
    ensures { IfOk result (λ o. o ≡ deep_of chains.now) }
{
    first_deep(alloc, chains, STEPS)
}

/// The built-in chain with which the unfolded rules pass 1,000,000.
fn passed_at(alloc: Global, faces: u64, chains: &[IptChain]) -> Result<Option<usize>, Memory>
    ensures { IfOk result (λ o. o ≡ passed_at faces chains.now 3 0 chains.now) }
{
    let sizes = size_table(alloc, faces, chains)?;
    let mut sum = 3;
    for (n, chain) in chains.iter().enumerate() {
        if chain.policy.is_some() {
            sum += size_at(sizes.as_slice(), n);
            if sum > LIMIT {
                return Ok(Some(n));
            }
        }
    }
    Ok(None)
}

/// Whether a rule of a chain names a chain.
fn any_names(chains: &[IptChain]) -> bool
    ensures { result ≡ list_any names_any chains.now }
{
    chains.iter().any(names_any)
}

/// The same, where some rule jumps or goes to a chain.
fn long_of(alloc: Global, faces: u64, chains: &[IptChain]) -> Result<Option<usize>, Memory>
    ensures { IfOk result (λ o. o ≡ long_of faces chains.now) }
{
    if any_names(chains) {
        passed_at(alloc, faces, chains)
    } else {
        Ok(None)
    }
}

/// The number of a chain, as a refusal has it.
fn number(n: usize) -> Result<u32, Memory>
    ensures { IfOk result (λ k. k ≡ n) }
{
    u32::try_from(n).map_err(|_| Memory)
}

/// Why the configuration can't be unfolded on the site: a chain reaches itself, else a path of jumps is
/// too deep, else the rules become too many. None where it can be.
pub fn refusal(alloc: Global, site: &Site, c: &IptConfig) -> Result<Option<UnfoldRefusal>, Memory>
    ensures { IfOk result (λ r. r ≡ refusal_of site.now c.now) }
{
    let chains = c.chains.as_slice();
    if let Some(n) = loop_of(alloc, chains)? {
        return Ok(Some(UnfoldRefusal::Loop(number(n)?)));
    }
    if let Some(n) = deep_of(alloc, chains)? {
        return Ok(Some(UnfoldRefusal::Deep(number(n)?)));
    }
    let faces = site.faces.len() as u64;
    match long_of(alloc, faces, chains)? {
        Some(n) => Ok(Some(UnfoldRefusal::Long(number(n)?))),
        None => Ok(None),
    }
}
