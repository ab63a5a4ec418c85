//! The sizes of unfolded chains. Numbers past 1,000,000 are all alike, so that none grows too large.

ghost use Rattle.std.specs.Prelude.{◌≡◌, ℕ, ◌+◌, ◌≤◌, length, map, sum, IfOk};
ghost use Rattle.std.specs.Option.{option_map_or};
ghost use Rattle.fws_ipt.specs.Refusals.{named_by, width_of, head_width, size_of};
ghost use Rattle.fws_ipt.specs.Levels.{capped, size_at, size_behind};

use crate::config::{IptChain, IptGo, IptTable};
use crate::model::levels::named_by;
use fws_num::Memory;
use std::alloc::Global;

/// More than a configuration may be unfolded to.
const CAP: u64 = 1_000_001;

/// The sum, or the cap where it is more.
fn capped_sum(a: u64, b: u64) -> u64
    ensures { result ≡ capped (a + b) }
{
    (a.min(CAP) + b.min(CAP)).min(CAP)
}

/// How many rules a rule is unfolded to by itself, on a site with so many interfaces; at most the cap.
fn width_of(faces: u64, go: IptGo) -> u64
    ensures { result ≡ capped (width_of faces go) }
{
    match go {
        IptGo::Source(_) | IptGo::Dest(_) | IptGo::Netmap(_) => 4,
        IptGo::Masquerade => capped_sum(faces, 4),
        IptGo::Redirect(_) => capped_sum(faces, 5),
        _ => 1,
    }
}

/// The size that a table has for a chain.
pub(crate) fn size_at(table: &[u64], c: usize) -> u64
    ensures { result ≡ size_at table.now c }
{
    table.get(c).copied().unwrap_or(0)
}

/// The size of the chain that a rule names.
fn named_size(before: &[u64], go: IptGo) -> u64
    ensures { result ≡ option_map_or (size_at before.now) (named_by go) 0 }
{
    match named_by(go) {
        Some(c) => size_at(before, c as usize),
        None => 0,
    }
}

/// What a built-in chain of nat has besides its rules.
fn head_width(table: IptTable, policy: Option<bool>) -> u64
    ensures { result ≡ head_width table policy }
{
    match (table, policy) {
        (IptTable::Nat, Some(_)) => 1,
        _ => 0,
    }
}

/// The size of a chain, by the sizes of those that it names; at most the cap.
fn size_behind(faces: u64, before: &[u64], chain: &IptChain) -> u64
    ensures { result ≡ size_behind faces before.now chain.now }
{
    let mut size = head_width(chain.table, chain.policy);
    for rule in chain.rules.as_slice() {
        let width = capped_sum(width_of(faces, rule.go), named_size(before, rule.go));
        size = capped_sum(size, width);
    }
    size
}

/// The sizes that are one chain deeper.
fn sizes_behind(
    alloc: Global,
    faces: u64,
    chains: &[IptChain],
    before: &[u64],
) -> Result<Vec<u64>, Memory>
    ensures { IfOk result (λ v. v.items ≡ map (size_behind faces before.now) chains.now) }
{
    let mut level = Vec::new(alloc);
    for chain in chains {
        level.push(size_behind(faces, before, chain))?;
    }
    Ok(level)
}

/// The sizes of the chains, each at most the cap.
#[tactic(auto, using(crate::proofs::Levels::size_deeper))]
pub(crate) fn size_table(alloc: Global, faces: u64, chains: &[IptChain]) -> Result<Vec<u64>, Memory>
    ensures { IfOk result (λ v. (c : ℕ) → size_at v.items c ≡ capped (size_of faces chains.now c)) }
{
    let mut level = Vec::new(alloc);
    for _n in 0..chains.len() {
        level = sizes_behind(alloc, faces, chains, level.as_slice())?;
    }
    Ok(level)
}
