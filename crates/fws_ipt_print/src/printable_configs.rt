//! Which configurations are printed.

ghost use Rattle.std.specs.Prelude.{◌≡◌, not};
ghost use Rattle.std.specs.List.{list_all};
ghost use Rattle.std.specs.Str.{bytes_eq};
ghost use Rattle.fws_ipt.specs.RuleText.{is_chain};
ghost use Rattle.fws_ipt.specs.Soundness.{are_apart, is_named};
ghost use Rattle.fws_ipt_print.specs.Printable.{are_in_order, is_printable, is_printed_chain, is_printed_policy, rank_of};

use crate::lines::is_table;
use crate::names::{is_chain_name, is_named};
use crate::rules::are_printed_rules;
use fws_ipt::{IptChain, IptConfig, IptTable};
use fws_net::Site;

/// The place of a table in the order of tables.
fn rank_of(table: IptTable) -> u8
    ensures { result ≡ rank_of table }
{
    match table {
        IptTable::Mangle => 0,
        IptTable::Nat => 1,
        IptTable::Filter => 2,
    }
}

/// Whether the chains stand table by table.
fn are_in_order(chains: &[IptChain]) -> bool
    ensures { result ≡ are_in_order 0 chains.now }
{
    let mut least = 0u8;
    for chain in chains {
        let rank = rank_of(chain.table);
        if rank < least {
            return false;
        }
        least = rank;
    }
    true
}

/// Whether each chain has a policy just where it is built in.
fn are_named(chains: &[IptChain]) -> bool
    ensures { result ≡ list_all is_named chains.now }
{
    chains.iter().all(|chain| is_named(chain))
}

/// Whether the chain has another table or another name.
fn is_other(later: &IptChain, chain: &IptChain) -> bool
    ensures { result ≡ not (is_chain later.now.table later.now.name chain.now) }
{
    !(is_table(later.table, chain.table) && chain.name.as_slice() == later.name.as_slice())
}

/// Whether all chains have another table or another name than this one.
fn are_others(chain: &IptChain, later: &[IptChain]) -> bool
    ensures { result ≡ list_all (λ later. not (is_chain later.table later.name chain.now)) later.now }
{
    later.iter().all(|later| is_other(later, chain))
}

/// Whether no two chains have the same table and name.
fn are_apart(chains: &[IptChain]) -> bool
    ensures { result ≡ are_apart chains.now }
{
    let mut left = chains;
    while let [chain, later @ ..] = left {
        if !are_others(chain, later) {
            return false;
        }
        left = later;
    }
    true
}

/// Whether the policy of a chain of nat accepts.
fn is_printed_policy(table: IptTable, policy: Option<bool>) -> bool
    ensures { result ≡ is_printed_policy table policy }
{
    match (table, policy) {
        (IptTable::Nat, Some(accepts)) => accepts,
        (IptTable::Nat, None) => true,
        (IptTable::Mangle | IptTable::Filter, _) => true,
    }
}

/// Whether the chain is printed.
fn is_printed_chain(site: &Site, chains: &[IptChain], chain: &IptChain) -> bool
    ensures { result ≡ is_printed_chain site.now chains.now chain.now }
{
    (chain.policy.is_some() || is_chain_name(chain.name.as_slice()))
        && is_printed_policy(chain.table, chain.policy)
        && are_printed_rules(site, chains, chain)
}

/// Whether all chains are printed.
fn are_printed_chains(site: &Site, chains: &[IptChain]) -> bool
    ensures { result ≡ list_all (is_printed_chain site.now chains.now) chains.now }
{
    chains
        .iter()
        .all(|chain| is_printed_chain(site, chains, chain))
}

/// Whether the configuration can be printed: its chains are named as iptables asks and stand table by
/// table, no two are the same, and all their rules are printed. It compares any two chains.
pub fn printable(c: &IptConfig, site: &Site) -> bool
    ensures { result ≡ is_printable site.now c.now }
{
    let chains = c.chains.as_slice();
    are_in_order(chains)
        && are_named(chains)
        && are_apart(chains)
        && are_printed_chains(site, chains)
}
