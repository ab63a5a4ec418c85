//! Configurations that only filter.

ghost use Rattle.std.specs.Prelude.{◌≡◌};
ghost use Rattle.fws_ipt.specs.FilterOnly.{is_filter_only, filters_only};

use crate::config::{IptChain, IptConfig, IptTable};

/// Whether a chain is built in, and of filter, or without a rule and with the policy ACCEPT.
fn filters_only(chain: &IptChain) -> bool
    ensures { result ≡ filters_only chain.now }
{
    match (chain.table, chain.policy) {
        (_, None) => false,
        (IptTable::Filter, Some(_)) => true,
        (IptTable::Nat | IptTable::Mangle, Some(accepts)) => { accepts && chain.rules.is_empty() }
    }
}

/// Whether no chain is a user's, and no chain of nat or mangle has a rule or the policy DROP.
pub fn filter_only(c: &IptConfig) -> bool
    ensures { result ≡ is_filter_only c.now }
{
    for chain in c.chains.as_slice() {
        if !filters_only(chain) {
            return false;
        }
    }
    true
}
