//! The built-in chains of a configuration.

ghost use Rattle.std.specs.Prelude.{◌≡◌};
ghost use Rattle.fws_ipt.specs.Walk.{builtin_from, stands_at};

use crate::config::{IptChain, IptTable};
use crate::hook::Hook;

/// Whether it is the built-in chain of this table at the hook.
pub fn stands_at(table: IptTable, hook: Hook, chain: &IptChain) -> bool
    ensures { result ≡ stands_at table hook chain.now }
{
    table == chain.table && chain.name.as_slice() == hook.name() && chain.policy.is_some()
}

/// The number of the built-in chain of a table at a hook, if the configuration has one.
pub fn builtin_at(table: IptTable, hook: Hook, chains: &[IptChain]) -> Option<usize>
    ensures { result ≡ builtin_from 0 table hook chains.now }
{
    for (n, chain) in chains.iter().enumerate() {
        if stands_at(table, hook, chain) {
            return Some(n);
        }
    }
    None
}
