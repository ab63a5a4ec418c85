//! Names of chains, and where built-in chains stand.

ghost use Rattle.std.specs.Prelude.{◌≡◌};
ghost use Rattle.std.specs.List.{list_all};
ghost use Rattle.fws_ipt.specs.Hooks.{has_hook, hook_named};
ghost use Rattle.fws_ipt.specs.RuleText.{is_builtin_name};
ghost use Rattle.fws_ipt.specs.Soundness.{is_named};
ghost use Rattle.fws_ipt_print.specs.Printable.{begins_with_letter, is_chain_name, is_name_byte};

use fws_ipt::{Hook, IptChain, IptTable};
use fws_num::value_named;

/// Hooks by the names of their chains.
const HOOKS: [(&[u8], Hook); 5] = [
    (b"PREROUTING", Hook::Prerouting),
    (b"INPUT", Hook::Input),
    (b"FORWARD", Hook::Forward),
    (b"OUTPUT", Hook::Output),
    (b"POSTROUTING", Hook::Postrouting),
];

/// The hook of this name.
#[tactic(auto, unfolding(fws_ipt::specs::Hooks::hook_named))]
pub fn hook_named(name: &[u8]) -> Option<Hook>
    ensures { result ≡ hook_named name.now }
{
    value_named(&HOOKS, name)
}

/// Whether the table has a built-in chain at the hook.
fn has_hook(table: IptTable, hook: Hook) -> bool
    ensures { result ≡ has_hook table hook }
{
    match table {
        IptTable::Filter => !matches!(hook, Hook::Prerouting | Hook::Postrouting),
        IptTable::Nat => !matches!(hook, Hook::Forward),
        IptTable::Mangle => true,
    }
}

/// Whether the name is that of a built-in chain of the table.
fn is_builtin_name(table: IptTable, name: &[u8]) -> bool
    ensures { result ≡ is_builtin_name table name.now }
{
    match hook_named(name) {
        Some(hook) => has_hook(table, hook),
        None => false,
    }
}

/// Whether a chain has a policy where its name is that of a built-in one of its table, and nowhere else.
pub fn is_named(chain: &IptChain) -> bool
    ensures { result ≡ is_named chain.now }
{
    if is_builtin_name(chain.table, chain.name.as_slice()) {
        chain.policy.is_some()
    } else {
        chain.policy.is_none()
    }
}

/// Whether it is a small letter, a digit or `-`.
fn is_name_byte(c: u8) -> bool
    ensures { result ≡ is_name_byte c }
{
    (b'a' <= c && c <= b'z') || (b'0' <= c && c <= b'9') || c == b'-'
}

/// Whether the first byte is a small letter.
fn begins_with_letter(name: &[u8]) -> bool
    ensures { result ≡ begins_with_letter name.now }
{
    match name {
        [c, ..] => b'a' <= *c && *c <= b'z',
        [] => false,
    }
}

/// Whether all bytes may stand in a name.
fn are_name_bytes(name: &[u8]) -> bool
    ensures { result ≡ list_all is_name_byte name.now }
{
    name.iter().all(|c| is_name_byte(*c))
}

/// Whether it is a name of a chain of the user's: it begins with a small letter, and has at most 28 bytes.
pub fn is_chain_name(name: &[u8]) -> bool
    ensures { result ≡ is_chain_name name.now }
{
    begins_with_letter(name) && are_name_bytes(name) && name.len() <= 28
}
