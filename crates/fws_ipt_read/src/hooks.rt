//! The built-in chains of the tables (iptables(8)).

ghost use Rattle.std.specs.Prelude.{◌≡◌};
ghost use Rattle.fws_ipt.specs.Walk.{is_table};
ghost use Rattle.fws_ipt.specs.Hooks.{hook_named, has_hook, section_has};
ghost use Rattle.fws_ipt.specs.FileText.{section_named, is_section, is_hook, may_drop, builtin_hook};
ghost use Rattle.fws_ipt.specs.RuleText.{is_builtin_name};

use fws_ipt::{Hook, IptTable, Section};
use fws_num::value_named;

/// Hooks by the names of their chains.
const HOOKS: [(&[u8], Hook); 5] = [
    (b"PREROUTING", Hook::Prerouting),
    (b"INPUT", Hook::Input),
    (b"FORWARD", Hook::Forward),
    (b"OUTPUT", Hook::Output),
    (b"POSTROUTING", Hook::Postrouting),
];

/// The tables of a text by their names.
const SECTIONS: [(&[u8], Section); 5] = [
    (b"filter", Section::Met(IptTable::Filter)),
    (b"nat", Section::Met(IptTable::Nat)),
    (b"mangle", Section::Met(IptTable::Mangle)),
    (b"raw", Section::Raw),
    (b"security", Section::Security),
];

/// The hook of this name.
#[tactic(auto, unfolding(fws_ipt::specs::Hooks::hook_named))]
fn hook_named(name: &[u8]) -> Option<Hook>
    ensures { result ≡ hook_named name.now }
{
    value_named(&HOOKS, name)
}

/// Whether the table has a built-in chain at the hook.
fn has_hook(table: IptTable, hook: Hook) -> bool
    ensures { result ≡ has_hook table hook }
{
    match table {
        IptTable::Filter => !matches!(hook, Hook::Prerouting | Hook::Postrouting),
        IptTable::Nat => !matches!(hook, Hook::Forward),
        IptTable::Mangle => true,
    }
}

/// The same for every table.
fn section_has(section: Section, hook: Hook) -> bool
    ensures { result ≡ section_has section hook }
{
    match section {
        Section::Met(table) => has_hook(table, hook),
        Section::Raw => matches!(hook, Hook::Prerouting | Hook::Output),
        Section::Security => matches!(hook, Hook::Input | Hook::Forward | Hook::Output),
    }
}

/// The hook of this name, if the table has a chain there.
pub(crate) fn builtin_hook(section: Section, name: &[u8]) -> Option<Hook>
    ensures { result ≡ builtin_hook section name.now }
{
    let hook = hook_named(name)?;
    if section_has(section, hook) {
        Some(hook)
    } else {
        None
    }
}

/// Whether the name is that of a built-in chain of the table.
pub(crate) fn is_builtin_name(table: IptTable, name: &[u8]) -> bool
    ensures { result ≡ is_builtin_name table name.now }
{
    match hook_named(name) {
        Some(hook) => has_hook(table, hook),
        None => false,
    }
}

/// Whether they are the same hook.
pub(crate) fn is_hook(a: Hook, b: Hook) -> bool
    ensures { result ≡ is_hook a b }
{
    a == b
}

/// Whether they are the same table.
fn is_table(a: IptTable, b: IptTable) -> bool
    ensures { result ≡ is_table a b }
{
    a == b
}

/// Whether they are the same table.
pub(crate) fn is_section(a: Section, b: Section) -> bool
    ensures { result ≡ is_section a b }
{
    match (a, b) {
        (Section::Met(x), Section::Met(y)) => is_table(x, y),
        (Section::Raw, Section::Raw) | (Section::Security, Section::Security) => true,
        _ => false,
    }
}

/// The table of this name.
#[tactic(auto, unfolding(fws_ipt::specs::FileText::section_named))]
pub(crate) fn section_named(name: &[u8]) -> Option<Section>
    ensures { result ≡ section_named name.now }
{
    value_named(&SECTIONS, name)
}

/// Whether a built-in chain of the table may have the policy DROP.
pub(crate) fn may_drop(section: Section) -> bool
    ensures { result ≡ may_drop section }
{
    matches!(
        section,
        Section::Met(IptTable::Filter) | Section::Met(IptTable::Mangle)
    )
}
