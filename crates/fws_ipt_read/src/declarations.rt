//! Declarations of chains, as `:INPUT DROP [0:0]` and `:web - [0:0]` (iptables-save(8)).

ghost use Rattle.std.specs.Prelude.{◌≡◌, Option, Some, None, false, IfOk, OnOk};
ghost use Rattle.fws_net.specs.Reading.{CauseGiven, StepGiven};
ghost use Rattle.fws_ipt.specs.declared.draft.IptDraft.{IptDraft};
ghost use Rattle.fws_ipt.specs.RuleText.{chain_from};
ghost use Rattle.fws_ipt.specs.FileText.{alone, ends_declaration, with_builtin, policy_named, policy_of, builtin_line, user_line, is_declared, builtin_declared, user_declared, declared_in, chain_line};

use crate::counters::is_counters;
use crate::hooks::{builtin_hook, may_drop};
use crate::progress::Progress;
use fws_ipt::{Hook, IptTable, Section};
use fws_net::{Cause, ReadFault};
use fws_num::{Memory, Word, value_named};
use fws_rules::demand;
use std::alloc::Global;

/// Policies by their names: whether they accept.
const POLICIES: [(&[u8], bool); 2] = [(b"ACCEPT", true), (b"DROP", false)];

/// Judges that no word stands behind.
pub(crate) fn alone(words: &[Word]) -> Result<(), ReadFault>
    ensures { (d : IptDraft) → StepGiven result d (alone words.now d) }
{
    match words {
        [] => Ok(()),
        [_, ..] => Err(ReadFault::Bad(Cause::Syntax)),
    }
}

/// Judges what stands behind a policy: its counters, or nothing.
fn ends_declaration(words: &[Word]) -> Result<(), ReadFault>
    ensures { (d : IptDraft) → StepGiven result d (ends_declaration words.now d) }
{
    let [word, rest @ ..] = words else {
        return Ok(());
    };
    if !word.is_sound() || !is_counters(word.text.as_slice()) {
        return Err(ReadFault::Bad(Cause::Syntax));
    }
    alone(rest)
}

/// Declares a built-in chain of the table.
fn declare_builtin(
    alloc: Global,
    reader: &mut Progress,
    section: Section,
    hook: Hook,
    name: &[u8],
    accepts: bool,
) -> Result<(), Memory>
    requires { is_declared section hook name.now reader.old ≡ false }
    ensures { OnOk result (reader.new ≡ with_builtin section hook name.now accepts reader.old) }
{
    match section {
        Section::Met(table) => reader.declare(alloc, table, name, Some(accepts)),
        Section::Raw | Section::Security => reader.declare_other(section, hook),
    }
}

/// Whether the policy of this name accepts.
#[tactic(auto, unfolding(fws_ipt::specs::FileText::policy_named))]
fn policy_named(text: &[u8]) -> Option<bool>
    ensures { result ≡ policy_named text.now }
{
    value_named(&POLICIES, text)
}

/// The policy of a built-in chain: whether its end accepts.
fn read_policy(section: Section, text: &[u8]) -> Result<bool, ReadFault>
    ensures { CauseGiven result (policy_of section text.now) }
{
    let accepts = demand(policy_named(text))?;
    if accepts || may_drop(section) {
        Ok(accepts)
    } else {
        Err(ReadFault::Bad(Cause::LeftOut))
    }
}

/// Takes what stands behind the name of a built-in chain.
fn builtin_line(
    alloc: Global,
    reader: &mut Progress,
    section: Section,
    hook: Hook,
    name: &[u8],
    words: &[Word],
) -> Result<(), ReadFault>
    requires { is_declared section hook name.now reader.old ≡ false }
    ensures { StepGiven result reader.new (builtin_line section hook name.now words.now reader.old) }
{
    let [word, rest @ ..] = words else {
        return Err(ReadFault::Bad(Cause::Syntax));
    };
    if !word.is_sound() {
        return Err(ReadFault::Bad(Cause::Syntax));
    }
    let accepts = read_policy(section, word.text.as_slice())?;
    declare_builtin(alloc, reader, section, hook, name, accepts)?;
    ends_declaration(rest)
}

/// Takes what stands behind the name of a chain of the user's.
fn user_line(
    alloc: Global,
    reader: &mut Progress,
    table: IptTable,
    name: &[u8],
    words: &[Word],
) -> Result<(), ReadFault>
    requires { chain_from 0 table name.now reader.old.chains ≡ None }
    ensures { StepGiven result reader.new (user_line table name.now words.now reader.old) }
{
    let [word, rest @ ..] = words else {
        return Err(ReadFault::Bad(Cause::Syntax));
    };
    if !word.is_sound() || !word.is(b"-") {
        return Err(ReadFault::Bad(Cause::Syntax));
    }
    reader.declare(alloc, table, name, None)?;
    ends_declaration(rest)
}

/// Whether the built-in chain was declared before.
fn is_declared(
    alloc: Global,
    reader: &Progress,
    section: Section,
    hook: Hook,
    name: &[u8],
) -> Result<bool, Memory>
    ensures { IfOk result (λ b. b ≡ is_declared section hook name.now reader.now) }
{
    match section {
        Section::Met(table) => Ok(reader.find(alloc, table, name)?.is_some()),
        Section::Raw | Section::Security => Ok(reader.has_other(section, hook)),
    }
}

/// Takes the declaration of a chain of the table at a hook.
fn builtin_declared(
    alloc: Global,
    reader: &mut Progress,
    section: Section,
    hook: Hook,
    name: &[u8],
    words: &[Word],
) -> Result<(), ReadFault>
    ensures { StepGiven result reader.new (builtin_declared section hook name.now words.now reader.old) }
{
    if is_declared(alloc, reader, section, hook, name)? {
        return Err(ReadFault::Bad(Cause::Syntax));
    }
    builtin_line(alloc, reader, section, hook, name, words)
}

/// Takes the declaration of a chain of the user's, which has a name, and which raw and security
/// don't have.
fn user_declared(
    alloc: Global,
    reader: &mut Progress,
    section: Section,
    name: &[u8],
    words: &[Word],
) -> Result<(), ReadFault>
    ensures { StepGiven result reader.new (user_declared section name.now words.now reader.old) }
{
    if name.is_empty() {
        return Err(ReadFault::Bad(Cause::Syntax));
    }
    let Section::Met(table) = section else {
        return Err(ReadFault::Bad(Cause::LeftOut));
    };
    if reader.find(alloc, table, name)?.is_some() {
        return Err(ReadFault::Bad(Cause::Syntax));
    }
    user_line(alloc, reader, table, name, words)
}

/// Takes the declaration of a chain in the table that is open.
fn declared_in(
    alloc: Global,
    reader: &mut Progress,
    section: Section,
    name: &[u8],
    words: &[Word],
) -> Result<(), ReadFault>
    ensures { StepGiven result reader.new (declared_in section name.now words.now reader.old) }
{
    match builtin_hook(section, name) {
        Some(hook) => builtin_declared(alloc, reader, section, hook, name, words),
        None => user_declared(alloc, reader, section, name, words),
    }
}

/// Takes `:C POLICY`, of which this is the name, within a table.
pub(crate) fn chain_line(
    alloc: Global,
    reader: &mut Progress,
    name: &[u8],
    words: &[Word],
) -> Result<(), ReadFault>
    ensures { StepGiven result reader.new (chain_line name.now words.now reader.old) }
{
    match reader.within() {
        Some(section) => declared_in(alloc, reader, section, name, words),
        None => Err(ReadFault::Bad(Cause::Syntax)),
    }
}
