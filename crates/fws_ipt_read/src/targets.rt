//! Targets of a rule, with their options.

ghost use Rattle.std.specs.Prelude.{◌≡◌};
ghost use Rattle.fws_net.specs.Reading.{CauseGiven, StepGiven};
ghost use Rattle.fws_ipt.specs.RuleText.{first_act, with_target, user_chain, other_target, target_step, goto_step, is_written, is_bare, behind_option, fits_target, option_step, with_act, with_end, source_step, destination_step, redirect_step, network_step, xmark_step, set_mark_step, target_value_step};

use crate::hooks::is_builtin_name;
use crate::keywords::{belongs, is_left_out_target, needs_option, read_target_word};
use crate::marks::{read_set_mark, read_xmark};
use crate::options::once;
use crate::places::{read_network, read_place, read_to_port};
use crate::progress::Progress;
use fws_ipt::{Expects, IptGo, IptTable, RuleDraft, TargetOption, TargetWord};
use fws_net::{Cause, End, ReadFault};
use std::alloc::Global;

/// What a target does, before its options.
fn first_act(target: TargetWord) -> IptGo
    ensures { result ≡ first_act target }
{
    match target {
        TargetWord::Accept => IptGo::Accept,
        TargetWord::Drop | TargetWord::Reject => IptGo::Drop,
        TargetWord::Return => IptGo::Return,
        TargetWord::Masquerade => IptGo::Masquerade,
        TargetWord::Redirect => IptGo::Redirect(None),
        _ => IptGo::Next,
    }
}

/// Notes the target, and what it does. Its options may follow.
fn with_target(d: &mut RuleDraft, target: TargetWord, go: IptGo)
    ensures { d.new ≡ with_target target go d.old }
{
    d.expects = Expects::Keyword;
    d.target = Some(target);
    d.go = go;
    d.is_open = true;
    d.owes = needs_option(target);
}

/// The number of the user's chain with this name.
fn user_chain(
    alloc: Global,
    reader: &Progress,
    table: IptTable,
    name: &[u8],
) -> Result<u32, ReadFault>
    ensures { CauseGiven result (user_chain table reader.now.chains name.now) }
{
    if is_builtin_name(table, name) {
        return Err(ReadFault::Bad(Cause::NoName));
    }
    match reader.find(alloc, table, name)? {
        Some(number) => Ok(number),
        None => Err(ReadFault::Bad(Cause::NoName)),
    }
}

/// Takes a target that is no word of its own: a chain, unless it is left out.
fn other_target(
    alloc: Global,
    reader: &Progress,
    table: IptTable,
    d: &mut RuleDraft,
    text: &[u8],
) -> Result<(), ReadFault>
    ensures { StepGiven result d.new (other_target table reader.now.chains text.now d.old) }
{
    if is_left_out_target(text) {
        return Err(ReadFault::Bad(Cause::LeftOut));
    }
    let number = user_chain(alloc, reader, table, text)?;
    with_target(d, TargetWord::Chain, IptGo::Jump(number));
    Ok(())
}

/// Takes the word behind `-j`.
pub(crate) fn target_step(
    alloc: Global,
    reader: &Progress,
    table: IptTable,
    d: &mut RuleDraft,
    text: &[u8],
) -> Result<(), ReadFault>
    ensures { StepGiven result d.new (target_step table reader.now.chains text.now d.old) }
{
    match read_target_word(text) {
        Some(target) => {
            with_target(d, target, first_act(target));
            Ok(())
        }
        None => other_target(alloc, reader, table, d, text),
    }
}

/// Takes the word behind `-g`.
pub(crate) fn goto_step(
    alloc: Global,
    reader: &Progress,
    table: IptTable,
    d: &mut RuleDraft,
    text: &[u8],
) -> Result<(), ReadFault>
    ensures { StepGiven result d.new (goto_step table reader.now.chains text.now d.old) }
{
    let number = user_chain(alloc, reader, table, text)?;
    with_target(d, TargetWord::Chain, IptGo::Goto(number));
    Ok(())
}

/// Whether the option says what its target writes.
fn is_written(option: TargetOption) -> bool
    ensures { result ≡ is_written option }
{
    matches!(
        option,
        TargetOption::SetXmark
            | TargetOption::SetMark
            | TargetOption::ToSource
            | TargetOption::ToDestination
            | TargetOption::ToPorts
            | TargetOption::ToNetwork
    )
}

/// Whether the option, of LOG, has no value.
fn is_bare(option: TargetOption) -> bool
    ensures { result ≡ is_bare option }
{
    matches!(
        option,
        TargetOption::LogTcpSequence
            | TargetOption::LogTcpOptions
            | TargetOption::LogIpOptions
            | TargetOption::LogUid
    )
}

/// What the word behind a target's option is taken for.
fn behind_option(option: TargetOption) -> Expects
    ensures { result ≡ behind_option option }
{
    if is_bare(option) {
        Expects::Keyword
    } else if is_written(option) {
        Expects::TargetValue(option)
    } else {
        Expects::Unused
    }
}

/// Whether the option belongs to the target that is open, and where that needs just one, is the first.
fn fits_target(option: TargetOption, d: &RuleDraft) -> bool
    ensures { result ≡ fits_target option d.now }
{
    match d.target {
        Some(target) => {
            d.is_open && belongs(option, target) && (d.owes || !needs_option(target))
        }
        None => false,
    }
}

/// Takes an option of the target, directly behind it.
pub(crate) fn option_step(
    alloc: Global,
    d: &mut RuleDraft,
    text: &[u8],
    option: TargetOption,
) -> Result<(), ReadFault>
    ensures { StepGiven result d.new (option_step text.now option d.old) }
{
    if !fits_target(option, d) {
        return Err(ReadFault::Bad(Cause::Syntax));
    }
    once(alloc, d, text)?;
    d.expects = behind_option(option);
    d.owes = false;
    Ok(())
}

/// Notes what the target does. A keyword is next.
fn with_act(d: &mut RuleDraft, go: IptGo)
    ensures { d.new ≡ with_act go d.old }
{
    d.expects = Expects::Keyword;
    d.go = go;
}

/// Notes what the target writes. A port asks for a protocol.
fn with_end(d: &mut RuleDraft, go: IptGo, has_port: bool)
    ensures { d.new ≡ with_end go has_port d.old }
{
    d.has_port = d.has_port || has_port;
    with_act(d, go);
}

/// Takes the value of `--to-source`.
fn source_step(d: &mut RuleDraft, text: &[u8]) -> Result<(), ReadFault>
    ensures { StepGiven result d.new (source_step text.now d.old) }
{
    let (addr, port) = read_place(text)?;
    with_end(d, IptGo::Source(End::host(addr, port)), port.is_some());
    Ok(())
}

/// Takes the value of `--to-destination`.
fn destination_step(d: &mut RuleDraft, text: &[u8]) -> Result<(), ReadFault>
    ensures { StepGiven result d.new (destination_step text.now d.old) }
{
    let (addr, port) = read_place(text)?;
    with_end(d, IptGo::Dest(End::host(addr, port)), port.is_some());
    Ok(())
}

/// Takes the value of `--to-ports`.
fn redirect_step(d: &mut RuleDraft, text: &[u8]) -> Result<(), ReadFault>
    ensures { StepGiven result d.new (redirect_step text.now d.old) }
{
    let port = read_to_port(text)?;
    with_end(d, IptGo::Redirect(Some(port)), true);
    Ok(())
}

/// Takes the value of `--to`.
fn network_step(d: &mut RuleDraft, text: &[u8]) -> Result<(), ReadFault>
    ensures { StepGiven result d.new (network_step text.now d.old) }
{
    let network = read_network(text)?;
    with_act(d, IptGo::Netmap(network));
    Ok(())
}

/// Takes the value of `--set-xmark`.
fn xmark_step(d: &mut RuleDraft, text: &[u8]) -> Result<(), ReadFault>
    ensures { StepGiven result d.new (xmark_step text.now d.old) }
{
    let mark = read_xmark(text)?;
    with_act(d, IptGo::Mark(mark));
    Ok(())
}

/// Takes the value of `--set-mark`.
fn set_mark_step(d: &mut RuleDraft, text: &[u8]) -> Result<(), ReadFault>
    ensures { StepGiven result d.new (set_mark_step text.now d.old) }
{
    let mark = read_set_mark(text)?;
    with_act(d, IptGo::Mark(mark));
    Ok(())
}

/// Takes the value of a target's option.
pub(crate) fn target_value_step(
    d: &mut RuleDraft,
    option: TargetOption,
    text: &[u8],
) -> Result<(), ReadFault>
    ensures { StepGiven result d.new (target_value_step option text.now d.old) }
{
    match option {
        TargetOption::SetXmark => xmark_step(d, text),
        TargetOption::SetMark => set_mark_step(d, text),
        TargetOption::ToSource => source_step(d, text),
        TargetOption::ToDestination => destination_step(d, text),
        TargetOption::ToPorts => redirect_step(d, text),
        TargetOption::ToNetwork => network_step(d, text),
        _ => {
            d.expects = Expects::Keyword;
            Ok(())
        }
    }
}
