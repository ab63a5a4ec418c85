//! An entry of an access list (Cisco IOS).

ghost use Rattle.std.specs.Prelude.{◌≡◌, ◌∷◌, [], OnOk};
ghost use Rattle.fws_net.specs.Causes.{judged, words_read};
ghost use Rattle.fws_net.specs.Reading.{CauseGiven, StepGiven, and_then};
ghost use Rattle.fws_ios.specs.EntryText.{action_step, deciding, entry_checks, entry_drawn, entry_made, entry_of, entry_step, evaluate_step, evaluated, expected_step, fresh_entry, is_protocol, may_end, sequence_step};

use crate::entry_addresses::{address_step, host_step, protocol_step, wildcard_step, with_literal};
use crate::entry_options::{
    code_step, log_step, may_reflect, maybe_wildcard_step, reflect_step, reflecting, timeout_step,
    timeout_value_step, type_step,
};
use crate::entry_ports::{further_port_step, last_port_step, port_step, ports_step};
use crate::keywords::{begins_with_digit, misplaced};
use crate::values::{has_ports, is_number};
use fws_ios::{EntryDraft, Expects, IosEntry, Place};
use fws_net::{Cause, Checks, Cond, ReadFault, Test};
use fws_num::{Memory, Word};
use fws_rules::{is, positive};
use std::alloc::Global;
use std::mem;

/// An entry ahead of its first word. A number may stand first in a list that was opened.
fn fresh_entry(alloc: Global, extended: bool, opened: bool) -> EntryDraft
    ensures { result ≡ fresh_entry extended opened }
{
    let expects = if opened {
        Expects::Sequence
    } else {
        Expects::Action
    };
    EntryDraft {
        expects,
        extended,
        opened,
        permit: false,
        cond: Cond::new(alloc),
        protocol: None,
        scattered: false,
        has_ports: false,
        has_type: false,
        has_established: false,
        reflect: false,
    }
}

/// Notes whether the entry permits. A protocol follows in an extended list, else the source.
fn deciding(d: &mut EntryDraft, permit: bool)
    ensures { d.new ≡ deciding permit d.old }
{
    d.permit = permit;
    d.expects = if d.extended {
        Expects::Protocol
    } else {
        Expects::Address(Place::Source)
    };
}

/// Takes `evaluate`, where reflexive lists are used.
fn evaluate_step(d: &mut EntryDraft) -> Result<(), ReadFault>
    ensures { StepGiven result d.new (evaluate_step d.old) }
{
    if !may_reflect(d) {
        return Err(ReadFault::Bad(Cause::LeftOut));
    }
    d.expects = Expects::EvaluateName;
    Ok(())
}

/// Takes `permit`, `deny` or `evaluate`.
fn action_step(d: &mut EntryDraft, text: &[u8]) -> Result<(), ReadFault>
    ensures { StepGiven result d.new (action_step text.now d.old) }
{
    if is(text, b"permit") {
        deciding(d, true);
        return Ok(());
    }
    if is(text, b"deny") {
        deciding(d, false);
        return Ok(());
    }
    if is(text, b"evaluate") {
        return evaluate_step(d);
    }
    Err(ReadFault::Bad(misplaced(text)))
}

/// Takes the number of an entry, or what one begins with.
fn sequence_step(d: &mut EntryDraft, text: &[u8]) -> Result<(), ReadFault>
    ensures { StepGiven result d.new (sequence_step text.now d.old) }
{
    if !begins_with_digit(text) {
        return action_step(d, text);
    }
    if !is_number(text) {
        return Err(ReadFault::Bad(Cause::Syntax));
    }
    d.expects = Expects::Action;
    Ok(())
}

/// Notes that established packets are permitted.
fn evaluated(alloc: Global, d: &mut EntryDraft) -> Result<(), Memory>
    ensures { OnOk result (d.new ≡ evaluated d.old) }
{
    d.permit = true;
    d.cond = Cond::new(alloc);
    d.expects = Expects::Nothing;
    with_literal(d, positive(Test::Est))
}

/// Takes a word, by what it is taken for.
fn expected_step(
    alloc: Global,
    expects: Expects,
    d: &mut EntryDraft,
    text: &[u8],
) -> Result<(), ReadFault>
    ensures { StepGiven result d.new (expected_step expects text.now d.old) }
{
    match expects {
        Expects::Sequence => sequence_step(d, text),
        Expects::Action => action_step(d, text),
        Expects::EvaluateName => Ok(evaluated(alloc, d)?),
        Expects::Protocol => protocol_step(alloc, d, text),
        Expects::Address(place) => address_step(alloc, d, place, text),
        Expects::Host(place) => host_step(alloc, d, place, text),
        Expects::Wildcard(place, addr) => wildcard_step(alloc, d, place, addr, text),
        Expects::MaybeWildcard(addr) => maybe_wildcard_step(alloc, d, addr, text),
        Expects::Ports(place) => ports_step(alloc, d, place, text),
        Expects::Port(place, word) => port_step(alloc, d, place, word, text),
        Expects::LastPort(place, first) => last_port_step(alloc, d, place, first, text),
        Expects::FurtherPort(place) => further_port_step(alloc, d, place, text),
        Expects::Type => type_step(alloc, d, text),
        Expects::Code => code_step(d, text),
        Expects::Reflect => reflect_step(d, misplaced(text), text),
        Expects::ReflectName => {
            reflecting(d);
            Ok(())
        }
        Expects::Timeout => timeout_step(d, text),
        Expects::TimeoutValue => timeout_value_step(d, text),
        Expects::Log => log_step(d, misplaced(text), text),
        Expects::Nothing => Err(ReadFault::Bad(Cause::Syntax)),
    }
}

/// Takes a word. One with a bad byte or an open quote is refused, whatever it would be.
fn take_word(alloc: Global, d: &mut EntryDraft, word: &Word) -> Result<(), ReadFault>
    ensures { StepGiven result d.new (judged word.now (entry_step d.old word.now)) }
{
    if !word.is_sound() {
        return Err(ReadFault::Bad(Cause::Syntax));
    }
    expected_step(alloc, d.expects, d, word.text.as_slice())
}

/// Takes the words of an entry, up to the first that is refused.
fn take_words(alloc: Global, d: &mut EntryDraft, words: &[Word]) -> Result<(), ReadFault>
    ensures { StepGiven result d.new (words_read entry_step d.old words.now) }
{
    for word in words {
        take_word(alloc, d, word)?;
    }
    Ok(())
}

/// Whether the line may end here.
fn may_end(expects: Expects) -> bool
    ensures { result ≡ may_end expects }
{
    match expects {
        Expects::Ports(place) | Expects::FurtherPort(place) => place == Place::Destination,
        Expects::MaybeWildcard(_)
        | Expects::Type
        | Expects::Code
        | Expects::Reflect
        | Expects::Timeout
        | Expects::Log
        | Expects::Nothing => true,
        _ => false,
    }
}

/// Whether the protocol is this one.
fn is_protocol(number: u8, protocol: Option<u8>) -> bool
    ensures { result ≡ is_protocol number protocol }
{
    match protocol {
        Some(other) => number == other,
        None => false,
    }
}

/// The checks of the whole line: a wildcard of zeros followed by ones, ports with TCP or UDP, `established` with TCP, and
/// a type with ICMP.
fn entry_checks(d: &EntryDraft) -> Checks
    ensures { result ≡ entry_checks d.now }
{
    Checks {
        left_out: false,
        backward: false,
        shape: d.scattered
            || (d.has_ports && !has_ports(d.protocol))
            || (d.has_established && !is_protocol(6, d.protocol))
            || (d.has_type && !is_protocol(1, d.protocol)),
        expand: false,
    }
}

/// The entry of a draft, whose condition it takes along.
fn entry_drawn(alloc: Global, d: &mut EntryDraft) -> IosEntry
    ensures { result ≡ entry_drawn d.old }
{
    IosEntry {
        permit: d.permit,
        cond: mem::replace(&mut d.cond, Cond::new(alloc)),
        reflect: d.reflect,
    }
}

/// The entry of what was read of it, unless it is refused.
fn entry_made(alloc: Global, d: &mut EntryDraft) -> Result<IosEntry, ReadFault>
    ensures { CauseGiven result (entry_made d.old) }
{
    if !may_end(d.expects) {
        return Err(ReadFault::Bad(Cause::Syntax));
    }
    match entry_checks(d).first() {
        Some(cause) => Err(ReadFault::Bad(cause)),
        None => Ok(entry_drawn(alloc, d)),
    }
}

/// The entry of a draft and of these words behind it.
fn entry_behind(alloc: Global, d: &mut EntryDraft, words: &[Word]) -> Result<IosEntry, ReadFault>
    ensures { CauseGiven result (and_then (words_read entry_step d.old words.now) entry_made) }
{
    take_words(alloc, d, words)?;
    entry_made(alloc, d)
}

/// The entry of these words, in an extended list or another, that was opened or has a number. A line that ends too early
/// is refused.
pub(crate) fn entry_of(
    alloc: Global,
    extended: bool,
    opened: bool,
    words: &[Word],
) -> Result<IosEntry, ReadFault>
    ensures { CauseGiven result (entry_of extended opened words.now) }
{
    let mut d = fresh_entry(alloc, extended, opened);
    entry_behind(alloc, &mut d, words)
}
