//! A rule behind its number (ipfw(8)).

ghost use Rattle.std.specs.Prelude.{◌≡◌, ◌^◌, ◌-◌};
ghost use Rattle.fws_net.specs.Causes.{judged, words_read};
ghost use Rattle.fws_net.specs.Reading.{StepGiven};
ghost use Rattle.fws_net.specs.Routes.{IsSound};
ghost use Rattle.fws_ipfw.specs.RuleText.{action_begun, action_step, amount_step, expected_step, flow_step, fresh_rule, goes_back, has_ports, instance_step, log_step, logged_step, may_end, protocol_step, rule_checks, rule_step, skip_step, tag_number_step, tag_step, with_protocol, word_step};
ghost use Rattle.fws_ipfw_read.specs.Rules.{rule_behind};

use crate::addresses::read_protocol_value;
use crate::instances::Known;
use crate::keywords::{action_word, misplaced, misspelled};
use crate::numbers::read_counted;
use crate::options::{
    destination_ports_step, destination_step, kept_flow_step, negated_destination_ports_step,
    negated_source_ports_step, option_step, source_ports_step, source_step, test_step, value_step,
    with_literals,
};
use fws_ipfw::{ActionWord, Expects, IpfwAct, IpfwTag, RuleDraft};
use fws_net::{Cause, Checks, Cond, ReadFault, Site};
use fws_num::{Items, Word, read_dec};
use fws_rules::{is, protocol_literal};
use std::alloc::Global;

/// A rule ahead of its first word.
pub(crate) fn fresh_rule(alloc: Global) -> RuleDraft
    ensures { result ≡ fresh_rule }
{
    RuleDraft {
        expects: Expects::Action,
        given: Items::new(alloc),
        cond: Cond::new(alloc),
        protocol: None,
        has_ports: false,
        act: IpfwAct::Deny,
        tag: IpfwTag::Nothing,
        keep: false,
    }
}

/// Takes an action that has no value.
fn act(d: &mut RuleDraft, act: IpfwAct, next: Expects)
    ensures { d.new ≡ record d.old { act = act; expects = next } }
{
    d.act = act;
    d.expects = next;
}

/// Takes an action, or goes on to its value.
fn begin_action(d: &mut RuleDraft, word: ActionWord)
    ensures { d.new ≡ action_begun word d.old }
{
    match word {
        ActionWord::Allow => act(d, IpfwAct::Allow, Expects::Log),
        ActionWord::Deny => act(d, IpfwAct::Deny, Expects::Log),
        ActionWord::Unreach => act(d, IpfwAct::Deny, Expects::Code),
        ActionWord::Count => act(d, IpfwAct::Count, Expects::Log),
        ActionWord::SkipTo => d.expects = Expects::SkipTo,
        ActionWord::Nat => d.expects = Expects::Instance,
        ActionWord::CheckState => act(d, IpfwAct::Check, Expects::Flow),
    }
}

/// Takes an action.
fn action_step(d: &mut RuleDraft, text: &[u8]) -> Result<(), ReadFault>
    ensures { StepGiven result d.new (action_step text.now d.old) }
{
    match action_word(text) {
        Some(word) => {
            begin_action(d, word);
            Ok(())
        }
        None => Err(ReadFault::Bad(misplaced(text))),
    }
}

/// Takes the number behind `skipto`.
fn skip_step(d: &mut RuleDraft, text: &[u8]) -> Result<(), ReadFault>
    ensures { StepGiven result d.new (skip_step text.now d.old) }
{
    match read_counted(text, 65534) {
        Some(number) => {
            act(d, IpfwAct::Skip(number), Expects::Log);
            Ok(())
        }
        None => Err(ReadFault::Bad(Cause::Syntax)),
    }
}

/// Takes the number of an instance.
fn instance_step(known: &Known, d: &mut RuleDraft, text: &[u8]) -> Result<(), ReadFault>
    ensures { StepGiven result d.new (instance_step known.now text.now d.old) }
{
    let Some(number) = read_counted(text, 65535) else {
        return Err(ReadFault::Bad(Cause::Syntax));
    };
    if !known.has(number) {
        return Err(ReadFault::Bad(Cause::NoName));
    }
    act(d, IpfwAct::Nat(number), Expects::Log);
    Ok(())
}

/// Takes `:default` behind `check-state`.
fn flow_step(d: &mut RuleDraft, text: &[u8]) -> Result<(), ReadFault>
    ensures { StepGiven result d.new (flow_step text.now d.old) }
{
    if !is(text, b":default") {
        return Err(ReadFault::Bad(misplaced(text)));
    }
    d.expects = Expects::Nothing;
    Ok(())
}

/// Takes a protocol.
fn protocol_step(alloc: Global, d: &mut RuleDraft, text: &[u8]) -> Result<(), ReadFault>
    ensures { StepGiven result d.new (protocol_step text.now d.old) }
{
    let Some(protocol) = read_protocol_value(text) else {
        return Err(ReadFault::Bad(misspelled(text)));
    };
    d.protocol = protocol;
    d.expects = Expects::From;
    with_literals(d, false, protocol_literal(alloc, protocol)?)?;
    Ok(())
}

/// Takes `tag`, `untag` or a protocol.
fn tag_step(alloc: Global, d: &mut RuleDraft, text: &[u8]) -> Result<(), ReadFault>
    ensures { StepGiven result d.new (tag_step text.now d.old) }
{
    if is(text, b"tag") {
        d.expects = Expects::TagNumber(true);
        return Ok(());
    }
    if is(text, b"untag") {
        d.expects = Expects::TagNumber(false);
        return Ok(());
    }
    protocol_step(alloc, d, text)
}

/// Takes `log`, `tag`, `untag` or a protocol.
fn log_step(alloc: Global, d: &mut RuleDraft, text: &[u8]) -> Result<(), ReadFault>
    ensures { StepGiven result d.new (log_step text.now d.old) }
{
    if is(text, b"log") {
        d.expects = Expects::Logged;
        return Ok(());
    }
    tag_step(alloc, d, text)
}

/// Takes `logamount`, `tag`, `untag` or a protocol.
fn logged_step(alloc: Global, d: &mut RuleDraft, text: &[u8]) -> Result<(), ReadFault>
    ensures { StepGiven result d.new (logged_step text.now d.old) }
{
    if is(text, b"logamount") {
        d.expects = Expects::LogAmount;
        return Ok(());
    }
    tag_step(alloc, d, text)
}

/// Takes the number behind `logamount`.
fn amount_step(d: &mut RuleDraft, text: &[u8]) -> Result<(), ReadFault>
    ensures { StepGiven result d.new (amount_step text.now d.old) }
{
    match read_dec(text, u64::MAX) {
        Some(_) => {
            d.expects = Expects::Tag;
            Ok(())
        }
        None => Err(ReadFault::Bad(Cause::Syntax)),
    }
}

/// Takes the number behind `tag`, or else behind `untag`.
fn tag_number_step(d: &mut RuleDraft, adds: bool, text: &[u8]) -> Result<(), ReadFault>
    ensures { StepGiven result d.new (tag_number_step adds text.now d.old) }
{
    let Some(number) = read_counted(text, 65534) else {
        return Err(ReadFault::Bad(Cause::Syntax));
    };
    d.tag = if adds {
        IpfwTag::Add(number)
    } else {
        IpfwTag::Remove(number)
    };
    d.expects = Expects::Protocol;
    Ok(())
}

/// Takes a word that stands alone at its place.
fn word_step(d: &mut RuleDraft, word: &[u8], next: Expects, text: &[u8]) -> Result<(), ReadFault>
    ensures { StepGiven result d.new (word_step word.now next text.now d.old) }
{
    if !is(text, word) {
        return Err(ReadFault::Bad(misplaced(text)));
    }
    d.expects = next;
    Ok(())
}

/// Takes a word, by what it is taken for.
fn expected_step(
    alloc: Global,
    site: &Site,
    known: &Known,
    expects: Expects,
    d: &mut RuleDraft,
    text: &[u8],
) -> Result<(), ReadFault>
    requires { IsSound site.now }
    ensures { StepGiven result d.new (expected_step site.now known.now expects text.now d.old) }
{
    match expects {
        Expects::Action => action_step(d, text),
        Expects::Code => {
            d.expects = Expects::Log;
            Ok(())
        }
        Expects::SkipTo => skip_step(d, text),
        Expects::Instance => instance_step(known, d, text),
        Expects::Flow => flow_step(d, text),
        Expects::Nothing => Err(ReadFault::Bad(Cause::Syntax)),
        Expects::Log => log_step(alloc, d, text),
        Expects::Logged => logged_step(alloc, d, text),
        Expects::LogAmount => amount_step(d, text),
        Expects::Tag => tag_step(alloc, d, text),
        Expects::TagNumber(adds) => tag_number_step(d, adds, text),
        Expects::Protocol => protocol_step(alloc, d, text),
        Expects::From => word_step(d, b"from", Expects::Source(false), text),
        Expects::Source(negated) => source_step(alloc, site, d, negated, text),
        Expects::SourcePorts => source_ports_step(alloc, d, text),
        Expects::NegatedSourcePorts => negated_source_ports_step(alloc, d, text),
        Expects::To => word_step(d, b"to", Expects::Destination(false), text),
        Expects::Destination(negated) => destination_step(alloc, site, d, negated, text),
        Expects::DestinationPorts => destination_ports_step(alloc, d, text),
        Expects::NegatedDestinationPorts => negated_destination_ports_step(alloc, d, text),
        Expects::Option => option_step(alloc, d, misplaced(text), text),
        Expects::Negated => test_step(alloc, d, true, misplaced(text), text),
        Expects::Value(option, negated) => value_step(alloc, site, d, option, negated, text),
        Expects::KeptFlow => kept_flow_step(alloc, d, text),
    }
}

/// Takes a word. One with a bad byte or an open quote is refused, whatever it would be.
fn take_word(
    alloc: Global,
    site: &Site,
    known: &Known,
    d: &mut RuleDraft,
    word: &Word,
) -> Result<(), ReadFault>
    requires { IsSound site.now }
    ensures { StepGiven result d.new (judged word.now (rule_step site.now known.now d.old word.now)) }
{
    if !word.is_sound() {
        return Err(ReadFault::Bad(Cause::Syntax));
    }
    expected_step(alloc, site, known, d.expects, d, word.text.as_slice())
}

/// Takes the words of a rule, up to the first that is refused.
fn take_words(
    alloc: Global,
    site: &Site,
    known: &Known,
    d: &mut RuleDraft,
    words: &[Word],
) -> Result<(), ReadFault>
    requires { IsSound site.now }
    ensures { StepGiven result d.new (words_read (rule_step site.now known.now) d.old words.now) }
{
    for word in words {
        take_word(alloc, site, known, d, word)?;
    }
    Ok(())
}

/// Whether the line may end here.
fn may_end(expects: Expects) -> bool
    ensures { result ≡ may_end expects }
{
    matches!(
        expects,
        Expects::Flow
            | Expects::Nothing
            | Expects::DestinationPorts
            | Expects::Option
            | Expects::KeptFlow
    )
}

/// Whether the protocol is TCP or UDP.
fn has_ports(protocol: Option<u8>) -> bool
    ensures { result ≡ has_ports protocol }
{
    match protocol {
        Some(number) => number == 6 || number == 17,
        None => false,
    }
}

/// Whether the rule with this number goes back.
fn goes_back(number: u32, act: IpfwAct) -> bool
    ensures { result ≡ goes_back number act }
{
    match act {
        IpfwAct::Skip(to) => to <= number,
        _ => false,
    }
}

/// The checks of the whole line of a rule with this number, where redirects are too many or not.
pub(crate) fn rule_checks(number: u32, is_full: bool, d: &RuleDraft) -> Checks
    ensures { result ≡ rule_checks number is_full d.now }
{
    Checks {
        left_out: number == 65535,
        backward: goes_back(number, d.act),
        shape: d.has_ports && !has_ports(d.protocol),
        expand: is_full,
    }
}

/// Takes the words of a rule behind what was read of it. A line that ends too early is refused.
pub(crate) fn take_rule(
    alloc: Global,
    site: &Site,
    known: &Known,
    d: &mut RuleDraft,
    words: &[Word],
) -> Result<(), ReadFault>
    requires { IsSound site.now }
    ensures { StepGiven result d.new (rule_behind site.now known.now d.old words.now) }
{
    take_words(alloc, site, known, d, words)?;
    if may_end(d.expects) {
        Ok(())
    } else {
        Err(ReadFault::Bad(Cause::Syntax))
    }
}
