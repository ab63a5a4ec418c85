//! Addresses, ports and options of a rule.

ghost use Rattle.std.specs.Prelude.{◌≡◌, option_map, OnOk};
ghost use Rattle.fws_net.specs.declared.condition.Test.TheVariants as tests;
ghost use Rattle.fws_net.specs.Reading.{StepGiven};
ghost use Rattle.fws_net.specs.Routes.{IsSound};
ghost use Rattle.fws_rules.specs.Literals.{literals, positive};
ghost use Rattle.fws_ipfw.specs.RuleText.{address_step, allows, destination_ports_step, destination_step, keep_step, kept_flow_step, negated_destination_ports_step, negated_source_ports_step, once, option_step, source_ports_step, source_step, test_begun, test_step, value_step, with_literals, with_ports};

use crate::addresses::read_addresses;
use crate::keywords::{misplaced, misspelled, test_option};
use crate::values::{bare_meaning, read_meaning};
use fws_ipfw::{Expects, IpfwAct, RuleDraft, TestOption};
use fws_iv::Ivs;
use fws_net::{Cause, Lit, ReadFault, Site, Test, read_ports};
use fws_num::{Memory, Text};
use fws_rules::{is, is_given, positive, put_literals};
use std::alloc::Global;

/// Notes an option that may come once.
fn once(alloc: Global, d: &mut RuleDraft, text: &[u8]) -> Result<(), ReadFault>
    ensures { StepGiven result d.new (once text.now d.old) }
{
    if is_given(d.given.as_slice(), text) {
        return Err(ReadFault::Bad(Cause::Syntax));
    }
    d.given.put(Text::of(alloc, text)?)?;
    Ok(())
}

/// Adds what stands in the condition for an option.
pub(crate) fn with_literals(
    d: &mut RuleDraft,
    negated: bool,
    lit: Option<Lit>,
) -> Result<(), Memory>
    ensures { OnOk result (d.new ≡ with_literals (literals negated lit) d.old) }
{
    put_literals(&mut d.cond, negated, lit)?;
    Ok(())
}

/// The test of the addresses, where there are some.
fn source_literal(set: Option<Ivs>) -> Option<Lit>
    ensures { result ≡ option_map (λ s. positive (tests.Src s)) set }
{
    match set {
        Some(set) => Some(positive(Test::Src(set))),
        None => None,
    }
}

/// The test of the addresses, where there are some.
fn destination_literal(set: Option<Ivs>) -> Option<Lit>
    ensures { result ≡ option_map (λ s. positive (tests.Dst s)) set }
{
    match set {
        Some(set) => Some(positive(Test::Dst(set))),
        None => None,
    }
}

/// Takes the source.
fn source_address(
    alloc: Global,
    site: &Site,
    d: &mut RuleDraft,
    negated: bool,
    text: &[u8],
) -> Result<(), ReadFault>
    ensures { StepGiven result d.new (address_step site.now tests.Src negated Expects.SourcePorts text.now d.old) }
{
    match read_addresses(alloc, site, text)? {
        Some(set) => {
            with_literals(d, negated, source_literal(set))?;
            d.expects = Expects::SourcePorts;
            Ok(())
        }
        None => Err(ReadFault::Bad(misspelled(text))),
    }
}

/// Takes the source, or `not` before it.
pub(crate) fn source_step(
    alloc: Global,
    site: &Site,
    d: &mut RuleDraft,
    negated: bool,
    text: &[u8],
) -> Result<(), ReadFault>
    ensures { StepGiven result d.new (source_step site.now negated text.now d.old) }
{
    if !negated && is(text, b"not") {
        d.expects = Expects::Source(true);
        return Ok(());
    }
    source_address(alloc, site, d, negated, text)
}

/// Takes the destination.
fn destination_address(
    alloc: Global,
    site: &Site,
    d: &mut RuleDraft,
    negated: bool,
    text: &[u8],
) -> Result<(), ReadFault>
    ensures { StepGiven result d.new (address_step site.now tests.Dst negated Expects.DestinationPorts text.now d.old) }
{
    match read_addresses(alloc, site, text)? {
        Some(set) => {
            with_literals(d, negated, destination_literal(set))?;
            d.expects = Expects::DestinationPorts;
            Ok(())
        }
        None => Err(ReadFault::Bad(misspelled(text))),
    }
}

/// Takes the destination, or `not` before it.
pub(crate) fn destination_step(
    alloc: Global,
    site: &Site,
    d: &mut RuleDraft,
    negated: bool,
    text: &[u8],
) -> Result<(), ReadFault>
    ensures { StepGiven result d.new (destination_step site.now negated text.now d.old) }
{
    if !negated && is(text, b"not") {
        d.expects = Expects::Destination(true);
        return Ok(());
    }
    destination_address(alloc, site, d, negated, text)
}

/// Takes the ports of the source.
fn source_ports(d: &mut RuleDraft, negated: bool, set: Ivs) -> Result<(), Memory>
    ensures { OnOk result (d.new ≡ with_ports tests.Sport negated Expects.To set d.old) }
{
    with_literals(d, negated, Some(positive(Test::Sport(set))))?;
    d.has_ports = true;
    d.expects = Expects::To;
    Ok(())
}

/// Takes the ports of the source, `not` before them, or `to`.
pub(crate) fn source_ports_step(
    alloc: Global,
    d: &mut RuleDraft,
    text: &[u8],
) -> Result<(), ReadFault>
    ensures { StepGiven result d.new (source_ports_step text.now d.old) }
{
    if is(text, b"to") {
        d.expects = Expects::Destination(false);
        return Ok(());
    }
    if is(text, b"not") {
        d.expects = Expects::NegatedSourcePorts;
        return Ok(());
    }
    match read_ports(alloc, b'-', text)? {
        Some(set) => Ok(source_ports(d, false, set)?),
        None => Err(ReadFault::Bad(misspelled(text))),
    }
}

/// Takes the negated ports of the source.
pub(crate) fn negated_source_ports_step(
    alloc: Global,
    d: &mut RuleDraft,
    text: &[u8],
) -> Result<(), ReadFault>
    ensures { StepGiven result d.new (negated_source_ports_step text.now d.old) }
{
    match read_ports(alloc, b'-', text)? {
        Some(set) => Ok(source_ports(d, true, set)?),
        None => Err(ReadFault::Bad(Cause::Syntax)),
    }
}

/// Takes the test of an option that has no value, or goes on to the option's value.
fn begin_test(d: &mut RuleDraft, negated: bool, option: TestOption) -> Result<(), Memory>
    ensures { OnOk result (d.new ≡ test_begun negated option d.old) }
{
    match bare_meaning(option) {
        Some(lit) => {
            with_literals(d, negated, Some(lit))?;
            d.expects = Expects::Option;
        }
        None => d.expects = Expects::Value(option, negated),
    }
    Ok(())
}

/// Takes an option that tests. Any other word is refused for this cause.
pub(crate) fn test_step(
    alloc: Global,
    d: &mut RuleDraft,
    negated: bool,
    cause: Cause,
    text: &[u8],
) -> Result<(), ReadFault>
    ensures { StepGiven result d.new (test_step negated cause text.now d.old) }
{
    match test_option(text) {
        Some(option) => {
            once(alloc, d, text)?;
            begin_test(d, negated, option)?;
            Ok(())
        }
        None => Err(ReadFault::Bad(cause)),
    }
}

/// Takes `keep-state`, which an action other than allow leaves out.
fn keep_step(alloc: Global, d: &mut RuleDraft, text: &[u8]) -> Result<(), ReadFault>
    ensures { StepGiven result d.new (keep_step text.now d.old) }
{
    match d.act {
        IpfwAct::Allow => {
            once(alloc, d, text)?;
            d.keep = true;
            d.expects = Expects::KeptFlow;
            Ok(())
        }
        _ => Err(ReadFault::Bad(Cause::LeftOut)),
    }
}

/// Takes an option, or `not` before one. Any other word is refused for this cause.
pub(crate) fn option_step(
    alloc: Global,
    d: &mut RuleDraft,
    cause: Cause,
    text: &[u8],
) -> Result<(), ReadFault>
    ensures { StepGiven result d.new (option_step cause text.now d.old) }
{
    if is(text, b"not") {
        d.expects = Expects::Negated;
        return Ok(());
    }
    if is(text, b"keep-state") {
        return keep_step(alloc, d, text);
    }
    test_step(alloc, d, false, cause, text)
}

/// Takes `:default` behind `keep-state`, or an option.
pub(crate) fn kept_flow_step(alloc: Global, d: &mut RuleDraft, text: &[u8]) -> Result<(), ReadFault>
    ensures { StepGiven result d.new (kept_flow_step text.now d.old) }
{
    if is(text, b":default") {
        d.expects = Expects::Option;
        return Ok(());
    }
    option_step(alloc, d, misplaced(text), text)
}

/// Takes the ports of the destination.
fn destination_ports(d: &mut RuleDraft, negated: bool, set: Ivs) -> Result<(), Memory>
    ensures { OnOk result (d.new ≡ with_ports tests.Dport negated Expects.Option set d.old) }
{
    with_literals(d, negated, Some(positive(Test::Dport(set))))?;
    d.has_ports = true;
    d.expects = Expects::Option;
    Ok(())
}

/// Takes the ports of the destination, an option, or `not` before either.
pub(crate) fn destination_ports_step(
    alloc: Global,
    d: &mut RuleDraft,
    text: &[u8],
) -> Result<(), ReadFault>
    ensures { StepGiven result d.new (destination_ports_step text.now d.old) }
{
    if is(text, b"not") {
        d.expects = Expects::NegatedDestinationPorts;
        return Ok(());
    }
    match read_ports(alloc, b'-', text)? {
        Some(set) => Ok(destination_ports(d, false, set)?),
        None => option_step(alloc, d, misspelled(text), text),
    }
}

/// Takes the negated ports of the destination, or a negated option.
pub(crate) fn negated_destination_ports_step(
    alloc: Global,
    d: &mut RuleDraft,
    text: &[u8],
) -> Result<(), ReadFault>
    ensures { StepGiven result d.new (negated_destination_ports_step text.now d.old) }
{
    match read_ports(alloc, b'-', text)? {
        Some(set) => Ok(destination_ports(d, true, set)?),
        None => test_step(alloc, d, true, misspelled(text), text),
    }
}

/// Takes the value of an option.
pub(crate) fn value_step(
    alloc: Global,
    site: &Site,
    d: &mut RuleDraft,
    option: TestOption,
    negated: bool,
    text: &[u8],
) -> Result<(), ReadFault>
    requires { IsSound site.now }
    ensures { StepGiven result d.new (value_step site.now option negated text.now d.old) }
{
    let lit = read_meaning(alloc, site, option, text)?;
    with_literals(d, negated, Some(lit))?;
    d.expects = Expects::Option;
    Ok(())
}
