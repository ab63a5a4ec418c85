//! Options of a rule that test packets, with their values.

ghost use Rattle.std.specs.Prelude.{◌≡◌, Some, OnOk};
ghost use Rattle.std.specs.Option.{ok_or};
ghost use Rattle.fws_net.specs.declared.cause.Cause.TheVariants.{Syntax};
ghost use Rattle.fws_net.specs.declared.condition.Test.TheVariants.{Flags};
ghost use Rattle.fws_net.specs.Reading.{CauseGiven, StepGiven};
ghost use Rattle.fws_net.specs.Routes.{IsSound};
ghost use Rattle.fws_rules.specs.Literals.{literals, positive};
ghost use Rattle.fws_ipt.specs.Values.{flags_of};
ghost use Rattle.fws_ipt.specs.RuleText.{closed, once, asks_port, asks_flags, asks_icmp, noted, with_literals, test_begun, test_step, from_step, toward_step, with_protocol, protocol_step, mask_step, compared_step, plain_step, value_step};

use crate::flags::{read_flags, syn_literal};
use crate::protocols::read_protocol_value;
use crate::values::read_meaning;
use fws_ipt::{Expects, RuleDraft, TestOption};
use fws_net::{Cause, Lit, ReadFault, Site, Test, prefix_set};
use fws_num::{Memory, Text, read_prefix};
use fws_rules::{demand, is_given, positive, protocol_literal, put_literals};
use std::alloc::Global;

/// Notes an option that may come once.
pub(crate) fn once(alloc: Global, d: &mut RuleDraft, text: &[u8]) -> Result<(), ReadFault>
    ensures { StepGiven result d.new (once text.now d.old) }
{
    if is_given(d.given.as_slice(), text) {
        return Err(ReadFault::Bad(Cause::Syntax));
    }
    d.given.put(Text::of(alloc, text)?)?;
    Ok(())
}

/// A test of this option has a port.
fn asks_port(option: TestOption) -> bool
    ensures { result ≡ asks_port option }
{
    matches!(
        option,
        TestOption::SourcePort
            | TestOption::DestinationPort
            | TestOption::SourcePorts
            | TestOption::DestinationPorts
    )
}

/// Notes what a test of this option asks of the protocol.
fn note(d: &mut RuleDraft, option: TestOption)
    ensures { d.new ≡ noted option d.old }
{
    d.has_port = d.has_port || asks_port(option);
    d.has_flags = d.has_flags || matches!(option, TestOption::TcpFlags | TestOption::Syn);
    d.has_icmp = d.has_icmp || matches!(option, TestOption::IcmpType);
}

/// Adds what stands in the condition for an option. A keyword is next.
fn with_literals(d: &mut RuleDraft, negated: bool, lit: Option<Lit>) -> Result<(), Memory>
    ensures { OnOk result (d.new ≡ with_literals (literals negated lit) d.old) }
{
    put_literals(&mut d.cond, negated, lit)?;
    d.expects = Expects::Keyword;
    Ok(())
}

/// Takes the test of `--syn`, or goes on to the option's value.
fn begin_test(d: &mut RuleDraft, negated: bool, option: TestOption) -> Result<(), Memory>
    ensures { OnOk result (d.new ≡ test_begun negated option d.old) }
{
    match option {
        TestOption::Syn => with_literals(d, negated, Some(syn_literal())),
        _ => {
            d.expects = Expects::Value(option, negated);
            Ok(())
        }
    }
}

/// Takes an option that tests, and that a `!` may negate.
pub(crate) fn test_step(
    alloc: Global,
    d: &mut RuleDraft,
    negated: bool,
    text: &[u8],
    option: TestOption,
) -> Result<(), ReadFault>
    ensures { StepGiven result d.new (test_step negated text.now option d.old) }
{
    once(alloc, d, text)?;
    d.is_open = false;
    note(d, option);
    begin_test(d, negated, option)?;
    Ok(())
}

/// Takes the value of `-s`.
fn from_step(alloc: Global, d: &mut RuleDraft, negated: bool, text: &[u8]) -> Result<(), ReadFault>
    ensures { StepGiven result d.new (from_step negated text.now d.old) }
{
    let prefix = demand(read_prefix(text))?;
    let set = prefix_set(alloc, &prefix)?;
    if !negated {
        d.source = Some(prefix.len);
    }
    with_literals(d, negated, Some(positive(Test::Src(set))))?;
    Ok(())
}

/// Takes the value of `-d`.
fn toward_step(
    alloc: Global,
    d: &mut RuleDraft,
    negated: bool,
    text: &[u8],
) -> Result<(), ReadFault>
    ensures { StepGiven result d.new (toward_step negated text.now d.old) }
{
    let prefix = demand(read_prefix(text))?;
    let set = prefix_set(alloc, &prefix)?;
    if !negated {
        d.destination = Some(prefix.len);
    }
    with_literals(d, negated, Some(positive(Test::Dst(set))))?;
    Ok(())
}

/// Takes the value of `-p`.
fn protocol_step(
    alloc: Global,
    d: &mut RuleDraft,
    negated: bool,
    text: &[u8],
) -> Result<(), ReadFault>
    ensures { StepGiven result d.new (protocol_step negated text.now d.old) }
{
    let protocol = read_protocol_value(text)?;
    let lit = protocol_literal(alloc, protocol)?;
    if !negated {
        d.protocol = protocol;
    }
    with_literals(d, negated, lit)?;
    Ok(())
}

/// The bits of flags, which have to be there.
fn demand_flags(alloc: Global, text: &[u8]) -> Result<u8, ReadFault>
    ensures { CauseGiven result (ok_or (flags_of text.now) Syntax) }
{
    demand(read_flags(alloc, text)?)
}

/// Takes the mask of `--tcp-flags`.
fn mask_step(alloc: Global, d: &mut RuleDraft, negated: bool, text: &[u8]) -> Result<(), ReadFault>
    ensures { StepGiven result d.new (mask_step negated text.now d.old) }
{
    let mask = demand_flags(alloc, text)?;
    d.expects = Expects::Compared(mask, negated);
    Ok(())
}

/// Adds the test of the flags of a mask that are set. A keyword is next.
fn with_flags(d: &mut RuleDraft, negated: bool, mask: u8, want: u8) -> Result<(), Memory>
    ensures { OnOk result (d.new ≡ with_literals (literals negated (Some (positive (Flags mask want)))) d.old) }
{
    with_literals(d, negated, Some(positive(Test::Flags { mask, want })))
}

/// Takes the flags of `--tcp-flags` that are set.
pub(crate) fn compared_step(
    alloc: Global,
    d: &mut RuleDraft,
    mask: u8,
    negated: bool,
    text: &[u8],
) -> Result<(), ReadFault>
    ensures { StepGiven result d.new (compared_step mask negated text.now d.old) }
{
    let want = demand_flags(alloc, text)?;
    with_flags(d, negated, mask, want)?;
    Ok(())
}

/// Takes the one value of an option.
fn plain_step(
    alloc: Global,
    site: &Site,
    d: &mut RuleDraft,
    negated: bool,
    option: TestOption,
    text: &[u8],
) -> Result<(), ReadFault>
    requires { IsSound site.now }
    ensures { StepGiven result d.new (plain_step site.now negated option text.now d.old) }
{
    let lit = read_meaning(alloc, site, option, text)?;
    with_literals(d, negated, lit)?;
    Ok(())
}

/// Takes the value of an option.
pub(crate) fn value_step(
    alloc: Global,
    site: &Site,
    d: &mut RuleDraft,
    option: TestOption,
    negated: bool,
    text: &[u8],
) -> Result<(), ReadFault>
    requires { IsSound site.now }
    ensures { StepGiven result d.new (value_step site.now option negated text.now d.old) }
{
    match option {
        TestOption::Source => from_step(alloc, d, negated, text),
        TestOption::Destination => toward_step(alloc, d, negated, text),
        TestOption::Protocol => protocol_step(alloc, d, negated, text),
        TestOption::TcpFlags => mask_step(alloc, d, negated, text),
        _ => plain_step(alloc, site, d, negated, option, text),
    }
}
