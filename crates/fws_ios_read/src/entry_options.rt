//! What stands behind the destination of an entry (Cisco IOS).

ghost use Rattle.std.specs.Prelude.{◌≡◌, ◌&&◌, if◌then◌else◌, Ok, Err, OnOk};
ghost use Rattle.fws_net.specs.Reading.{StepGiven};
ghost use Rattle.fws_ios.specs.EntryText.{code_step, established_step, expecting, is_log, log_step, may_reflect, maybe_wildcard_step, reflect_step, reflecting, timeout_step, timeout_value_step, type_step, with_established, with_type};

use crate::entry_addresses::{with_literal, with_wildcard};
use crate::keywords::{misplaced, misspelled};
use crate::values::{is_number, read_icmp_type, wildcard_len};
use fws_ios::{EntryDraft, Expects, Place};
use fws_iv::one;
use fws_net::{Cause, Cond, ReadFault, Test};
use fws_num::{Memory, read_quad};
use fws_rules::{is, positive};
use std::alloc::Global;

/// RST and ACK.
const RST_ACK: u8 = 20;

/// Whether reflexive lists are used, as in extended lists that were opened.
pub(crate) fn may_reflect(d: &EntryDraft) -> bool
    ensures { result ≡ may_reflect d.now }
{
    d.extended && d.opened
}

/// Whether it is `log`, or in an extended list `log-input`.
fn is_log(extended: bool, text: &[u8]) -> bool
    ensures { result ≡ is_log extended text.now }
{
    is(text, b"log") || (extended && is(text, b"log-input"))
}

/// Takes `log` or `log-input`. Any other word is refused for this cause.
pub(crate) fn log_step(d: &mut EntryDraft, cause: Cause, text: &[u8]) -> Result<(), ReadFault>
    ensures { StepGiven result d.new (log_step cause text.now d.old) }
{
    if !is_log(d.extended, text) {
        return Err(ReadFault::Bad(cause));
    }
    d.expects = Expects::Nothing;
    Ok(())
}

/// Takes `timeout`, or what stands behind it.
pub(crate) fn timeout_step(d: &mut EntryDraft, text: &[u8]) -> Result<(), ReadFault>
    ensures { StepGiven result d.new (timeout_step text.now d.old) }
{
    if is(text, b"timeout") {
        d.expects = Expects::TimeoutValue;
        return Ok(());
    }
    log_step(d, misplaced(text), text)
}

/// Takes the number behind `timeout`.
pub(crate) fn timeout_value_step(d: &mut EntryDraft, text: &[u8]) -> Result<(), ReadFault>
    ensures { StepGiven result d.new (timeout_value_step text.now d.old) }
{
    if !is_number(text) {
        return Err(ReadFault::Bad(Cause::Syntax));
    }
    d.expects = Expects::Log;
    Ok(())
}

/// Goes on to the name behind `reflect`, where the entry may keep state.
fn begin_reflect(d: &mut EntryDraft) -> Result<(), ReadFault>
    ensures { StepGiven result d.new (if may_reflect d.old && d.old.permit then Ok (expecting Expects.ReflectName d.old) else Err Cause.LeftOut) }
{
    if !may_reflect(d) || !d.permit {
        return Err(ReadFault::Bad(Cause::LeftOut));
    }
    d.expects = Expects::ReflectName;
    Ok(())
}

/// Takes `reflect`, or what stands behind it. Any other word is refused for this cause.
pub(crate) fn reflect_step(d: &mut EntryDraft, cause: Cause, text: &[u8]) -> Result<(), ReadFault>
    ensures { StepGiven result d.new (reflect_step cause text.now d.old) }
{
    if is(text, b"reflect") {
        return begin_reflect(d);
    }
    log_step(d, cause, text)
}

/// Takes the wildcard of an address of a standard list, or what stands behind one.
pub(crate) fn maybe_wildcard_step(
    alloc: Global,
    d: &mut EntryDraft,
    addr: u32,
    text: &[u8],
) -> Result<(), ReadFault>
    ensures { StepGiven result d.new (maybe_wildcard_step addr text.now d.old) }
{
    match read_quad(text) {
        Some(wildcard) => {
            d.cond = Cond::new(alloc);
            with_wildcard(alloc, d, Place::Source, addr, wildcard_len(wildcard))?;
            Ok(())
        }
        None => reflect_step(d, misspelled(text), text),
    }
}

/// Notes that the entry keeps state.
pub(crate) fn reflecting(d: &mut EntryDraft)
    ensures { d.new ≡ reflecting d.old }
{
    d.reflect = true;
    d.expects = Expects::Timeout;
}

/// Notes that TCP packets with ACK or RST are meant.
fn with_established(d: &mut EntryDraft) -> Result<(), Memory>
    ensures { OnOk result (d.new ≡ with_established d.old) }
{
    with_literal(d, positive(Test::AnyFlag(RST_ACK)))?;
    d.has_established = true;
    d.expects = Expects::Reflect;
    Ok(())
}

/// Takes `established`, or what stands behind it. Any other word is refused for this cause.
pub(crate) fn established_step(
    d: &mut EntryDraft,
    cause: Cause,
    text: &[u8],
) -> Result<(), ReadFault>
    ensures { StepGiven result d.new (established_step cause text.now d.old) }
{
    if is(text, b"established") {
        with_established(d)?;
        return Ok(());
    }
    reflect_step(d, cause, text)
}

/// Takes what stands behind a type. A number is a code, which is left out.
pub(crate) fn code_step(d: &mut EntryDraft, text: &[u8]) -> Result<(), ReadFault>
    ensures { StepGiven result d.new (code_step text.now d.old) }
{
    if is_number(text) {
        return Err(ReadFault::Bad(Cause::LeftOut));
    }
    established_step(d, misplaced(text), text)
}

/// Notes the ICMP type.
fn with_type(alloc: Global, d: &mut EntryDraft, number: u8) -> Result<(), Memory>
    ensures { OnOk result (d.new ≡ with_type number d.old) }
{
    let set = one(alloc, u32::from(number), u32::from(number))?;
    with_literal(d, positive(Test::Icmp(set)))?;
    d.has_type = true;
    d.expects = Expects::Code;
    Ok(())
}

/// Takes an ICMP type, or what stands behind it.
pub(crate) fn type_step(alloc: Global, d: &mut EntryDraft, text: &[u8]) -> Result<(), ReadFault>
    ensures { StepGiven result d.new (type_step text.now d.old) }
{
    match read_icmp_type(text) {
        Some(number) => {
            with_type(alloc, d, number)?;
            Ok(())
        }
        None => established_step(d, misspelled(text), text),
    }
}
