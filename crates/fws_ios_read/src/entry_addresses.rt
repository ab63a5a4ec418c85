//! Protocols and addresses of an entry (Cisco IOS).

ghost use Rattle.std.specs.Prelude.{◌≡◌, OnOk};
ghost use Rattle.fws_net.specs.Reading.{StepGiven};
ghost use Rattle.fws_ios.specs.EntryText.{address_step, behind_address, host_step, protocol_step, wildcard_step, with_address, with_host, with_literal, with_protocol, with_wildcard};

use crate::keywords::misspelled;
use crate::values::{address_literal, read_protocol_value, wildcard_len};
use fws_ios::{EntryDraft, Expects, Place};
use fws_net::{Cause, Lit, ReadFault};
use fws_num::{Memory, read_quad};
use fws_rules::{is, protocol_literal, put_literals};
use std::alloc::Global;

/// Adds a literal.
pub(crate) fn with_literal(d: &mut EntryDraft, lit: Lit) -> Result<(), Memory>
    ensures { OnOk result (d.new ≡ with_literal lit d.old) }
{
    d.cond.put(lit)
}

/// Notes the protocol.
fn with_protocol(alloc: Global, d: &mut EntryDraft, protocol: Option<u8>) -> Result<(), Memory>
    ensures { OnOk result (d.new ≡ with_protocol protocol d.old) }
{
    let lit = protocol_literal(alloc, protocol)?;
    put_literals(&mut d.cond, false, lit)?;
    d.protocol = protocol;
    d.expects = Expects::Address(Place::Source);
    Ok(())
}

/// Takes a protocol.
pub(crate) fn protocol_step(alloc: Global, d: &mut EntryDraft, text: &[u8]) -> Result<(), ReadFault>
    ensures { StepGiven result d.new (protocol_step text.now d.old) }
{
    match read_protocol_value(text) {
        Some(protocol) => {
            with_protocol(alloc, d, protocol)?;
            Ok(())
        }
        None => Err(ReadFault::Bad(misspelled(text))),
    }
}

/// What follows an address: in an extended list ports, else what may stand behind them.
fn behind_address(place: Place, d: &EntryDraft) -> Expects
    ensures { result ≡ behind_address place d.now }
{
    if d.extended {
        Expects::Ports(place)
    } else {
        Expects::Reflect
    }
}

/// Notes an address by itself.
fn with_host(alloc: Global, d: &mut EntryDraft, place: Place, addr: u32) -> Result<(), Memory>
    ensures { OnOk result (d.new ≡ with_host place addr d.old) }
{
    with_literal(d, address_literal(alloc, place, 32, addr)?)?;
    d.expects = behind_address(place, d);
    Ok(())
}

/// Notes an address, behind which a wildcard stands in an extended list and may stand in another.
fn with_address(alloc: Global, d: &mut EntryDraft, place: Place, addr: u32) -> Result<(), Memory>
    ensures { OnOk result (d.new ≡ with_address place addr d.old) }
{
    if d.extended {
        d.expects = Expects::Wildcard(place, addr);
        return Ok(());
    }
    with_host(alloc, d, place, addr)?;
    d.expects = Expects::MaybeWildcard(addr);
    Ok(())
}

/// Takes an address, `any` or `host`.
pub(crate) fn address_step(
    alloc: Global,
    d: &mut EntryDraft,
    place: Place,
    text: &[u8],
) -> Result<(), ReadFault>
    ensures { StepGiven result d.new (address_step place text.now d.old) }
{
    if is(text, b"any") {
        d.expects = behind_address(place, d);
        return Ok(());
    }
    if is(text, b"host") {
        d.expects = Expects::Host(place);
        return Ok(());
    }
    match read_quad(text) {
        Some(addr) => {
            with_address(alloc, d, place, addr)?;
            Ok(())
        }
        None => Err(ReadFault::Bad(misspelled(text))),
    }
}

/// Takes the address behind `host`.
pub(crate) fn host_step(
    alloc: Global,
    d: &mut EntryDraft,
    place: Place,
    text: &[u8],
) -> Result<(), ReadFault>
    ensures { StepGiven result d.new (host_step place text.now d.old) }
{
    match read_quad(text) {
        Some(addr) => {
            with_host(alloc, d, place, addr)?;
            Ok(())
        }
        None => Err(ReadFault::Bad(Cause::Syntax)),
    }
}

/// Notes the addresses that agree with this one in so many bits; there is no number of them where the wildcard isn't
/// zeros followed by ones.
pub(crate) fn with_wildcard(
    alloc: Global,
    d: &mut EntryDraft,
    place: Place,
    addr: u32,
    len: Option<u8>,
) -> Result<(), Memory>
    ensures { OnOk result (d.new ≡ with_wildcard place addr len d.old) }
{
    match len {
        Some(len) => with_literal(d, address_literal(alloc, place, len, addr)?)?,
        None => d.scattered = true,
    }
    d.expects = behind_address(place, d);
    Ok(())
}

/// Takes the wildcard behind an address.
pub(crate) fn wildcard_step(
    alloc: Global,
    d: &mut EntryDraft,
    place: Place,
    addr: u32,
    text: &[u8],
) -> Result<(), ReadFault>
    ensures { StepGiven result d.new (wildcard_step place addr text.now d.old) }
{
    match read_quad(text) {
        Some(wildcard) => {
            with_wildcard(alloc, d, place, addr, wildcard_len(wildcard))?;
            Ok(())
        }
        None => Err(ReadFault::Bad(Cause::Syntax)),
    }
}
