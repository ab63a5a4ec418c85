//! Ports of an entry (Cisco IOS).

ghost use Rattle.std.specs.Prelude.{◌≡◌, ◌≤◌, OnOk};
ghost use Rattle.fws_net.specs.Reading.{StepGiven};
ghost use Rattle.fws_ios.specs.EntryText.{behind_ports, behind_ports_step, compared, expecting, further_port_step, last_port_step, port_step, ports_step, with_literal};
ghost use Rattle.fws_ios.specs.Values.{port_literal, range_literal};

use crate::entry_addresses::{address_step, with_literal};
use crate::entry_options::type_step;
use crate::keywords::port_word;
use crate::values::{port_literal, range_literal};
use fws_ios::{EntryDraft, Expects, Place, PortWord};
use fws_net::{Cause, ReadFault};
use fws_num::{Memory, read_port};
use std::alloc::Global;

/// What stands behind the ports of an end: the destination behind those of the source, a type behind those of the
/// destination.
fn behind_ports(place: Place) -> Expects
    ensures { result ≡ behind_ports place }
{
    match place {
        Place::Source => Expects::Address(Place::Destination),
        Place::Destination => Expects::Type,
    }
}

/// Takes what stands behind the ports of an end.
fn behind_ports_step(
    alloc: Global,
    d: &mut EntryDraft,
    place: Place,
    text: &[u8],
) -> Result<(), ReadFault>
    ensures { StepGiven result d.new (behind_ports_step place text.now d.old) }
{
    match place {
        Place::Source => address_step(alloc, d, Place::Destination, text),
        Place::Destination => type_step(alloc, d, text),
    }
}

/// Takes the comparison of a port, or what stands behind the ports of this end.
pub(crate) fn ports_step(
    alloc: Global,
    d: &mut EntryDraft,
    place: Place,
    text: &[u8],
) -> Result<(), ReadFault>
    ensures { StepGiven result d.new (ports_step place text.now d.old) }
{
    match port_word(text) {
        Some(word) => {
            d.has_ports = true;
            d.expects = Expects::Port(place, word);
            Ok(())
        }
        None => behind_ports_step(alloc, d, place, text),
    }
}

/// Notes a port that is compared so, behind which this is expected.
fn with_port(
    alloc: Global,
    d: &mut EntryDraft,
    place: Place,
    word: PortWord,
    port: u16,
    next: Expects,
) -> Result<(), Memory>
    ensures { OnOk result (d.new ≡ expecting next (with_literal (port_literal place word port) d.old)) }
{
    let lit = port_literal(alloc, place, word, port)?;
    with_literal(d, lit)?;
    d.expects = next;
    Ok(())
}

/// Notes a port that is compared so.
fn compared(
    alloc: Global,
    d: &mut EntryDraft,
    place: Place,
    word: PortWord,
    port: u16,
) -> Result<(), Memory>
    ensures { OnOk result (d.new ≡ compared place word port d.old) }
{
    match word {
        PortWord::Range => {
            d.expects = Expects::LastPort(place, port);
            Ok(())
        }
        PortWord::Equal => with_port(alloc, d, place, word, port, Expects::FurtherPort(place)),
        PortWord::Unequal | PortWord::Less | PortWord::Greater => {
            with_port(alloc, d, place, word, port, behind_ports(place))
        }
    }
}

/// Takes a port that is compared so.
pub(crate) fn port_step(
    alloc: Global,
    d: &mut EntryDraft,
    place: Place,
    word: PortWord,
    text: &[u8],
) -> Result<(), ReadFault>
    ensures { StepGiven result d.new (port_step place word text.now d.old) }
{
    match read_port(text) {
        Some(port) => {
            compared(alloc, d, place, word, port)?;
            Ok(())
        }
        None => Err(ReadFault::Bad(Cause::Syntax)),
    }
}

/// Notes a range of ports.
fn with_port_range(
    alloc: Global,
    d: &mut EntryDraft,
    place: Place,
    first: u16,
    last: u16,
) -> Result<(), Memory>
    requires { first ≤ last }
    ensures { OnOk result (d.new ≡ expecting (behind_ports place) (with_literal (range_literal place first last) d.old)) }
{
    with_literal(d, range_literal(alloc, place, first, last)?)?;
    d.expects = behind_ports(place);
    Ok(())
}

/// Takes the last port of a range, which isn't below its first.
pub(crate) fn last_port_step(
    alloc: Global,
    d: &mut EntryDraft,
    place: Place,
    first: u16,
    text: &[u8],
) -> Result<(), ReadFault>
    ensures { StepGiven result d.new (last_port_step place first text.now d.old) }
{
    let Some(last) = read_port(text) else {
        return Err(ReadFault::Bad(Cause::Syntax));
    };
    if last < first {
        return Err(ReadFault::Bad(Cause::Syntax));
    }
    with_port_range(alloc, d, place, first, last)?;
    Ok(())
}

/// Takes what stands behind a port that is equal. A further port is left out.
pub(crate) fn further_port_step(
    alloc: Global,
    d: &mut EntryDraft,
    place: Place,
    text: &[u8],
) -> Result<(), ReadFault>
    ensures { StepGiven result d.new (further_port_step place text.now d.old) }
{
    if read_port(text).is_some() {
        return Err(ReadFault::Bad(Cause::LeftOut));
    }
    behind_ports_step(alloc, d, place, text)
}
