//! Calls on what becomes of packets by their connections, outcomes and conditions.

ghost use Rattle.fws_net.specs.Routes.{IsSound};

use crate::calls::Call;
use crate::conditions::judge_holds;
use crate::found::Found;
use crate::numbers::{address, decimal, short};
use crate::stop::Stop;
use crate::table::read_outcome;
use fws_net::{Fate, Kind, Outcome, Packet, Rec, Site, class};
use fws_num::{Memory, Word, value_named, words};
use fws_trace::{read_conns, read_packets};
use std::alloc::Global;

/// What is asked of a packet.
#[derive(Clone, Copy)]
enum Asks {
    Class,
    Leave,
    Apply,
    Fate,
    Holds,
}

/// The names of calls.
const CALLS: [(&[u8], Asks); 5] = [
    (b"class", Asks::Class),
    (b"leave", Asks::Leave),
    (b"apply", Asks::Apply),
    (b"fate", Asks::Fate),
    (b"holds", Asks::Holds),
];

/// The ends of an established packet: destination, its port, source and its port.
fn read_ends(words: &[Word]) -> Result<Rec, Stop> {
    let [dst, dport, src, sport] = words else {
        return Err(Stop::Malformed);
    };
    Ok(Rec {
        rdst: address(dst.text.as_slice())?,
        rdport: short(decimal(dport.text.as_slice())?),
        rsrc: address(src.text.as_slice())?,
        rsport: short(decimal(sport.text.as_slice())?),
    })
}

/// The class `new`, or `est` and the ends.
fn read_kind(words: &[Word]) -> Result<Kind, Stop> {
    match words {
        [state] if state.is(b"new") => Ok(Kind::New),
        [state, ends @ ..] if state.is(b"est") => Ok(Kind::Est(read_ends(ends)?)),
        _ => Err(Stop::Malformed),
    }
}

/// Adds a word, and ends: destination, its port, source and its port.
fn put_ends(found: &mut Found, word: &[u8], ends: &Rec) -> Result<(), Memory> {
    found.put(word)?;
    found.put_address(ends.rdst)?;
    found.put_number(u64::from(ends.rdport))?;
    found.put_address(ends.rsrc)?;
    found.put_number(u64::from(ends.rsport))
}

/// Adds the class `new`, or `est` and the ends.
fn put_kind(found: &mut Found, kind: &Kind) -> Result<(), Memory> {
    match kind {
        Kind::New => found.put(b"new"),
        Kind::Est(ends) => put_ends(found, b"est", ends),
    }
}

/// Adds `dropped`, or `sent` and the ends.
fn put_fate(found: &mut Found, fate: &Fate) -> Result<(), Memory> {
    match *fate {
        Fate::Dropped => found.put(b"dropped"),
        Fate::Sent {
            dst,
            dport,
            src,
            sport,
        } => {
            let ends = Rec {
                rdst: dst,
                rdport: dport,
                rsrc: src,
                rsport: sport,
            };
            put_ends(found, b"sent", &ends)
        }
    }
}

/// Adds the class of the packet among the connections of a text.
fn put_class(found: &mut Found, text: &[u8], packet: &Packet) -> Result<(), Stop> {
    let connections = read_conns(found.alloc, text)?;
    Ok(put_kind(found, &class(connections.as_slice(), packet))?)
}

/// The outcome of a text.
fn outcome_of(alloc: Global, text: &[u8]) -> Result<Outcome, Stop> {
    let words = words(alloc, text, 1)?;
    read_outcome(words.as_slice())
}

/// The class of a text.
fn kind_of(alloc: Global, text: &[u8]) -> Result<Kind, Stop> {
    let words = words(alloc, text, 1)?;
    read_kind(words.as_slice())
}

/// The ends of a text.
fn ends_of(alloc: Global, text: &[u8]) -> Result<Rec, Stop> {
    let words = words(alloc, text, 1)?;
    read_ends(words.as_slice())
}

/// Adds what becomes of the packet where this outcome accepts it as a new one.
fn put_applied(found: &mut Found, outcome: Outcome, packet: &Packet) -> Result<(), Stop> {
    match outcome {
        Outcome::Accept(rewrite) => Ok(put_fate(found, &rewrite.apply(packet))?),
        Outcome::Drop => Err(Stop::Malformed),
    }
}

/// Adds what becomes of the packet with the ends of a text.
fn put_leaving(found: &mut Found, text: &[u8], packet: &Packet) -> Result<(), Stop> {
    let ends = ends_of(found.alloc, text)?;
    Ok(put_fate(found, &ends.apply(packet))?)
}

/// Adds what becomes of the packet of a text's class by the outcome of another.
fn put_fate_of(found: &mut Found, kind: &[u8], text: &[u8], packet: &Packet) -> Result<(), Stop> {
    let kind = kind_of(found.alloc, kind)?;
    let outcome = outcome_of(found.alloc, text)?;
    Ok(put_fate(found, &outcome.fate(packet, &kind))?)
}

/// Adds whether the condition of a text holds at what a rule sees of the packet.
fn put_holds(found: &mut Found, view: &[u8], text: &[u8], packet: &Packet) -> Result<(), Stop> {
    let holds = judge_holds(found.alloc, view, text, packet)?;
    Ok(found.put_answer(holds)?)
}

/// Adds what is asked of a packet.
fn put_asked(found: &mut Found, asks: Asks, call: &Call, packet: &Packet) -> Result<(), Stop> {
    match asks {
        Asks::Class => put_class(found, call.text, packet),
        Asks::Leave => put_leaving(found, call.text, packet),
        Asks::Apply => put_applied(found, outcome_of(found.alloc, call.text)?, packet),
        Asks::Fate => put_fate_of(found, call.with, call.text, packet),
        Asks::Holds => put_holds(found, call.with, call.text, packet),
    }
}

/// The one packet of a text.
fn read_packet(alloc: Global, site: &Site, text: &[u8]) -> Result<Packet, Stop>
    requires { IsSound site.now }
{
    let packets = read_packets(alloc, text, site)?;
    match packets.as_slice() {
        [packet] => Ok(*packet),
        _ => Err(Stop::Malformed),
    }
}

/// Adds what a call gives of its first text and the packet of its second one.
pub fn call_packets(found: &mut Found, site: &Site, call: &Call) -> Result<(), Stop>
    requires { IsSound site.now }
{
    let packet = read_packet(found.alloc, site, call.second)?;
    match value_named(&CALLS, call.name) {
        Some(asks) => put_asked(found, asks, call, &packet),
        None => Err(Stop::Malformed),
    }
}
