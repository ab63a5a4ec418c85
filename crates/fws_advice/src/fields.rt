//! The words `FIELD=SET` of a query.

use crate::bytes::{is, is_one_of};
use crate::forms::FIELDS;
use crate::near::nearest;
use crate::report::Report;
use fws_net::State;
use fws_num::{
    Memory, Text, pieces, read_dec, read_port, read_prefix, read_protocol, read_quad, split_once,
    value_named,
};

/// TCP flags by their names, with the numbers that a query has for them.
const FLAGS: [(&[u8], u8); 8] = [
    (b"fin", 1),
    (b"syn", 2),
    (b"rst", 4),
    (b"psh", 8),
    (b"ack", 16),
    (b"urg", 32),
    (b"synack", 18),
    (b"none", 0),
];

/// ICMP types by the names that the systems have for them.
const ICMP: [(&[u8], u8); 9] = [
    (b"echo-reply", 0),
    (b"echorep", 0),
    (b"unreachable", 3),
    (b"unreach", 3),
    (b"destination-unreachable", 3),
    (b"echo", 8),
    (b"echoreq", 8),
    (b"echo-request", 8),
    (b"time-exceeded", 11),
];

/// The field is one of addresses.
fn is_address(field: &[u8]) -> bool {
    is(field, b"dst") || is(field, b"src") || is(field, b"rdst") || is(field, b"rsrc")
}

/// The field is one of ports.
fn is_port(field: &[u8]) -> bool {
    is(field, b"dport") || is(field, b"sport") || is(field, b"rdport") || is(field, b"rsport")
}

/// The field is one of those with which a connection sends a packet.
fn is_of_connections(field: &[u8]) -> bool {
    is(field, b"rdst") || is(field, b"rdport") || is(field, b"rsrc") || is(field, b"rsport")
}

/// The greatest value of a field of numbers.
fn top_of(field: &[u8]) -> u64 {
    if is_port(field) {
        65535
    } else if is(field, b"flags") {
        63
    } else {
        255
    }
}

/// An end of a range is spelled as the field asks.
fn is_value(field: &[u8], text: &[u8]) -> bool {
    if is_address(field) {
        read_quad(text).is_some()
    } else {
        read_dec(text, top_of(field)).is_some()
    }
}

/// The value of an end of a range.
fn value_of(field: &[u8], text: &[u8]) -> u64 {
    if is_address(field) {
        u64::from(read_quad(text).unwrap_or(0))
    } else {
        read_dec(text, top_of(field)).unwrap_or(0)
    }
}

/// An item of a set of the field is well spelled.
fn is_item(field: &[u8], item: &[u8]) -> bool {
    match split_once(item, b'-') {
        None => is_value(field, item),
        Some((lo, hi)) => {
            is_value(field, lo) && is_value(field, hi) && value_of(field, lo) <= value_of(field, hi)
        }
    }
}

/// The field may be asked for of these packets.
fn is_shown(state: State, field: &[u8]) -> bool {
    state == State::Est || !is_of_connections(field)
}

/// What stands for a name of a service, a protocol, a flag or an ICMP type.
fn number_named(field: &[u8], name: &[u8]) -> Option<u64> {
    if is_port(field) {
        return Some(u64::from(read_port(name)?));
    }
    let number = if is(field, b"proto") {
        read_protocol(name)?
    } else if is(field, b"flags") {
        value_named(&FLAGS, name)?
    } else if is(field, b"icmp") {
        value_named(&ICMP, name)?
    } else {
        return None;
    };
    Some(u64::from(number))
}

/// Says which word to write for a name.
fn say_number_named(out: &mut Report, field: &[u8], number: u64) -> Result<(), Memory> {
    out.say(b"    Write ")?;
    out.say(field)?;
    out.say(b"=")?;
    out.say_number(number)?;
    if is(field, b"flags") {
        out.say(
            b", which is this flag alone; the sum of FIN 1, SYN 2, RST 4, PSH 8, ACK 16 and URG 32 asks for several at once, as flags=18 for SYN and ACK",
        )?;
    }
    out.say(b".\n")
}

/// Says which range a network is.
fn say_network(out: &mut Report, field: &[u8], item: &[u8]) -> Result<(), Memory> {
    let Some(net) = read_prefix(item) else {
        return out.say(
            b"    Write an address, or a range of addresses: dst=10.0.0.0-10.0.0.255.\n",
        );
    };
    let others = if net.len < 32 { u32::MAX >> net.len } else { 0 };
    let last = net.addr.saturating_add(others);
    out.say(b"    Write ")?;
    out.say(field)?;
    out.say(b"=")?;
    out.say_address(net.addr)?;
    if net.len < 32 {
        out.say(b"-")?;
        out.say_address(last)?;
    }
    out.say(b".\n")
}

/// Says what may stand in a set of the field.
fn say_set(out: &mut Report, field: &[u8]) -> Result<(), Memory> {
    out.say(b"    Write ")?;
    out.say(field)?;
    if is_address(field) {
        out.say(
            b"= and an address or a range, as 10.0.0.0-10.0.0.255, with commas between several, or *.\n",
        )
    } else {
        out.say(b"= and a number of 0 to ")?;
        out.say_number(top_of(field))?;
        out.say(b" or a range lo-hi, with commas between several, or *.\n")
    }
}

/// Says what is wrong with an item.
fn say_item(out: &mut Report, word: &[u8], field: &[u8], item: &[u8]) -> Result<(), Memory> {
    out.say_with(b"fws: in % the part ", word)?;
    out.say_with(b"% is not understood\n", item)?;
    if is_address(field) && split_once(item, b'/').is_some() {
        return say_network(out, field, item);
    }
    match number_named(field, item) {
        Some(number) if !is_value(field, item) => say_number_named(out, field, number),
        _ => say_set(out, field),
    }
}

/// Says what is wrong with a verdict.
fn say_verdict(out: &mut Report, word: &[u8]) -> Result<(), Memory> {
    out.say_with(b"fws: % is not understood\n", word)?;
    out.say(b"    Write verdict=accept or verdict=drop, or leave it out for both.\n")
}

/// Says what is wrong with the set of a field, if anything is.
fn say_bad_set(out: &mut Report, word: &[u8], field: &[u8], set: &[u8]) -> Result<bool, Memory> {
    if is(field, b"verdict") {
        if is(set, b"accept") || is(set, b"drop") {
            return Ok(false);
        }
        say_verdict(out, word)?;
        return Ok(true);
    }
    if is(set, b"*") || is(field, b"entry") {
        return Ok(false);
    }
    let items = pieces(out.alloc, b',', set)?;
    for item in items.as_slice() {
        if !is_item(field, item.as_slice()) {
            say_item(out, word, field, item.as_slice())?;
            return Ok(true);
        }
    }
    Ok(false)
}

/// Says that a field isn't known.
fn say_field(out: &mut Report, word: &[u8], field: &[u8]) -> Result<(), Memory> {
    out.say_with(b"fws: % is not understood", word)?;
    if let Some(other) = nearest(out.alloc, field, &FIELDS)? {
        out.say_with(b"; did you mean %?", other)?;
    }
    out.say(
        b"\n    Write FIELD=SET with a field of entry proto dst dport src sport flags icmp, with est also rdst rdport rsrc rsport; or verdict=accept, verdict=drop.\n",
    )
}

/// An earlier word has the same field.
fn is_repeated(words: &[Text], at: usize, field: &[u8]) -> bool {
    for word in words.iter().take(at) {
        if let Some((other, _)) = split_once(word.as_slice(), b'=') {
            if is(other, field) {
                return true;
            }
        }
    }
    false
}

/// Says what is wrong with the word at a place, if anything is.
fn say_word(out: &mut Report, state: State, words: &[Text], at: usize) -> Result<bool, Memory> {
    let Some(text) = words.get(at) else {
        return Ok(false);
    };
    let word = text.as_slice();
    let Some((field, set)) = split_once(word, b'=') else {
        say_field(out, word, word)?;
        return Ok(true);
    };
    if !is_one_of(&FIELDS, field) {
        say_field(out, word, field)?;
        return Ok(true);
    }
    if is_repeated(words, at, field) {
        out.say_with(
            b"fws: % names a field for the second time\n    Write all of its items in one word, with commas between.\n",
            word,
        )?;
        return Ok(true);
    }
    if !is_shown(state, field) {
        out.say_with(
            b"fws: % asks about packets of connections\n    Write est in place of new, or ask for another field.\n",
            word,
        )?;
        return Ok(true);
    }
    say_bad_set(out, word, field, set)
}

/// Says what is wrong with the words of a query, if anything is that can be told without the site.
pub(crate) fn say_asks(out: &mut Report, state: State, words: &[Text]) -> Result<bool, Memory> {
    for at in 0..words.len() {
        if say_word(out, state, words, at)? {
            return Ok(true);
        }
    }
    Ok(false)
}
