//! Rules by which answers are translated back.

use crate::diagrams::colour_of;
use crate::instances::{Home, Instances};
use crate::lists::nat;
use crate::script::Script;
use crate::words::put_protocol;
use crate::writer::Writer;
use fws_net::End;
use fws_num::{Memory, Text, put_dec, put_quad};
use fws_suggest::{DST, ENTRY, Exit, PROTO, Policy, Rule, Stop};
use std::alloc::Global;

/// The number that stands for all protocols.
const ANY_PROTOCOL: u32 = 256;

/// The answers from an end to which packets were redirected.
#[derive(Clone, Copy)]
struct Reply {
    /// The instance's number.
    number: u32,
    end: End,
    /// The interface behind which the end is.
    inner: u32,
}

/// Whether rules of a colour write something over packets that leave by an exit.
fn is_used(policy: &mut Policy, rules: &[Rule], colour: u32, exit: Exit) -> Result<bool, Stop> {
    if exit.entry < 2 {
        return Ok(false);
    }
    for rule in rules {
        if rule.colour != colour {
            continue;
        }
        if policy.space.meets(rule.region.side(DST), exit.side)? {
            return Ok(true);
        }
    }
    Ok(false)
}

/// The rule by which answers to packets with a written source are translated back, where they come in.
fn answer(writer: &Writer, number: u32, end: End, entry: u32) -> Result<Text, Memory> {
    let mut text = nat(writer.alloc, number)?;
    text.put(b" ip from any to ")?;
    put_quad(&mut text, end.addr)?;
    text.put(b" in ")?;
    writer.put_option(&mut text, b"recv", entry)?;
    Ok(text)
}

/// Appends the rules by which answers to packets with a written source are translated back, at each exit.
fn put_answers_to(
    script: &mut Script,
    writer: &Writer,
    policy: &mut Policy,
    rules: &[Rule],
    colour: u32,
    end: End,
    more: u32,
) -> Result<(), Stop> {
    for at in 0..policy.exits.len() {
        let Some(exit) = policy.exits.get(at).copied() else {
            continue;
        };
        if is_used(policy, rules, colour, exit)? {
            let text = answer(writer, colour.saturating_add(more), end, exit.entry)?;
            script.put(text.as_slice())?;
        }
    }
    Ok(())
}

/// Appends the rules by which answers to packets whose source was written are translated back, where they come in.
pub(crate) fn put_answers(
    script: &mut Script,
    writer: &Writer,
    policy: &mut Policy,
    rules: &[Rule],
    more: u32,
) -> Result<(), Stop> {
    for place in 1..policy.sources.len() {
        let Some(Some(end)) = policy.sources.get(place).copied() else {
            continue;
        };
        put_answers_to(script, writer, policy, rules, colour_of(place), end, more)?;
    }
    Ok(())
}

/// The interface behind which an address is; none for the host's own.
fn way_to(policy: &mut Policy, end: End) -> Result<Option<u32>, Stop> {
    let side = policy.space.range(DST, end.addr, end.addr)?;
    for at in 0..policy.exits.len() {
        let Some(exit) = policy.exits.get(at).copied() else {
            continue;
        };
        if policy.space.meets(side, exit.side)? {
            return Ok(if exit.entry > 1 {
                Some(exit.entry)
            } else {
                None
            });
        }
    }
    Ok(None)
}

/// Appends a protocol, or all.
fn put_protocol_or_all(out: &mut Text, protocol: u32) -> Result<(), Memory> {
    if protocol == ANY_PROTOCOL {
        return out.put(b"ip");
    }
    put_protocol(out, protocol)
}

/// The rule by which answers are translated back where they leave.
#[derive(Drop)]
struct Back {
    /// The instance's number.
    number: u32,
    /// The interface where they come in.
    inner: u32,
    /// The interface where they leave.
    outer: u32,
    /// Their protocol, or all.
    protocol: u32,
    /// The addresses that they come from, and a port behind a blank where they come from one alone.
    senders: Text,
}

/// An end from which answers come.
fn sender_of(alloc: Global, end: End) -> Result<Text, Memory> {
    let mut out = Text::new(alloc);
    put_quad(&mut out, end.addr)?;
    if let Some(port) = end.port {
        out.put(b" ")?;
        put_dec(&mut out, u64::from(port))?;
    }
    Ok(out)
}

/// Puts a rule behind others, or adds its sender to one that asks for the same else. No rule for all protocols asks for a port.
fn put_back(backs: &mut Vec<Back>, back: Back) -> Result<(), Memory> {
    for other in backs.iter_mut() {
        let is_alike = other.number == back.number
            && other.inner == back.inner
            && other.outer == back.outer
            && other.protocol == ANY_PROTOCOL
            && back.protocol == ANY_PROTOCOL;
        if is_alike {
            other.senders.put(b",")?;
            return other.senders.put(back.senders.as_slice());
        }
    }
    backs.push(back)?;
    Ok(())
}

/// The text of a rule by which answers are translated back, and get a tag by which they pass out, if there is one.
fn back_text(writer: &Writer, back: &Back, tag: Option<u64>) -> Result<Text, Memory> {
    let mut text = nat(writer.alloc, back.number)?;
    if let Some(tag) = tag {
        text.put(b" tag ")?;
        put_dec(&mut text, tag)?;
    }
    text.put(b" ")?;
    put_protocol_or_all(&mut text, back.protocol)?;
    text.put(b" from ")?;
    text.put(back.senders.as_slice())?;
    text.put(b" to any out ")?;
    writer.put_option(&mut text, b"recv", back.inner)?;
    text.put(b" ")?;
    writer.put_option(&mut text, b"xmit", back.outer)?;
    text.put(b" not tagged 1")?;
    Ok(text)
}

/// Puts the rules by which answers of a protocol are translated back, where they leave.
fn put_reply(
    backs: &mut Vec<Back>,
    policy: &mut Policy,
    home: &Home,
    reply: Reply,
    protocol: u32,
) -> Result<(), Stop> {
    let entries = policy.space.values(ENTRY, home.entries)?;
    for outer in 2..policy.entries {
        if outer != reply.inner && entries.has(outer) {
            let back = Back {
                number: reply.number,
                inner: reply.inner,
                outer,
                protocol,
                senders: sender_of(policy.alloc, reply.end)?,
            };
            put_back(backs, back)?;
        }
    }
    Ok(())
}

/// Whether answers of a protocol, or of all, come from an end.
fn answers_by(policy: &Policy, home: &Home, end: End, protocol: u32) -> Result<bool, Memory> {
    if end.port.is_none() {
        return Ok(protocol == ANY_PROTOCOL);
    }
    let protocols = policy.space.values(PROTO, home.protocols)?;
    Ok(protocol != ANY_PROTOCOL && protocols.has(protocol))
}

/// Puts the rules by which answers from an end to which packets were redirected are translated back, where they leave.
fn put_replies_from(
    backs: &mut Vec<Back>,
    policy: &mut Policy,
    home: &Home,
    end: End,
) -> Result<(), Stop> {
    let Some(inner) = way_to(policy, end)? else {
        return Ok(());
    };
    let reply = Reply {
        number: colour_of(home.instance).saturating_add(1),
        end,
        inner,
    };
    for protocol in [6u32, 17, ANY_PROTOCOL] {
        if answers_by(policy, home, end, protocol)? {
            put_reply(backs, policy, home, reply, protocol)?;
        }
    }
    Ok(())
}

/// The rules by which answers to redirected packets are translated back.
fn backs_of(policy: &mut Policy, found: &Instances) -> Result<Vec<Back>, Stop> {
    let mut backs = Vec::new(policy.alloc);
    for home in &found.homes {
        if let Some(Some(end)) = policy.destinations.get(home.place).copied() {
            put_replies_from(&mut backs, policy, home, end)?;
        }
    }
    Ok(backs)
}

/// Appends the rules by which answers to redirected packets are translated back, and get a tag, if there is one; whether there are some.
pub(crate) fn put_replies(
    script: &mut Script,
    writer: &Writer,
    policy: &mut Policy,
    found: &Instances,
    tag: Option<u64>,
) -> Result<bool, Stop> {
    let backs = backs_of(policy, found)?;
    for back in &backs {
        let text = back_text(writer, back, tag)?;
        script.put(text.as_slice())?;
    }
    Ok(!backs.is_empty())
}
