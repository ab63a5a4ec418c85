//! Conditions of rules, and what a rule sees of a packet, as cases spell them.

use crate::numbers::{byte, decimal};
use crate::sets::set_of;
use crate::stop::Stop;
use fws_iv::Ivs;
use fws_net::{Cond, Lit, Packet, Test, View, holds};
use fws_num::{Items, Word, split_once, value_named, words};
use std::alloc::Global;

/// What has its value in a set.
#[derive(Clone, Copy)]
enum Over {
    Src,
    Dst,
    Sport,
    Dport,
    Proto,
    Icmp,
    Recv,
    Xmit,
    Via,
}

/// What a test asks.
#[derive(Clone, Copy)]
enum Asks {
    In(Over),
    Flags,
    AnyFlag,
    Tag,
    Outward,
    Est,
    Never,
}

/// The names of tests.
const TESTS: [(&[u8], Asks); 15] = [
    (b"src", Asks::In(Over::Src)),
    (b"dst", Asks::In(Over::Dst)),
    (b"sport", Asks::In(Over::Sport)),
    (b"dport", Asks::In(Over::Dport)),
    (b"proto", Asks::In(Over::Proto)),
    (b"icmp", Asks::In(Over::Icmp)),
    (b"recv", Asks::In(Over::Recv)),
    (b"xmit", Asks::In(Over::Xmit)),
    (b"via", Asks::In(Over::Via)),
    (b"flags", Asks::Flags),
    (b"any-flag", Asks::AnyFlag),
    (b"tag", Asks::Tag),
    (b"outward", Asks::Outward),
    (b"est", Asks::Est),
    (b"never", Asks::Never),
];

/// The test that the value lies in a set.
fn test_in(over: Over, set: Ivs) -> Test {
    match over {
        Over::Src => Test::Src(set),
        Over::Dst => Test::Dst(set),
        Over::Sport => Test::Sport(set),
        Over::Dport => Test::Dport(set),
        Over::Proto => Test::Proto(set),
        Over::Icmp => Test::Icmp(set),
        Over::Recv => Test::Recv(set),
        Over::Xmit => Test::Xmit(set),
        Over::Via => Test::Via(set),
    }
}

/// The test of the flags in a text `MASK/WANT`.
fn flags_of(text: &[u8]) -> Result<Test, Stop> {
    let Some((mask, want)) = split_once(text, b'/') else {
        return Err(Stop::Malformed);
    };
    Ok(Test::Flags {
        mask: byte(decimal(mask)?),
        want: byte(decimal(want)?),
    })
}

/// The test of this name with its values: a set, or flags as `MASK/WANT`.
fn read_test(alloc: Global, name: &[u8], values: &[u8]) -> Result<Test, Stop> {
    match value_named(&TESTS, name) {
        Some(Asks::In(over)) => Ok(test_in(over, set_of(alloc, values)?)),
        Some(Asks::Flags) => flags_of(values),
        Some(Asks::AnyFlag) => Ok(Test::AnyFlag(byte(decimal(values)?))),
        Some(Asks::Tag) => Ok(Test::Tag(decimal(values)?)),
        Some(Asks::Outward) => Ok(Test::Outward),
        Some(Asks::Est) => Ok(Test::Est),
        Some(Asks::Never) => Ok(Test::Never),
        None => Err(Stop::Malformed),
    }
}

/// The literal of a word `NAME` or `NAME=VALUES`, which `!` ahead negates.
fn read_literal(alloc: Global, text: &[u8]) -> Result<Lit, Stop> {
    let (not, text) = match text {
        [b'!', rest @ ..] => (true, rest),
        _ => (false, text),
    };
    let (name, values) = split_once(text, b'=').unwrap_or((text, b""));
    Ok(Lit {
        not,
        test: read_test(alloc, name, values)?,
    })
}

/// The condition of words.
fn condition_of(alloc: Global, words: &[Word]) -> Result<Cond, Stop> {
    let mut condition = Cond::new(alloc);
    for word in words {
        condition.put(read_literal(alloc, word.text.as_slice())?)?;
    }
    Ok(condition)
}

/// The condition of a text's words.
fn read_condition(alloc: Global, text: &[u8]) -> Result<Cond, Stop> {
    let words = words(alloc, text, 1)?;
    condition_of(alloc, words.as_slice())
}

/// Adds what a word says of a view: `recv=ENTRY`, `xmit=ENTRY`, `outward`, `est` or `tag=NUMBER`.
fn put_seen(view: &mut View, word: &[u8]) -> Result<(), Stop> {
    let (name, value) = split_once(word, b'=').unwrap_or((word, b""));
    match value_named(&TESTS, name) {
        Some(Asks::In(Over::Recv)) => view.recv = Some(byte(decimal(value)?)),
        Some(Asks::In(Over::Xmit)) => view.xmit = Some(byte(decimal(value)?)),
        Some(Asks::Tag) => view.tags.put(decimal(value)?)?,
        Some(Asks::Outward) => view.outward = true,
        Some(Asks::Est) => view.est = true,
        _ => return Err(Stop::Malformed),
    }
    Ok(())
}

/// Adds what words say of a view.
fn put_all_seen(view: &mut View, words: &[Word]) -> Result<(), Stop> {
    for word in words {
        put_seen(view, word.text.as_slice())?;
    }
    Ok(())
}

/// What a rule sees of the packet, and besides what words say.
fn view_of(alloc: Global, words: &[Word], packet: &Packet) -> Result<View, Stop> {
    let mut view = View {
        packet: *packet,
        recv: None,
        xmit: None,
        outward: false,
        est: false,
        tags: Items::new(alloc),
    };
    put_all_seen(&mut view, words)?;
    Ok(view)
}

/// What a rule sees of the packet, and besides what the words of a text say.
fn read_view(alloc: Global, text: &[u8], packet: &Packet) -> Result<View, Stop> {
    let words = words(alloc, text, 1)?;
    view_of(alloc, words.as_slice(), packet)
}

/// Whether the condition, and a copy of it, hold at what a rule sees.
fn hold_both(alloc: Global, condition: &Cond, view: &View) -> Result<bool, Stop> {
    let copy = condition.copy(alloc)?;
    Ok(holds(condition, view) && holds(&copy, view))
}

/// Whether the condition of a text, and a copy of it, hold at what a rule sees.
fn judge_seen(alloc: Global, condition: &[u8], view: &View) -> Result<bool, Stop> {
    let condition = read_condition(alloc, condition)?;
    hold_both(alloc, &condition, view)
}

/// Whether the condition of a text, and a copy of it, hold at what a rule sees of the packet.
pub fn judge_holds(
    alloc: Global,
    view: &[u8],
    condition: &[u8],
    packet: &Packet,
) -> Result<bool, Stop> {
    let view = read_view(alloc, view, packet)?;
    judge_seen(alloc, condition, &view)
}
