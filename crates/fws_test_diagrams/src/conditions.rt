//! Conditions as words spell them: `NAME` or `NAME=VALUES` for each literal, which `!` ahead negates.

use crate::stop::Stop;
use crate::words::{byte, decimal, number};
use fws_iv::Ivs;
use fws_net::{Cond, Lit, Site, Test};
use fws_num::{Text, Word, pieces, split_once, value_named};
use std::alloc::Global;

/// What has its value in a set.
#[derive(Clone, Copy)]
enum Over {
    Src,
    Dst,
    Sport,
    Dport,
    Proto,
    Icmp,
    Recv,
    Xmit,
    Via,
}

/// What a test asks.
#[derive(Clone, Copy)]
enum Asks {
    In(Over),
    Flags,
    AnyFlag,
    Tag,
    Outward,
    Est,
    Never,
}

/// The names of tests.
const TESTS: [(&[u8], Asks); 15] = [
    (b"src", Asks::In(Over::Src)),
    (b"dst", Asks::In(Over::Dst)),
    (b"sport", Asks::In(Over::Sport)),
    (b"dport", Asks::In(Over::Dport)),
    (b"proto", Asks::In(Over::Proto)),
    (b"icmp", Asks::In(Over::Icmp)),
    (b"recv", Asks::In(Over::Recv)),
    (b"xmit", Asks::In(Over::Xmit)),
    (b"via", Asks::In(Over::Via)),
    (b"flags", Asks::Flags),
    (b"any-flag", Asks::AnyFlag),
    (b"tag", Asks::Tag),
    (b"outward", Asks::Outward),
    (b"est", Asks::Est),
    (b"never", Asks::Never),
];

/// The set, and the numbers of a piece `lo-hi` or `v`.
fn with_piece(alloc: Global, site: &Site, set: &Ivs, piece: &[u8]) -> Result<Ivs, Stop> {
    let (lo, hi) = split_once(piece, b'-').unwrap_or((piece, piece));
    let lo = number(site, lo)?;
    let hi = number(site, hi)?;
    if lo > hi {
        return Err(Stop::Malformed);
    }
    Ok(set.with_range(alloc, lo, hi)?)
}

/// The numbers of pieces.
fn united(alloc: Global, site: &Site, pieces: &[Text]) -> Result<Ivs, Stop> {
    let mut set = Ivs::none(alloc);
    for piece in pieces {
        set = with_piece(alloc, site, &set, piece.as_slice())?;
    }
    Ok(set)
}

/// The numbers of a text `lo-hi,v,..`; those of an empty one are none.
fn set_of(alloc: Global, site: &Site, text: &[u8]) -> Result<Ivs, Stop> {
    if text.is_empty() {
        return Ok(Ivs::none(alloc));
    }
    let pieces = pieces(alloc, b',', text)?;
    united(alloc, site, pieces.as_slice())
}

/// The test that the value lies in a set.
fn test_in(over: Over, set: Ivs) -> Test {
    match over {
        Over::Src => Test::Src(set),
        Over::Dst => Test::Dst(set),
        Over::Sport => Test::Sport(set),
        Over::Dport => Test::Dport(set),
        Over::Proto => Test::Proto(set),
        Over::Icmp => Test::Icmp(set),
        Over::Recv => Test::Recv(set),
        Over::Xmit => Test::Xmit(set),
        Over::Via => Test::Via(set),
    }
}

/// The test of the flags in a text `MASK/WANT`.
fn flags_of(text: &[u8]) -> Result<Test, Stop> {
    let Some((mask, want)) = split_once(text, b'/') else {
        return Err(Stop::Malformed);
    };
    Ok(Test::Flags {
        mask: byte(decimal(mask)?),
        want: byte(decimal(want)?),
    })
}

/// The test of this name with its values.
fn test_of(alloc: Global, site: &Site, name: &[u8], values: &[u8]) -> Result<Test, Stop> {
    match value_named(&TESTS, name) {
        Some(Asks::In(over)) => Ok(test_in(over, set_of(alloc, site, values)?)),
        Some(Asks::Flags) => flags_of(values),
        Some(Asks::AnyFlag) => Ok(Test::AnyFlag(byte(decimal(values)?))),
        Some(Asks::Tag) => Ok(Test::Tag(decimal(values)?)),
        Some(Asks::Outward) => Ok(Test::Outward),
        Some(Asks::Est) => Ok(Test::Est),
        Some(Asks::Never) => Ok(Test::Never),
        None => Err(Stop::Malformed),
    }
}

/// The literal of a word.
fn literal_of(alloc: Global, site: &Site, text: &[u8]) -> Result<Lit, Stop> {
    let (not, text) = match text {
        [b'!', rest @ ..] => (true, rest),
        _ => (false, text),
    };
    let (name, values) = split_once(text, b'=').unwrap_or((text, b""));
    Ok(Lit {
        not,
        test: test_of(alloc, site, name, values)?,
    })
}

/// The condition of these words.
pub fn condition_of(alloc: Global, site: &Site, words: &[Word]) -> Result<Cond, Stop> {
    let mut cond = Cond::new(alloc);
    for word in words {
        cond.put(literal_of(alloc, site, word.text.as_slice())?)?;
    }
    Ok(cond)
}

/// The words of a condition, and those of the act behind `->`; where there is no `->`, all are the act's.
pub fn halves(words: &[Word]) -> (&[Word], &[Word]) {
    let mut parts = words.split(|word: &Word| word.is(b"->"));
    let first = parts.next().unwrap_or(&[]);
    match parts.next() {
        Some(act) => (first, act),
        None => (&[], first),
    }
}
