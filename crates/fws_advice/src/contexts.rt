//! What of a text a line needs round it to be judged as it stands.

use crate::bytes::{begins, is_space};
use crate::cutting::{Span, is_joined};
use crate::kinds::{Kind, Why};
use fws_num::{Memory, Text};
use std::alloc::Global;

/// What stands round a line that is tried.
#[derive(Drop)]
pub(crate) struct Context {
    pub(crate) ahead: Text,
    pub(crate) behind: Text,
    /// The number that the line has between them.
    pub(crate) number: u32,
}

/// The bytes stand somewhere in the line.
pub(crate) fn has(line: &[u8], bytes: &[u8]) -> bool {
    for at in 0..line.len() {
        if let Some(rest) = line.get(at..) {
            if begins(rest, bytes) {
                return true;
            }
        }
    }
    false
}

/// The line is indented.
fn is_indented(line: &[u8]) -> bool {
    match line {
        [] => false,
        [first, ..] => is_space(*first),
    }
}

/// What a line ahead says may count for a line further on that is refused for a cause. For a word that isn't spelled as it should be
/// many beginnings are tried, and only definitions count; numbers of rules of ipfw count for the other causes.
fn counts_ahead(kind: Kind, why: Why, line: &[u8]) -> bool {
    match kind {
        Kind::Iptables => begins(line, b"*") || begins(line, b":") || begins(line, b"COMMIT"),
        Kind::Ipfw => why != Why::Syntax || has(line, b" config"),
        Kind::Pf | Kind::Openbsd => {
            why != Why::Syntax || has(line, b"=") || begins(line, b"table")
        }
        Kind::Ios => !is_indented(line) && !begins(line, b"!"),
        Kind::Packets | Kind::Conns | Kind::Events => false,
        Kind::Site => true,
    }
}

/// What a line behind says may count for a line ahead of it.
fn counts_behind(kind: Kind, line: &[u8]) -> bool {
    match kind {
        Kind::Ipfw => has(line, b" config"),
        Kind::Pf | Kind::Openbsd => begins(line, b"table"),
        Kind::Ios => begins(line, b"ip nat pool"),
        _ => false,
    }
}

/// Adds a line.
fn put_line(out: &mut Text, line: &[u8]) -> Result<(), Memory> {
    out.put(line)?;
    out.put(b"\n")
}

/// What the lines ahead of a place say that counts for it, and the number of the line behind them. Lines that are joined count or
/// don't count together.
fn ahead_of(
    alloc: Global,
    kind: Kind,
    why: Why,
    text: &[u8],
    lines: &[Span],
    at: usize,
) -> Result<(Text, u32), Memory> {
    let mut ahead = Text::new(alloc);
    let mut number = 1u32;
    let mut counts = false;
    let mut goes_on = false;
    for line in lines.iter().take(at) {
        let bytes = line.of(text);
        counts = if goes_on {
            counts
        } else {
            counts_ahead(kind, why, bytes)
        };
        if counts {
            put_line(&mut ahead, bytes)?;
            number = number.saturating_add(1);
        }
        goes_on = is_joined(kind, bytes);
    }
    Ok((ahead, number))
}

/// What the lines from a place on say that counts for the lines ahead.
fn behind_of(
    alloc: Global,
    kind: Kind,
    text: &[u8],
    lines: &[Span],
    past: usize,
) -> Result<Text, Memory> {
    let mut behind = Text::new(alloc);
    let mut goes_on = false;
    for line in lines.iter().skip(past) {
        let bytes = line.of(text);
        if goes_on || counts_behind(kind, bytes) {
            put_line(&mut behind, bytes)?;
            goes_on = is_joined(kind, bytes);
        }
    }
    Ok(behind)
}

/// A part of a text that is refused: its lines from one place to another.
#[derive(Clone, Copy)]
pub(crate) struct Extract<'a> {
    pub(crate) text: &'a [u8],
    pub(crate) lines: &'a [Span],
    pub(crate) at: usize,
    pub(crate) past: usize,
}

/// What stands round a part of a text that is refused for a cause.
pub(crate) fn context_of(
    alloc: Global,
    kind: Kind,
    why: Why,
    part: &Extract,
) -> Result<Context, Memory> {
    let (ahead, number) = ahead_of(alloc, kind, why, part.text, part.lines, part.at)?;
    let behind = behind_of(alloc, kind, part.text, part.lines, part.past)?;
    Ok(Context {
        ahead,
        behind,
        number,
    })
}
