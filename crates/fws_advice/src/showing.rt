//! A line as it stands in a file, with a mark under one of its words.

use crate::bytes::part;
use crate::cutting::Span;
use crate::report::Report;
use fws_num::Memory;

/// How many bytes of a line are shown.
const WIDTH: usize = 140;

/// How many bytes ahead of the mark are shown of a long line.
const AHEAD: usize = 60;

/// How wide the mark is at most.
const MARK: usize = 60;

/// How many letters the bytes are on a terminal.
fn letters(bytes: &[u8]) -> usize {
    let mut count = 0usize;
    for c in bytes {
        if *c < 0x80 || *c > 0xbf {
            count = count.saturating_add(1);
        }
    }
    count
}

/// Where a long line is begun so that the mark is shown.
fn begin_of(line: &[u8], mark: Span) -> usize {
    if line.len() <= WIDTH || mark.to <= WIDTH {
        0
    } else {
        mark.from.saturating_sub(AHEAD)
    }
}

/// Says so many blanks or other signs.
fn say_often(out: &mut Report, sign: &[u8], count: usize) -> Result<(), Memory> {
    for _ in 0..count {
        out.say(sign)?;
    }
    Ok(())
}

/// Shows a line, and marks a stretch of it; one that is empty is marked at its place.
pub(crate) fn show_line(out: &mut Report, line: &[u8], mark: Span) -> Result<(), Memory> {
    let begin = begin_of(line, mark);
    let end = begin.saturating_add(WIDTH).min(line.len());
    let ahead = if begin > 0 { 3usize } else { 0usize };
    out.say(if begin > 0 { b"    .. " } else { b"    " })?;
    out.show(part(line, begin, end))?;
    out.say(if end < line.len() { b" ..\n" } else { b"\n" })?;
    out.say(b"    ")?;
    say_often(
        out,
        b" ",
        ahead.saturating_add(letters(part(line, begin, mark.from))),
    )?;
    let width = letters(part(line, mark.from, mark.to.min(end))).clamp(1, MARK);
    say_often(out, b"^", width)?;
    out.say(b"\n")
}
