//! The words of a line by their places, and the lines of a text by theirs.

use crate::bytes::{byte_at, ends, is_space, part};
use crate::kinds::Kind;
use fws_num::{Memory, Text, is_punctuation};
use std::alloc::Global;

/// A stretch of bytes: where it begins, and the place behind it.
#[derive(Clone, Copy, Debug, PartialEq, Eq)]
pub(crate) struct Span {
    pub(crate) from: usize,
    pub(crate) to: usize,
}

impl Span {
    /// Its bytes.
    pub(crate) fn of<'a>(&self, text: &'a [u8]) -> &'a [u8] {
        part(text, self.from, self.to)
    }
}

/// Where a cutter is.
#[derive(Clone, Copy, Drop, PartialEq, Eq)]
enum Mode {
    Between,
    Plain,
    Quoted,
    Escaped,
}

/// What was cut so far.
#[derive(Drop)]
struct Cutter {
    spans: Vec<Span>,
    mode: Mode,
    from: usize,
    is_punctuated: bool,
}

/// Both bytes make one word of pf.
fn is_pair(first: u8, second: u8) -> bool {
    match (first, second) {
        (b'>', b'<') | (b'<', b'>') | (b'!', b'=') | (b'<', b'=') | (b'>', b'=') => true,
        _ => false,
    }
}

impl Cutter {
    /// A word ends ahead of this place.
    fn end(&mut self, to: usize) -> Result<(), Memory> {
        self.spans.push(Span {
            from: self.from,
            to,
        })?;
        self.mode = Mode::Between;
        Ok(())
    }

    /// A byte that is a word of its own, or makes one with the byte ahead of it.
    fn mark(&mut self, line: &[u8], at: usize, c: u8) -> Result<(), Memory> {
        let to = at.saturating_add(1);
        let before = byte_at(line, at.wrapping_sub(1));
        if let Some(last) = self.spans.last_mut() {
            let is_arrow = before == b'-' && c == b'>';
            if last.to == at && (is_arrow || is_pair(before, c)) {
                last.to = to;
                return Ok(());
            }
        }
        self.from = at;
        self.end(to)
    }

    /// A byte outside quotes.
    fn feed_plain(&mut self, line: &[u8], at: usize, c: u8) -> Result<(), Memory> {
        let joins = c == b'\\' && is_space(byte_at(line, at.saturating_add(1)));
        let divides = is_space(c) || (self.is_punctuated && joins);
        let marks = self.is_punctuated && is_punctuation(c);
        if self.mode == Mode::Plain && (divides || marks) {
            self.end(at)?;
        }
        if marks {
            return self.mark(line, at, c);
        }
        if self.mode == Mode::Between && !divides {
            self.from = at;
            self.mode = if c == b'"' { Mode::Quoted } else { Mode::Plain };
        }
        Ok(())
    }

    /// The next byte.
    fn feed(&mut self, line: &[u8], at: usize, c: u8) -> Result<(), Memory> {
        match self.mode {
            Mode::Between | Mode::Plain => self.feed_plain(line, at, c),
            Mode::Quoted => {
                if c == b'"' {
                    return self.end(at.saturating_add(1));
                }
                if c == b'\\' {
                    self.mode = Mode::Escaped;
                }
                Ok(())
            }
            Mode::Escaped => {
                self.mode = Mode::Quoted;
                Ok(())
            }
        }
    }
}

/// The places of the words of a line.
pub(crate) fn words_of(
    alloc: Global,
    is_punctuated: bool,
    line: &[u8],
) -> Result<Vec<Span>, Memory> {
    let mut cutter = Cutter {
        spans: Vec::new(alloc),
        mode: Mode::Between,
        from: 0,
        is_punctuated,
    };
    for (at, c) in line.iter().enumerate() {
        cutter.feed(line, at, *c)?;
    }
    if cutter.mode != Mode::Between {
        cutter.end(line.len())?;
    }
    Ok(cutter.spans)
}

/// The word at a place of the list; none where the list is shorter.
pub(crate) fn word<'a>(line: &'a [u8], spans: &[Span], at: usize) -> &'a [u8] {
    match spans.get(at) {
        Some(span) => span.of(line),
        None => &[],
    }
}

/// Where the lines of a text are, without their line feeds.
pub(crate) fn lines_of(alloc: Global, text: &[u8]) -> Result<Vec<Span>, Memory> {
    let mut lines = Vec::new(alloc);
    let mut from = 0usize;
    for (at, c) in text.iter().enumerate() {
        if *c == b'\n' {
            lines.push(Span { from, to: at })?;
            from = at.saturating_add(1);
        }
    }
    if from < text.len() {
        lines.push(Span {
            from,
            to: text.len(),
        })?;
    }
    Ok(lines)
}

/// The line ends in a backslash, so that the next one is joined to it.
pub(crate) fn is_joined(kind: Kind, line: &[u8]) -> bool {
    kind.is_pf() && (ends(line, b"\\") || ends(line, b"\\\r"))
}

/// How many lines are joined from the line at this place on, itself among them.
pub(crate) fn joined_from(kind: Kind, text: &[u8], lines: &[Span], at: usize) -> usize {
    let mut count = 0usize;
    for line in lines.iter().skip(at) {
        count = count.saturating_add(1);
        if !is_joined(kind, line.of(text)) {
            return count;
        }
    }
    count
}

/// The bytes of lines that are joined: from this line on, so many.
pub(crate) fn region(lines: &[Span], at: usize, count: usize) -> Span {
    let Some(first) = lines.get(at) else {
        return Span { from: 0, to: 0 };
    };
    match lines.get(at.saturating_add(count).saturating_sub(1)) {
        Some(last) => Span {
            from: first.from,
            to: last.to,
        },
        None => *first,
    }
}

/// The text with other bytes in the place of a stretch, and as many line feeds behind them as the stretch has.
pub(crate) fn replaced(
    alloc: Global,
    text: &[u8],
    gone: Span,
    other: &[u8],
) -> Result<Text, Memory> {
    let mut left = Text::of(alloc, part(text, 0, gone.from))?;
    left.put(other)?;
    for c in gone.of(text) {
        if *c == b'\n' {
            left.put(b"\n")?;
        }
    }
    left.put(part(text, gone.to, text.len()))?;
    Ok(left)
}
