//! Which word of a line of a site file has a name or a network that isn't free.

use crate::bytes::{begins, is};
use crate::cutting::{Span, lines_of, word, words_of};
use crate::kinds::Why;
use crate::marking::Mark;
use fws_num::{Memory, read_quad, split_once};
use std::alloc::Global;

/// Some line ahead has the word.
fn is_ahead(alloc: Global, ahead: &[u8], asked: &[u8]) -> Result<bool, Memory> {
    for line in &lines_of(alloc, ahead)? {
        let bytes = line.of(ahead);
        for span in &words_of(alloc, false, bytes)? {
            if span.of(bytes) == asked {
                return Ok(true);
            }
        }
    }
    Ok(false)
}

/// The place of the first word from the third one on that says a name which some line ahead has; the name in tables where there is
/// none.
fn taken(alloc: Global, ahead: &[u8], line: &[u8], spans: &[Span]) -> Result<usize, Memory> {
    for (at, span) in spans.iter().enumerate().skip(1) {
        let name = span.of(line);
        let is_name = split_once(name, b'=').is_some() && !begins(name, b"nat=");
        if is_name && is_ahead(alloc, ahead, name)? {
            return Ok(at);
        }
    }
    Ok(1)
}

/// The place of the word that names an interface.
fn named(line: &[u8], spans: &[Span]) -> usize {
    if is(word(line, spans, 0), b"route") {
        2
    } else {
        1
    }
}

/// The place of the word with an address.
fn network(line: &[u8], spans: &[Span]) -> usize {
    for (at, span) in spans.iter().enumerate() {
        if let Some((address, _)) = split_once(span.of(line), b'/') {
            if read_quad(address).is_some() {
                return at;
            }
        }
    }
    0
}

/// Where a line of a site is refused for a name or a network, behind these lines.
pub(crate) fn site_mark(
    alloc: Global,
    ahead: &[u8],
    line: &[u8],
    spans: &[Span],
    why: Why,
) -> Result<Mark, Memory> {
    let first = word(line, spans, 0);
    let at = if why == Why::Overlap {
        network(line, spans)
    } else if is(first, b"interface") || is(first, b"loopback") {
        taken(alloc, ahead, line, spans)?
    } else {
        named(line, spans)
    };
    Ok(Mark::Word(at))
}
