//! A look at the words of each line of a configuration.

use crate::bytes::is;
use crate::cutting::{Span, lines_of, word, words_of};
use crate::kinds::Kind;
use fws_num::Memory;
use std::alloc::Global;

/// A line with its words.
#[derive(Drop)]
pub(crate) struct Worded<'a> {
    pub(crate) number: u32,
    pub(crate) line: &'a [u8],
    pub(crate) spans: Vec<Span>,
}

impl Worded<'_> {
    /// One of the words; none behind the last.
    pub(crate) fn word(&self, at: usize) -> &[u8] {
        word(self.line, &self.spans, at)
    }

    /// Its first words are these.
    pub(crate) fn begins(&self, words: &[&[u8]]) -> bool {
        for (at, other) in words.iter().enumerate() {
            if !is(self.word(at), other) {
                return false;
            }
        }
        true
    }

    /// One of its words is this one.
    pub(crate) fn has(&self, other: &[u8]) -> bool {
        for span in &self.spans {
            if is(span.of(self.line), other) {
                return true;
            }
        }
        false
    }

    /// The word behind this one, if it has both.
    pub(crate) fn behind(&self, other: &[u8]) -> Option<&[u8]> {
        for (at, span) in self.spans.iter().enumerate() {
            if is(span.of(self.line), other) {
                let next = self.spans.get(at.saturating_add(1))?;
                return Some(next.of(self.line));
            }
        }
        None
    }

    /// It begins with a blank.
    pub(crate) fn is_indented(&self) -> bool {
        match self.spans.first() {
            Some(first) => first.from > 0,
            None => false,
        }
    }
}

/// The lines of a text that have words outside comments.
pub(crate) fn lines_with_words<'a>(
    alloc: Global,
    kind: Kind,
    text: &'a [u8],
) -> Result<Vec<Worded<'a>>, Memory> {
    let mut found = Vec::new(alloc);
    let mut number = 0u32;
    for at in &lines_of(alloc, text)? {
        number = number.saturating_add(1);
        let line = kind.comments().uncommented(at.of(text));
        let spans = words_of(alloc, kind.is_pf(), line)?;
        if !spans.is_empty() {
            found.push(Worded {
                number,
                line,
                spans,
            })?;
        }
    }
    Ok(found)
}
