//! What is said of a refused word, by tables.

use crate::bytes::{behind, field, fits, is, is_printed};
use crate::cutting::{Span, word};
use crate::kinds::{Kind, Why};
use crate::marking::Mark;
use crate::rows_dialects::{OF_OPENBSD, OF_PF};
use crate::rows_ios::OF_IOS;
use crate::rows_ipfw::OF_IPFW;
use crate::rows_iptables::OF_IPTABLES;
use crate::rows_pf::OF_BOTH;
use crate::rows_site::{OF_CONNS, OF_EVENTS, OF_PACKETS, OF_SITES};

/// What is said of a word that is refused, by the first row that fits. In a table a row is the text `CAUSE|WORD|BEFORE|HAS|SAYS|WRITE`.
/// Of the patterns an empty one fits each word, one that ends in `*` fits words that begin so, `#` fits numbers, `?=` words with an equals
/// sign, and `.` the end of a line. As the word ahead `^` means that there is none; as a word in the line `^` and a pattern means the first
/// word.
#[derive(Clone, Copy)]
pub(crate) struct Row {
    /// The name of the cause.
    cause: &'static [u8],
    /// The refused word.
    word: &'static [u8],
    /// The word ahead of it.
    before: &'static [u8],
    /// A word somewhere in the line. Behind `!` that word is marked in place of the refused one.
    has: &'static [u8],
    /// What is wrong. In the place of `%` stands the refused word.
    pub(crate) says: &'static [u8],
    /// What is accepted, and what to write.
    pub(crate) write: &'static [u8],
}

/// What is said of a quote that isn't closed.
const UNCLOSED: &[u8] = b"syntax||||the quote of % is not closed|Close the quote, or take it off.";

/// What is said of a word with bytes that only quoted words may have.
const UNSOUND: &[u8] =
    b"syntax||||% has bytes that no word may have outside quotes|Quote the word, or write it with printed characters of ASCII.";

/// What is said where no row fits.
const OTHER: &[u8] = b"syntax||||this line isn't read|docs/PROFILES.md says what is read there.";

/// A row of a table.
fn row_in(text: &'static [u8]) -> Row {
    Row {
        cause: field(text, 0),
        word: field(text, 1),
        before: field(text, 2),
        has: field(text, 3),
        says: field(text, 4),
        write: field(text, 5),
    }
}

impl Row {
    /// The pattern of a word somewhere in the line, and whether that word is marked.
    fn pattern(&self) -> (&'static [u8], bool) {
        match behind(self.has, b"!") {
            Some(pattern) => (pattern, true),
            None => (self.has, false),
        }
    }
}

/// The rows of a kind of text alone.
fn rows_of(kind: Kind) -> &'static [&'static [u8]] {
    match kind {
        Kind::Site => &OF_SITES,
        Kind::Iptables => &OF_IPTABLES,
        Kind::Ipfw => &OF_IPFW,
        Kind::Pf => &OF_PF,
        Kind::Openbsd => &OF_OPENBSD,
        Kind::Ios => &OF_IOS,
        Kind::Conns => &OF_CONNS,
        Kind::Packets => &OF_PACKETS,
        Kind::Events => &OF_EVENTS,
    }
}

/// The rows of a kind of text that others have too; they come behind its own.
fn shared_rows_of(kind: Kind) -> &'static [&'static [u8]] {
    if kind.is_pf() { &OF_BOTH } else { &[] }
}

/// A refused line, its words, and where it is refused.
#[derive(Clone, Copy)]
pub(crate) struct Refused<'a> {
    pub(crate) line: &'a [u8],
    pub(crate) spans: &'a [Span],
    pub(crate) why: Why,
    pub(crate) mark: Mark,
}

impl Refused<'_> {
    /// The word that is refused: none at the end of the line, and where it isn't known.
    pub(crate) fn word(&self) -> &[u8] {
        match self.mark {
            Mark::Word(at) => word(self.line, self.spans, at),
            Mark::End | Mark::Line => &[],
        }
    }

    /// The word ahead of the place where the line is refused.
    fn before(&self) -> &[u8] {
        let at = match self.mark {
            Mark::Word(at) => at,
            Mark::End => self.spans.len(),
            Mark::Line => 0,
        };
        match at.checked_sub(1) {
            Some(ahead) => word(self.line, self.spans, ahead),
            None => &[],
        }
    }

    /// The place of the first word that fits a pattern.
    fn place_of(&self, pattern: &[u8]) -> Option<usize> {
        if let [b'^', first @ ..] = pattern {
            return if fits(first, word(self.line, self.spans, 0)) {
                Some(0)
            } else {
                None
            };
        }
        for (at, span) in self.spans.iter().enumerate() {
            if fits(pattern, span.of(self.line)) {
                return Some(at);
            }
        }
        None
    }

    /// The refused word fits the pattern of a row.
    fn fits_word(&self, pattern: &[u8]) -> bool {
        if self.mark == Mark::End {
            is(pattern, b".")
        } else {
            fits(pattern, self.word())
        }
    }

    /// The word ahead fits the pattern of a row.
    fn fits_ahead(&self, pattern: &[u8]) -> bool {
        if is(pattern, b"^") {
            self.mark == Mark::Word(0)
        } else {
            fits(pattern, self.before())
        }
    }

    /// The row says what is wrong here.
    fn is_of(&self, row: &Row) -> bool {
        let (pattern, _) = row.pattern();
        is(row.cause, self.why.name())
            && self.fits_word(row.word)
            && self.fits_ahead(row.before)
            && (pattern.is_empty() || self.place_of(pattern).is_some())
    }

    /// The first of the rows that says what is wrong here.
    fn row_among(&self, rows: &[&'static [u8]]) -> Option<Row> {
        for text in rows {
            let row = row_in(*text);
            if self.is_of(&row) {
                return Some(row);
            }
        }
        None
    }

    /// Where the line is marked: at the word that the row asks for, if it does.
    fn mark_by(&self, row: &Row) -> Mark {
        let (pattern, is_marked) = row.pattern();
        if !is_marked || self.mark == Mark::End {
            return self.mark;
        }
        match self.place_of(pattern) {
            Some(at) => Mark::Word(at),
            None => self.mark,
        }
    }

    /// What is said of a word that can't be judged.
    fn bad_word(&self) -> Option<Row> {
        if self.why != Why::Syntax {
            return None;
        }
        match self.word() {
            [b'"'] => Some(row_in(UNCLOSED)),
            [b'"', .., b'"'] => None,
            [b'"', ..] => Some(row_in(UNCLOSED)),
            word if is_printed(word) => None,
            _ => Some(row_in(UNSOUND)),
        }
    }

    /// The row of a kind of text that says what is wrong here.
    fn row_of(&self, kind: Kind) -> Row {
        if let Some(row) = self.row_among(rows_of(kind)) {
            return row;
        }
        match self.row_among(shared_rows_of(kind)) {
            Some(row) => row,
            None => row_in(OTHER),
        }
    }

    /// What is said of it, and where it is marked.
    pub(crate) fn row(&self, kind: Kind) -> (Row, Mark) {
        let found = match self.bad_word() {
            Some(row) => row,
            None => self.row_of(kind),
        };
        (found, self.mark_by(&found))
    }
}
