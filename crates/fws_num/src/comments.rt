//! Comments, as each kind of text has them.

ghost use Rattle.std.specs.Prelude.{◌≡◌};
ghost use Rattle.std.specs.List.{list_any};
ghost use Rattle.fws_num.specs.Comments.{is_hash_comment, is_exclamation, is_punctuation, divides, mode_behind, begins_slashes, begins_hash, begins_mark, is_outside, ahead_from, uncommented};

use crate::word::{Mode, is_blank};

/// Which comments a text may have.
#[derive(Clone, Copy, Debug, PartialEq, Eq)]
pub enum Comments {
    /// Lines whose first byte that isn't blank is `#`: sites, iptables-save(8), connections, packets.
    HashLine,
    /// From a `#` outside quotes to the line's end: pf.conf(5).
    Pf,
    /// From a `#` or `//` outside quotes to the line's end: ipfw(8).
    Ipfw,
    /// Lines whose first byte is `!`: Cisco IOS.
    Ios,
}

/// Its first byte that isn't a blank or a tab is `#`.
fn is_hash_comment(line: &[u8]) -> bool
    ensures { result ≡ is_hash_comment line.now }
{
    for c in line {
        if !is_blank(*c) {
            return *c == b'#';
        }
    }
    false
}

/// Its first byte is `!`.
fn is_exclamation(line: &[u8]) -> bool
    ensures { result ≡ is_exclamation line.now }
{
    match line {
        [] => false,
        [first, ..] => *first == b'!',
    }
}

/// Whether the byte stands as a word of its own in pf.conf(5), or begins one.
pub fn is_punctuation(c: u8) -> bool
    ensures { result ≡ is_punctuation c }
{
    b"{}()<>,=!".iter().any(|mark| *mark == c)
}

fn begins_hash(bytes: &[u8]) -> bool
    ensures { result ≡ begins_hash bytes.now }
{
    match bytes {
        [] => false,
        [first, ..] => *first == b'#',
    }
}

fn begins_slashes(bytes: &[u8]) -> bool
    ensures { result ≡ begins_slashes bytes.now }
{
    match bytes {
        [first, second, ..] => *first == b'/' && *second == b'/',
        _ => false,
    }
}

/// Outside quotes, where alone a comment begins.
fn is_outside(mode: Mode) -> bool
    ensures { result ≡ is_outside mode }
{
    match mode {
        Mode::Between | Mode::Plain => true,
        Mode::Quoted | Mode::Escaped => false,
    }
}

impl Comments {
    /// Behind this byte a word may begin.
    fn divides(self, c: u8) -> bool
        ensures { result ≡ divides self c }
    {
        match self {
            Comments::Pf => is_blank(c) || is_punctuation(c),
            _ => is_blank(c),
        }
    }

    /// Where a reader is behind a byte.
    fn mode_behind(self, mode: Mode, c: u8) -> Mode
        ensures { result ≡ mode_behind self mode c }
    {
        match mode {
            Mode::Between => {
                if self.divides(c) {
                    Mode::Between
                } else if c == b'"' {
                    Mode::Quoted
                } else {
                    Mode::Plain
                }
            }
            Mode::Plain => {
                if self.divides(c) {
                    Mode::Between
                } else {
                    Mode::Plain
                }
            }
            Mode::Quoted => {
                if c == b'"' {
                    Mode::Between
                } else if c == b'\\' {
                    Mode::Escaped
                } else {
                    Mode::Quoted
                }
            }
            Mode::Escaped => Mode::Quoted,
        }
    }

    /// The bytes begin with the mark of a comment.
    fn begins_mark(self, bytes: &[u8]) -> bool
        ensures { result ≡ begins_mark self bytes.now }
    {
        match self {
            Comments::Ipfw => begins_hash(bytes) || begins_slashes(bytes),
            _ => begins_hash(bytes),
        }
    }

    /// What stands ahead of a comment that may begin anywhere outside quotes.
    fn ahead(self, line: &[u8]) -> &[u8]
        ensures { result.now ≡ ahead_from self Mode.Between line.now }
    {
        let mut mode = Mode::Between;
        for i in 0..line.len() {
            if is_outside(mode) && self.begins_mark(&line[i..]) {
                return &line[..i];
            }
            mode = self.mode_behind(mode, line[i]);
        }
        line
    }

    /// What stands ahead of the line's comment; all of it where it has none.
    pub fn uncommented(self, line: &[u8]) -> &[u8]
        ensures { result.now ≡ uncommented self line.now }
    {
        match self {
            Comments::HashLine => { if is_hash_comment(line) { &[] } else { line } }
            Comments::Ios => { if is_exclamation(line) { &[] } else { line } }
            Comments::Pf | Comments::Ipfw => self.ahead(line),
        }
    }
}
