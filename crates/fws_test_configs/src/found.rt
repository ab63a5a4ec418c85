//! What calls give, as texts that stand beside the values of a case.

use crate::stop::Stop;
use fws_iv::{Cube, Iv, Ivs};
use fws_num::{
    Comments, Items, Line, Memory, Prefix, Text, Word, pieces, put_dec, put_quad, read_lines, words,
};
use std::alloc::Global;

/// What a call gave, a text for each value.
#[derive(Drop)]
pub struct Found {
    /// Where its texts lie.
    pub alloc: Global,
    /// The values.
    pub values: Items<Text>,
}

/// How the numbers of a set are spelled.
#[derive(Clone, Copy)]
pub enum Spelling {
    /// In decimal.
    Decimal,
    /// As addresses.
    Addresses,
}

impl Spelling {
    /// Adds a number.
    fn put(self, text: &mut Text, n: u32) -> Result<(), Memory> {
        match self {
            Spelling::Decimal => put_dec(text, u64::from(n)),
            Spelling::Addresses => put_quad(text, n),
        }
    }

    /// Adds a part `lo-hi`, behind a comma where a part is there.
    fn put_part(self, text: &mut Text, part: &Iv) -> Result<(), Memory> {
        if !text.as_slice().is_empty() {
            text.put(b",")?;
        }
        self.put(text, part.lo)?;
        text.put(b"-")?;
        self.put(text, part.hi)
    }
}

/// Adds words, each behind a blank.
fn put_behind(text: &mut Text, words: &[Word]) -> Result<(), Memory> {
    for word in words {
        text.put(b" ")?;
        text.put(word.text.as_slice())?;
    }
    Ok(())
}

impl Found {
    /// No value yet.
    pub fn new(alloc: Global) -> Found {
        Found {
            alloc,
            values: Items::new(alloc),
        }
    }

    /// Adds a text.
    pub fn put(&mut self, text: &[u8]) -> Result<(), Memory> {
        self.values.put(Text::of(self.alloc, text)?)
    }

    /// Adds a number in decimal.
    pub fn put_number(&mut self, n: u64) -> Result<(), Memory> {
        let mut text = Text::new(self.alloc);
        put_dec(&mut text, n)?;
        self.values.put(text)
    }

    /// Adds the number, or `none`.
    pub fn put_option(&mut self, n: Option<u64>) -> Result<(), Memory> {
        match n {
            Some(n) => self.put_number(n),
            None => self.put(b"none"),
        }
    }

    /// Adds both numbers, or `none`.
    pub fn put_pair(&mut self, pair: Option<(u64, u64)>) -> Result<(), Memory> {
        match pair {
            Some((a, b)) => {
                self.put_number(a)?;
                self.put_number(b)
            }
            None => self.put(b"none"),
        }
    }

    /// Adds a word behind what it is: `plain`, `quoted`, `open`, or `unsound` without quotes.
    fn put_word(&mut self, word: &Word) -> Result<(), Memory> {
        let kind: &[u8] = match (word.quoted, word.is_sound()) {
            (true, true) => b"quoted ",
            (true, false) => b"open ",
            (false, true) => b"plain ",
            (false, false) => b"unsound ",
        };
        let mut text = Text::of(self.alloc, kind)?;
        text.put(word.text.as_slice())?;
        self.values.put(text)
    }

    /// Adds a line: its number, `>` where it is indented, and its words.
    fn put_line(&mut self, line: &Line) -> Result<(), Memory> {
        let mut text = Text::new(self.alloc);
        put_dec(&mut text, u64::from(line.number))?;
        text.put(if line.indented { b" >" } else { b"" })?;
        put_behind(&mut text, line.words.as_slice())?;
        self.values.put(text)
    }

    /// Adds the pieces of a text.
    pub fn put_pieces(&mut self, byte: u8, text: &[u8]) -> Result<(), Memory> {
        for piece in pieces(self.alloc, byte, text)?.as_slice() {
            self.put(piece.as_slice())?;
        }
        Ok(())
    }

    /// Adds the words of a line.
    pub fn put_words(&mut self, line: &[u8]) -> Result<(), Memory> {
        for word in words(self.alloc, line, 1)?.as_slice() {
            self.put_word(word)?;
        }
        Ok(())
    }

    /// Adds the lines of a text, and the number past the last one.
    pub fn put_lines(&mut self, comments: Comments, text: &[u8]) -> Result<(), Memory> {
        let read = read_lines(self.alloc, comments, text)?;
        for line in read.lines.as_slice() {
            self.put_line(line)?;
        }
        self.put_number(u64::from(read.past))
    }

    /// Adds `yes` or `no`.
    pub fn put_answer(&mut self, answer: bool) -> Result<(), Memory> {
        self.put(if answer { b"yes" } else { b"no" })
    }

    /// Adds an address.
    pub fn put_address(&mut self, a: u32) -> Result<(), Memory> {
        let mut text = Text::new(self.alloc);
        put_quad(&mut text, a)?;
        self.values.put(text)
    }

    /// Adds the parts of a set, as `lo-hi,lo-hi`.
    pub fn put_parts(&mut self, spelling: Spelling, parts: &[Iv]) -> Result<(), Memory> {
        let mut text = Text::new(self.alloc);
        for part in parts {
            spelling.put_part(&mut text, part)?;
        }
        self.values.put(text)
    }

    /// Adds a set, if there was memory for it.
    pub fn put_set(&mut self, spelling: Spelling, set: Result<Ivs, Memory>) -> Result<(), Memory> {
        match set {
            Ok(set) => self.put_parts(spelling, set.parts()),
            Err(Memory) => Err(Memory),
        }
    }

    /// Adds a prefix, as an address and a length behind a slash.
    pub fn put_prefix(&mut self, prefix: &Prefix) -> Result<(), Memory> {
        let mut text = Text::new(self.alloc);
        put_quad(&mut text, prefix.addr)?;
        text.put(b"/")?;
        put_dec(&mut text, u64::from(prefix.len))?;
        self.values.put(text)
    }

    /// Adds a cube, as `mask:want`.
    pub fn put_cube(&mut self, cube: &Cube) -> Result<(), Memory> {
        let mut text = Text::new(self.alloc);
        put_dec(&mut text, u64::from(cube.mask))?;
        text.put(b":")?;
        put_dec(&mut text, u64::from(cube.want))?;
        self.values.put(text)
    }
}

/// Adds the bytes of a case, in which `\n`, `\r`, `\t` and `\0` stand for one byte each, and `\\` for a backslash.
pub fn put_unescaped(text: &mut Text, escaped: &[u8]) -> Result<(), Memory> {
    let mut behind_backslash = false;
    for c in escaped {
        let byte = match (behind_backslash, *c) {
            (true, b'n') => b'\n',
            (true, b'r') => b'\r',
            (true, b't') => b'\t',
            (true, b'0') => 0,
            (_, c) => c,
        };
        behind_backslash = !behind_backslash && *c == b'\\';
        if !behind_backslash {
            text.put(&[byte])?;
        }
    }
    Ok(())
}

/// The text of a field.
fn field_of(alloc: Global, escaped: &Text) -> Result<Text, Memory> {
    let mut field = Text::new(alloc);
    put_unescaped(&mut field, escaped.as_slice())?;
    Ok(field)
}

/// The texts of a case's fields, each of which ends with a bar.
pub fn fields_of(alloc: Global, case: &[u8]) -> Result<Items<Text>, Stop> {
    let parts = pieces(alloc, b'|', case)?;
    let Some((_, parts)) = parts.as_slice().split_last() else {
        return Err(Stop::Malformed);
    };
    let mut fields = Items::new(alloc);
    for part in parts {
        fields.put(field_of(alloc, part)?)?;
    }
    Ok(fields)
}
