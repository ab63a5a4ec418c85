//! The words of a line.

ghost use Rattle.std.specs.Prelude.{◌≡◌, ℕ, List, [], ◌∷◌, ◌++◌, true, false, IfOk, OnOk};
ghost use Rattle.std.specs.List.{list_all};
ghost use Rattle.std.specs.Str.{bytes_eq};
ghost use Rattle.fws_num.specs.Words.{is_blank, is_printed, is_sound, words_ahead, words_of};

use crate::memory::Memory;
use crate::text::Text;
use std::alloc::Global;
use std::mem;

/// A word of a line.
#[derive(Drop)]
pub struct Word {
    /// Its bytes, without the quotes.
    pub text: Text,
    /// The number of its line, counted from 1.
    pub line: u32,
    /// It stood in quotes.
    pub quoted: bool,
    /// It isn't quoted, or its closing quote is there.
    pub whole: bool,
}

impl Word {
    /// Its text is this one, in quotes or not.
    pub fn is(&self, text: &[u8]) -> bool
        ensures { result ≡ bytes_eq self.now.text text.now }
    {
        self.text.as_slice() == text
    }

    /// It can be judged: closed where it is quoted, and else of the printed bytes 33 to 126 alone.
    pub fn is_sound(&self) -> bool
        ensures { result ≡ is_sound self.now }
    {
        if self.quoted {
            self.whole
        } else {
            is_printed(self.text.as_slice())
        }
    }
}

/// Whether every word can be judged.
pub fn are_sound(words: &[Word]) -> bool
    ensures { result ≡ list_all is_sound words.now }
{
    for word in words {
        if !word.is_sound() {
            return false;
        }
    }
    true
}

/// Where a reader of words is.
#[derive(Clone, Copy, Drop)]
pub(crate) enum Mode {
    /// Between two words.
    Between,
    /// In a word without quotes.
    Plain,
    /// Within quotes.
    Quoted,
    /// Within quotes, behind a backslash.
    Escaped,
}

/// What was read of a line: its words, and the text of the word that has begun.
#[derive(Drop)]
struct Reader {
    alloc: Global,
    line: u32,
    words: Vec<Word>,
    mode: Mode,
    text: Text,
}

/// Whether the byte is a space or a tab.
pub fn is_blank(c: u8) -> bool
    ensures { result ≡ is_blank c }
{
    c == b' ' || c == b'\t'
}

fn is_printed(text: &[u8]) -> bool
    ensures { result ≡ list_all is_printed text.now }
{
    text.iter().all(|c| *c >= 33 && *c <= 126)
}

impl Reader {
    /// Ends the word that has begun.
    fn end(&mut self, quoted: bool, whole: bool) -> Result<(), Memory>
        ensures words { OnOk result (self.new.words.items ≡ self.old.words.items
            ++ (record { text = self.old.text; line = self.old.line; quoted = quoted; whole = whole }) ∷ []) }
        ensures mode { OnOk result (self.new.mode ≡ Mode.Between) }
        ensures text { OnOk result (self.new.text ≡ []) }
        ensures line { OnOk result (self.new.line ≡ self.old.line) }
    {
        let text = mem::replace(&mut self.text, Text::new(self.alloc));
        self.words.push(Word {
            text,
            line: self.line,
            quoted,
            whole,
        })?;
        self.mode = Mode::Between;
        Ok(())
    }

    /// Takes a byte between two words.
    fn feed_between(&mut self, c: u8) -> Result<(), Memory>
        requires { self.old.mode ≡ Mode.Between }
        ensures { OnOk result ((rest : List ℕ) → words_ahead self.new rest ≡ words_ahead self.old (c ∷ rest)) }
    {
        if is_blank(c) {
            return Ok(());
        }
        self.text = Text::new(self.alloc);
        if c == b'"' {
            self.mode = Mode::Quoted;
            return Ok(());
        }
        self.mode = Mode::Plain;
        self.text.put(&[c])
    }

    /// Takes a byte in a word without quotes.
    #[tactic(auto, using(crate::proofs::Reading::plain_ended))]
    fn feed_plain(&mut self, c: u8) -> Result<(), Memory>
        requires { self.old.mode ≡ Mode.Plain }
        ensures { OnOk result ((rest : List ℕ) → words_ahead self.new rest ≡ words_ahead self.old (c ∷ rest)) }
    {
        if is_blank(c) {
            self.end(false, true)?;
            return Ok(());
        }
        self.text.put(&[c])
    }

    /// Takes a byte within quotes.
    #[tactic(auto, using(crate::proofs::Reading::quoted_ended))]
    fn feed_quoted(&mut self, c: u8) -> Result<(), Memory>
        requires { self.old.mode ≡ Mode.Quoted }
        ensures { OnOk result ((rest : List ℕ) → words_ahead self.new rest ≡ words_ahead self.old (c ∷ rest)) }
    {
        if c == b'"' {
            self.end(true, true)?;
            return Ok(());
        }
        if c == b'\\' {
            self.mode = Mode::Escaped;
            return Ok(());
        }
        self.text.put(&[c])
    }

    /// Takes the byte behind a backslash.
    fn feed_escaped(&mut self, c: u8) -> Result<(), Memory>
        requires { self.old.mode ≡ Mode.Escaped }
        ensures { OnOk result ((rest : List ℕ) → words_ahead self.new rest ≡ words_ahead self.old (c ∷ rest)) }
    {
        self.mode = Mode::Quoted;
        if c == b'"' || c == b'\\' {
            self.text.put(&[c])
        } else {
            self.text.put(&[b'\\', c])
        }
    }

    /// Takes a byte.
    fn feed(&mut self, c: u8) -> Result<(), Memory>
        ensures { OnOk result ((rest : List ℕ) → words_ahead self.new rest ≡ words_ahead self.old (c ∷ rest)) }
    {
        match self.mode {
            Mode::Between => self.feed_between(c),
            Mode::Plain => self.feed_plain(c),
            Mode::Quoted => self.feed_quoted(c),
            Mode::Escaped => self.feed_escaped(c),
        }
    }

    /// Takes the bytes of the line, all that are left.
    fn feed_all(&mut self, line: &[u8]) -> Result<(), Memory>
        ensures { OnOk result (words_ahead self.new [] ≡ words_ahead self.old line.now) }
    {
        for c in line {
            self.feed(*c)?;
        }
        Ok(())
    }

    /// Ends the line.
    fn finish(&mut self) -> Result<(), Memory>
        ensures { OnOk result (self.new.words.items ≡ words_ahead self.old []) }
    {
        match self.mode {
            Mode::Between => Ok(()),
            Mode::Plain => self.end(false, true),
            Mode::Quoted => self.end(true, false),
            Mode::Escaped => {
                self.text.put(b"\\")?;
                self.end(true, false)
            }
        }
    }
}

/// The words of the line with this number. Blanks and tabs divide them; one that begins with a quote
/// goes on to the next quote, and may hold a quote or a backslash behind a backslash.
pub fn words(alloc: Global, line: &[u8], number: u32) -> Result<Vec<Word>, Memory>
    ensures { IfOk result (λ ws. ws.items ≡ words_of number line.now) }
{
    let mut reader = Reader {
        alloc,
        line: number,
        words: Vec::new(alloc),
        mode: Mode::Between,
        text: Text::new(alloc),
    };
    reader.feed_all(line)?;
    reader.finish()?;
    Ok(reader.words)
}
