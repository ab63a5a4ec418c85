//! The statements of a text: lines that are joined, and their words and punctuation (pf.conf(5)).

ghost use Rattle.std.specs.Prelude.{◌≡◌, ◌+◌, ◌≤◌, ◌&&◌, ◌||◌, ◌∷◌, ◌++◌, [], List, ℕ, true, false, not, length, take, drop, IfOk, IfSome, OnOk};
ghost use Rattle.std.specs.List.{list_any};
ghost use Rattle.std.specs.Str.{bytes_eq};
ghost use Rattle.fws_num.specs.Comments.{is_punctuation};
ghost use Rattle.fws_num.specs.Lines.{last_line};
ghost use Rattle.fws_num.specs.Words.{is_blank};
ghost use Rattle.fws_pf.specs.Statements.{begins_pair, is_mark, pairs, read_statement, statements_of, words_from, words_of};
ghost use Rattle.fws_pf_words.specs.Ahead.{statements_ahead, words_ahead};

use fws_num::{
    Comments, Items, Line, Lines, Memory, Text, Word, is_blank, is_indented, is_punctuation,
    next_number, split_once, without_carriage_return,
};
use fws_pf::Mode;
use fws_rules::{before_mark, is};
use std::alloc::Global;
use std::mem;

/// What was read of a statement: its words, and the text of the word that has begun.
#[derive(Drop)]
struct WordReader {
    alloc: Global,
    line: u32,
    words: Vec<Word>,
    mode: Mode,
    text: Text,
}

/// Whether the two bytes stand as one word.
fn is_pair(first: u8, second: u8) -> bool
    ensures { result ≡ list_any (bytes_eq (first ∷ second ∷ [])) pairs }
{
    (first == b'-' && second == b'>')
        || (first == b'>' && second == b'<')
        || (first == b'<' && second == b'>')
        || (first == b'!' && second == b'=')
        || (first == b'<' && second == b'=')
        || (first == b'>' && second == b'=')
}

/// Whether the byte makes one word with the next one.
fn begins_pair(c: u8, rest: &[u8]) -> bool
    ensures { result ≡ begins_pair c rest.now }
{
    match rest {
        [] => false,
        [next, ..] => is_pair(c, *next),
    }
}

/// Whether a word without quotes ends ahead of the byte, which isn't a blank.
fn divides(c: u8, rest: &[u8]) -> bool
    ensures { result ≡ (begins_pair c rest.now || is_punctuation c) }
{
    begins_pair(c, rest) || is_punctuation(c)
}

/// Whether the byte is one of those between `.` and `;` or between `?` and `z`, as letters and digits are: it is no blank and begins
/// no punctuation.
fn is_usual(c: u8) -> bool
    ensures blank { result ≡ true → is_blank c ≡ false }
    ensures divides { result ≡ true → (rest : List ℕ) → (begins_pair c rest || is_punctuation c) ≡ false }
{
    (46 <= c && c <= 59) || (63 <= c && c <= 122)
}

/// Whether a word without quotes goes on with the byte.
fn goes_on(c: u8, rest: &[u8]) -> bool
    ensures { result ≡ (not (is_blank c) && not (begins_pair c rest.now || is_punctuation c)) }
{
    if is_usual(c) {
        return true;
    }
    !is_blank(c) && !divides(c, rest)
}

/// How many bytes ahead of the first one with which a word without quotes ends.
fn plain_count(bytes: &[u8]) -> usize
    ensures few { result ≤ length bytes.now }
    ensures plain { (line : ℕ) (text : List ℕ) → words_from line Mode.Plain text bytes.now ≡ words_from line Mode.Plain (text ++ take result bytes.now) (drop result bytes.now) }
{
    for i in 0..bytes.len() {
        if !goes_on(bytes[i], &bytes[i + 1..]) {
            return i;
        }
    }
    bytes.len()
}

/// How many bytes a word without quotes has that begins with a byte, if one does.
fn begun_count(c: u8, rest: &[u8]) -> Option<usize>
    ensures few { IfSome result (λ n. n ≤ length rest.now + 1) }
    ensures word { IfSome result (λ n. (line : ℕ) (text : List ℕ) → words_from line Mode.Between text (c ∷ rest.now) ≡ words_from line Mode.Plain (take n (c ∷ rest.now)) (drop n (c ∷ rest.now))) }
{
    if c == b'"' {
        return None;
    }
    if !goes_on(c, rest) {
        return None;
    }
    Some(1 + plain_count(rest))
}

/// How many bytes a word without quotes has that begins here, if one does.
fn word_count(bytes: &[u8]) -> Option<usize>
    ensures few { IfSome result (λ n. n ≤ length bytes.now) }
    ensures word { IfSome result (λ n. (line : ℕ) (text : List ℕ) → words_from line Mode.Between text bytes.now ≡ words_from line Mode.Plain (take n bytes.now) (drop n bytes.now)) }
{
    match bytes.split_first() {
        None => None,
        Some((c, rest)) => begun_count(*c, rest),
    }
}

impl WordReader {
    /// Ends the word that has begun.
    fn end(&mut self, quoted: bool, whole: bool) -> Result<(), Memory>
        ensures words { OnOk result (self.new.words.items ≡ self.old.words.items
            ++ (record { text = self.old.text; line = self.old.line; quoted = quoted; whole = whole }) ∷ []) }
        ensures mode { OnOk result (self.new.mode ≡ Mode.Between) }
        ensures text { OnOk result (self.new.text ≡ []) }
        ensures line { OnOk result (self.new.line ≡ self.old.line) }
    {
        let text = mem::replace(&mut self.text, Text::new(self.alloc));
        self.words.push(Word {
            text,
            line: self.line,
            quoted,
            whole,
        })?;
        self.mode = Mode::Between;
        Ok(())
    }

    /// Takes a byte between two words.
    #[tactic(auto, using(crate::proofs::Reading::mark_ended))]
    fn feed_between(&mut self, c: u8, rest: &[u8]) -> Result<(), Memory>
        requires { self.old.mode ≡ Mode.Between }
        ensures { OnOk result (words_ahead self.new rest.now ≡ words_ahead self.old (c ∷ rest.now)) }
    {
        if is_blank(c) {
            return Ok(());
        }
        self.text = Text::new(self.alloc);
        if c == b'"' {
            self.mode = Mode::Quoted;
            return Ok(());
        }
        if begins_pair(c, rest) {
            self.mode = Mode::Second(c);
            return Ok(());
        }
        self.text.put(&[c])?;
        if is_punctuation(c) {
            self.end(false, true)?;
            return Ok(());
        }
        self.mode = Mode::Plain;
        Ok(())
    }

    /// Takes a byte in a word without quotes.
    #[tactic(auto, using(crate::proofs::Reading::plain_ended, crate::proofs::Reading::ended_ahead))]
    fn feed_plain(&mut self, c: u8, rest: &[u8]) -> Result<(), Memory>
        requires { self.old.mode ≡ Mode.Plain }
        ensures { OnOk result (words_ahead self.new rest.now ≡ words_ahead self.old (c ∷ rest.now)) }
    {
        if is_blank(c) {
            self.end(false, true)?;
            return Ok(());
        }
        if divides(c, rest) {
            self.end(false, true)?;
            self.feed_between(c, rest)?;
            return Ok(());
        }
        self.text.put(&[c])
    }

    /// Takes a byte within quotes.
    #[tactic(auto, using(crate::proofs::Reading::quoted_ended))]
    fn feed_quoted(&mut self, c: u8, rest: &[u8]) -> Result<(), Memory>
        requires { self.old.mode ≡ Mode.Quoted }
        ensures { OnOk result (words_ahead self.new rest.now ≡ words_ahead self.old (c ∷ rest.now)) }
    {
        if c == b'"' {
            self.end(true, true)?;
            return Ok(());
        }
        if c == b'\\' {
            self.mode = Mode::Escaped;
            return Ok(());
        }
        self.text.put(&[c])
    }

    /// Takes the byte behind a backslash.
    fn feed_escaped(&mut self, c: u8, rest: &[u8]) -> Result<(), Memory>
        requires { self.old.mode ≡ Mode.Escaped }
        ensures { OnOk result (words_ahead self.new rest.now ≡ words_ahead self.old (c ∷ rest.now)) }
    {
        self.mode = Mode::Quoted;
        if c == b'"' || c == b'\\' {
            self.text.put(&[c])
        } else {
            self.text.put(&[b'\\', c])
        }
    }

    /// Takes the byte that makes one word with this first one.
    #[tactic(auto, using(crate::proofs::Reading::pair_ended))]
    fn feed_second(&mut self, first: u8, c: u8, rest: &[u8]) -> Result<(), Memory>
        requires { self.old.mode ≡ Mode.Second first }
        ensures { OnOk result (words_ahead self.new rest.now ≡ words_ahead self.old (c ∷ rest.now)) }
    {
        self.text = Text::of(self.alloc, &[first, c])?;
        self.end(false, true)?;
        Ok(())
    }

    /// Takes a byte, ahead of the rest.
    fn feed(&mut self, c: u8, rest: &[u8]) -> Result<(), Memory>
        ensures { OnOk result (words_ahead self.new rest.now ≡ words_ahead self.old (c ∷ rest.now)) }
    {
        match self.mode {
            Mode::Between => self.feed_between(c, rest),
            Mode::Plain => self.feed_plain(c, rest),
            Mode::Quoted => self.feed_quoted(c, rest),
            Mode::Escaped => self.feed_escaped(c, rest),
            Mode::Second(first) => self.feed_second(first, c, rest),
        }
    }

    /// Takes the bytes with which a word without quotes goes on, all at once, and gives how many they are.
    fn go_on_plain(&mut self, bytes: &[u8]) -> Result<usize, Memory>
        requires { self.old.mode ≡ Mode.Plain }
        ensures few { IfOk result (λ n. n ≤ length bytes.now) }
        ensures taken { IfOk result (λ n. words_ahead self.new (drop n bytes.now) ≡ words_ahead self.old bytes.now) }
    {
        let n = plain_count(bytes);
        self.text.put(&bytes[..n])?;
        Ok(n)
    }

    /// Takes the bytes of a word without quotes that begins here, if one does, and gives how many they are.
    fn begin_plain(&mut self, bytes: &[u8]) -> Result<usize, Memory>
        requires { self.old.mode ≡ Mode.Between }
        ensures few { IfOk result (λ n. n ≤ length bytes.now) }
        ensures taken { IfOk result (λ n. words_ahead self.new (drop n bytes.now) ≡ words_ahead self.old bytes.now) }
    {
        match word_count(bytes) {
            Some(n) => {
                self.text = Text::of(self.alloc, &bytes[..n])?;
                self.mode = Mode::Plain;
                Ok(n)
            }
            None => Ok(0),
        }
    }

    /// Takes the bytes with which a word without quotes begins or goes on, all at once, and gives how many they are.
    fn go_on(&mut self, bytes: &[u8]) -> Result<usize, Memory>
        ensures few { IfOk result (λ n. n ≤ length bytes.now) }
        ensures taken { IfOk result (λ n. words_ahead self.new (drop n bytes.now) ≡ words_ahead self.old bytes.now) }
    {
        match self.mode {
            Mode::Between => self.begin_plain(bytes),
            Mode::Plain => self.go_on_plain(bytes),
            _ => Ok(0),
        }
    }

    /// Ends the statement.
    fn finish(&mut self) -> Result<(), Memory>
        ensures { OnOk result (self.new.words.items ≡ words_ahead self.old []) }
    {
        match self.mode {
            Mode::Between | Mode::Second(_) => Ok(()),
            Mode::Plain => self.end(false, true),
            Mode::Quoted => self.end(true, false),
            Mode::Escaped => {
                self.text.put(b"\\")?;
                self.end(true, false)
            }
        }
    }
}

/// The words and the punctuation of a text that stands in the statement of this line. Fails if memory runs out.
pub(crate) fn words_of(alloc: Global, line: u32, bytes: &[u8]) -> Result<Vec<Word>, Memory>
    ensures { IfOk result (λ ws. ws.items ≡ words_of line bytes.now) }
{
    let mut reader = WordReader {
        alloc,
        line,
        words: Vec::new(alloc),
        mode: Mode::Between,
        text: Text::new(alloc),
    };
    let mut i = 0;
    while i < bytes.len() {
        let rest = &bytes[i + 1..];
        reader.feed(bytes[i], rest)?;
        i = i + 1 + reader.go_on(rest)?;
    }
    reader.finish()?;
    Ok(reader.words)
}

/// Whether the word is this punctuation, which counts outside quotes alone.
pub fn is_mark(w: &Word, text: &[u8]) -> bool
    ensures { result ≡ is_mark w.now text.now }
{
    !w.quoted && is(w.text.as_slice(), text)
}

/// What was read of a text: its statements, and what has begun of one whose lines so far end in a backslash.
#[derive(Drop)]
struct StatementReader {
    alloc: Global,
    lines: Items<Line>,
    /// The number of the first line of the statement that has begun.
    first: u32,
    /// What has begun of it.
    text: Text,
    /// The number of the next line.
    number: u32,
}

/// Adds the statement of these bytes, if it has words outside its comment.
fn put_statement(
    alloc: Global,
    lines: &mut Items<Line>,
    number: u32,
    bytes: &[u8],
) -> Result<(), Memory>
    ensures { OnOk result (lines.new ≡ lines.old ++ read_statement number bytes.now) }
{
    let words = words_of(alloc, number, Comments::Pf.uncommented(bytes))?;
    if words.is_empty() {
        return Ok(());
    }
    lines.put(Line {
        number,
        indented: is_indented(bytes),
        words: Items::from_vec(words),
    })?;
    Ok(())
}

impl StatementReader {
    /// Takes what stands ahead of the backslash of a line; the next line has this number.
    fn go_on(&mut self, front: &[u8], next: u32) -> Result<(), Memory>
        ensures { OnOk result (self.new ≡ record self.old { text = self.old.text ++ front.now; number = next }) }
    {
        self.text.put(front)?;
        self.number = next;
        Ok(())
    }

    /// Adds the statement that ends with a line, behind what has begun of it.
    fn put_joined(&mut self, line: &[u8]) -> Result<(), Memory>
        ensures { OnOk result (self.new ≡ record self.old {
          lines = self.old.lines ++ read_statement self.old.first (self.old.text ++ line.now);
          text = [];
        }) }
    {
        if self.text.as_slice().is_empty() {
            put_statement(self.alloc, &mut self.lines, self.first, line)?;
            return Ok(());
        }
        let mut text = mem::replace(&mut self.text, Text::new(self.alloc));
        text.put(line)?;
        put_statement(self.alloc, &mut self.lines, self.first, text.as_slice())?;
        Ok(())
    }

    /// Takes a line without a backslash, with which the statement ends; the next line has this number.
    fn end(&mut self, line: &[u8], next: u32) -> Result<(), Memory>
        ensures { OnOk result (self.new ≡ record self.old {
          lines = self.old.lines ++ read_statement self.old.first (self.old.text ++ line.now);
          first = next;
          text = [];
          number = next;
        }) }
    {
        self.put_joined(line)?;
        self.first = next;
        self.number = next;
        Ok(())
    }

    /// Takes a line.
    fn take_line(&mut self, line: &[u8]) -> Result<(), Memory>
        ensures lines { OnOk result ((rest : List (List ℕ)) → statements_ahead self.new rest ≡ statements_ahead self.old (line.now ∷ rest)) }
        ensures number { OnOk result (self.new.number ≡ self.old.number + 1) }
    {
        let next = next_number(self.number)?;
        match before_mark(b'\\', line) {
            Some(front) => {
                self.go_on(front, next)?;
                Ok(())
            }
            None => {
                self.end(line, next)?;
                Ok(())
            }
        }
    }

    /// Takes what stands behind the last line feed, if anything does.
    fn take_last(&mut self, bytes: &[u8]) -> Result<(), Memory>
        ensures lines { OnOk result (statements_ahead self.new [] ≡ statements_ahead self.old (last_line bytes.now)) }
        ensures number { OnOk result (self.new.number ≡ self.old.number + length (last_line bytes.now)) }
    {
        match bytes {
            [] => Ok(()),
            [_, ..] => {
                self.take_line(bytes)?;
                Ok(())
            }
        }
    }

    /// The statements of the text that ends here.
    fn finish(self) -> Result<Lines, Memory>
        ensures { IfOk result (λ ls. ls ≡ record { lines = statements_ahead self []; past = self.number }) }
    {
        let mut lines = self.lines;
        put_statement(self.alloc, &mut lines, self.first, self.text.as_slice())?;
        Ok(Lines {
            lines,
            past: self.number,
        })
    }
}

/// The statements of a text that have words outside comments, with the numbers of their first lines, and the number past the last
/// line. A backslash at the end of a line joins it with the next one. Fails if memory runs out, as is a text of more than 2^32 - 2
/// lines. The time is linear in the text.
pub fn read_statements(alloc: Global, text: &[u8]) -> Result<Lines, Memory>
    ensures { IfOk result (λ ls. ls ≡ statements_of text.now) }
{
    let mut reader = StatementReader {
        alloc,
        lines: Items::new(alloc),
        first: 1,
        text: Text::new(alloc),
        number: 1,
    };
    let mut rest = text;
    while let Some((line, behind)) = split_once(rest, b'\n') {
        reader.take_line(without_carriage_return(line))?;
        rest = behind;
    }
    reader.take_last(rest)?;
    let lines = reader.finish()?;
    Ok(lines)
}
