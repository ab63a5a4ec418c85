//! Which rules the lines of a text stand for, told by their first words alone.

use crate::families::{Families, Stretch};
use fws_net::Lang;
use fws_num::{Memory, Text, Word, pieces, words};
use std::alloc::Global;

/// Where a reader of lines is.
#[derive(Drop)]
struct Reader {
    alloc: Global,
    lang: Lang,
    families: Families,
    /// The table or the list that was opened, as labels begin with it.
    open: Text,
}

/// The rules of each line of a text.
#[derive(Drop)]
pub(crate) struct Stretches {
    pub(crate) lines: Vec<Stretch>,
}

/// A word's bytes: none where there is no such word.
pub(crate) fn word_at(words: &[Word], place: usize) -> &[u8] {
    match words.get(place) {
        Some(word) => word.text.as_slice(),
        None => &[],
    }
}

/// Two texts with a blank between.
fn joined(alloc: Global, one: &[u8], other: &[u8]) -> Result<Text, Memory> {
    let mut text = Text::of(alloc, one)?;
    text.put(b" ")?;
    text.put(other)?;
    Ok(text)
}

/// No rule.
fn nothing() -> Stretch {
    Stretch { first: 0, count: 0 }
}

/// How many rules a statement of pf stands for: one for each choice of items of its lists.
fn choices(line: &[u8]) -> u32 {
    let mut product = 1u32;
    let mut items = 0u32;
    for byte in line {
        match *byte {
            b'{' => items = 1,
            b',' => {
                if items > 0 {
                    items = items.saturating_add(1);
                }
            }
            b'}' => {
                product = product.saturating_mul(items);
                items = 0;
            }
            _ => {}
        }
    }
    product
}

/// The kind of a statement of pf that is a rule; nothing for others.
fn pf_kind(first: &[u8], second: &[u8]) -> &'static [u8] {
    let word = if first == b"no".as_slice() {
        second
    } else {
        first
    };
    match word {
        b"rdr" => b"rdr",
        b"nat" => b"nat",
        b"block" | b"pass" => b"filter",
        _ => b"",
    }
}

/// Whether the word begins a rule of ipfw.
fn begins_rule(word: &[u8]) -> bool {
    word == b"add".as_slice()
}

impl Reader {
    /// The rules of a line of iptables.
    fn iptables(&mut self, words: &[Word]) -> Result<Stretch, Memory> {
        let first = word_at(words, 0);
        if let [b'*', table @ ..] = first {
            self.open = Text::of(self.alloc, table)?;
            return Ok(nothing());
        }
        let place = if let [b'[', ..] = first { 1 } else { 0 };
        if word_at(words, place) != b"-A".as_slice() {
            return Ok(nothing());
        }
        let front = joined(
            self.alloc,
            self.open.as_slice(),
            word_at(words, place.saturating_add(1)),
        )?;
        Ok(self.families.meet(front.as_slice(), 1))
    }

    /// The rules of a line of ipfw.
    fn ipfw(&mut self, words: &[Word]) -> Stretch {
        if begins_rule(word_at(words, 0)) {
            self.families.meet(b"rule", 1)
        } else {
            nothing()
        }
    }

    /// The rules of a line of pf.
    fn pf(&mut self, words: &[Word], line: &[u8]) -> Stretch {
        let kind = pf_kind(word_at(words, 0), word_at(words, 1));
        if kind.is_empty() {
            nothing()
        } else {
            self.families.meet(kind, choices(line))
        }
    }

    /// Opens a list of IOS.
    fn open_list(&mut self, words: &[Word]) -> Result<(), Memory> {
        self.open = joined(self.alloc, b"list", word_at(words, 3))?;
        Ok(())
    }

    /// The rules of a line of IOS.
    fn ios(&mut self, words: &[Word]) -> Result<Stretch, Memory> {
        match word_at(words, 0) {
            b"permit" | b"deny" | b"evaluate" => {
                let front = self.open.copy(self.alloc)?;
                Ok(self.families.meet(front.as_slice(), 1))
            }
            b"ip" => self.ios_global(words),
            _ => Ok(nothing()),
        }
    }

    /// The rules of a line of IOS that begins with `ip`.
    fn ios_global(&mut self, words: &[Word]) -> Result<Stretch, Memory> {
        match word_at(words, 1) {
            b"access-list" => {
                self.open_list(words)?;
                Ok(nothing())
            }
            b"nat" => {
                let is_rule = word_at(words, 3) == b"source".as_slice();
                Ok(if is_rule {
                    self.families.meet(b"nat", 1)
                } else {
                    nothing()
                })
            }
            _ => Ok(nothing()),
        }
    }

    /// The rules of a line.
    fn rules(&mut self, line: &[u8]) -> Result<Stretch, Memory> {
        let words = words(self.alloc, line, 1)?;
        match self.lang {
            Lang::Iptables => self.iptables(words.as_slice()),
            Lang::Ipfw => Ok(self.ipfw(words.as_slice())),
            Lang::Pf => Ok(self.pf(words.as_slice(), line)),
            Lang::Ios => self.ios(words.as_slice()),
        }
    }
}

/// The rules of each line of a text, by the labels of all rules; none where they don't come out even.
pub(crate) fn stretches_of(
    alloc: Global,
    lang: Lang,
    lines: &[Text],
    labels: &[Text],
) -> Result<Option<Stretches>, Memory> {
    let mut reader = Reader {
        alloc,
        lang,
        families: Families::of(alloc, labels)?,
        open: Text::new(alloc),
    };
    let mut found = Vec::new(alloc);
    for line in lines {
        found.push(reader.rules(line.as_slice())?)?;
    }
    Ok(if reader.families.are_met() {
        Some(Stretches { lines: found })
    } else {
        None
    })
}

/// The word behind `--comment`: nothing where a line has none.
fn comment_of(alloc: Global, line: &[u8]) -> Result<Text, Memory> {
    let words = words(alloc, line, 1)?;
    let mut is_next = false;
    for word in &words {
        if is_next {
            return word.text.copy(alloc);
        }
        is_next = !word.quoted && word.is(b"--comment");
    }
    Ok(Text::new(alloc))
}

/// Puts the remarks of lines at the numbers of their rules.
fn put_remarks(
    alloc: Global,
    remarks: &mut Vec<Text>,
    lines: &[Text],
    stretches: &[Stretch],
) -> Result<(), Memory> {
    for (line, stretch) in lines.iter().zip(stretches) {
        if stretch.count == 0 {
            continue;
        }
        if let Some(remark) = remarks.get_mut(stretch.first as usize) {
            *remark = comment_of(alloc, line.as_slice())?;
        }
    }
    Ok(())
}

/// What the rules of a text of iptables say behind `--comment`, by their numbers: nothing where they say nothing, and in other
/// languages. Fails if memory runs out.
pub fn remarks(
    alloc: Global,
    lang: Lang,
    text: &[u8],
    labels: &[Text],
) -> Result<Vec<Text>, Memory> {
    let mut remarks = Vec::new(alloc);
    if lang != Lang::Iptables {
        return Ok(remarks);
    }
    for _ in labels {
        remarks.push(Text::new(alloc))?;
    }
    let lines = pieces(alloc, b'\n', text)?;
    if let Some(found) = stretches_of(alloc, lang, lines.as_slice(), labels)? {
        put_remarks(
            alloc,
            &mut remarks,
            lines.as_slice(),
            found.lines.as_slice(),
        )?;
    }
    Ok(remarks)
}
