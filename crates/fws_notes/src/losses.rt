//! What of a source doesn't carry over, since no language of this program's policies says it: it is told by words, and never judged.

use crate::invalid::Invalid;
use crate::losses_of_ios::put_line as put_line_of_ios;
use crate::losses_of_ipfw::put_line as put_line_of_ipfw;
use crate::losses_of_iptables::put_line as put_line_of_iptables;
use crate::losses_of_pf::put_line as put_line_of_pf;
use fws_net::{Lang, Site};
use fws_num::{Comments, Line, Memory, Word, read_lines};
use std::alloc::Global;

/// What doesn't carry over.
#[derive(Clone, Copy)]
pub(crate) enum Loss {
    /// An answer to the sender of a packet that is dropped, with the word that asks for it.
    Answer(&'static [u8]),
    /// A test of a state that packets of the kernel's class INVALID haven't, or have, with its word.
    State(&'static [u8]),
    /// Something else, by its name.
    Other(&'static [u8]),
    /// The address that an interface has now, with the word that asks for it.
    Interface(&'static [u8]),
}

/// How often it is lost.
#[derive(Clone, Copy)]
pub(crate) struct Tally {
    pub(crate) loss: Loss,
    /// The number of the first line.
    pub(crate) first: u32,
    /// How many lines there are besides.
    pub(crate) more: u32,
}

/// What of a source doesn't carry over, and in which lines it stands.
#[derive(Drop)]
pub struct Losses {
    pub(crate) all: Vec<Tally>,
    /// What becomes of packets of the class INVALID, of a text of iptables.
    pub(crate) invalid: Invalid,
}

impl Loss {
    /// The word by which it is told; no two things have one.
    pub(crate) fn word(self) -> &'static [u8] {
        match self {
            Loss::Answer(word) | Loss::State(word) | Loss::Other(word) | Loss::Interface(word) =>
                word,
        }
    }
}

impl Losses {
    /// Where what has this word was noted, if it was.
    fn place_of(&self, word: &[u8]) -> Option<usize> {
        self.all.iter().position(|tally| tally.loss.word() == word)
    }

    /// Notes what a line loses.
    pub(crate) fn note(&mut self, loss: Loss, line: &Line) -> Result<(), Memory> {
        if let Some(place) = self.place_of(loss.word()) {
            if let Some(tally) = self.all.get_mut(place) {
                tally.more = tally.more.saturating_add(1);
            }
            return Ok(());
        }
        self.all.push(Tally {
            loss,
            first: line.number,
            more: 0,
        })?;
        Ok(())
    }

    /// Notes what a line loses, if it does.
    pub(crate) fn note_if(&mut self, is_lost: bool, loss: Loss, line: &Line) -> Result<(), Memory> {
        if is_lost {
            self.note(loss, line)
        } else {
            Ok(())
        }
    }
}

/// Whether a word that isn't quoted stands in a line.
pub(crate) fn has_word(words: &[Word], text: &[u8]) -> bool {
    words.iter().any(|word| !word.quoted && word.is(text))
}

/// Whether a word stands directly behind another.
pub(crate) fn has_pair(words: &[Word], one: &[u8], other: &[u8]) -> bool {
    let mut is_next = false;
    for word in words {
        if is_next && word.is(other) {
            return true;
        }
        is_next = !word.quoted && word.is(one);
    }
    false
}

/// Which comments a language has.
fn comments_of(lang: Lang) -> Comments {
    match lang {
        Lang::Iptables => Comments::HashLine,
        Lang::Ipfw => Comments::Ipfw,
        Lang::Pf => Comments::Pf,
        Lang::Ios => Comments::Ios,
    }
}

/// Notes what a line loses.
fn put_line(losses: &mut Losses, lang: Lang, line: &Line) -> Result<(), Memory> {
    match lang {
        Lang::Iptables => put_line_of_iptables(losses, line),
        Lang::Ipfw => put_line_of_ipfw(losses, line),
        Lang::Pf => put_line_of_pf(losses, line),
        Lang::Ios => put_line_of_ios(losses, line),
    }
}

/// What of a text doesn't carry over into another one, by words that its reader takes without effect, or whose effect is no more
/// than dropping or counting. That of pf serves OpenBSD's, too. Fails if memory runs out.
pub fn losses_of(alloc: Global, site: &Site, lang: Lang, text: &[u8]) -> Result<Losses, Memory> {
    let mut losses = Losses {
        all: Vec::new(alloc),
        invalid: Invalid::new(),
    };
    let read = read_lines(alloc, comments_of(lang), text)?;
    for line in read.lines.as_slice() {
        put_line(&mut losses, lang, line)?;
        if lang == Lang::Iptables {
            losses.invalid.take(line, site.lo.ipt.as_slice());
        }
    }
    Ok(losses)
}
