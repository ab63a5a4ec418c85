//! Which word of a line is the one for which it is refused.
//!
//! Readers tell a line and a cause. The word is found by trying: the line is cut behind each of its words, from the last one back,
//! and what is left is judged again among the lines that count for it. The shortest beginning that is still refused for the same cause
//! ends with the word that is meant. A beginning may be bad for the one reason that something is missing behind it; so where a word
//! isn't spelled as it should be, words that may follow are tried behind each beginning, and it counts as good where one of them helps.

use crate::bytes::part;
use crate::completions::{completed, completions_of};
use crate::contexts::Context;
use crate::cutting::Span;
use crate::judging::{Found, Judge};
use crate::kinds::Why;
use fws_num::{Memory, Text};

/// Where a line is refused.
#[derive(Clone, Copy, Debug, PartialEq, Eq)]
pub(crate) enum Mark {
    /// At the word of this number, counted from 0.
    Word(usize),
    /// Behind its last word.
    End,
    /// It can't be told where.
    Line,
}

/// A line that is tried.
#[derive(Clone, Copy)]
pub(crate) struct Trial<'a> {
    pub(crate) context: &'a Context,
    pub(crate) line: &'a [u8],
    pub(crate) spans: &'a [Span],
    pub(crate) why: Why,
}

/// What a trial shows.
#[derive(Clone, Copy, Debug, PartialEq, Eq)]
enum Shown {
    /// It isn't refused for this cause.
    Good,
    /// It is.
    Bad,
    /// The work went past its measure.
    Unknown,
}

impl Trial<'_> {
    /// The line of the first words, and more behind them.
    fn beginning(&self, judge: &Judge, count: usize, more: &[u8]) -> Result<Text, Memory> {
        let end = match self.spans.get(count.wrapping_sub(1)) {
            Some(last) => last.to,
            None => 0,
        };
        let mut text = Text::of(judge.alloc, self.context.ahead.as_slice())?;
        text.put(part(self.line, 0, end))?;
        text.put(more)?;
        text.put(b"\n")?;
        text.put(self.context.behind.as_slice())?;
        Ok(text)
    }

    /// What is shown by the line of the first words and more behind them.
    fn tried(&self, judge: &mut Judge, count: usize, more: &[u8]) -> Result<Shown, Memory> {
        let text = self.beginning(judge, count, more)?;
        match judge.judge(text.as_slice())? {
            Found::Read => Ok(Shown::Good),
            Found::Tired => Ok(Shown::Unknown),
            Found::Refused(refusal) => {
                let is_same = refusal.line == self.context.number && refusal.why == self.why;
                Ok(if is_same { Shown::Bad } else { Shown::Good })
            }
        }
    }

    /// What is shown by the line of the first words, with any words behind them that may follow.
    fn tried_on(&self, judge: &mut Judge, count: usize) -> Result<Shown, Memory> {
        for words in completions_of(judge.kind) {
            let more = completed(judge.alloc, words, judge.kind, judge.ground)?;
            let shown = self.tried(judge, count, more.as_slice())?;
            if shown != Shown::Bad {
                return Ok(shown);
            }
        }
        Ok(Shown::Bad)
    }

    /// What is shown by the line of the first words.
    fn shown(&self, judge: &mut Judge, count: usize) -> Result<Shown, Memory> {
        let shown = self.tried(judge, count, b"")?;
        if shown != Shown::Bad || self.why != Why::Syntax {
            return Ok(shown);
        }
        self.tried_on(judge, count)
    }

    /// Where the line is refused.
    pub(crate) fn mark(&self, judge: &mut Judge) -> Result<Mark, Memory> {
        let all = self.spans.len();
        if all == 0 || self.tried(judge, all, b"")? != Shown::Bad {
            return Ok(Mark::Line);
        }
        for count in (1..=all).rev() {
            match self.shown(judge, count)? {
                Shown::Bad => {}
                Shown::Unknown => return Ok(Mark::Line),
                Shown::Good => {
                    return Ok(if count == all {
                        Mark::End
                    } else {
                        Mark::Word(count)
                    });
                }
            }
        }
        Ok(Mark::Word(0))
    }
}
