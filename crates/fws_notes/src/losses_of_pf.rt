//! What lines of pf lose, be it FreeBSD's or OpenBSD's.

use crate::labels::word_at;
use crate::losses::{Loss, Losses, has_pair, has_word};
use fws_num::{Line, Memory, Word};

/// Notes what a rule loses.
fn put_rule(losses: &mut Losses, line: &Line) -> Result<(), Memory> {
    let words = line.words.as_slice();
    let answers = has_pair(words, b"block", b"return")
        || has_pair(words, b"block", b"return-rst")
        || has_pair(words, b"block", b"return-icmp");
    losses.note_if(answers, Loss::Answer(b"block return"), line)?;
    losses.note_if(has_word(words, b"log"), Loss::Other(b"log"), line)?;
    losses.note_if(has_word(words, b"label"), Loss::Other(b"label"), line)?;
    losses.note_if(has_word(words, b"scrub"), Loss::Other(b"scrub"), line)?;
    losses.note_if(
        has_pair(words, b"modulate", b"state"),
        Loss::Other(b"modulate state"),
        line,
    )
}

/// Whether a target is written as an interface in parentheses.
fn has_interface(words: &[Word]) -> bool {
    has_pair(words, b"->", b"(")
        || has_pair(words, b"nat-to", b"(")
        || has_pair(words, b"rdr-to", b"(")
}

/// Notes what a line loses.
pub(crate) fn put_line(losses: &mut Losses, line: &Line) -> Result<(), Memory> {
    let words = line.words.as_slice();
    match word_at(words, 0) {
        b"set" => losses.note_if(
            word_at(words, 1) != b"skip".as_slice(),
            Loss::Other(b"set"),
            line,
        ),
        b"scrub" => losses.note(Loss::Other(b"scrub"), line),
        b"table" => losses.note_if(has_word(words, b"persist"), Loss::Other(b"persist"), line),
        b"block" | b"pass" | b"match" => {
            put_rule(losses, line)?;
            losses.note_if(has_interface(words), Loss::Interface(b"(interface)"), line)
        }
        b"nat" | b"rdr" => {
            losses.note_if(has_interface(words), Loss::Interface(b"(interface)"), line)
        }
        _ => Ok(()),
    }
}
