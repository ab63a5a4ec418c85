//! What lines of Cisco IOS lose.

use crate::labels::word_at;
use crate::losses::{Loss, Losses, has_word};
use fws_num::{Line, Memory};

/// What is said of lines of which nothing is read.
const OTHER: Loss = Loss::Other(b"lines of neither access lists nor address translation");

/// Notes what an entry of a list loses.
fn put_entry(losses: &mut Losses, line: &Line) -> Result<(), Memory> {
    let words = line.words.as_slice();
    if has_word(words, b"remark") {
        return losses.note(Loss::Other(b"remark"), line);
    }
    losses.note_if(
        has_word(words, b"log") || has_word(words, b"log-input"),
        Loss::Other(b"log"),
        line,
    )?;
    losses.note_if(has_word(words, b"timeout"), Loss::Other(b"timeout"), line)
}

/// Whether the bytes are digits.
fn is_number(word: &[u8]) -> bool {
    word.iter().all(|byte| byte.is_ascii_digit())
}

/// Notes what a line loses that begins with `ip nat`.
fn put_translation(losses: &mut Losses, line: &Line) -> Result<(), Memory> {
    let words = line.words.as_slice();
    match word_at(words, 2) {
        b"inside" => losses.note_if(
            has_word(words, b"overload") && has_word(words, b"interface"),
            Loss::Interface(b"interface .. overload"),
            line,
        ),
        b"outside" | b"pool" => Ok(()),
        _ => losses.note(OTHER, line),
    }
}

/// Notes what a line loses that begins with `ip`.
fn put_global(losses: &mut Losses, line: &Line) -> Result<(), Memory> {
    let words = line.words.as_slice();
    match word_at(words, 1) {
        b"access-list" | b"access-group" => Ok(()),
        b"nat" => put_translation(losses, line),
        _ => losses.note(OTHER, line),
    }
}

/// Notes what a line loses.
pub(crate) fn put_line(losses: &mut Losses, line: &Line) -> Result<(), Memory> {
    let words = line.words.as_slice();
    match word_at(words, 0) {
        b"interface" | b"evaluate" => Ok(()),
        b"access-list" | b"permit" | b"deny" | b"remark" => put_entry(losses, line),
        b"ip" => put_global(losses, line),
        b"description" => losses.note(Loss::Other(b"description"), line),
        first => {
            if is_number(first) {
                put_entry(losses, line)
            } else {
                losses.note(OTHER, line)
            }
        }
    }
}
