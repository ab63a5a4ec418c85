//! What lines of ipfw lose.

use crate::labels::word_at;
use crate::losses::{Loss, Losses, has_word};
use fws_num::{Line, Memory, Word};

/// Whether the bytes are digits.
fn is_number(word: &[u8]) -> bool {
    !word.is_empty() && word.iter().all(|byte| byte.is_ascii_digit())
}

/// Where the action stands: behind the words of the command and the number of the rule.
fn action_at(words: &[Word]) -> usize {
    let mut place = 0usize;
    for word in words {
        let text = word.text.as_slice();
        if !matches!(text, b"ipfw" | b"-q" | b"-f" | b"add") && !is_number(text) {
            break;
        }
        place = place.saturating_add(1);
    }
    place
}

/// The words ahead of `from`.
fn head_of(words: &[Word]) -> &[Word] {
    for (k, word) in words.iter().enumerate() {
        if word.is(b"from") {
            return words.get(..k).unwrap_or(words);
        }
    }
    words
}

/// Notes what an instance loses.
fn put_instance(losses: &mut Losses, line: &Line) -> Result<(), Memory> {
    let words = line.words.as_slice();
    losses.note_if(
        has_word(words, b"log"),
        Loss::Other(b"log of an instance"),
        line,
    )?;
    losses.note_if(
        has_word(words, b"same_ports"),
        Loss::Other(b"same_ports"),
        line,
    )?;
    losses.note_if(
        has_word(words, b"reset"),
        Loss::Other(b"reset of an instance"),
        line,
    )?;
    losses.note_if(has_word(words, b"if"), Loss::Interface(b"if"), line)
}

/// Notes what a rule loses.
fn put_rule(losses: &mut Losses, line: &Line, action: &[u8]) -> Result<(), Memory> {
    match action {
        b"reject" => losses.note(Loss::Answer(b"reject"), line)?,
        b"reset" => losses.note(Loss::Answer(b"reset"), line)?,
        b"unreach" => losses.note(Loss::Answer(b"unreach"), line)?,
        b"count" => losses.note(Loss::Other(b"count"), line)?,
        _ => {}
    }
    let head = head_of(line.words.as_slice());
    losses.note_if(has_word(head, b"log"), Loss::Other(b"log"), line)
}

/// Notes what a line loses.
pub(crate) fn put_line(losses: &mut Losses, line: &Line) -> Result<(), Memory> {
    let words = line.words.as_slice();
    if has_word(words, b"config") {
        return put_instance(losses, line);
    }
    let action = word_at(words, action_at(words));
    put_rule(losses, line, action)
}
