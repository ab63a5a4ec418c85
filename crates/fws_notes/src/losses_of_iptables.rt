//! What lines of iptables lose.

use crate::losses::{Loss, Losses, has_pair, has_word};
use crate::marks::place_of;
use fws_num::{Line, Memory, Word};

/// Whether a target stands in a rule.
fn has_target(words: &[Word], target: &[u8]) -> bool {
    has_pair(words, b"-j", target)
}

/// Whether counters stand in a line that aren't 0.
fn has_counts(words: &[Word]) -> bool {
    for word in words {
        if word.quoted {
            continue;
        }
        if let [b'[', inner @ ..] = word.text.as_slice() {
            return inner.iter().any(|byte| matches!(*byte, b'1'..=b'9'));
        }
    }
    false
}

/// Whether a state is among those that a rule asks.
fn asks_state(words: &[Word], state: &[u8]) -> bool {
    let mut is_next = false;
    for word in words {
        if is_next && place_of(word.text.as_slice(), state).is_some() {
            return true;
        }
        is_next = !word.quoted && (word.is(b"--ctstate") || word.is(b"--state"));
    }
    false
}

/// Notes what a line loses.
pub(crate) fn put_line(losses: &mut Losses, line: &Line) -> Result<(), Memory> {
    let words = line.words.as_slice();
    losses.note_if(asks_state(words, b"NEW"), Loss::State(b"NEW"), line)?;
    losses.note_if(asks_state(words, b"INVALID"), Loss::State(b"INVALID"), line)?;
    losses.note_if(has_target(words, b"REJECT"), Loss::Answer(b"REJECT"), line)?;
    losses.note_if(has_target(words, b"LOG"), Loss::Other(b"LOG"), line)?;
    losses.note_if(has_target(words, b"NFLOG"), Loss::Other(b"NFLOG"), line)?;
    losses.note_if(
        has_word(words, b"--limit") || has_pair(words, b"-m", b"limit"),
        Loss::Other(b"limits on logging"),
        line,
    )?;
    losses.note_if(
        has_target(words, b"MASQUERADE"),
        Loss::Interface(b"MASQUERADE"),
        line,
    )?;
    losses.note_if(has_counts(words), Loss::Other(b"counters"), line)
}
