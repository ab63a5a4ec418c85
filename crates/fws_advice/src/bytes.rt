//! Bytes compared and cut.

use fws_num::split_once;

/// Both are the same bytes.
pub(crate) fn is(text: &[u8], other: &[u8]) -> bool {
    text == other
}

/// The bytes from one place to another; none where the places aren't in the text.
pub(crate) fn part(text: &[u8], from: usize, to: usize) -> &[u8] {
    if let Some(front) = text.get(..to) {
        if let Some(found) = front.get(from..) {
            return found;
        }
    }
    &[]
}

/// The byte at a place; 0 behind the end.
pub(crate) fn byte_at(text: &[u8], at: usize) -> u8 {
    match text.get(at) {
        Some(c) => *c,
        None => 0,
    }
}

/// The text begins with these bytes.
pub(crate) fn begins(text: &[u8], front: &[u8]) -> bool {
    match text.get(..front.len()) {
        Some(found) => found == front,
        None => false,
    }
}

/// The text ends with these bytes.
pub(crate) fn ends(text: &[u8], back: &[u8]) -> bool {
    let Some(at) = text.len().checked_sub(back.len()) else {
        return false;
    };
    match text.get(at..) {
        Some(found) => found == back,
        None => false,
    }
}

/// What stands behind these bytes, where the text begins with them.
pub(crate) fn behind<'a>(text: &'a [u8], front: &[u8]) -> Option<&'a [u8]> {
    if begins(text, front) {
        text.get(front.len()..)
    } else {
        None
    }
}

/// One of the words is this one.
pub(crate) fn is_one_of(words: &[&[u8]], word: &[u8]) -> bool {
    for other in words {
        if is(other, word) {
            return true;
        }
    }
    false
}

/// The part of this number of a row of a table, whose parts are divided by bars.
pub(crate) fn field(row: &'static [u8], number: usize) -> &'static [u8] {
    let mut from = 0usize;
    let mut found = 0usize;
    for (at, c) in row.iter().enumerate() {
        if *c == b'|' {
            if found == number {
                return part(row, from, at);
            }
            found = found.saturating_add(1);
            from = at.saturating_add(1);
        }
    }
    if found == number {
        part(row, from, row.len())
    } else {
        &[]
    }
}

/// The byte is a blank, a tab or the end of a line.
pub(crate) fn is_space(c: u8) -> bool {
    c == b' ' || c == b'\t' || c == b'\n' || c == b'\r'
}

/// The text has a byte that isn't blank.
pub(crate) fn has_words(text: &[u8]) -> bool {
    for c in text {
        if !is_space(*c) {
            return true;
        }
    }
    false
}

/// The bytes are printed characters of ASCII.
pub(crate) fn is_printed(text: &[u8]) -> bool {
    for c in text {
        if *c < 33 || *c > 126 {
            return false;
        }
    }
    true
}

/// The text without what is blank at its end.
pub(crate) fn trimmed(text: &[u8]) -> &[u8] {
    let mut end = 0usize;
    for (at, c) in text.iter().enumerate() {
        if !is_space(*c) {
            end = at.saturating_add(1);
        }
    }
    part(text, 0, end)
}

/// The word is a number in decimals.
fn is_number(word: &[u8]) -> bool {
    for c in word {
        if !c.is_ascii_digit() {
            return false;
        }
    }
    !word.is_empty()
}

/// The word fits the pattern: an empty one fits all, `#` fits numbers, `?=` what has an equals sign, and one that ends in `*` what
/// begins so.
pub(crate) fn fits(pattern: &[u8], word: &[u8]) -> bool {
    match pattern {
        [] => true,
        b"#" => is_number(word),
        b"?=" => split_once(word, b'=').is_some(),
        [front @ .., b'*'] => begins(word, front),
        _ => word == pattern,
    }
}
