//! What is wanted of a text.

use crate::stop::Stop;
use fws_io::Shelf;
use fws_num::{Word, value_named};
use fws_top::FILE_LIMIT;
use std::alloc::Global;

/// Whether a word is like the wanted one: `_` stands for any word, and `FRONT*` for any that begins so.
fn is_like(word: &[u8], wanted: &[u8]) -> bool {
    match wanted {
        b"_" => true,
        [front @ .., b'*'] => word.starts_with(front),
        _ => word == wanted,
    }
}

/// Whether a text begins with words like the wanted ones, and goes on behind a blank.
fn begins_like(text: &[u8], wanted: &[Word]) -> bool {
    let mut words = text.split(|c: &u8| *c == b' ');
    for like in wanted {
        match words.next() {
            Some(word) if is_like(word, like.text.as_slice()) => {}
            _ => return false,
        }
    }
    words.next().is_some()
}

/// Whether the text has this first line.
fn has_first_line(text: &[u8], line: &[u8]) -> bool {
    text.split(|c: &u8| *c == b'\n').next() == Some(line)
}

/// Whether the text is this line, with its line feed.
fn is_line(text: &[u8], line: &[u8]) -> bool {
    match text {
        [front @ .., b'\n'] => front == line,
        _ => false,
    }
}

/// Whether a text is the content of a file.
fn is_content<S: Shelf>(
    alloc: Global,
    files: &mut S,
    text: &[u8],
    file: &[u8],
) -> Result<bool, Stop> {
    let content = files.read(alloc, file, FILE_LIMIT)?;
    Ok(content.as_slice() == text)
}

/// How a text is wanted.
#[derive(Clone, Copy)]
enum How {
    /// As one line.
    Line,
    /// As these bytes.
    Bytes,
    /// As the content of a file.
    File,
    /// With this first line.
    First,
    /// With words like these at its beginning.
    Words,
    /// Not empty.
    Something,
    /// As it may be.
    Anything,
}

/// The words for how a text is wanted.
const HOWS: [(&[u8], How); 7] = [
    (b"line", How::Line),
    (b"bytes", How::Bytes),
    (b"file", How::File),
    (b"first", How::First),
    (b"words", How::Words),
    (b"something", How::Something),
    (b"anything", How::Anything),
];

/// Whether a text is as the words of a case want it.
pub fn is_as_wanted<S: Shelf>(
    alloc: Global,
    files: &mut S,
    text: &[u8],
    wanted: &[Word],
) -> Result<bool, Stop> {
    let [how, what @ ..] = wanted else {
        return Err(Stop::Malformed);
    };
    let Some(how) = value_named(&HOWS, how.text.as_slice()) else {
        return Err(Stop::Malformed);
    };
    match (how, what) {
        (How::Line, [line]) => Ok(is_line(text, line.text.as_slice())),
        (How::Bytes, [bytes]) => Ok(bytes.is(text)),
        (How::File, [file]) => is_content(alloc, files, text, file.text.as_slice()),
        (How::First, [line]) => Ok(has_first_line(text, line.text.as_slice())),
        (How::Words, [_, ..]) => Ok(begins_like(text, what)),
        (How::Something, []) => Ok(!text.is_empty()),
        (How::Anything, []) => Ok(true),
        _ => Err(Stop::Malformed),
    }
}
