//! Texts of which some lines are changed.

use crate::numbers::decimal;
use crate::stop::Stop;
use fws_num::{Memory, Text, put_dec, put_quad, split_once, value_named};
use std::alloc::Global;

/// What an edit does.
#[derive(Clone, Copy)]
enum How {
    /// The text stands in place of the line.
    Replace,
    /// The line goes.
    Remove,
    /// The text follows the line.
    Behind,
    /// The text follows the line once for each number from the first to the second.
    Each(u32, u32),
    /// The lines past this one go, and a line feed ends the text.
    Cut,
}

/// The names of edits that stand for one line.
const EDITS: [(&[u8], How); 4] = [
    (b"replace", How::Replace),
    (b"remove", How::Remove),
    (b"behind", How::Behind),
    (b"cut", How::Cut),
];

/// An edit of a text.
#[derive(Drop)]
pub struct Edit {
    how: How,
    line: u32,
    text: Text,
}

/// The number of a text's first word, and what stands behind it.
fn numbered(text: &[u8]) -> Result<(u32, &[u8]), Stop> {
    let (number, rest) = split_once(text, b' ').unwrap_or((text, b""));
    Ok((decimal(number)?, rest))
}

/// How an edit changes texts, and its own text: `FIRST LAST TEXT` where it stands for several lines.
fn how_of<'a>(name: &[u8], rest: &'a [u8]) -> Result<(How, &'a [u8]), Stop> {
    if name == b"each".as_slice() {
        let (first, rest) = numbered(rest)?;
        let (last, rest) = numbered(rest)?;
        return Ok((How::Each(first, last), rest));
    }
    match value_named(&EDITS, name) {
        Some(how) => Ok((how, rest)),
        None => Err(Stop::Malformed),
    }
}

/// The edit `replace LINE TEXT`, `remove LINE`, `behind LINE TEXT`, `each LINE FIRST LAST TEXT` or `cut LINE`.
pub fn read_edit(alloc: Global, text: &[u8]) -> Result<Edit, Stop> {
    let Some((name, rest)) = split_once(text, b' ') else {
        return Err(Stop::Malformed);
    };
    let (line, rest) = numbered(rest)?;
    let (how, text) = how_of(name, rest)?;
    Ok(Edit {
        how,
        line,
        text: Text::of(alloc, text)?,
    })
}

/// Adds a line behind what is there.
fn put_line(out: &mut Text, line: &[u8]) -> Result<(), Memory> {
    if !out.as_slice().is_empty() {
        out.put(b"\n")?;
    }
    out.put(line)
}

/// Adds a line in which `$` stands for the number, and `@` for the address that is the number.
fn put_numbered_line(out: &mut Text, line: &[u8], number: u32) -> Result<(), Memory> {
    put_line(out, b"")?;
    for c in line {
        match *c {
            b'$' => put_dec(out, u64::from(number))?,
            b'@' => put_quad(out, number)?,
            c => out.put(&[c])?,
        }
    }
    Ok(())
}

/// What stands at a line after the edits, if it stays.
fn edited_line<'a>(edits: &'a [Edit], number: u32, line: &'a [u8]) -> Option<&'a [u8]> {
    let mut kept = line;
    for edit in edits {
        match edit.how {
            How::Remove if edit.line == number => return None,
            How::Cut if edit.line < number => return None,
            How::Replace if edit.line == number => kept = edit.text.as_slice(),
            _ => {}
        }
    }
    Some(kept)
}

/// Adds what an edit puts behind the line.
fn put_behind(out: &mut Text, edit: &Edit) -> Result<(), Memory> {
    match edit.how {
        How::Behind => put_line(out, edit.text.as_slice()),
        How::Each(first, last) => {
            for number in first..=last {
                put_numbered_line(out, edit.text.as_slice(), number)?;
            }
            Ok(())
        }
        How::Replace | How::Remove | How::Cut => Ok(()),
    }
}

/// Adds a line after the edits, and what they put behind it.
fn put_edited(out: &mut Text, edits: &[Edit], number: u32, line: &[u8]) -> Result<(), Memory> {
    if let Some(line) = edited_line(edits, number, line) {
        put_line(out, line)?;
    }
    for edit in edits {
        if edit.line == number {
            put_behind(out, edit)?;
        }
    }
    Ok(())
}

/// Whether one of the edits cuts the text off.
fn are_cutting(edits: &[Edit]) -> bool {
    for edit in edits {
        if let How::Cut = edit.how {
            return true;
        }
    }
    false
}

/// Adds the lines of a text after the edits.
fn put_lines(out: &mut Text, text: &[u8], edits: &[Edit]) -> Result<(), Memory> {
    let mut number: u32 = 1;
    for line in text.split(|c: &u8| *c == b'\n') {
        put_edited(out, edits, number, line)?;
        number = number.saturating_add(1);
    }
    if are_cutting(edits) && !out.as_slice().is_empty() {
        out.put(b"\n")?;
    }
    Ok(())
}

/// The text after the edits, each of which names lines by their numbers in the text before. A last line feed goes.
pub fn edited(alloc: Global, text: &[u8], edits: &[Edit]) -> Result<Text, Memory> {
    let mut out = Text::new(alloc);
    put_lines(&mut out, text.strip_suffix(b"\n").unwrap_or(text), edits)?;
    Ok(out)
}
