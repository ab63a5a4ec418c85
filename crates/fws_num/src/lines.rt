//! The lines of a text.

ghost use Rattle.std.specs.Prelude.{◌≡◌, ◌+◌, ◌++◌, length, IfOk, OnOk};
ghost use Rattle.std.specs.Str.Lines.{strip_carriage_return};
ghost use Rattle.fws_num.specs.Lines.{is_indented, last_line, numbered, read_line, read_of};

use crate::comments::Comments;
use crate::items::Items;
use crate::memory::Memory;
use crate::numbers::split_once;
use crate::word::{Word, is_blank, words};
use std::alloc::Global;

/// A line that has words outside its comment.
#[derive(Drop)]
pub struct Line {
    /// Its number, counted from 1.
    pub number: u32,
    /// It begins with a blank.
    pub indented: bool,
    /// Its words, one or more.
    pub words: Items<Word>,
}

/// The lines of a text that have words outside comments.
#[derive(Drop)]
pub struct Lines {
    /// The lines, in their order.
    pub lines: Items<Line>,
    /// The number of the text's lines plus one: where a text that ends too early is refused.
    pub past: u32,
}

/// The line, less a carriage return at its end.
pub fn without_carriage_return(line: &[u8]) -> &[u8]
    ensures { result.now ≡ strip_carriage_return line.now }
{
    match line {
        [front @ .., b'\r'] => front,
        _ => line,
    }
}

/// Whether the line begins with a blank or a tab.
pub fn is_indented(line: &[u8]) -> bool
    ensures { result ≡ is_indented line.now }
{
    match line {
        [] => false,
        [first, ..] => is_blank(*first),
    }
}

/// Adds the line of these bytes, if it has words outside its comment.
fn put_line(
    alloc: Global,
    comments: Comments,
    lines: &mut Items<Line>,
    number: u32,
    bytes: &[u8],
) -> Result<(), Memory>
    ensures { OnOk result (lines.new ≡ lines.old ++ read_line comments number bytes.now) }
{
    let words = words(alloc, comments.uncommented(bytes), number)?;
    if words.is_empty() {
        return Ok(());
    }
    lines.put(Line {
        number,
        indented: is_indented(bytes),
        words: Items::from_vec(words),
    })?;
    Ok(())
}

/// The number of the line behind that of this number. Fails if memory runs out, or at a number past 2^32 - 1.
pub fn next_number(number: u32) -> Result<u32, Memory>
    ensures { IfOk result (λ next. next ≡ number + 1) }
{
    number.checked_add(1).ok_or(Memory)
}

/// Adds what stands behind the last line feed, if anything does, and gives the number past it.
fn put_last(
    alloc: Global,
    comments: Comments,
    lines: &mut Items<Line>,
    number: u32,
    bytes: &[u8],
) -> Result<u32, Memory>
    ensures lines { OnOk result (lines.new ≡ lines.old ++ numbered comments number (last_line bytes.now)) }
    ensures past { IfOk result (λ past. past ≡ number + length (last_line bytes.now)) }
{
    match bytes {
        [] => Ok(number),
        [_, ..] => {
            put_line(alloc, comments, lines, number, bytes)?;
            next_number(number)
        }
    }
}

/// The lines of a text that have words outside comments, with their numbers, and the number past the
/// last line. A line ends at a line feed; a carriage return before it doesn't count.
pub fn read_lines(alloc: Global, comments: Comments, text: &[u8]) -> Result<Lines, Memory>
    ensures { IfOk result (λ ls. ls ≡ read_of comments text.now) }
{
    let mut lines = Items::new(alloc);
    let mut number = 1;
    let mut rest = text;
    while let Some((line, behind)) = split_once(rest, b'\n') {
        put_line(
            alloc,
            comments,
            &mut lines,
            number,
            without_carriage_return(line),
        )?;
        number = next_number(number)?;
        rest = behind;
    }
    let past = put_last(alloc, comments, &mut lines, number, rest)?;
    Ok(Lines { lines, past })
}
