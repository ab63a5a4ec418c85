//! The table of cases, line by line.

use crate::outside::{Found, Outside};
use crate::stop::Stop;
use crate::wanted::is_as_wanted;
use fws_io::Shelf;
use fws_load::load_text;
use fws_num::{
    Comments, Line, Memory, Text, Word, are_sound, put_dec, read_dec, read_lines, value_named,
};
use fws_top::FILE_LIMIT;
use std::alloc::Global;

/// How many bytes a name can be filled with, and how many a put takes.
const MOST: u64 = 8_388_608;

/// A line of which a name can hold many.
const LINE: &[u8] = b"###############################################################\n";

/// How much of a text is shown that isn't as wanted.
const SHOWN: usize = 2048;

/// The number of a word.
fn number(word: &Word) -> Result<u64, Stop> {
    match read_dec(word.text.as_slice(), MOST) {
        Some(n) => Ok(n),
        None => Err(Stop::Malformed),
    }
}

/// What the lines followed so far came to.
#[derive(Drop)]
pub struct Said {
    /// A line for each case, with what was found where it isn't as expected.
    pub text: Text,
    /// Whether each line could be followed, and each case is as expected.
    pub agrees: bool,
}

/// So many bytes `#`.
fn filled(alloc: Global, length: usize) -> Result<Text, Memory> {
    let bytes = vec![in alloc; b'#'; length]?;
    Text::of(alloc, bytes.as_slice())
}

/// So many bytes: lines like `LINE`, and as much of one as is left.
fn lined(alloc: Global, length: usize) -> Result<Text, Memory> {
    let mut text = Text::new(alloc);
    for _ in 0..length / LINE.len().max(1) {
        text.put(LINE)?;
    }
    text.put(&LINE[..(length % LINE.len().max(1)).min(LINE.len())])?;
    Ok(text)
}

/// A generated filter of so many rules.
fn filter_of(alloc: Global, rules: &Word) -> Result<Text, Stop> {
    match u32::try_from(number(rules)?) {
        Ok(n) if 1 <= n && n <= 4000 => Ok(load_text(alloc, n)?),
        _ => Err(Stop::Malformed),
    }
}

/// What a name can hold.
#[derive(Clone, Copy)]
enum Holds {
    /// The content of a file.
    File,
    /// A generated filter.
    Filter,
    /// One byte many times.
    Fill,
    /// Lines of one byte.
    Lines,
}

/// The words for what a name can hold.
const CONTENTS: [(&[u8], Holds); 4] = [
    (b"file", Holds::File),
    (b"filter", Holds::Filter),
    (b"fill", Holds::Fill),
    (b"lines", Holds::Lines),
];

/// What a line lets a name hold: the content of a file, a generated filter, one byte many times, or lines of it.
fn content_of<S: Shelf>(
    alloc: Global,
    files: &mut S,
    kind: &Word,
    what: &Word,
) -> Result<Text, Stop> {
    match value_named(&CONTENTS, kind.text.as_slice()) {
        Some(Holds::File) => Ok(files.read(alloc, what.text.as_slice(), FILE_LIMIT)?),
        Some(Holds::Filter) => filter_of(alloc, what),
        Some(Holds::Fill) => Ok(filled(alloc, number(what)? as usize)?),
        Some(Holds::Lines) => Ok(lined(alloc, number(what)? as usize)?),
        None => Err(Stop::Malformed),
    }
}

/// Adds what was found where a case isn't as expected, of the text just its beginning.
fn put_found(said: &mut Text, command: &Word, found: &Found) -> Result<(), Memory> {
    said.put(b": NOT as expected at line ")?;
    put_dec(said, u64::from(command.line))?;
    said.put(b": found status ")?;
    put_dec(said, u64::from(found.status))?;
    said.put(b" and the text\n")?;
    let text = found.text.as_slice();
    said.put(&text[..text.len().min(SHOWN)])?;
    said.put(b"\n")
}

/// Adds what a case came to: that it is as expected, or what was found instead.
fn put_verdict(
    said: &mut Said,
    kind: &Word,
    command: &Word,
    found: &Found,
    agrees: bool,
) -> Result<(), Memory> {
    said.text.put(kind.text.as_slice())?;
    said.text.put(b" ")?;
    said.text.put(command.text.as_slice())?;
    if agrees {
        said.text.put(b": as expected\n")
    } else {
        said.agrees = false;
        put_found(&mut said.text, command, found)
    }
}

/// Whether what was found has the status of a case and the text that it wants.
fn is_as_expected<S: Shelf>(
    alloc: Global,
    files: &mut S,
    found: &Found,
    status: &Word,
    wanted: &[Word],
) -> Result<bool, Stop> {
    Ok(
        number(status)? == u64::from(found.status)
            && is_as_wanted(alloc, files, found.text.as_slice(), wanted)?,
    )
}

/// Adds what a case came to, in which this was found.
fn judge_found<S: Shelf>(
    alloc: Global,
    files: &mut S,
    said: &mut Said,
    kind: &Word,
    command: &Word,
    found: &Found,
    status: &Word,
    wanted: &[Word],
) -> Result<(), Stop> {
    let agrees = is_as_expected(alloc, files, found, status, wanted)?;
    Ok(put_verdict(said, kind, command, found, agrees)?)
}

/// Tries a case, and adds what it came to.
fn try_case<S: Shelf>(
    alloc: Global,
    files: &mut S,
    outside: &mut Outside,
    said: &mut Said,
    kind: &Word,
    command: &Word,
    status: &Word,
    wanted: &[Word],
) -> Result<(), Stop> {
    let found = outside.find(kind, command)?;
    judge_found(alloc, files, said, kind, command, &found, status, wanted)
}

/// Adds what a case came to that tries the outside in turn: that all is as expected, or where it isn't.
fn put_turns(said: &mut Said, kind: &Word, command: &Word, bad: Option<u64>) -> Result<(), Memory> {
    said.text.put(kind.text.as_slice())?;
    said.text.put(b" ")?;
    said.text.put(command.text.as_slice())?;
    let Some(place) = bad else {
        return said.text.put(b": as expected\n");
    };
    said.agrees = false;
    said.text.put(b": NOT as expected at ")?;
    put_dec(&mut said.text, place)?;
    said.text.put(b"\n")
}

/// Tries each read of a command line that reads these names, and adds what it came to.
fn try_reads(
    outside: &mut Outside,
    said: &mut Said,
    kind: &Word,
    command: &Word,
    names: &[Word],
) -> Result<(), Stop> {
    let bad = outside.find_bad_read(command, names)?;
    Ok(put_turns(said, kind, command, bad)?)
}

/// Tries each put of a command line that ends with this status, and adds what it came to.
fn try_puts(
    outside: &mut Outside,
    said: &mut Said,
    kind: &Word,
    command: &Word,
    status: &Word,
) -> Result<(), Stop> {
    let bad = outside.find_bad_put(command, number(status)?)?;
    Ok(put_turns(said, kind, command, bad)?)
}

/// Tries a command line over each beginning of what the name holds, and adds what it came to.
fn try_cuts(
    outside: &mut Outside,
    said: &mut Said,
    kind: &Word,
    command: &Word,
    name: &Word,
) -> Result<(), Stop> {
    let bad = outside.find_bad_cut(command, name)?;
    Ok(put_turns(said, kind, command, bad)?)
}

/// Lets a name hold what a line says.
fn hold<S: Shelf>(
    alloc: Global,
    files: &mut S,
    outside: &mut Outside,
    kind: &Word,
    name: &Word,
    what: &Word,
) -> Result<(), Stop> {
    let content = content_of(alloc, files, kind, what)?;
    Ok(outside.hold(name, &content)?)
}

/// Empties the shelves; the read with this number fails.
fn empty_shelves(alloc: Global, outside: &mut Outside, read: &Word) -> Result<(), Stop> {
    *outside = Outside::new(alloc, number(read)?)?;
    Ok(())
}

/// Sets how sinks take what is put.
fn set_sink(outside: &mut Outside, most: &Word, put: &Word) -> Result<(), Stop> {
    outside.set_sink(number(most)? as usize, number(put)?);
    Ok(())
}

/// Follows a line of the table: prepares what it says, or tries its case and says what it came to.
fn follow<S: Shelf>(
    alloc: Global,
    files: &mut S,
    outside: &mut Outside,
    said: &mut Said,
    words: &[Word],
) -> Result<(), Stop> {
    if !are_sound(words) {
        return Err(Stop::Malformed);
    }
    match words {
        [kind, read] if kind.is(b"shelf") => empty_shelves(alloc, outside, read),
        [kind, most, put] if kind.is(b"sink") => set_sink(outside, most, put),
        [kind, name, command] if kind.is(b"answer") => outside.hold_answer(name, command),
        [kind, command, names @ ..] if kind.is(b"reads") => {
            try_reads(outside, said, kind, command, names)
        }
        [kind, command, status] if kind.is(b"puts") => {
            try_puts(outside, said, kind, command, status)
        }
        [kind, command, name] if kind.is(b"cuts") => try_cuts(outside, said, kind, command, name),
        [kind, name, what] => hold(alloc, files, outside, kind, name, what),
        [kind, command, status, wanted @ ..] => {
            try_case(alloc, files, outside, said, kind, command, status, wanted)
        }
        _ => Err(Stop::Malformed),
    }
}

/// Names a line that can't be followed.
fn put_unfollowed(said: &mut Said, number: u32) -> Result<(), Memory> {
    said.agrees = false;
    said.text.put(b"line ")?;
    put_dec(&mut said.text, u64::from(number))?;
    said.text.put(b" can't be followed\n")
}

/// Follows a line, or names it where it can't be followed.
fn follow_line<S: Shelf>(
    alloc: Global,
    files: &mut S,
    outside: &mut Outside,
    said: &mut Said,
    line: &Line,
) -> Result<(), Memory> {
    match follow(alloc, files, outside, said, line.words.as_slice()) {
        Ok(()) => Ok(()),
        Err(Stop::Memory) => Err(Memory),
        Err(Stop::Unread | Stop::Malformed) => put_unfollowed(said, line.number),
    }
}

/// Follows lines.
fn follow_lines<S: Shelf>(
    alloc: Global,
    files: &mut S,
    outside: &mut Outside,
    said: &mut Said,
    lines: &[Line],
) -> Result<(), Memory> {
    for line in lines {
        follow_line(alloc, files, outside, said, line)?;
    }
    Ok(())
}

/// Follows lines over shelves and sinks, and says what their cases came to.
fn said_over<S: Shelf>(
    alloc: Global,
    files: &mut S,
    outside: &mut Outside,
    lines: &[Line],
) -> Result<Said, Memory> {
    let mut said = Said {
        text: Text::new(alloc),
        agrees: true,
    };
    follow_lines(alloc, files, outside, &mut said, lines)?;
    Ok(said)
}

/// Follows lines, and says what their cases came to.
fn said_of_lines<S: Shelf>(alloc: Global, files: &mut S, lines: &[Line]) -> Result<Said, Memory> {
    let mut outside = Outside::new(alloc, 0)?;
    said_over(alloc, files, &mut outside, lines)
}

/// Follows the table of a text, and says what its cases came to; a line that can't be followed is named.
pub fn follow_table<S: Shelf>(alloc: Global, files: &mut S, table: &[u8]) -> Result<Said, Stop> {
    let lines = read_lines(alloc, Comments::HashLine, table)?;
    Ok(said_of_lines(alloc, files, lines.lines.as_slice())?)
}
