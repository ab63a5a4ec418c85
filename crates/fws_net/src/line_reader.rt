//! Reading a text line by line, up to the first line that is refused.

ghost use Rattle.fws_net.specs.Reading.{CauseGiven, StepGiven, LinesGiven, ReadGiven, located, lines_read, lines_ended, text_read};
ghost use Rattle.fws_net.specs.ReadingLaws.{FirstRefusedDecides};

use crate::answer::{LineFault, TextAnswer};
use fws_num::{Comments, Line, Lines, read_lines};
use std::alloc::Global;
use std::fmt::Debug;

/// A reader of a kind of text, which takes the lines one by one.
pub trait LineReader: Drop {
    /// What the reader looks things up in, as the site.
    type Context;

    /// What was read so far, as contracts see it.
    type State;

    /// Why a line is refused.
    type Cause: Debug + Drop;

    /// What a whole text gives.
    type Output: Drop;

    ghost use Rattle.std.specs.Prelude.{Result};
    ghost use Rattle.fws_num.specs.declared.lines.Line.{Line};

    // What was read so far.
    ghost state: { Self → Self.State };

    // What has to hold of the context.
    ghost allows: { Self.Context → Type 0 };

    // What a line makes of what was read.
    ghost step: { Self.Context → Self.State → Line → Result Self.State Self.Cause };

    // What the end of the text makes of what was read.
    ghost finished: { Self.Context → Self.State → Result Self.Output Self.Cause };

    /// Takes a line. A line that is refused ends the reading.
    fn take(
        &mut self,
        alloc: Global,
        context: &Self::Context,
        line: &Line,
    ) -> Result<(), LineFault<Self::Cause>>
        requires { allows context.now }
        ensures { StepGiven result (state self.new) (step context.now (state self.old) line.now) };

    /// What was read, at the end of the text. A text that ends too early is refused.
    fn finish(self, context: &Self::Context) -> Result<Self::Output, LineFault<Self::Cause>>
        requires { allows context.now }
        ensures { CauseGiven result (finished context.now (state self)) };
}

/// Takes a line, and tells its number where it is refused.
fn take_line<R: LineReader>(
    alloc: Global,
    reader: &mut R,
    context: &R::Context,
    line: &Line,
) -> Result<(), TextAnswer<R::Cause>>
    requires { R.allows context.now }
    ensures { LinesGiven result (R.state reader.new) (located line.now.number (R.step context.now (R.state reader.old) line.now)) }
{
    match reader.take(alloc, context, line) {
        Ok(()) => Ok(()),
        Err(fault) => Err(fault.at(line.number)),
    }
}

/// Takes the lines in their order, up to the first that is refused.
pub fn take_lines<R: LineReader>(
    alloc: Global,
    reader: &mut R,
    context: &R::Context,
    lines: &[Line],
) -> Result<(), TextAnswer<R::Cause>>
    requires { R.allows context.now }
    ensures { LinesGiven result (R.state reader.new) (lines_read (R.step context.now) (R.state reader.old) lines.now) }
{
    for line in lines {
        take_line(alloc, reader, context, line)?;
    }
    Ok(())
}

/// What was read, or the refusal at the number past the last line.
fn finish_at<R: LineReader>(
    reader: R,
    context: &R::Context,
    past: u32,
) -> Result<R::Output, TextAnswer<R::Cause>>
    requires { R.allows context.now }
    ensures { ReadGiven result (located past (R.finished context.now (R.state reader))) }
{
    match reader.finish(context) {
        Ok(output) => Ok(output),
        Err(fault) => Err(fault.at(past)),
    }
}

/// What the lines spell, or the first refused line, with the reader as it stands ahead of them.
pub fn read_with<R: LineReader>(
    alloc: Global,
    mut reader: R,
    context: &R::Context,
    lines: &Lines,
) -> Result<R::Output, TextAnswer<R::Cause>>
    requires { R.allows context.now }
    ensures { ReadGiven result (lines_ended (R.step context.now) (R.finished context.now) (R.state reader) lines.now) }
{
    take_lines(alloc, &mut reader, context, lines.lines.as_slice())?;
    finish_at(reader, context, lines.past)
}

/// What a text spells, or its first refused line, with the reader as it stands ahead of the text. An
/// answer `Memory` comes only where memory is wanting, or where the text has more than 2^32 - 2 lines.
pub fn read_text<R: LineReader>(
    alloc: Global,
    comments: Comments,
    reader: R,
    context: &R::Context,
    text: &[u8],
) -> Result<R::Output, TextAnswer<R::Cause>>
    requires { R.allows context.now }
    ensures { ReadGiven result (text_read comments (R.step context.now) (R.finished context.now) (R.state reader) text.now) }
{
    let lines = read_lines(alloc, comments, text)?;
    read_with(alloc, reader, context, &lines)
}

/// Does nothing: the clause is a law of reading. The first refused line is refused by itself, and every
/// line ahead of it is read.
pub fn first_refused_decides<S: Drop, C: Drop>()
    ensures { FirstRefusedDecides S C }
{}
