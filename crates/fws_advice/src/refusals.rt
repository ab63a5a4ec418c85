//! What is said of a text that is refused: of its first refused line, and of those that would be refused behind it.

use crate::bytes::{has_words, is, trimmed};
use crate::completions::system_of;
use crate::contexts::{Extract, context_of};
use crate::cutting::{Span, joined_from, lines_of, region, replaced, words_of};
use crate::ground::{Ground, name_in};
use crate::judging::{Found, Judge, Refusal};
use crate::kinds::{Kind, Why};
use crate::marking::{Mark, Trial};
use crate::report::Report;
use crate::rows::{Refused, Row};
use crate::showing::show_line;
use crate::site_marks::site_mark;
use crate::standing_in::{StandIn, stand_in};
use fws_num::{Memory, Text};

/// How many further lines are shown.
const SHOWN: u32 = 50;

/// How many lines are tried.
const TRIED: u32 = 2000;

/// A text that is refused, and the name of its file.
#[derive(Clone, Copy)]
pub(crate) struct Subject<'a> {
    pub(crate) name: &'a [u8],
    pub(crate) text: &'a [u8],
}

/// A line that is refused, where it stands in the text.
#[derive(Clone, Copy)]
struct Place {
    /// Where the line and those that are joined to it stand.
    region: Span,
    /// Its place among the lines of the text.
    at: usize,
    /// The place of the line behind it.
    past: usize,
}

/// Where a refused line stands; none behind the end of the text.
fn place_of(kind: Kind, text: &[u8], lines: &[Span], number: u32) -> Option<Place> {
    let at = (number as usize).checked_sub(1)?;
    if at >= lines.len() {
        return None;
    }
    let count = joined_from(kind, text, lines, at);
    Some(Place {
        region: region(lines, at, count),
        at,
        past: at.saturating_add(count),
    })
}

/// Where the mark stands in the line.
fn marked(line: &[u8], spans: &[Span], mark: Mark) -> Span {
    let end = trimmed(line).len();
    match mark {
        Mark::Word(at) => match spans.get(at) {
            Some(span) => *span,
            None => Span { from: end, to: end },
        },
        Mark::End => match spans.last() {
            Some(last) => Span {
                from: last.to,
                to: last.to,
            },
            None => Span { from: end, to: end },
        },
        Mark::Line => match spans.first() {
            Some(first) => Span {
                from: first.from,
                to: end,
            },
            None => Span { from: 0, to: end },
        },
    }
}

/// Of lines that are joined, the one where the mark stands: its number from the first one on, its bytes, and the mark in it.
fn line_with<'a>(text: &'a [u8], mark: Span) -> (u32, &'a [u8], Span) {
    let mut number = 0u32;
    let mut from = 0usize;
    let mut to = text.len();
    for (at, c) in text.iter().enumerate() {
        if *c == b'\n' {
            if at >= mark.from {
                to = at;
                break;
            }
            number = number.saturating_add(1);
            from = at.saturating_add(1);
        }
    }
    let line = Span { from, to };
    let mark = Span {
        from: mark.from.saturating_sub(from),
        to: mark.to.min(to).saturating_sub(from),
    };
    (number, line.of(text), mark)
}

/// Says where something stands: file and line.
fn say_place(out: &mut Report, name: &[u8], line: u32) -> Result<(), Memory> {
    out.show(name)?;
    out.say(b":")?;
    out.say_number(u64::from(line))?;
    out.say(b": ")
}

/// Says the cause of a refusal, where it has a name of its own.
fn say_cause(out: &mut Report, why: Why) -> Result<(), Memory> {
    if why.words().is_empty() {
        return Ok(());
    }
    out.say(why.words())?;
    out.say(b": ")
}

/// Says which names the interfaces of the site have in the system.
fn say_interfaces(out: &mut Report, kind: Kind, ground: &Ground) -> Result<(), Memory> {
    let system = system_of(kind);
    out.say(b"    The site has:")?;
    for face in ground.site.faces.as_slice() {
        out.say(b" ")?;
        out.show(name_in(&face.names, system))?;
    }
    out.say(b" ")?;
    out.show(name_in(&ground.site.lo, system))?;
    out.say(b"\n")
}

/// Says of a line why it is refused, and what to write. Of a remedy that was said of the line ahead nothing is said again.
fn say_line(
    out: &mut Report,
    judge: &Judge,
    subject: &Subject,
    number: u32,
    refused: &Refused,
    last: &[u8],
) -> Result<&'static [u8], Memory> {
    let (row, mark) = refused.row(judge.kind);
    let at = marked(refused.line, refused.spans, mark);
    let word = match mark {
        Mark::Line => trimmed(refused.line),
        _ => at.of(refused.line),
    };
    let (more, line, at) = line_with(refused.line, at);
    say_place(out, subject.name, number.saturating_add(more))?;
    say_cause(out, refused.why)?;
    out.say_with(row.says, word)?;
    out.say(b"\n")?;
    show_line(out, line, at)?;
    say_remedy(out, judge, &row, refused.why, last)?;
    Ok(row.write)
}

/// Says what to write.
fn say_remedy(
    out: &mut Report,
    judge: &Judge,
    row: &Row,
    why: Why,
    last: &[u8],
) -> Result<(), Memory> {
    if row.write == last {
        return Ok(());
    }
    out.say(b"    ")?;
    out.say(row.write)?;
    out.say(b"\n")?;
    match judge.ground {
        Some(ground) if why == Why::NoInterface => say_interfaces(out, judge.kind, ground),
        _ => Ok(()),
    }
}

/// What the text lacks that ends too early.
fn missing(kind: Kind) -> &'static [u8] {
    match kind {
        Kind::Iptables => b"the file ends within a table: COMMIT is missing at its end",
        Kind::Site => {
            b"the file ends too early: a site has lines site, interface, loopback, default, forwarding and one_pass"
        }
        _ => b"the file ends too early",
    }
}

/// Says of a text that it ends too early.
fn say_end(
    out: &mut Report,
    kind: Kind,
    subject: &Subject,
    refusal: Refusal,
) -> Result<(), Memory> {
    say_place(out, subject.name, refusal.line)?;
    say_cause(out, refusal.why)?;
    out.say(missing(kind))?;
    out.say(b"\n")
}

/// The stretch that is passed over where this line is refused: a table of iptables that isn't read is passed over to its end.
fn gone(kind: Kind, text: &[u8], lines: &[Span], place: &Place) -> Span {
    let line = place.region.of(text);
    if kind != Kind::Iptables || !matches!(line, [b'*', ..]) {
        return place.region;
    }
    for (at, other) in lines.iter().enumerate().skip(place.past) {
        if is(trimmed(other.of(text)), b"COMMIT") {
            return region(
                lines,
                place.at,
                at.saturating_sub(place.at).saturating_add(1),
            );
        }
    }
    place.region
}

/// Says that lines behind the first one would be refused too, ahead of the first of them.
fn say_further(out: &mut Report, count: u32) -> Result<(), Memory> {
    if count == 1 {
        out.say(
            b"\nReading on without that line, these would be refused too, maybe one only for a line above it:\n\n",
        )?;
    }
    Ok(())
}

/// Says how many lines weren't shown.
fn say_rest(out: &mut Report, count: u32, is_all: bool) -> Result<(), Memory> {
    let rest = count.saturating_sub(SHOWN.saturating_add(1));
    if rest > 0 {
        out.say(b"\nFurther lines that would be refused: ")?;
        out.say_number(u64::from(rest))?;
        out.say(if is_all { b"\n" } else { b" and more\n" })?;
    } else if !is_all {
        out.say(b"\nThe rest of the file was not tried.\n")?;
    }
    Ok(())
}

/// What is said of one refusal after the other.
#[derive(Drop)]
struct Reading<'a> {
    subject: &'a Subject<'a>,
    lines: Vec<Span>,
    /// The text without the lines that were refused.
    text: Text,
    /// How many lines were refused.
    count: u32,
    /// The number of the last line for which a definition stands in; 0 where there is none.
    defined: u32,
    /// What was said last of what to write.
    last: &'static [u8],
}

impl Reading<'_> {
    /// The text with nothing in the place of a refused line.
    fn without(&self, judge: &Judge, place: &Place) -> Result<Text, Memory> {
        let text = self.text.as_slice();
        let gone = gone(judge.kind, text, &self.lines, place);
        replaced(judge.alloc, text, gone, b"")
    }

    /// Takes a refused line out, and puts in its place what stands in for it.
    fn take_out(&mut self, judge: &Judge, place: &Place, number: u32) -> Result<(), Memory> {
        let text = self.text.as_slice();
        let line = place.region.of(text);
        let spans = words_of(judge.alloc, judge.kind.is_pf(), line)?;
        let left = match stand_in(judge.alloc, judge.kind, self.subject.text, line, &spans)? {
            StandIn::Nothing => self.without(judge, place)?,
            StandIn::Values(other) => replaced(judge.alloc, text, place.region, other.as_slice())?,
            StandIn::Definition(other) => {
                self.defined = number;
                replaced(judge.alloc, text, place.region, other.as_slice())?
            }
        };
        self.change(judge, left)
    }

    /// The text is another one from here on.
    fn change(&mut self, judge: &Judge, text: Text) -> Result<(), Memory> {
        self.text = text;
        self.lines = lines_of(judge.alloc, self.text.as_slice())?;
        Ok(())
    }

    /// Where the line is refused.
    fn mark(
        &self,
        judge: &mut Judge,
        place: &Place,
        why: Why,
        spans: &[Span],
    ) -> Result<Mark, Memory> {
        let text = self.text.as_slice();
        let line = place.region.of(text);
        if why == Why::Count {
            return Ok(Mark::Line);
        }
        let part = Extract {
            text,
            lines: &self.lines,
            at: place.at,
            past: place.past,
        };
        let context = context_of(judge.alloc, judge.kind, why, &part)?;
        if why == Why::Names || why == Why::Overlap {
            return site_mark(judge.alloc, context.ahead.as_slice(), line, spans, why);
        }
        let trial = Trial {
            context: &context,
            line,
            spans,
            why,
        };
        trial.mark(judge)
    }

    /// Says why a line is refused, and gives back what was said of what to write. The words behind its comment don't count.
    fn say_refused(
        &self,
        out: &mut Report,
        judge: &mut Judge,
        place: &Place,
        refusal: Refusal,
    ) -> Result<&'static [u8], Memory> {
        let line = place.region.of(self.text.as_slice());
        let uncommented = judge.kind.comments().uncommented(line);
        let spans = words_of(judge.alloc, judge.kind.is_pf(), uncommented)?;
        let mark = self.mark(judge, place, refusal.why, &spans)?;
        let refused = Refused {
            line,
            spans: &spans,
            why: refusal.why,
            mark,
        };
        say_line(out, judge, self.subject, refusal.line, &refused, self.last)
    }

    /// Says what is wrong at a refusal, and takes the line out. Whether there may be more of them.
    fn go_on(
        &mut self,
        out: &mut Report,
        judge: &mut Judge,
        refusal: Refusal,
    ) -> Result<bool, Memory> {
        let Some(place) = place_of(judge.kind, self.text.as_slice(), &self.lines, refusal.line)
        else {
            say_further(out, self.count)?;
            say_end(out, judge.kind, self.subject, refusal)?;
            return Ok(false);
        };
        if !has_words(place.region.of(self.text.as_slice())) {
            return Ok(false);
        }
        if self.defined == refusal.line {
            let left = self.without(judge, &place)?;
            self.change(judge, left)?;
            return Ok(true);
        }
        if self.count <= SHOWN {
            say_further(out, self.count)?;
            let write = self.say_refused(out, judge, &place, refusal)?;
            self.last = write;
        }
        self.count = self.count.saturating_add(1);
        self.take_out(judge, &place, refusal.line)?;
        Ok(true)
    }
}

/// Says why a text is refused, line by line.
pub(crate) fn say_refusals(
    out: &mut Report,
    judge: &mut Judge,
    subject: &Subject,
) -> Result<(), Memory> {
    let mut reading = Reading {
        subject,
        lines: lines_of(judge.alloc, subject.text)?,
        text: Text::of(judge.alloc, subject.text)?,
        count: 0,
        defined: 0,
        last: b"",
    };
    for _ in 0..TRIED {
        match judge.judge(reading.text.as_slice())? {
            Found::Read => return say_rest(out, reading.count, true),
            Found::Tired => return say_rest(out, reading.count, false),
            Found::Refused(refusal) => {
                if !reading.go_on(out, judge, refusal)? {
                    return say_rest(out, reading.count, true);
                }
            }
        }
    }
    say_rest(out, reading.count, false)
}
