//! What is said of a policy that can't be placed.

use crate::bytes::{behind, is, part};
use crate::clauses::{Clause, clause_of};
use crate::cutting::{Span, lines_of, word, words_of};
use crate::keeping::KeepingSink;
use crate::packets::PacketWords;
use crate::redirects::count_redirects;
use crate::report::Report;
use fws_io::{SureShelf, SureSink};
use fws_num::{Items, Memory, Text};
use fws_top::run;
use std::alloc::Global;

/// A configuration that can't be placed, and the site.
#[derive(Clone, Copy)]
pub(crate) struct Source<'a> {
    pub(crate) lang: &'a [u8],
    pub(crate) target: &'a [u8],
    pub(crate) name: &'a [u8],
    pub(crate) site: &'a [u8],
    pub(crate) text: &'a [u8],
}

/// Adds a word.
fn put_word(alloc: Global, words: &mut Items<Text>, word: &[u8]) -> Result<(), Memory> {
    words.put(Text::of(alloc, word)?)
}

/// How many bytes of an answer on a packet are looked at.
const ANSWER: usize = 4096;

/// How many bytes of a table are looked at.
const TABLE: usize = 4_000_000;

impl Source<'_> {
    /// What a command answers to the words behind the site and the configuration, as many bytes as there is room for.
    fn answer(
        &self,
        alloc: Global,
        command: &[u8],
        shelf: &mut SureShelf,
        further: &[&[u8]],
        room: usize,
    ) -> Result<Text, Memory> {
        shelf.hold(b"site", self.site)?;
        shelf.hold(b"file", self.text)?;
        let mut words = Items::new(alloc);
        put_word(alloc, &mut words, command)?;
        put_word(alloc, &mut words, self.lang)?;
        put_word(alloc, &mut words, b"site")?;
        put_word(alloc, &mut words, b"file")?;
        for word in further {
            put_word(alloc, &mut words, word)?;
        }
        let mut sink = KeepingSink::new(alloc, SureSink::new(), room);
        let _ = run(alloc, words.as_slice(), shelf, &mut sink);
        Text::of(alloc, sink.text())
    }

    /// What `why` answers of a packet, or `trace` in a language of whose rules nothing is told.
    fn explain(&self, alloc: Global, packet: &PacketWords) -> Result<Text, Memory> {
        let mut shelf = SureShelf::new(alloc);
        shelf.hold(b"connections", packet.connection_line(alloc)?.as_slice())?;
        shelf.hold(b"packets", packet.packet_line(alloc)?.as_slice())?;
        let command: &[u8] = if is(self.lang, b"openbsd") {
            b"trace"
        } else {
            b"why"
        };
        let further: [&[u8]; 2] = [b"connections", b"packets"];
        self.answer(alloc, command, &mut shelf, &further, ANSWER)
    }

    /// How many redirects the table of new packets shows.
    fn redirects(&self, alloc: Global) -> Result<u64, Memory> {
        let mut shelf = SureShelf::new(alloc);
        let further: [&[u8]; 2] = [b"new", b"verdict=accept"];
        let table = self.answer(alloc, b"query", &mut shelf, &further, TABLE)?;
        count_redirects(alloc, table.as_slice())
    }
}

/// Says what becomes of a packet, by the first line of an answer.
fn say_fate(out: &mut Report, line: &[u8]) -> Result<(), Memory> {
    let fate = match behind(line, b"new ") {
        Some(fate) => fate,
        None => match behind(line, b"est ") {
            Some(fate) => fate,
            None => return Ok(()),
        },
    };
    match behind(fate, b"accept ") {
        None => out.say(b"    It is dropped"),
        Some(ends) => {
            out.say(b"    It is accepted, and goes on with ")?;
            out.show(ends)
        }
    }
}

/// Says which rules a packet uses, by the lines of an answer.
fn say_rules(
    out: &mut Report,
    source: &Source,
    answer: &[u8],
    lines: &[Span],
) -> Result<(), Memory> {
    if is(source.lang, b"openbsd") {
        return out.say(b".\n");
    }
    if lines.len() < 2 {
        return out.say(b", and uses no rule: a policy decides, or the end of all rules.\n");
    }
    out.say(b". It uses these rules of ")?;
    out.show(source.name)?;
    out.say(b", in this order:\n")?;
    for line in lines.iter().skip(1) {
        out.say(b"    ")?;
        out.show(line.of(answer))?;
        out.say(b"\n")?;
    }
    Ok(())
}

/// Says what becomes of a packet, and which rules decide that.
fn say_why(out: &mut Report, source: &Source, packet: &PacketWords) -> Result<(), Memory> {
    let answer = source.explain(out.alloc, packet)?;
    let lines = lines_of(out.alloc, answer.as_slice())?;
    if let Some(first) = lines.first() {
        say_fate(out, first.of(answer.as_slice()))?;
        say_rules(out, source, answer.as_slice(), &lines)?;
    }
    Ok(())
}

/// Says a packet in words, and what becomes of it.
fn say_packet(
    out: &mut Report,
    source: &Source,
    name: &[u8],
    packet: &PacketWords,
) -> Result<(), Memory> {
    out.say(b"  ")?;
    out.say(name)?;
    packet.say(out)?;
    out.say(b".\n")?;
    say_why(out, source, packet)
}

/// Where the second of the packets that are named begins.
fn second(answer: &[u8], words: &[Span]) -> usize {
    for (at, span) in words.iter().enumerate() {
        if is(span.of(answer), b"with") {
            return at;
        }
    }
    words.len()
}

/// The number of a clause in a word with a colon behind it.
fn number_in(word: &[u8]) -> &[u8] {
    part(word, 0, word.len().saturating_sub(1))
}

/// Says how many redirects there are.
fn say_redirects(out: &mut Report, source: &Source) -> Result<(), Memory> {
    let count = source.redirects(out.alloc)?;
    out.say(b"  The policy shows ")?;
    out.say_number(count)?;
    out.say(b" redirects in all.\n")
}

/// Says what to change in the source.
fn say_change(out: &mut Report, source: &Source, clause: &Clause) -> Result<(), Memory> {
    out.say(b"  ")?;
    out.say(clause.write)?;
    out.say(b"\n")?;
    match clause.example_in(source.lang) {
        None => Ok(()),
        Some(words) => {
            out.say(b"  For example: ")?;
            out.say(words)?;
            out.say(b".\n")
        }
    }
}

/// Says why a policy can't be placed: the answer is `not placeable on TO clause K: PACKET`, with a second packet behind `with`.
pub(crate) fn say_breach(out: &mut Report, source: &Source, answer: &[u8]) -> Result<(), Memory> {
    let words = words_of(out.alloc, false, answer)?;
    let Some(clause) = clause_of(number_in(word(answer, &words, 5))) else {
        return Ok(());
    };
    out.show(source.name)?;
    out.say(b" can not be written for ")?;
    out.say(source.target)?;
    out.say(b": ")?;
    out.say(clause.says)?;
    out.say(b".\n")?;
    let past = second(answer, &words);
    let first = PacketWords {
        text: answer,
        words: words.get(6..past).unwrap_or(&[]),
    };
    let other = PacketWords {
        text: answer,
        words: words.get(past.saturating_add(1)..).unwrap_or(&[]),
    };
    out.say(b"  ")?;
    out.say(clause.shows)?;
    out.say(b":\n")?;
    say_packet(out, source, b"", &first)?;
    if !other.words.is_empty() {
        say_packet(out, source, b"and ", &other)?;
    }
    if clause.is_of_redirects() {
        say_redirects(out, source)?;
    }
    say_change(out, source, &clause)
}
