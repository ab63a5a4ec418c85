//! What is said beside an answer.

use crate::breaches::{Source, say_breach};
use crate::bytes::{begins, behind, ends, is, part, trimmed};
use crate::chains::say_chain;
use crate::cutting::{word, words_of};
use crate::ground::{Ground, ground_of};
use crate::judging::Judge;
use crate::kinds::Kind;
use crate::losses::say_losses;
use crate::refusals::{Subject, say_refusals};
use crate::report::Report;
use crate::scanning::lines_with_words;
use crate::usage::{say_entries, say_usage};
use crate::warnings::say_warnings;
use fws_io::{Sink, write_all};
use fws_num::{Memory, Text};
use fws_top::Status;
use std::alloc::Global;

/// How many bytes may be read to find refused lines and words.
const WORK: usize = 24_000_000;

/// How many bytes a configuration may have of which warnings are said.
const LOOKED_AT: usize = 1_000_000;

/// How a command ended: the texts that it read, in their order, its status and its answer.
#[derive(Clone, Copy)]
pub struct Outcome<'a> {
    /// The texts.
    pub texts: &'a [Text],
    /// The status.
    pub status: Status,
    /// The first bytes of the answer.
    pub answer: &'a [u8],
}

/// A file of a command line: the place of its name among the words, and what kind of text it is.
#[derive(Clone, Copy)]
struct FileWord {
    at: usize,
    kind: Kind,
}

/// The files of a command line, in the order in which they are read.
fn files_of(alloc: Global, words: &[Text]) -> Result<Vec<FileWord>, Memory> {
    let mut files = Vec::new(alloc);
    let command = text_at(words, 0);
    let is_translation = is(command, b"translate");
    let site = if is(command, b"site2") {
        1
    } else if is_translation {
        3
    } else {
        2
    };
    files.push(FileWord {
        at: site,
        kind: Kind::Site,
    })?;
    let Some(kind) = Kind::of_lang(text_at(words, 1)) else {
        return Ok(files);
    };
    files.push(FileWord {
        at: if is_translation { 4 } else { 3 },
        kind,
    })?;
    put_further(&mut files, words, command)?;
    Ok(files)
}

/// Adds the files of a command line behind the site and the configuration.
fn put_further(files: &mut Vec<FileWord>, words: &[Text], command: &[u8]) -> Result<(), Memory> {
    if is(command, b"trace") || is(command, b"why") {
        files.push(FileWord {
            at: 4,
            kind: Kind::Conns,
        })?;
        files.push(FileWord {
            at: 5,
            kind: Kind::Packets,
        })?;
    } else if is(command, b"run") {
        files.push(FileWord {
            at: 4,
            kind: Kind::Events,
        })?;
    } else if is(command, b"same") {
        if let Some(kind) = Kind::of_lang(text_at(words, 4)) {
            files.push(FileWord { at: 5, kind })?;
        }
    }
    Ok(())
}

/// The bytes of the text at a place; none where there is no such text.
fn text_at(texts: &[Text], at: usize) -> &[u8] {
    match texts.get(at) {
        Some(text) => text.as_slice(),
        None => &[],
    }
}

/// The site of a command, if it was read.
fn site_of(alloc: Global, outcome: &Outcome) -> Result<Option<Ground>, Memory> {
    ground_of(alloc, text_at(outcome.texts, 0))
}

/// Says why a file is refused. The words are those behind its name in the refusal.
fn say_refused(
    out: &mut Report,
    file: FileWord,
    subject: &Subject,
    ground: Option<&Ground>,
    words: &[u8],
) -> Result<(), Memory> {
    if begins(words, b"over ") {
        out.show(subject.name)?;
        return out.say(
            b": the file has more than 4 MiB\n    Take out comments, and rules that the packets in question never meet: a part of the file by itself is another policy.\n",
        );
    }
    if begins(words, b"line ") {
        let mut judge = Judge {
            alloc: out.alloc,
            kind: file.kind,
            ground,
            left: WORK,
        };
        return say_refusals(out, &mut judge, subject);
    }
    let spans = words_of(out.alloc, false, part(words, 0, 5))?;
    let why = word(words, &spans, 0);
    let chain = part(words, why.len().saturating_add(1), words.len());
    say_chain(out, subject.name, subject.text, why, chain)
}

/// Says why the file is refused that was read last.
fn say_refusal(out: &mut Report, words: &[Text], outcome: &Outcome) -> Result<(), Memory> {
    let files = files_of(out.alloc, words)?;
    // a file past the limit isn't among the texts
    let is_long = ends(trimmed(outcome.answer), b" over 4194304 bytes");
    let read = outcome.texts.len();
    let at = if is_long {
        read
    } else {
        read.saturating_sub(1)
    };
    let Some(file) = files.get(at) else {
        return Ok(());
    };
    let name = text_at(words, file.at);
    let Some(rest) = behind(outcome.answer, b"refused ") else {
        return Ok(());
    };
    let Some(cause) = rest.get(name.len().saturating_add(1)..) else {
        return Ok(());
    };
    let subject = Subject {
        name,
        text: text_at(outcome.texts, at),
    };
    let ground = if file.kind == Kind::Site {
        None
    } else {
        site_of(out.alloc, outcome)?
    };
    say_refused(out, *file, &subject, ground.as_ref(), trimmed(cause))
}

/// Says which words of a command line are wrong.
fn say_bad_words(out: &mut Report, words: &[Text], outcome: &Outcome) -> Result<(), Memory> {
    match site_of(out.alloc, outcome)? {
        Some(ground) if !outcome.texts.is_empty() => say_entries(out, &ground, words),
        _ => say_usage(out, words),
    }
}

/// Says that a file can't be read.
fn say_absent(out: &mut Report, words: &[Text], outcome: &Outcome) -> Result<(), Memory> {
    let files = files_of(out.alloc, words)?;
    let Some(file) = files.get(outcome.texts.len()) else {
        return Ok(());
    };
    let name = text_at(words, file.at);
    if name.is_empty() {
        return out.say(b"fws: the name of a file is empty\n");
    }
    out.say_with(b"fws: the file % is not there, or can not be read\n", name)
}

/// Says why a policy can't be placed.
fn say_unplaceable(out: &mut Report, words: &[Text], outcome: &Outcome) -> Result<(), Memory> {
    let source = Source {
        lang: text_at(words, 1),
        target: text_at(words, 2),
        name: text_at(words, 4),
        site: text_at(outcome.texts, 0),
        text: text_at(outcome.texts, 1),
    };
    say_breach(out, &source, outcome.answer)
}

/// Says what the answer doesn't show of a configuration.
fn say_beside(
    out: &mut Report,
    file: FileWord,
    ground: &Ground,
    name: &[u8],
    text: &[u8],
    is_translated: bool,
) -> Result<(), Memory> {
    if !file.kind.is_configuration() || text.len() > LOOKED_AT {
        return Ok(());
    }
    let lines = lines_with_words(out.alloc, file.kind, text)?;
    say_warnings(out, file.kind, ground, name, &lines)?;
    if is_translated {
        say_losses(out, file.kind, name, &lines)?;
    }
    Ok(())
}

/// Says what the answer doesn't show of the configurations that were read.
fn say_all_beside(out: &mut Report, words: &[Text], outcome: &Outcome) -> Result<(), Memory> {
    let Some(ground) = site_of(out.alloc, outcome)? else {
        return Ok(());
    };
    let is_translated = is(text_at(words, 0), b"translate") && outcome.status == Status::Ok;
    let files = files_of(out.alloc, words)?;
    for (file, text) in files.iter().zip(outcome.texts.iter()) {
        let name = text_at(words, file.at);
        say_beside(out, *file, &ground, name, text.as_slice(), is_translated)?;
    }
    Ok(())
}

/// Says what there is to say beside an answer.
fn say(out: &mut Report, words: &[Text], outcome: &Outcome) -> Result<(), Memory> {
    match outcome.status {
        Status::Ok => say_all_beside(out, words, outcome),
        Status::NotPlaceable => say_unplaceable(out, words, outcome),
        Status::Usage => say_bad_words(out, words, outcome),
        Status::Refused => say_refusal(out, words, outcome),
        Status::ReadFault => say_absent(out, words, outcome),
        Status::WriteFault => out.say(b"fws: the output can not be written\n"),
        Status::Memory => out.say(b"fws: out of memory\n"),
    }
}

/// The lines of a text that end in a line feed.
fn whole_lines(text: &[u8]) -> &[u8] {
    let mut end = 0usize;
    for (at, c) in text.iter().enumerate() {
        if *c == b'\n' {
            end = at.saturating_add(1);
        }
    }
    part(text, 0, end)
}

/// Says into a sink what there is to say beside an answer. Out of memory, less is said, and faults of the sink are passed
/// over.
pub fn advise<K: Sink>(alloc: Global, words: &[Text], outcome: &Outcome, sink: &mut K) {
    let mut out = Report::new(alloc);
    let _ = say(&mut out, words, outcome);
    let _ = write_all(sink, whole_lines(out.as_slice()));
}
