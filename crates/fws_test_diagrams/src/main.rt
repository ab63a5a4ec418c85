//! Walks packets through diagrams made by hand and through their flat code, and compares what becomes of them, and which
//! rules they use, with what was worked out by hand; tries diagrams that can't be unfolded; and executes flat codes made
//! by hand, and compares the rows with walks through the code. The command line names a file with a line for each group:
//! `diagrams` or `codes`, a site file, and a file with the group.
#![tactic(auto)]

mod cases;
mod codes;
mod conditions;
mod diagrams;
mod group;
mod points;
mod rows;
mod rules;
mod shown;
mod stop;
mod walks;
mod words;

use crate::group::judge_texts;
use crate::stop::Stop;
use fws_io::{Shelf, StdShelf, StdSink, write_all};
use fws_num::{Items, Memory, Text};
use std::alloc::Global;
use std::env;
use std::process::ExitCode;
use std::rt::{Env, Files};

/// The most bytes of a file.
const LIMIT: usize = 4_194_304;

/// Adds a word.
fn put_word(alloc: Global, words: &mut Items<Text>, word: &[u8]) -> Result<(), Memory> {
    words.put(Text::of(alloc, word)?)
}

/// The words behind the program's name.
fn take_words<R: Env + AllocGlobal>(rt: &R) -> Result<Items<Text>, Stop> {
    let Ok(arguments) = env::args(rt) else {
        return Err(Stop::Unread);
    };
    let mut words = Items::new(rt.alloc());
    for argument in arguments.skip(1) {
        put_word(rt.alloc(), &mut words, argument.as_bytes())?;
    }
    Ok(words)
}

/// The words of a text, divided by blanks and line feeds.
fn words_of(alloc: Global, text: &[u8]) -> Result<Items<Text>, Memory> {
    let mut words = Items::new(alloc);
    for word in text.split(|byte: &u8| *byte == b' ' || *byte == b'\n') {
        if !word.is_empty() {
            put_word(alloc, &mut words, word)?;
        }
    }
    Ok(words)
}

/// The bytes of a file.
fn read<S: Shelf>(alloc: Global, shelf: &mut S, name: &Text) -> Result<Text, Stop> {
    Ok(shelf.read(alloc, name.as_slice(), LIMIT)?)
}

/// Tries a group on the site of a text, and adds what it found.
fn put_group_at<S: Shelf>(
    alloc: Global,
    shelf: &mut S,
    said: &mut Text,
    kind: &[u8],
    site: &[u8],
    group: &Text,
) -> Result<(), Stop> {
    let cases = read(alloc, shelf, group)?;
    judge_texts(alloc, said, kind, site, group, cases.as_slice())
}

/// Tries a group on a site, and adds what it found.
fn put_group<S: Shelf>(
    alloc: Global,
    shelf: &mut S,
    said: &mut Text,
    words: &[Text],
) -> Result<(), Stop> {
    let [kind, site, group] = words else {
        return Err(Stop::Malformed);
    };
    let site = read(alloc, shelf, site)?;
    put_group_at(alloc, shelf, said, kind.as_slice(), site.as_slice(), group)
}

/// Tries the groups of the words, three words for each, and says what was found.
fn try_groups<S: Shelf>(alloc: Global, shelf: &mut S, words: &[Text]) -> Result<Text, Stop> {
    let mut said = Text::new(alloc);
    for group in words.chunks(3) {
        put_group(alloc, shelf, &mut said, group)?;
    }
    Ok(said)
}

/// Tries the groups of a file, and says what was found.
fn try_file<S: Shelf>(alloc: Global, shelf: &mut S, name: &Text) -> Result<Text, Stop> {
    let groups = read(alloc, shelf, name)?;
    let words = words_of(alloc, groups.as_slice())?;
    try_groups(alloc, shelf, words.as_slice())
}

/// Tries the groups of the file that the command line names, and says what was found.
fn said_of<R: Env + Files + AllocGlobal>(rt: &R) -> Result<Text, Stop> {
    let words = take_words(rt)?;
    let [name] = words.as_slice() else {
        return Err(Stop::Malformed);
    };
    try_file(rt.alloc(), &mut StdShelf::new(rt), name)
}

/// Tries the groups of the file that the command line names, and writes what was found.
fn walk_all<R: Env + Files + Print + AllocGlobal>(rt: &R) -> Result<(), Stop> {
    let said = said_of(rt)?;
    match write_all(&mut StdSink::new(rt), said.as_slice()) {
        Ok(()) => Ok(()),
        Err(_) => Err(Stop::Unread),
    }
}

fn main(rt: HostRuntime) -> ExitCode {
    match walk_all(&rt) {
        Ok(()) => ExitCode::SUCCESS,
        Err(Stop::Malformed) => ExitCode::from(3),
        Err(Stop::Unread) => ExitCode::from(4),
        Err(Stop::Memory) => ExitCode::from(6),
    }
}
