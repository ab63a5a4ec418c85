//! Walks packets through worked configurations, and compares what becomes of them with the tables, traces and refusals
//! that these configurations must have; reads lines and sites that must be accepted, or refused for a cause; asks sites
//! about addresses and names; and tries calls on numbers, words, lines, sets, boxes, packets and conditions. What is
//! expected comes from outside, was worked out by hand, or by a calculation that walks packets rule by rule and shares
//! nothing with this program: none of it was made by the program that it is to judge. The command line names a file: its
//! first line names a site, and each further one is a job, with its name and its words.
#![tactic(auto)]

ghost use Rattle.fws_net.specs.Routes.{IsSound};

mod boxes;
mod calls;
mod cases;
mod conditions;
mod edits;
mod forms;
mod found;
mod jobs;
mod judging;
mod keeping;
mod languages;
mod listing;
mod numbers;
mod packets;
mod ranges;
mod sampling;
mod saying;
mod sets;
mod sites;
mod spellings;
mod stop;
mod table;
mod tally;
mod tracing;
mod trees;

use crate::jobs::{Job, do_job, job_named};
use crate::stop::Stop;
use fws_io::{Shelf, StdShelf, StdSink, write_all};
use fws_net::{Site, read_site};
use fws_num::{Items, Memory, Text};
use std::alloc::Global;
use std::env;
use std::process::ExitCode;
use std::rt::{Env, Files};

/// The most bytes of a file.
const LIMIT: usize = 4_194_304;

/// Adds a word.
fn put_word(alloc: Global, words: &mut Items<Text>, word: &[u8]) -> Result<(), Memory> {
    words.put(Text::of(alloc, word)?)
}

/// The words behind the program's name.
fn take_words<R: Env + AllocGlobal>(rt: &R) -> Result<Items<Text>, Stop> {
    let Ok(arguments) = env::args(rt) else {
        return Err(Stop::Unread);
    };
    let mut words = Items::new(rt.alloc());
    for argument in arguments.skip(1) {
        put_word(rt.alloc(), &mut words, argument.as_bytes())?;
    }
    Ok(words)
}

/// The words of a text, divided by blanks and line feeds.
fn words_of(alloc: Global, text: &[u8]) -> Result<Items<Text>, Memory> {
    let mut words = Items::new(alloc);
    for word in text.split(|byte: &u8| *byte == b' ' || *byte == b'\n') {
        if !word.is_empty() {
            put_word(alloc, &mut words, word)?;
        }
    }
    Ok(words)
}

/// The bytes of a file.
fn read<S: Shelf>(alloc: Global, shelf: &mut S, name: &Text) -> Result<Text, Stop> {
    Ok(shelf.read(alloc, name.as_slice(), LIMIT)?)
}

/// The bytes of the file that a word names, or the word itself, as the mark says.
fn given_for<S: Shelf>(alloc: Global, shelf: &mut S, mark: u8, word: &Text) -> Result<Text, Stop> {
    if mark == b'f' {
        read(alloc, shelf, word)
    } else {
        Ok(word.copy(alloc)?)
    }
}

/// What is given for the words behind a job's name.
fn given_of<S: Shelf>(
    alloc: Global,
    shelf: &mut S,
    job: Job,
    words: &[Text],
) -> Result<Items<Text>, Stop> {
    let mut given = Items::new(alloc);
    for (mark, word) in job.words().iter().zip(words) {
        given.put(given_for(alloc, shelf, *mark, word)?)?;
    }
    Ok(given)
}

/// Adds the words of a job, with what it found behind them.
fn put_line(said: &mut Text, words: &[Text], found: &Text) -> Result<(), Memory> {
    for word in words {
        said.put(word.as_slice())?;
        said.put(b" ")?;
    }
    said.put(found.as_slice())?;
    said.put(b"\n")
}

/// Does a job for which this is given, and adds its words with what it found behind them.
fn put_found(
    alloc: Global,
    site: &Site,
    said: &mut Text,
    job: Job,
    words: &[Text],
    given: &[Text],
) -> Result<(), Stop>
    requires { IsSound site.now }
{
    let found = do_job(alloc, site, job, given)?;
    Ok(put_line(said, words, &found)?)
}

/// Does the job with which the words begin, adds a line for it, and gives how many words it has.
fn do_first<S: Shelf>(
    alloc: Global,
    shelf: &mut S,
    site: &Site,
    said: &mut Text,
    words: &[Text],
) -> Result<usize, Stop>
    requires { IsSound site.now }
{
    let Some((name, behind)) = words.split_first() else {
        return Ok(0);
    };
    let job = job_named(name)?;
    let count = job.words().len().saturating_add(1);
    let Some(all) = words.get(..count) else {
        return Err(Stop::Malformed);
    };
    let given = given_of(alloc, shelf, job, behind)?;
    put_found(alloc, site, said, job, all, given.as_slice())?;
    Ok(count)
}

/// Does the jobs of the words one by one on a site, and adds a line for each.
fn do_jobs<S: Shelf>(
    alloc: Global,
    shelf: &mut S,
    site: &Site,
    said: &mut Text,
    words: &[Text],
) -> Result<(), Stop>
    requires { IsSound site.now }
{
    let mut begin: usize = 0;
    for at in 0..words.len() {
        if at == begin {
            let done = do_first(alloc, shelf, site, said, &words[at..])?;
            begin = begin.saturating_add(done);
        }
    }
    Ok(())
}

/// Does the jobs of the words on a site, and gives a line for each.
fn said_at<S: Shelf>(
    alloc: Global,
    shelf: &mut S,
    site: &Site,
    words: &[Text],
) -> Result<Text, Stop>
    requires { IsSound site.now }
{
    let mut said = Text::new(alloc);
    do_jobs(alloc, shelf, site, &mut said, words)?;
    Ok(said)
}

/// Does the jobs of the words on the site of a text, and gives a line for each.
fn do_all<S: Shelf>(
    alloc: Global,
    shelf: &mut S,
    site: &[u8],
    words: &[Text],
) -> Result<Text, Stop> {
    match read_site(alloc, site) {
        Ok(site) => said_at(alloc, shelf, &site, words),
        Err(_) => Err(Stop::Malformed),
    }
}

/// Does the jobs behind the first word, which names a site, and gives a line for each.
fn say_all<S: Shelf>(alloc: Global, shelf: &mut S, words: &[Text]) -> Result<Text, Stop> {
    let Some((site, jobs)) = words.split_first() else {
        return Err(Stop::Malformed);
    };
    let site = read(alloc, shelf, site)?;
    do_all(alloc, shelf, site.as_slice(), jobs)
}

/// Does the jobs of a file, whose first word names the site, and gives a line for each.
fn say_file<S: Shelf>(alloc: Global, shelf: &mut S, name: &Text) -> Result<Text, Stop> {
    let jobs = read(alloc, shelf, name)?;
    let words = words_of(alloc, jobs.as_slice())?;
    say_all(alloc, shelf, words.as_slice())
}

/// Does the jobs of the file that the command line names, and gives a line for each.
fn said_of<R: Env + Files + AllocGlobal>(rt: &R) -> Result<Text, Stop> {
    let words = take_words(rt)?;
    let [name] = words.as_slice() else {
        return Err(Stop::Malformed);
    };
    say_file(rt.alloc(), &mut StdShelf::new(rt), name)
}

/// Does the jobs of the file that the command line names, and writes what they found.
fn walk_rows<R: Env + Files + Print + AllocGlobal>(rt: &R) -> Result<(), Stop> {
    let said = said_of(rt)?;
    match write_all(&mut StdSink::new(rt), said.as_slice()) {
        Ok(()) => Ok(()),
        Err(_) => Err(Stop::Unread),
    }
}

fn main(rt: HostRuntime) -> ExitCode {
    match walk_rows(&rt) {
        Ok(()) => ExitCode::SUCCESS,
        Err(Stop::Malformed) => ExitCode::from(3),
        Err(Stop::Unread) => ExitCode::from(4),
        Err(Stop::Memory) => ExitCode::from(6),
    }
}
