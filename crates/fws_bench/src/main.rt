//! Makes trees of growing size and unfolds growing diagrams, and prints how large they are. `fields N` makes the tree of N
//! rows that each have cuts of their own in four fields, and prints N and the number of its paths; `product N` makes the
//! tree of N rows that each test one of four fields, and prints N and the number of its nodes; `recolour N` recolours a
//! canvas N times, and prints N, the number of its values and that of its tree's nodes. `unfold N` unfolds N calls of a
//! chain of 1,000 rules, `chains N` a diagram of N chains of which each calls the next, `ring N` the same with a last one
//! that calls the one in the middle; they print N and the number of instructions, or why the diagram is refused. `execute
//! SITE FILE STATE` executes an iptables file at a site, for new packets where STATE is `new` or for established ones
//! where it is `est`, and prints the word `execute`, the number of instructions and that of the tree's nodes; where STATE is
//! `none` it executes nothing, and that number is 0. `placed LANG SITE FILE` prints the word `placed`, and how many
//! instructions a file unfolds to by its control diagram and by the diagram that tells which rules packets use; LANG is
//! `iptables`, `ipfw`, `pf` or `ios`. A run may have several of these, one behind the other. The exit status is 2 where the words ask for something else, or where a file can't be read or is refused.
#![tactic(auto)]

ghost use Rattle.std.specs.Prelude.{◌≤◌, IfSome};

mod diagrams;
mod execution;
mod fields;
mod placed;
mod product;
mod recolour;
mod stop;
mod tops;

use crate::diagrams::{Shape, count_unfolded};
use crate::execution::count_executed;
use crate::fields::count_paths;
use crate::placed::count_placed;
use crate::product::count_nodes;
use crate::recolour::count_recoloured;
use crate::stop::Stop;
use fws_io::{Shelf, StdShelf, StdSink, write_all};
use fws_num::{Items, Memory, Text, put_dec, read_dec, value_named};
use fws_unfold::UnfoldAnswer;
use std::alloc::Global;
use std::env;
use std::process::ExitCode;
use std::rt::{Env, Files};

/// The most rows and recolourings.
const MOST: u64 = 4000;

/// The most chains and calls of a diagram.
const MOST_CHAINS: u64 = 200_000;

/// How a tree is made.
#[derive(Clone, Copy)]
enum Made {
    /// Of rows that each have cuts of their own in four fields.
    Fields,
    /// Of rows that each test one of four fields.
    Product,
    /// By recolouring.
    Recolour,
}

/// What a job that takes a number makes.
#[derive(Clone, Copy)]
enum Kind {
    /// A tree.
    Tree(Made),
    /// Flat code of a diagram.
    Unfolding(Shape),
}

/// The words of jobs that take a number.
const KINDS: [(&[u8], Kind); 6] = [
    (b"fields", Kind::Tree(Made::Fields)),
    (b"product", Kind::Tree(Made::Product)),
    (b"recolour", Kind::Tree(Made::Recolour)),
    (b"unfold", Kind::Unfolding(Shape::Calls)),
    (b"chains", Kind::Unfolding(Shape::Ladder)),
    (b"ring", Kind::Unfolding(Shape::Ring)),
];

/// What a job does that takes three words.
#[derive(Clone, Copy)]
enum Job {
    /// It executes a file.
    Execute,
    /// It makes the two diagrams of a file.
    Placed,
}

/// The words of jobs that take three words.
const JOBS: [(&[u8], Job); 2] = [(b"execute", Job::Execute), (b"placed", Job::Placed)];

/// The number that a word asks for.
fn read_count(word: &Text) -> Option<u32>
    ensures { IfSome result (λ n. n ≤ MOST) }
{
    let n = read_dec(word.as_slice(), MOST)?;
    Some(n as u32)
}

/// Appends what was counted to a line, and ends it.
fn put_counts(out: &mut Text, counts: &[usize]) -> Result<(), Memory> {
    for count in counts {
        out.put(b" ")?;
        put_dec(out, *count as u64)?;
    }
    out.put(b"\n")
}

/// Appends a line of the number that was asked for and of what was counted.
fn put_line(out: &mut Text, n: u32, counts: &[usize]) -> Result<(), Memory> {
    put_dec(out, u64::from(n))?;
    put_counts(out, counts)
}

/// Appends why a diagram is refused, and the chain at which it is.
fn put_refusal(out: &mut Text, refusal: UnfoldAnswer) -> Result<(), Stop> {
    let (reason, chain): (&[u8], u32) = match refusal {
        UnfoldAnswer::Loop(c) => (b" loop ", c),
        UnfoldAnswer::Deep(c) => (b" deep ", c),
        UnfoldAnswer::Long(c) => (b" long ", c),
        UnfoldAnswer::Memory => return Err(Stop::Memory),
    };
    out.put(reason)?;
    put_dec(out, u64::from(chain))?;
    out.put(b"\n")?;
    Ok(())
}

/// Unfolds a diagram, and appends the number that was asked for and what came of it.
fn do_unfolding(alloc: Global, out: &mut Text, shape: Shape, count: &Text) -> Result<(), Stop> {
    let Some(n) = read_dec(count.as_slice(), MOST_CHAINS) else {
        return Err(Stop::Words);
    };
    match count_unfolded(alloc, shape, n as u32)? {
        Ok(instructions) => Ok(put_line(out, n as u32, &[instructions])?),
        Err(refusal) => {
            put_dec(out, n)?;
            put_refusal(out, refusal)
        }
    }
}

/// Appends a line of the number that was asked for and of what is counted of trees of so many rows.
fn put_tree(alloc: Global, out: &mut Text, made: Made, n: u32) -> Result<(), Memory>
    requires { n ≤ MOST }
{
    match made {
        Made::Fields => put_line(out, n, &[count_paths(alloc, n)?]),
        Made::Product => put_line(out, n, &[count_nodes(alloc, n)?]),
        Made::Recolour => put_line(out, n, &count_recoloured(alloc, n)?),
    }
}

/// Does one job on trees, and appends what it says.
fn do_tree(alloc: Global, out: &mut Text, made: Made, count: &Text) -> Result<(), Stop> {
    match read_count(count) {
        Some(n) => Ok(put_tree(alloc, out, made, n)?),
        None => Err(Stop::Words),
    }
}

/// Does one job that takes a number, and appends what it says.
fn do_counting(alloc: Global, out: &mut Text, kind: &Text, count: &Text) -> Result<(), Stop> {
    match value_named(&KINDS, kind.as_slice()) {
        Some(Kind::Tree(made)) => do_tree(alloc, out, made, count),
        Some(Kind::Unfolding(shape)) => do_unfolding(alloc, out, shape, count),
        None => Err(Stop::Words),
    }
}

/// Appends a line of a job's word and of what was counted.
fn put_counted(out: &mut Text, kind: &Text, counts: &[usize]) -> Result<(), Memory> {
    out.put(kind.as_slice())?;
    put_counts(out, counts)
}

/// Does one job that takes three words, and appends what it says.
fn do_wide<S: Shelf>(
    alloc: Global,
    shelf: &mut S,
    out: &mut Text,
    kind: &Text,
    given: [&Text; 3],
) -> Result<(), Stop> {
    let [first, second, third] = given;
    let counts = match value_named(&JOBS, kind.as_slice()) {
        Some(Job::Execute) => count_executed(alloc, shelf, first, second, third)?,
        Some(Job::Placed) => count_placed(alloc, shelf, first, second, third)?,
        None => return Err(Stop::Words),
    };
    Ok(put_counted(out, kind, &counts)?)
}

/// Does one job with the words behind it, and appends what it says.
fn do_job<S: Shelf>(
    alloc: Global,
    shelf: &mut S,
    out: &mut Text,
    kind: &Text,
    given: &[Text],
) -> Result<(), Stop> {
    match given {
        [count] => do_counting(alloc, out, kind, count),
        [first, second, third] => do_wide(alloc, shelf, out, kind, [first, second, third]),
        _ => Err(Stop::Words),
    }
}

/// How many words follow the word of a job.
fn words_behind(kind: &Text) -> usize {
    match value_named(&JOBS, kind.as_slice()) {
        Some(_) => 3,
        None => 1,
    }
}

/// Does the jobs of the words, and appends what they say.
fn do_jobs<S: Shelf>(
    alloc: Global,
    shelf: &mut S,
    out: &mut Text,
    words: &[Text],
) -> Result<(), Stop> {
    let [kind, behind @ ..] = words else {
        return Ok(());
    };
    let Some((given, next)) = behind.split_at_checked(words_behind(kind)) else {
        return Err(Stop::Words);
    };
    do_job(alloc, shelf, out, kind, given)?;
    do_jobs(alloc, shelf, out, next)
}

/// Adds a word.
fn put_word(alloc: Global, words: &mut Items<Text>, word: &[u8]) -> Result<(), Memory> {
    words.put(Text::of(alloc, word)?)
}

/// The words behind the program's name.
fn take_words<R: Env + AllocGlobal>(rt: &R) -> Result<Items<Text>, Stop> {
    let Ok(arguments) = env::args(rt) else {
        return Err(Stop::Words);
    };
    let mut words = Items::new(rt.alloc());
    for argument in arguments.skip(1) {
        put_word(rt.alloc(), &mut words, argument.as_bytes())?;
    }
    Ok(words)
}

/// What the jobs of the words say.
fn said_of<S: Shelf>(alloc: Global, shelf: &mut S, words: &[Text]) -> Result<Text, Stop> {
    let mut out = Text::new(alloc);
    do_jobs(alloc, shelf, &mut out, words)?;
    Ok(out)
}

/// What the jobs of the command line say.
fn answer<R: Env + Files + AllocGlobal>(rt: &R) -> Result<Text, Stop> {
    let words = take_words(rt)?;
    said_of(rt.alloc(), &mut StdShelf::new(rt), words.as_slice())
}

fn main(rt: HostRuntime) -> ExitCode {
    match answer(&rt) {
        Ok(said) => {
            let mut sink = StdSink::new(&rt);
            match write_all(&mut sink, said.as_slice()) {
                Ok(()) => ExitCode::SUCCESS,
                Err(_) => ExitCode::from(5),
            }
        }
        Err(Stop::Words | Stop::File) => ExitCode::from(2),
        Err(Stop::Memory) => ExitCode::from(6),
    }
}
