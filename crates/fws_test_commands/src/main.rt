//! Runs command lines over shelves and sinks in memory, by the table of cases in the file `answers.cases`, and says of each
//! case whether status and text are as expected, or what was found instead. The head of that file says how cases are
//! written. What is expected comes from outside or was worked out by hand: none of it was made by the program that it is to
//! judge.
#![tactic(auto)]

mod outside;
mod stop;
mod table;
mod wanted;

use crate::stop::Stop;
use crate::table::{Said, follow_table};
use fws_io::{Shelf, StdShelf, StdSink, write_all};
use fws_top::FILE_LIMIT;
use std::alloc::Global;
use std::process::ExitCode;
use std::rt::Files;

/// The file with the table of cases.
const TABLE: &[u8] = b"answers.cases";

/// Follows the table, and says what its cases came to.
fn said_of<S: Shelf>(alloc: Global, files: &mut S) -> Result<Said, Stop> {
    let table = files.read(alloc, TABLE, FILE_LIMIT)?;
    follow_table(alloc, files, table.as_slice())
}

/// Follows the table, writes what its cases came to, and says whether all are as expected.
fn follow_cases<R: Files + Print + AllocGlobal>(rt: &R) -> Result<bool, Stop> {
    let said = said_of(rt.alloc(), &mut StdShelf::new(rt))?;
    match write_all(&mut StdSink::new(rt), said.text.as_slice()) {
        Ok(()) => Ok(said.agrees),
        Err(_) => Err(Stop::Unread),
    }
}

/// Ends with 1 where a case isn't as expected or a line can't be followed, and with 3, 4 or 6 where the table isn't read,
/// what it came to isn't written, or memory is wanting.
fn main(rt: HostRuntime) -> ExitCode {
    match follow_cases(&rt) {
        Ok(true) => ExitCode::SUCCESS,
        Ok(false) => ExitCode::from(1),
        Err(Stop::Malformed) => ExitCode::from(3),
        Err(Stop::Unread) => ExitCode::from(4),
        Err(Stop::Memory) => ExitCode::from(6),
    }
}
