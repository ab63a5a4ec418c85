//! Reads texts of pf.conf(5) of OpenBSD.
#![tactic(auto)]

mod checks;
mod draft;
mod ended;
mod keywords;
mod made;
mod progress;
mod reader;
mod statement;
mod steps;
mod target;
mod text;
mod whole_statement;

pub use reader::read;
