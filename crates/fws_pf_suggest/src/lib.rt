//! Short texts of pf that may do what tables say. Nothing is promised of them: who uses one checks it.
#![tactic(auto)]

mod again;
mod draft;
mod filter;
mod free;
mod names;
mod parts;
mod sending;
mod spelling;
mod text;
mod writing;

pub use writing::suggest;
