//! Short texts of Cisco IOS that may do what tables say. Nothing is promised of them: who uses one checks it.
#![tactic(auto)]

mod entries;
mod interfaces;
mod inward;
mod lists;
mod names;
mod sources;
mod texts;
mod words;

pub use texts::suggest;
