//! Short texts of iptables that may do what tables say. Nothing is promised of them: who uses one checks it.
#![tactic(auto)]

mod chained;
mod chains;
mod common;
mod filter;
mod options;
mod passing;
mod rules;
mod sharing;
mod tables;
mod text;
mod translation;
mod writing;

pub use writing::suggest;
