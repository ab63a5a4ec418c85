//! Reads ipfw rule files: what `ipfw list` prints, and scripts that add rules.
#![tactic(auto)]

mod addresses;
mod flags;
mod instances;
mod keywords;
mod lines;
mod numbers;
mod options;
mod progress;
mod reader;
mod redirects;
mod rule;
mod values;

pub use reader::read;
