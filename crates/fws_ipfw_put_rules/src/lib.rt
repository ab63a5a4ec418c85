//! Decision trees as lists of rules of ipfw.
#![tactic(auto)]

mod choice;
mod default;
mod entries;
mod groups;
mod literals;
mod nodes;
mod pieces;
mod plan;
mod put;
mod root;
mod turn;
mod turns;

pub use choice::{Choice, Origin, Section};
pub use put::put_rules;
