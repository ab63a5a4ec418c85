//! Decision trees as chains of iptables.
#![tactic(auto)]

mod coming;
mod conds;
mod default;
mod names;
mod nodes;
mod pieces;
mod plan;
mod port_lists;
mod put;
mod rules;
mod verdict;

pub use put::put_chains;
pub use verdict::{Branch, Verdict};
