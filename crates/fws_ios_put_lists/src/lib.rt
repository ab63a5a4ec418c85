//! Decision trees as lists of entries of which the first that a packet meets decides.
#![tactic(auto)]

mod default;
mod nodes;
mod put;
mod sheet;
mod sizes;
mod turn;
mod turns;

pub use put::put_list;
