//! Decision trees as lists of translations of pf.
#![tactic(auto)]

mod default;
mod ends;
mod narrowing;
mod nodes;
mod path;
mod plan;
mod put;
mod rules;
mod sheet;
mod side;
mod turn;
mod turns;
mod writings;

pub use plan::Plan;
pub use put::put_translations;
