//! Flat code: instructions of which each jumps forward alone, and the parts of it that a packet meets.
#![tactic(auto)]

mod code;
pub mod model;
mod soundness;
mod step;

pub use code::{Flat, FlatAct, Ins, Part};
pub use soundness::flat_ok;
pub use step::Step;
