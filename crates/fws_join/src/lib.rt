//! Decisions in a row that say the same and differ in one set, as one with the numbers of both sets.
#![tactic(auto)]

mod decision;
mod equal;
mod joining;
mod laws;
mod lists;
mod two;

pub use decision::Decision;
pub use joining::Joining;
pub use laws::decisions_stand_by_parts;
