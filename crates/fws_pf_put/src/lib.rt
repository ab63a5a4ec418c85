//! Policies as configurations of pf.
#![tactic(auto)]

mod blocks;
mod drafting;
mod ends;
mod gathering;
mod names;
mod placing;
mod renumbering;
mod sources;
mod states;
mod telling;
mod tracking;

pub use placing::place;
pub use tracking::tracks;
