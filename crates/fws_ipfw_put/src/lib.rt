//! Policies as configurations of ipfw.
#![tactic(auto)]

mod choices;
mod drafting;
mod guard;
mod instances;
mod placing;
mod rules;
mod sections;
mod telling;
mod tracking;

pub use placing::place;
pub use tracking::tracks;
