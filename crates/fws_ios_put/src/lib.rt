//! Policies as configurations of Cisco IOS.
#![tactic(auto)]

mod blocks;
mod choices;
mod choosing;
mod drafting;
mod fixing;
mod leading;
mod lists;
mod names;
mod placing;
mod telling;
mod tracking;
mod truths;

pub use placing::place;
pub use tracking::tracks;
