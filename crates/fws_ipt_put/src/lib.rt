//! Policies as configurations of iptables.
#![tactic(auto)]

mod blocks;
mod builtin;
mod chains;
mod choices;
mod drafting;
mod marking;
mod marks;
mod nat;
mod placing;
mod roots;
mod rules;
mod telling;
mod tracking;

pub use placing::place;
pub use tracking::tracks;
