//! The control diagram of a pf configuration.
#![tactic(auto)]

mod diagram;
mod filter;
mod spots;
mod tail;
mod translating;

pub use diagram::{places, to_ifcl};
