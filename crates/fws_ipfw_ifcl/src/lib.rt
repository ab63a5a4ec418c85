//! The control diagram of an ipfw configuration.
#![tactic(auto)]

mod blocks;
mod counts;
mod diagram;
mod instances;
mod laws;
mod layout;
mod redirects;
mod spots;
mod translating;
mod widths;

pub use diagram::{places, to_ifcl};
pub use laws::spelled_diagrams;
