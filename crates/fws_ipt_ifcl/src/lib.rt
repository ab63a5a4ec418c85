//! The control diagram of an iptables configuration.
#![tactic(auto)]

mod blocks;
mod chains;
mod diagram;
mod guards;
mod laws;
mod numbers;
mod placing;
mod side;
mod spots;
mod stages;

pub use diagram::to_ifcl;
pub use laws::spelled_diagrams;
pub use placing::places;
