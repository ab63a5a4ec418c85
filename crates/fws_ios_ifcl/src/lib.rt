//! The control diagram of a Cisco IOS configuration.
#![tactic(auto)]

mod applying;
mod choosing;
mod diagram;
mod listing;
mod names;
mod placing;
mod spots;
mod statics;

pub use diagram::to_ifcl;
pub use placing::places;
