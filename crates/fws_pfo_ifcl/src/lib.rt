//! The control diagram of a configuration of OpenBSD's pf.
#![tactic(auto)]

mod acting;
mod diagram;
mod ends;
mod filter;
mod frame;
mod held;
mod ruling;
mod rulings;
mod tail;

pub use diagram::to_ifcl;
