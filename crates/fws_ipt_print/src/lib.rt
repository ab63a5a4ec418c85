//! Texts of iptables-save(8) that configurations are printed as.
#![tactic(auto)]

mod acts;
mod labelling;
mod lines;
mod names;
mod numbers;
mod ports;
mod printable_configs;
mod printing;
mod rules;
mod sets;
mod tests;

pub use labelling::{labels, labels_are_counted};
pub use printable_configs::printable;
pub use printing::print;
