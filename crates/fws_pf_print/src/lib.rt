//! Texts of pf.conf(5) that configurations are printed as.
#![tactic(auto)]

mod addresses;
mod conditions;
mod labelling;
mod printable_configs;
mod printing;
mod rules;
mod sets;
mod tags;
mod tests;
mod translations;
mod values;

pub use labelling::{labels, labels_are_counted};
pub use printable_configs::printable;
pub use printing::print;
