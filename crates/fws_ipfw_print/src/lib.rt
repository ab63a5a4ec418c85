//! Texts of ipfw(8) that configurations are printed as.
#![tactic(auto)]

mod addresses;
mod instances;
mod labelling;
mod lines;
mod printable_configs;
mod printing;
mod rules;
mod sets;
mod tests;
mod values;

pub use labelling::{labels, labels_are_counted};
pub use printable_configs::printable;
pub use printing::print;
