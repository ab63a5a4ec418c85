//! Running configurations of Cisco IOS that configurations are printed as.
#![tactic(auto)]

mod addresses;
mod conditions;
mod entries;
mod interfaces;
mod labelling;
mod lists;
mod names;
mod order;
mod printable_configs;
mod printing;
mod sets;
mod tests;
mod translations;
mod values;

pub use labelling::{labels, labels_are_counted};
pub use printable_configs::printable;
pub use printing::print;
