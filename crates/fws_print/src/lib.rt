//! What printers of several systems put alike: words, numbers, addresses and ports, the labels of places, and the forms
//! of sets that one option can name.
#![tactic(auto)]

mod labels;
mod ranges;
mod sets;
mod words;

pub use labels::put_places;
pub use ranges::{put_range, put_ranges};
pub use sets::{
    are_flags, are_ranges, first_number, is_interface, is_network, is_number, is_range,
};
pub use words::{put_address, put_network, put_number, put_protocol, put_word};
