//! What rules of several systems have in common.
#![tactic(auto)]

mod compared;
mod interfaces;
mod laws;
mod literals;
mod names;
mod networks;
mod protocols;

pub use compared::{is, is_given, is_one_of};
pub use interfaces::{before_mark, read_interfaces};
pub use laws::{
    alike_packets_stay_alike, alike_walks_are_regular, conditions_hold_alike,
    orderly_sites_are_named, regular_parts_make_alike_walks,
};
pub use literals::{demand, negative, positive, put_literals};
pub use names::interface_name;
pub use networks::net_end;
pub use protocols::protocol_literal;
