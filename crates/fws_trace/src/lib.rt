//! Traces: what becomes of listed packets against listed connections.
#![tactic(auto)]

mod answer;
mod classes;
mod connections;
mod ends;
mod lines;
mod packets;
mod spelling;
mod tracing;

pub use answer::{LineAnswer, Malformed};
pub use classes::{Classes, classes_are_found_in_order};
pub use connections::read_conns;
pub use lines::{listed, put_spelled};
pub use packets::{read_packet, read_packets, spelled_packets_are_of_site};
pub use spelling::put_fate;
pub use tracing::{outcome_by, trace};
