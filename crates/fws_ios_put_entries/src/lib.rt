//! Paths of packets: what entries of access lists of Cisco IOS ask of packets.
#![tactic(auto)]

mod act;
mod entries;
mod narrowing;
mod path;
mod side;

pub use act::Act;
pub use entries::{entry_of, state_entry};
pub use narrowing::narrowed;
pub use path::{Path, whole_path};
pub use side::{Side, side_at};
