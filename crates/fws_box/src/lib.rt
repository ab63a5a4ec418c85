//! Boxes of packets: a set of values for each field.
#![tactic(auto)]

mod field;
mod narrowing;
mod pbox;
mod pieces;
mod point;
mod sets;
mod sides;
mod whole;

pub use field::Field;
pub use narrowing::{meet, narrow};
pub use pbox::PBox;
pub use pieces::cut;
pub use point::Point;
pub use sides::{copy_sides, meet_sides, no_sides, whole_sides};
pub use whole::full;
