//! The slow model: plain programs that walk one packet instruction by instruction. They show that the
//! definitions can be computed, and tests compare with them.

mod acting;
mod parts;
mod walking;

pub use walking::{used_places, uses, walk_packet};
