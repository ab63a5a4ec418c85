//! The slow model: plain programs that walk one packet rule by rule. They show that the definitions can
//! be computed, and tests compare with them.

mod acting;
mod chains;
mod walking;

pub use walking::{used_places, uses, walk_packet};
