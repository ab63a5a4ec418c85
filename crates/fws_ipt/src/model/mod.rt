//! The slow model: plain programs that walk one packet rule by rule and look at each path of jumps.
//! Nothing that the program runs stands on them. They show that the definitions can be computed, and
//! tests compare with them.

mod acting;
mod chains;
mod levels;
mod refusing;
mod seeing;
mod sizes;
mod walking;
mod writing;

pub use refusing::refusal;
pub use walking::walk_packet;
