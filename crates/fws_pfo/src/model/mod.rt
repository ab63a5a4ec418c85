//! The definitions as a slow plain program, which walks one packet rule by rule.

mod acting;
mod rules;
mod walking;

pub use walking::walk_packet;
