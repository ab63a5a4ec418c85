//! The definitions as slow plain programs, which walk one packet rule by rule.

mod acting;
mod rules;
mod translating;
mod walking;

pub use walking::walk_packet;
