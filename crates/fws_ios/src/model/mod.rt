//! The definitions as slow plain programs, which walk one packet entry by entry.

mod listing;
mod meeting;
mod translating;
mod walking;

pub use walking::walk_packet;
