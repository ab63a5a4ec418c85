//! Trees of truth values that are made of others, trees of any leaves that are kept where a field lies in a set, and sets of
//! fields by name.
#![tactic(auto)]

pub mod fields;
mod joining;
mod keeping;

pub use joining::{both, either, negated, without};
pub use keeping::kept_in;
