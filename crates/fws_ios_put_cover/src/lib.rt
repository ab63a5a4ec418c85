//! Entries of access lists that cover a set of packets within another.
#![tactic(auto)]

mod asking;
mod boxes;
mod class;
mod covering;
mod entries;
mod exact;
mod kept;
mod parts;
mod widening;

pub use covering::put_cover;
