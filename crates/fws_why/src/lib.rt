//! Which rules decide: what becomes of packets, and the rules that each of them uses.
#![tactic(auto)]

mod lines;
mod numbers;
mod saying;

pub use saying::why;
