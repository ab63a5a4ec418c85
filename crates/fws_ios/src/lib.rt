//! Cisco IOS, as a running configuration writes access lists and NAT: what a text spells, and what a packet meets.
#![tactic(auto)]

mod config;
mod draft;
mod laws;
pub mod model;
mod words;

pub use config::{IosConfig, IosEntry, IosGroup, IosList, IosNat};
pub use draft::{
    Block, EntryDraft, Expects, IosDraft, Marked, NatDraft, NatExpects, Place, Pool, PoolExpects,
};
pub use laws::{fitting_walks_are_regular, spelled_fits, spelled_walks_are_regular};
pub use words::PortWord;
