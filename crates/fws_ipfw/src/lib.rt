//! ipfw, as `ipfw list` and scripts write its rules (ipfw(8)): what a text spells, and what a packet meets.
#![tactic(auto)]

mod config;
mod draft;
mod laws;
pub mod model;
mod pass;
mod words;

pub use config::{IpfwAct, IpfwConfig, IpfwNat, IpfwRule, IpfwTag, Redirect};
pub use draft::{
    Defined, Expects, Flags, IpfwDraft, NatDraft, NatExpects, RedirectDraft, RuleDraft,
};
pub use laws::{fitting_walks_are_regular, spelled_fits, spelled_walks_are_regular};
pub use pass::{Pass, Step};
pub use words::{ActionWord, NatWord, TestOption};
