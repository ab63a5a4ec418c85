//! iptables, as iptables-save(8) writes it: what a text spells, and what a packet meets.
#![tactic(auto)]

mod builtin;
mod config;
mod draft;
mod hook;
mod laws;
pub mod model;
mod passage;
mod plainness;
mod refusal;
mod words;

pub use builtin::{builtin_at, stands_at};
pub use config::{IptChain, IptConfig, IptGo, IptRule, IptTable};
pub use draft::{Expects, IptDraft, OtherChain, RuleDraft, Section};
pub use hook::Hook;
pub use laws::{
    asked_walks_are_regular, fitting_names_chains, loops_are_found, loops_are_real,
    refused_loops_are_real, sizes_stand_still, sizes_unfold, spelled_chains, spelled_conditions,
    spelled_fits, spelled_networks, spelled_walks_are_regular, unrefused_have_no_loop,
    walks_stand_still, walks_unfold,
};
pub use passage::{ChainEnd, Passage};
pub use plainness::filter_only;
pub use refusal::UnfoldRefusal;
pub use words::{Keyword, TargetOption, TargetWord, TestOption};
