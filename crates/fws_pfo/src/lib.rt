//! pf of OpenBSD, as its pf.conf(5) writes its rules: what a text spells, and what a packet meets.
#![tactic(auto)]

mod config;
mod laws;
pub mod model;
mod rule_draft;
mod statement;
mod text_draft;
mod tracking;

pub use config::{PfoConfig, PfoKind, PfoRule};
pub use fws_pf::Way;
pub use laws::{fitting_walks_are_regular, spelled_fits, spelled_walks_are_regular};
pub use rule_draft::{PfoExpects, PfoRuleDraft};
pub use statement::PfoStatement;
pub use text_draft::PfoDraft;
pub use tracking::tracks;
