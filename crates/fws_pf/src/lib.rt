//! pf of FreeBSD, as pf.conf(5) writes its rules: what a text spells, and what a packet meets.
#![tactic(auto)]

mod config;
mod laws;
mod macros;
pub mod model;
mod rule_draft;
mod statement;
mod tables;
mod text_draft;
mod value_draft;
mod words;

pub use config::{PfConfig, PfNat, PfRule, Way};
pub use laws::{fitting_walks_are_regular, spelled_fits, spelled_walks_are_regular};
pub use macros::Macro;
pub use rule_draft::{Choice, Expects, Place, RuleDraft, Target, Verb};
pub use statement::{Mode, Statement, TableDraft, TableExpects};
pub use tables::Table;
pub use text_draft::PfDraft;
pub use value_draft::{Item, Operator, Part, ValueDraft, ValueExpects, ValueKind};
pub use words::{ActionWord, OptionWord};
