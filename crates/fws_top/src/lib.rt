//! The commands of FWS, and what each of them answers.
#![tactic(auto)]

mod answer;
mod answering;
mod ask;
mod ask_set;
mod asked_sides;
mod command_name;
mod commands;
mod form;
mod ios;
mod ipfw;
mod iptables;
mod lang;
mod language;
mod laws;
mod lines;
mod loading;
mod noting;
mod openbsd;
mod pages;
mod pf;
mod placed;
mod policy;
mod running;
mod source;
mod status;
mod steps;
mod suggesting;
mod tables;
mod texts;
mod translating;
mod unused_rules;

pub use command_name::CommandName;
pub use ios::Ios;
pub use ipfw::Ipfw;
pub use iptables::Iptables;
pub use lang::{SourceLang, TargetLang};
pub use language::Language;
pub use laws::{
    load_words_are_shown, loads_are_shown, regular_walks_make_regular_tables,
    spelled_tables_are_regular, translations_keep_step,
};
pub use openbsd::Openbsd;
pub use pf::Pf;
pub use running::run;
pub use source::Source;
pub use status::Status;
pub use texts::{FILE_LIMIT, HELP, USAGE, VERSION};
