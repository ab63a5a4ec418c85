//! Reads texts of pf.conf(5).
#![tactic(auto)]

mod asked;
mod checks;
mod definitions;
mod draft;
mod drawn;
mod ended;
mod held;
mod keywords;
mod made;
mod options;
mod progress;
mod reader;
mod rule;
mod statement;
mod steps;
mod takes_words;
mod taking;
mod target;
mod text;
mod whole_statement;

pub use definitions::all_tables;
pub use ended::{early, is_open, is_written};
pub use held::{HeldTable, HeldValue};
pub use keywords::misplaced;
pub use made::target_end;
pub use reader::read;
pub use rule::{Rule, dismiss_rule, fresh_rule, rule_conditions, rule_step};
pub use steps::value_place;
pub use takes_words::TakesWords;
pub use taking::raws_taken;
pub use target::{face_target, kept_static, mapped, may_be_mapped};
