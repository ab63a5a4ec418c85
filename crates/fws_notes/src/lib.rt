//! Notes for texts of policies: the rules of the source that decide at points of each rule, and what of the source doesn't carry over.
//! Nothing is promised of them: who puts them into a text checks the text.
#![tactic(auto)]

mod aims;
mod deciders;
mod evidence;
mod families;
mod guards;
mod heads;
mod invalid;
mod labels;
mod losses;
mod losses_of_ios;
mod losses_of_ipfw;
mod losses_of_iptables;
mod losses_of_pf;
mod marks;
mod notes;
mod pairs;
mod picks;
mod points;
mod rules;
mod walking;

pub use evidence::{Evidence, evidence_of};
pub use heads::headed;
pub use labels::remarks;
pub use losses::{Losses, losses_of};
pub use notes::{Source, noted};
pub use rules::Told;
