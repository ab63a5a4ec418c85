//! What is said on standard error beside an answer: where a text is refused and what to write there, which word of a command line
//! isn't understood, why a policy can't be placed, and what a configuration has that its answer doesn't show. Nothing is promised
//! of it but that it ends and is safe.
#![tactic(auto)]

mod advising;
mod breaches;
mod bytes;
mod chains;
mod clauses;
mod completions;
mod contexts;
mod cutting;
mod fields;
mod forms;
mod ground;
mod judging;
mod keeping;
mod kinds;
mod lists;
mod losses;
mod marking;
mod near;
mod packets;
mod redirects;
mod refusals;
mod report;
mod rows;
mod rows_dialects;
mod rows_ios;
mod rows_ipfw;
mod rows_iptables;
mod rows_pf;
mod rows_site;
mod scanning;
mod showing;
mod site_marks;
mod standing_in;
mod usage;
mod warnings;

pub use advising::{Outcome, advise};
pub use keeping::{KeepingShelf, KeepingSink};
