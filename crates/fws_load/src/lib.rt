//! A site, and filters of any length at it: what trials of size run on.
#![tactic(auto)]

mod filter;
mod site;

pub use filter::load_text;
pub use site::load_site;
