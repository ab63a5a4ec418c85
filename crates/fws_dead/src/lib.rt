//! Comparisons of policies: whether two do the same, else a packet with which they don't; and the rules of one that no packet uses.
#![tactic(auto)]

mod compare;
mod comparing;
mod laid;
mod point;
mod row;
mod rules;
mod search;
mod spelling;
mod unequal;
mod unused;
mod used;
mod written;

pub use compare::{Compare, Pair};
pub use comparing::same;
pub use rules::{put_dead, put_rule_line};
pub use spelling::{put_comparison, put_pair_words};
pub use unused::dead;
