//! Rules of control diagrams, as the diagrams of several systems are made of them.
#![tactic(auto)]

mod laws;
mod places;
mod rules;
mod spots;

pub use laws::{
    rules_are_right_by_parts, straight_diagrams_unfold, uses_are_told_by_places, walks_go_by_places,
};
pub use places::{place_behind, sum};
pub use rules::{always, narrowed, put_always, put_guard, put_rule, ruled_by};
pub use spots::put_spot;
