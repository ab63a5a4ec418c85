//! Execution of flat code on sets of packets.
#![tactic(auto)]

mod behind;
mod called;
mod closed;
mod divide;
mod equal;
mod errand;
mod execution;
mod going;
mod groups;
mod hull;
mod hulls;
mod idle;
mod joining;
mod key;
mod leap;
mod look;
mod marks;
mod merge;
mod moving;
mod noting;
mod parts;
mod pass;
mod progress;
mod reaching;
mod region;
mod roll;
mod routing;
mod rows;
mod run;
mod sheet;
mod spot;
mod stages;
mod stays;
mod through;
mod truth;
mod turn;
mod views;
mod walk;

pub use execution::{execute_tree, execute_within};
pub use reaching::reach;
pub use rows::execute;
