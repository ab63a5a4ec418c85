//! The filter rules of pf that move packets through the nodes of a decision tree.
#![tactic(auto)]

mod conds;
mod default;
mod literals;
mod nodes;
mod passes;
mod plan;
mod put;
mod set_pieces;
mod states;
mod tested;

pub use literals::narrowed;
pub use plan::Plan;
pub use put::put_filter;
pub use set_pieces::pieces;
pub use states::states_of;
