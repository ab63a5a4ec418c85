//! Control diagrams: chains of rules that call one another, and the stages in which a packet meets them.
#![tactic(auto)]

mod diagram;
mod laws;
pub mod model;
mod refusal;
mod soundness;
mod step;

pub use diagram::{Act, Chain, Ifcl, Place, Rule, Spot, Stage};
pub use laws::{
    loops_are_found, loops_are_real, ok_diagrams_name_chains, refused_loops_are_real,
    sizes_stand_still, sizes_unfold, unrefused_have_no_loop, uses_unfold, walks_stand_still,
    walks_unfold,
};
pub use refusal::UnfoldRefusal;
pub use soundness::ifcl_ok;
pub use step::{ChainEnd, Step};
