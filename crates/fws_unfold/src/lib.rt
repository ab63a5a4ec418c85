//! Control diagrams unfolded into flat code.
#![tactic(auto)]

mod answer;
mod blocks;
mod calls;
mod depth;
mod draft;
mod emitting;
mod frame;
mod laws;
mod loops;
mod numbering;
mod placing;
mod reaching;
mod refusing;
mod sizes;
mod stack;
mod stacking;
mod unfolding;

pub use answer::UnfoldAnswer;
pub use laws::told_each;
pub use unfolding::{unfold, unfold_from};
