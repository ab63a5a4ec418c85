//! How a walk goes on.

use fws_net::Transit;

/// How a walk goes on behind an instruction whose condition holds.
#[derive(Drop)]
pub enum Step {
    /// The part is left; none where the packet is dropped.
    Leave(Option<Transit>),
    /// At the next instruction of the part that doesn't stand before this place; 0 is the next of all.
    Onwards(u32, Transit),
}
