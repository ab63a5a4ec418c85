//! A packet on a pass.

use fws_net::Transit;

/// A packet on its pass through the rules.
#[derive(Drop)]
pub struct Pass {
    /// The packet on its way.
    pub transit: Transit,
    /// Whether it was translated in this pass.
    pub translated: bool,
}

/// How a pass goes on behind a rule whose condition holds.
#[derive(Drop)]
pub enum Step {
    /// It ends, and the packet goes on.
    Accepted(Transit),
    /// The packet is dropped.
    Dropped,
    /// At the first rule behind this one whose number is at least this.
    Onwards(u32, Pass),
}
