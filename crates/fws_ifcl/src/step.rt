//! How a walk goes on.

use fws_net::Transit;

/// How a packet leaves a chain.
#[derive(Drop)]
pub enum ChainEnd {
    /// A rule ended the stage; the packet goes on to the next one.
    Accepted(Transit),
    /// A rule dropped it.
    Dropped,
    /// It came to the chain's end or was sent back.
    Through(Transit),
}

/// How a walk goes on behind a rule whose condition holds.
#[derive(Drop)]
pub enum Step {
    /// The chain is left.
    Leave(ChainEnd),
    /// At the next rule of the chain that doesn't stand before this place; 0 is the next of all.
    Onwards(u32, Transit),
    /// In the chain with this number, and then at the next rule.
    Enter(u32, Transit),
    /// In the chain with this number, for good.
    Switch(u32, Transit),
}

/// How a walk goes on behind a rule, once it is back from a chain that the rule enters.
#[derive(Drop)]
pub(crate) enum Turn {
    /// The chain is left.
    Leave(ChainEnd),
    /// At the next rule of the chain that doesn't stand before this place; 0 is the next of all.
    Onwards(u32, Transit),
}
