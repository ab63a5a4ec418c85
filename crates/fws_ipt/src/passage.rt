//! A packet on its way.

use fws_net::{Packet, Rewrite};

/// A packet on its way through the chains.
#[derive(Clone, Copy, Debug, PartialEq, Eq)]
pub struct Passage {
    /// Its fields as they stand.
    pub packet: Packet,
    /// Its mark.
    pub mark: u32,
    /// The ends that rules wrote, over the fields with which it entered.
    pub wrote: Rewrite,
}

/// How a packet leaves a chain.
#[derive(Clone, Copy, Debug, PartialEq, Eq)]
pub enum ChainEnd {
    /// A rule ended the table, and the walk goes on.
    Accepted(Passage),
    /// A rule dropped it.
    Dropped,
    /// It came to the chain's end or was sent back.
    Through(Passage),
}
