//! What a comparison of two policies says.

use fws_net::{Fate, Packet, Rec};

/// A packet of a new connection, or one that an established connection sends.
#[derive(Clone, Copy, Debug, PartialEq, Eq)]
pub struct Pair {
    /// The packet.
    pub packet: Packet,
    /// The ends with which its connection sends it; none for a new packet.
    pub rec: Option<Rec>,
}

/// Whether two policies do the same.
#[derive(Clone, Copy, Debug, PartialEq, Eq)]
pub enum Compare {
    /// Every packet, new or established, has the same fate under both.
    Same,
    /// One has another fate under the second than under the first.
    Differ {
        /// The packet.
        at: Pair,
        /// Its fate under the first.
        first: Fate,
        /// Its fate under the second.
        second: Fate,
    },
}
