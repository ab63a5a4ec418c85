//! What rules see of a packet.

/// What a rule sees of a packet.
#[derive(Clone, Copy, Debug, PartialEq, Eq)]
pub enum Seen {
    /// The packet as it enters.
    Entered,
    /// The packet with the destination with which its connection sends it, and all else as it enters.
    Routed,
}
