//! Where a packet leaves.

/// Where a packet goes once it is routed.
#[derive(Clone, Copy, Debug, PartialEq, Eq)]
pub enum Exit {
    /// To the host itself.
    Deliver,
    /// Out of the interface with this entry number; 1 is loopback.
    Out(u8),
    /// Nowhere: it arrived for another host, and the site doesn't forward.
    Lost,
}
