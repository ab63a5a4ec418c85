//! Redirects: destinations that are written, with the destinations that packets had.

use fws_net::End;

/// Where packets were sent to that get another destination.
#[derive(Clone, Copy, Debug, PartialEq, Eq, Hash)]
pub struct PublicEnd {
    /// The address.
    pub addr: u32,
    /// The protocol and the port, where a port is written over it.
    pub service: Option<(u8, u16)>,
}

/// A destination that is written, and the one that packets had.
#[derive(Clone, Copy, Debug, PartialEq, Eq, Hash)]
pub struct Redirect {
    /// What is written.
    pub local: End,
    /// Where the packets were sent to.
    pub public: PublicEnd,
}
