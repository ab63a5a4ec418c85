//! What stands where a rule is met.

use fws_net::End;
use fws_num::Items;

/// How an address and its port stand.
#[derive(Clone, Copy, Debug, PartialEq, Eq)]
pub enum Standing {
    /// As the packet entered.
    Entered,
    /// With an end written over them.
    Written(End),
    /// As the connection sends the packet.
    Tracked,
}

/// What stands where a rule is met, alike for all packets that come there.
#[derive(Drop)]
pub struct Scene {
    /// How the source stands.
    pub src: Standing,
    /// How the destination stands.
    pub dst: Standing,
    /// The receiving interface is shown.
    pub shows_recv: bool,
    /// The sending interface is shown.
    pub shows_xmit: bool,
    /// The packets leave.
    pub outward: bool,
    /// The packets belong to tracked connections.
    pub est: bool,
    /// Their tags.
    pub tags: Items<u32>,
}
