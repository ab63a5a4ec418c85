//! What a rule sees of a packet.

use crate::packet::Packet;
use fws_num::Items;

/// What a rule sees of a packet.
#[derive(Drop)]
pub struct View {
    /// The packet's fields as they now stand.
    pub packet: Packet,
    /// The entry number of the receiving interface, where it is shown.
    pub recv: Option<u8>,
    /// The entry number of the sending interface, where it is shown.
    pub xmit: Option<u8>,
    /// Whether the packet leaves.
    pub outward: bool,
    /// Whether it belongs to a tracked connection.
    pub est: bool,
    /// Its tags.
    pub tags: Items<u32>,
}
