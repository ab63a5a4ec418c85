//! Tracked connections.

/// What tells the packets of one direction of a connection.
#[derive(Clone, Copy, Debug, PartialEq, Eq)]
pub struct Tuple {
    /// The IP protocol.
    pub proto: u8,
    /// The destination address.
    pub dst: u32,
    /// The destination port. It counts for TCP and UDP alone.
    pub dport: u16,
    /// The source address.
    pub src: u32,
    /// The source port. It counts for TCP and UDP alone.
    pub sport: u16,
}

/// A tracked connection.
#[derive(Clone, Copy, Debug, PartialEq, Eq)]
pub struct Conn {
    /// The packets in the direction of the first one, as they enter.
    pub orig: Tuple,
    /// The packets in the other direction, as they enter.
    pub reply: Tuple,
}

/// The ends of an established packet as it leaves.
#[derive(Clone, Copy, Debug, PartialEq, Eq)]
pub struct Rec {
    /// The destination address.
    pub rdst: u32,
    /// The destination port.
    pub rdport: u16,
    /// The source address.
    pub rsrc: u32,
    /// The source port.
    pub rsport: u16,
}

/// The class of a packet against the tracked connections.
#[derive(Clone, Copy, Debug, PartialEq, Eq)]
pub enum Kind {
    /// It belongs to none.
    New,
    /// It belongs to one, and leaves with these ends.
    Est(Rec),
}
