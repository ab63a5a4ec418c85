//! What a walk gives, and what becomes of the packet.

ghost use Rattle.std.specs.Prelude.{◌≡◌, ◌≤◌, ◌<◌, ◌-◌, ◌^◌, ◌%◌, None};

/// An end of a connection that a rule writes: the first bits of an address, and maybe a port.
#[derive(Clone, Copy, Debug, PartialEq, Eq, PartialOrd, Ord, Hash)]
pub struct End {
    /// The address. Its bits past the length are 0.
    pub addr: u32,
    /// How many bits are written, 1 to 32.
    pub len: u8,
    /// The port, which only a whole address has. Without one the port is kept.
    pub port: Option<u16>,
    pub ghost len_low: { 1 ≤ len },
    pub ghost len_high: { len ≤ 32 },
    pub ghost clear: { addr % 2 ^ (32 - len) ≡ 0 },
    pub ghost port_on_whole: { len < 32 → port ≡ None },
}

/// What is written over the source and the destination of an accepted packet.
#[derive(Clone, Copy, Debug, PartialEq, Eq, PartialOrd, Ord, Hash)]
pub struct Rewrite {
    /// The source that is written, if one is.
    pub src: Option<End>,
    /// The destination that is written, if one is.
    pub dst: Option<End>,
}

/// What a walk through a firewall gives.
#[derive(Clone, Copy, Debug, PartialEq, Eq, PartialOrd, Ord, Hash)]
pub enum Outcome {
    /// The packet is dropped.
    Drop,
    /// The packet is accepted, with this rewriting.
    Accept(Rewrite),
}

/// What the user sees of a packet.
#[derive(Clone, Copy, Debug, PartialEq, Eq)]
pub enum Fate {
    /// It is dropped.
    Dropped,
    /// It is sent on with these addresses and ports.
    Sent {
        /// The destination address.
        dst: u32,
        /// The destination port.
        dport: u16,
        /// The source address.
        src: u32,
        /// The source port.
        sport: u16,
    },
}
