//! The fields of a space, by number, in the order in which diagrams cut them.

/// How many fields there are.
pub const FIELDS: usize = 10;

/// Whether a connection is new, 0, or established, 1.
pub const STATE: usize = 0;
/// The entry number of the interface from which a packet comes.
pub const ENTRY: usize = 1;
/// The protocol.
pub const PROTO: usize = 2;
/// The destination.
pub const DST: usize = 3;
/// The destination's port.
pub const DPORT: usize = 4;
/// The source.
pub const SRC: usize = 5;
/// The source's port.
pub const SPORT: usize = 6;
/// The TCP flags.
pub const FLAGS: usize = 7;
/// The ICMP type.
pub const ICMP: usize = 8;
/// A tag that earlier rules put on a packet, 0 or 1.
pub const TAG: usize = 9;
