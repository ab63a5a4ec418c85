//! Sets of fields, over which trees are projected: numbers in which the bits at the fields' places are set. `|` joins them.

use fws_box::Field;

/// The entry.
pub const ENTRY: u16 = 1 << Field::Entry as u16;
/// The protocol.
pub const PROTO: u16 = 1 << Field::Proto as u16;
/// The destination.
pub const DST: u16 = 1 << Field::Dst as u16;
/// The destination's port.
pub const DPORT: u16 = 1 << Field::Dport as u16;
/// The source.
pub const SRC: u16 = 1 << Field::Src as u16;
/// The source's port.
pub const SPORT: u16 = 1 << Field::Sport as u16;
/// The TCP flags.
pub const FLAGS: u16 = 1 << Field::Flags as u16;
/// The ICMP type.
pub const ICMP: u16 = 1 << Field::Icmp as u16;
/// The destination with which a connection sends the packet.
pub const SENT_DST: u16 = 1 << Field::SentDst as u16;
/// That destination's port.
pub const SENT_DPORT: u16 = 1 << Field::SentDport as u16;
/// The source with which a connection sends the packet.
pub const SENT_SRC: u16 = 1 << Field::SentSrc as u16;
/// That source's port.
pub const SENT_SPORT: u16 = 1 << Field::SentSport as u16;
/// All twelve fields.
pub const ALL: u16 = 0xfff;
