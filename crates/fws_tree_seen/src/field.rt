//! The fields of a packet that rules test.

ghost use Rattle.std.specs.Prelude.{◌≡◌};
ghost use Rattle.fws_tree_seen.specs.Shown.{field_of, shown_as, seen_field};

use crate::seen::Seen;

/// A field of a packet.
#[derive(Clone, Copy, Debug, PartialEq, Eq)]
pub enum PacketField {
    /// The protocol.
    Proto,
    /// The destination.
    Dst,
    /// The destination's port.
    Dport,
    /// The source.
    Src,
    /// The source's port.
    Sport,
    /// The TCP flags.
    Flags,
    /// The ICMP type.
    Icmp,
}

// The field of a packet that has this number among the fields of a point.
fn numbered_field(f: u8) -> Option<PacketField>
    ensures { result ≡ field_of f }
{
    match f {
        1 => Some(PacketField::Proto),
        2 => Some(PacketField::Dst),
        3 => Some(PacketField::Dport),
        4 => Some(PacketField::Src),
        5 => Some(PacketField::Sport),
        6 => Some(PacketField::Flags),
        7 => Some(PacketField::Icmp),
        _ => None,
    }
}

// The number of the packet's field that is seen in place of a field of a point.
fn shown_number(seen: Seen, f: u8) -> u8
    ensures { result ≡ shown_as seen f }
{
    match seen {
        Seen::Entered => f,
        Seen::Routed => routed_number(f),
    }
}

// The same where the destination of the connection is seen.
fn routed_number(f: u8) -> u8
    ensures { result ≡ shown_as Seen.Routed f }
{
    if f == 2 || f == 3 {
        return 0;
    }
    if f == 8 {
        return 2;
    }
    if f == 9 {
        return 3;
    }
    f
}

/// The packet's field that a rule sees in place of the field of a point with this number: as the packet
/// enters, or behind routing with the destination of its connection. There is none for the entry, for a
/// field that isn't seen, and for a number that no field of a point has.
pub fn packet_field(seen: Seen, f: u8) -> Option<PacketField>
    ensures { result ≡ seen_field seen f }
{
    numbered_field(shown_number(seen, f))
}
