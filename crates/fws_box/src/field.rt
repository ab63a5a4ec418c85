//! The fields of a point.

ghost use Rattle.std.specs.Prelude.{◌≡◌, ◌<◌, ◌^◌};
ghost use Rattle.fws_box.specs.Fields.{place_of};

/// A field of a point, in the order of the points' values.
#[derive(Clone, Copy, Debug, PartialEq, Eq)]
pub enum Field {
    /// The entry number of the interface from which the packet comes.
    Entry,
    /// The protocol.
    Proto,
    /// The destination.
    Dst,
    /// The destination's port.
    Dport,
    /// The source.
    Src,
    /// The source's port.
    Sport,
    /// The TCP flags.
    Flags,
    /// The ICMP type.
    Icmp,
    /// The destination with which the connection sends the packet.
    SentDst,
    /// That destination's port.
    SentDport,
    /// The source with which the connection sends the packet.
    SentSrc,
    /// That source's port.
    SentSport,
}

impl Field {
    /// All fields, in their order.
    pub const ALL: [Field; 12] = [
        Field::Entry,
        Field::Proto,
        Field::Dst,
        Field::Dport,
        Field::Src,
        Field::Sport,
        Field::Flags,
        Field::Icmp,
        Field::SentDst,
        Field::SentDport,
        Field::SentSrc,
        Field::SentSport,
    ];

    /// The place of the field's value in a point, and of its set in a box.
    pub fn place(self) -> usize
        ensures place { result ≡ place_of self }
        ensures low { place_of self < 12 }
    {
        match self {
            Field::Entry => 0,
            Field::Proto => 1,
            Field::Dst => 2,
            Field::Dport => 3,
            Field::Src => 4,
            Field::Sport => 5,
            Field::Flags => 6,
            Field::Icmp => 7,
            Field::SentDst => 8,
            Field::SentDport => 9,
            Field::SentSrc => 10,
            Field::SentSport => 11,
        }
    }

    /// The field at a place.
    pub fn at(place: usize) -> Field
        requires { place < 12 }
        ensures { place_of result ≡ place }
    {
        Field::ALL[place]
    }

    /// A number in which the bit at the field's place alone is set.
    pub fn bit(self) -> u16
        ensures { result ≡ 2 ^ place_of self }
    {
        2u16.pow(self.place() as u32)
    }
}
