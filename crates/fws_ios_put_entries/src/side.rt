//! The fields that entries ask for.

ghost use Rattle.std.specs.Prelude.{◌≡◌, ◌⊎◌, ◌≤◌, MatchOption};
ghost use Rattle.fws_ios_put_entries.specs.Paths.{number_of};

/// A field of a packet that entries ask for.
#[derive(Clone, Copy, Debug, PartialEq, Eq)]
pub enum Side {
    /// The protocol.
    Proto,
    /// The source.
    Src,
    /// The source's port.
    Sport,
    /// The destination.
    Dst,
    /// The destination's port.
    Dport,
    /// The type of ICMP.
    Icmp,
}

/// The field with this number among the fields of a point, if entries ask for it.
pub fn side_at(f: u8) -> Option<Side>
    ensures { MatchOption result ((f ≡ 0) ⊎ (f ≡ 6) ⊎ (8 ≤ f)) (λ side. number_of side ≡ f) }
{
    match f {
        1 => Some(Side::Proto),
        2 => Some(Side::Dst),
        3 => Some(Side::Dport),
        4 => Some(Side::Src),
        5 => Some(Side::Sport),
        7 => Some(Side::Icmp),
        _ => None,
    }
}
