//! The fields that translations test.

ghost use Rattle.std.specs.Prelude.{◌≡◌, ◌≤◌, MatchOption};
ghost use Rattle.fws_pf_put_nat.specs.Paths.{number_of};

/// A field of a packet that translations test.
#[derive(Clone, Copy, Debug, PartialEq, Eq)]
pub enum Side {
    /// The interface by which it comes in.
    Entry,
    /// The protocol.
    Proto,
    /// The destination.
    Dst,
    /// The destination's port.
    Dport,
    /// The source.
    Src,
    /// The source's port.
    Sport,
}

/// The field with this number among the fields of a point, if translations test it.
pub(crate) fn side_at(f: u8) -> Option<Side>
    ensures { MatchOption result (6 ≤ f) (λ side. number_of side ≡ f) }
{
    match f {
        0 => Some(Side::Entry),
        1 => Some(Side::Proto),
        2 => Some(Side::Dst),
        3 => Some(Side::Dport),
        4 => Some(Side::Src),
        5 => Some(Side::Sport),
        _ => None,
    }
}
