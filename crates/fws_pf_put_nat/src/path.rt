//! What translations ask of a packet.

ghost use Rattle.std.specs.Prelude.{◌≡◌};
ghost use Rattle.fws_pf_put_nat.specs.Paths.{no_parts, with_part};

use crate::side::Side;
use fws_iv::Iv;

/// What translations ask of a packet: the range of numbers in which a field lies, for each field that is tested.
#[derive(Clone, Copy, Debug, PartialEq, Eq)]
pub struct Path {
    /// The interface by which it comes in.
    pub entry: Option<Iv>,
    /// The protocol.
    pub proto: Option<Iv>,
    /// The destination.
    pub dst: Option<Iv>,
    /// The destination's port.
    pub dport: Option<Iv>,
    /// The source.
    pub src: Option<Iv>,
    /// The source's port.
    pub sport: Option<Iv>,
}

/// Nothing is asked.
pub(crate) fn whole_path() -> Path
    ensures { result ≡ no_parts }
{
    Path {
        entry: None,
        proto: None,
        dst: None,
        dport: None,
        src: None,
        sport: None,
    }
}

/// The path on which the field lies in this range.
pub(crate) fn narrowed(path: Path, side: Side, part: Iv) -> Path
    ensures { result ≡ with_part side part path }
{
    let mut next = path;
    match side {
        Side::Entry => next.entry = Some(part),
        Side::Proto => next.proto = Some(part),
        Side::Dst => next.dst = Some(part),
        Side::Dport => next.dport = Some(part),
        Side::Src => next.src = Some(part),
        Side::Sport => next.sport = Some(part),
    }
    next
}

/// The range of one number.
pub(crate) fn only(v: u32) -> Iv
    ensures { result ≡ record { lo = v; hi = v } }
{
    Iv { lo: v, hi: v }
}
