//! What entries ask of packets.

ghost use Rattle.std.specs.Prelude.{◌≡◌};
ghost use Rattle.fws_ios_put_entries.specs.Narrowing.{under, with_net, with_number, with_range};
ghost use Rattle.fws_ios_put_entries.specs.Paths.{nothing_asked};

use crate::side::Side;
use fws_iv::Iv;
use fws_num::Prefix;

/// What an entry asks of a packet.
#[derive(Clone, Copy, Debug, PartialEq, Eq, Hash)]
pub struct Path {
    /// The protocol.
    pub proto: Option<u8>,
    /// The source.
    pub src: Option<Prefix>,
    /// The source's port.
    pub sport: Option<Iv>,
    /// The destination.
    pub dst: Option<Prefix>,
    /// The destination's port.
    pub dport: Option<Iv>,
    /// The type of ICMP.
    pub icmp: Option<u8>,
}

/// Nothing is asked.
pub fn whole_path() -> Path
    ensures { result ≡ nothing_asked }
{
    Path {
        proto: None,
        src: None,
        sport: None,
        dst: None,
        dport: None,
        icmp: None,
    }
}

/// The path under this protocol.
pub(crate) fn under(path: Path, proto: u8) -> Path
    ensures { result ≡ under proto path }
{
    let mut next = path;
    next.proto = Some(proto);
    next
}

/// The path asks for this number of a protocol or a type.
pub(crate) fn on_number(path: Path, side: Side, n: u8) -> Path
    ensures { result ≡ with_number side n path }
{
    let mut next = path;
    match side {
        Side::Proto => next.proto = Some(n),
        Side::Icmp => next.icmp = Some(n),
        Side::Src | Side::Sport | Side::Dst | Side::Dport => {}
    }
    next
}

/// The path asks for these addresses; all addresses aren't asked for.
pub(crate) fn on_net(path: Path, side: Side, net: Prefix) -> Path
    ensures { result ≡ with_net side net path }
{
    if net.len == 0 {
        return path;
    }
    let mut next = path;
    match side {
        Side::Src => next.src = Some(net),
        Side::Dst => next.dst = Some(net),
        Side::Proto | Side::Sport | Side::Dport | Side::Icmp => {}
    }
    next
}

/// The path asks for these ports.
pub(crate) fn on_range(path: Path, side: Side, range: Iv) -> Path
    ensures { result ≡ with_range side range path }
{
    let mut next = path;
    match side {
        Side::Sport => next.sport = Some(range),
        Side::Dport => next.dport = Some(range),
        Side::Proto | Side::Src | Side::Dst | Side::Icmp => {}
    }
    next
}
