//! Points of rows, and the packets of points.

ghost use Rattle.std.specs.Prelude.{◌≡◌, ℕ, ◌<◌, true, List, length, slice_set, MatchOption};
ghost use Rattle.fws_box.specs.Sides.{IsWithin, sides_have};
ghost use Rattle.fws_dead.specs.Points.{bounds};
ghost use Rattle.fws_iv.specs.Ivs.{has};
ghost use Rattle.fws_net.specs.Points.{tops_of, packet_of};
ghost use Rattle.fws_net.specs.Routes.{IsSound};
ghost use Rattle.fws_net.specs.declared.site.Site.{Site};
ghost use Rattle.fws_trace.specs.Outcomes.{rec_of, kind_of};

use fws_box::Point;
use fws_iv::Ivs;
use fws_net::{Kind, Packet, Rec, State};

/// The greatest values of the fields for packets of a kind: of new ones the last four fields, which their table doesn't
/// look at, are 0.
pub(crate) fn bounds(state: State, tops: &Point) -> Point
    ensures { result ≡ bounds state tops.now }
{
    let mut bounds = *tops;
    match state {
        State::Fresh => {
            bounds[8] = 0;
            bounds[9] = 0;
            bounds[10] = 0;
            bounds[11] = 0;
        }
        State::Est => {}
    }
    bounds
}

/// The least value of a set, if it has one.
fn least_of(set: &Ivs) -> Option<u32>
    ensures { MatchOption result ((x : ℕ) → has set.now x ≡ true → ⊥) (λ x. has set.now x ≡ true) }
{
    match set.parts().first() {
        Some(part) => Some(part.lo),
        None => None,
    }
}

/// The point of the least value of each side, if each has one.
pub(crate) fn least_point(sides: &[Ivs; 12]) -> Option<Point>
    ensures { MatchOption result ((p : List ℕ) → sides_have sides.now p ≡ true → ⊥) (λ q. (length q ≡ 12) × (sides_have sides.now q ≡ true)) }
{
    let mut point = [0; 12];
    for k in 0..12 {
        point[k] = least_of(&sides[k])?;
    }
    Some(point)
}

/// The point with another value for a field.
pub(crate) fn point_with(point: &Point, field: usize, value: u32) -> Point
    requires { field < 12 }
    ensures { result ≡ slice_set point.now field value }
{
    let mut changed = *point;
    changed[field] = value;
    changed
}

/// The packet of a point.
pub(crate) fn packet_at(point: &Point) -> Packet
    requires { (site : Site) × IsSound site × IsWithin (tops_of site) point.now }
    ensures { result ≡ packet_of point.now }
{
    Packet {
        entry: point[0] as u8,
        proto: point[1] as u8,
        dst: point[2],
        dport: point[3] as u16,
        src: point[4],
        sport: point[5] as u16,
        flags: point[6] as u8,
        icmp: point[7] as u8,
    }
}

/// The ends of a point: what a connection sends its packet with.
fn ends_at(point: &Point) -> Rec
    requires { (site : Site) × IsWithin (tops_of site) point.now }
    ensures { result ≡ rec_of point.now }
{
    Rec {
        rdst: point[8],
        rdport: point[9] as u16,
        rsrc: point[10],
        rsport: point[11] as u16,
    }
}

/// The class of the packet of a point.
pub(crate) fn kind_at(state: State, point: &Point) -> Kind
    requires { (site : Site) × IsWithin (tops_of site) point.now }
    ensures { result ≡ kind_of state point.now }
{
    match state {
        State::Fresh => Kind::New,
        State::Est => Kind::Est(ends_at(point)),
    }
}
