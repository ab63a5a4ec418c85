//! Two packets or pairs that are named together.

ghost use Rattle.std.specs.Prelude.{◌≡◌};
ghost use Rattle.fws_box.specs.Sides.{IsWithin};
ghost use Rattle.fws_place.specs.Meaning.{widest};
ghost use Rattle.fws_place.specs.NamedTwo.{packets_at, pairs_at};

use crate::breach::Pair;
use crate::point::{ends_at, packet_at};
use fws_box::Point;

/// The packets of two points.
pub(crate) fn packets_at(first: &Point, second: &Point) -> (Pair, Option<Pair>)
    requires first { IsWithin widest first.now }
    requires second { IsWithin widest second.now }
    ensures { result ≡ packets_at first.now second.now }
{
    let packet = packet_at(first);
    let other = packet_at(second);
    (
        Pair { packet, rec: None },
        Some(Pair {
            packet: other,
            rec: None,
        }),
    )
}

/// The pairs of two points.
pub(crate) fn pairs_at(first: &Point, second: &Point) -> (Pair, Option<Pair>)
    requires first { IsWithin widest first.now }
    requires second { IsWithin widest second.now }
    ensures { result ≡ pairs_at first.now second.now }
{
    let packet = packet_at(first);
    let ends = ends_at(first);
    let other = packet_at(second);
    let other_ends = ends_at(second);
    (
        Pair {
            packet,
            rec: Some(ends),
        },
        Some(Pair {
            packet: other,
            rec: Some(other_ends),
        }),
    )
}
