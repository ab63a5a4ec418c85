//! Points as packets, and as the ends with which connections send them.

ghost use Rattle.std.specs.Prelude.{◌≡◌};
ghost use Rattle.fws_box.specs.Sides.{IsWithin};
ghost use Rattle.fws_net.specs.Points.{packet_of};
ghost use Rattle.fws_place.specs.Meaning.{rec_of, widest};

use fws_box::{Field, Point};
use fws_net::{Packet, Rec};

/// The packet of a point.
pub fn packet_at(point: &Point) -> Packet
    requires { IsWithin widest point.now }
    ensures { result ≡ packet_of point.now }
{
    Packet {
        entry: point[Field::Entry as usize] as u8,
        proto: point[Field::Proto as usize] as u8,
        dst: point[Field::Dst as usize],
        dport: point[Field::Dport as usize] as u16,
        src: point[Field::Src as usize],
        sport: point[Field::Sport as usize] as u16,
        flags: point[Field::Flags as usize] as u8,
        icmp: point[Field::Icmp as usize] as u8,
    }
}

/// The ends of a point: what a connection sends its packet with.
pub fn ends_at(point: &Point) -> Rec
    requires { IsWithin widest point.now }
    ensures { result ≡ rec_of point.now }
{
    Rec {
        rdst: point[Field::SentDst as usize],
        rdport: point[Field::SentDport as usize] as u16,
        rsrc: point[Field::SentSrc as usize],
        rsport: point[Field::SentSport as usize] as u16,
    }
}
