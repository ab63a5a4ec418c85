//! Packets and pairs that are named.

ghost use Rattle.std.specs.Prelude.{◌≡◌, IfOk, MatchOption};
ghost use Rattle.fws_net.specs.Points.{tops_of};
ghost use Rattle.fws_net.specs.Routes.{IsSound};
ghost use Rattle.fws_place.specs.Asked.{IsNamedPacket};
ghost use Rattle.fws_place.specs.Found.{IsNamedPair, IsTrueAtNoPair};

use crate::breach::Pair;
use crate::first_true::first_true;
use crate::point::{ends_at, packet_at};
use fws_net::Site;
use fws_num::Memory;
use fws_tree::Tree;
use std::alloc::Global;

/// A pair at which the tree is true, with no second one. Fails if memory runs out.
pub(crate) fn named_pair(
    alloc: Global,
    site: &Site,
    tree: &Tree<bool>,
) -> Result<Option<(Pair, Option<Pair>)>, Memory>
    requires sound { IsSound site.now }
    requires tops { tree.now.0 ≡ tops_of site.now }
    ensures { IfOk result (λ found. MatchOption found (IsTrueAtNoPair site.now tree.now.1) (IsNamedPair site.now tree.now.1)) }
{
    match first_true(alloc, tree)? {
        Some(point) => {
            let pair = Pair {
                packet: packet_at(&point),
                rec: Some(ends_at(&point)),
            };
            Ok(Some((pair, None)))
        }
        None => Ok(None),
    }
}

/// A packet at which the tree is true with some ends, with no second one. Fails if memory runs out.
pub(crate) fn named_packet(
    alloc: Global,
    site: &Site,
    tree: &Tree<bool>,
) -> Result<Option<(Pair, Option<Pair>)>, Memory>
    requires sound { IsSound site.now }
    requires tops { tree.now.0 ≡ tops_of site.now }
    ensures { IfOk result (λ found. MatchOption found (IsTrueAtNoPair site.now tree.now.1) (IsNamedPacket site.now tree.now.1)) }
{
    match first_true(alloc, tree)? {
        Some(point) => {
            let packet = packet_at(&point);
            Ok(Some((Pair { packet, rec: None }, None)))
        }
        None => Ok(None),
    }
}
