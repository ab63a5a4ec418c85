//! Where interfaces are shown that are in a set.

ghost use Rattle.std.specs.Prelude.{◌≡◌, ◌&&◌, ◌||◌, not, ℕ, nat_eq, if◌then◌else◌, None, IfOk};
ghost use Rattle.fws_iv.specs.Ivs.{has};
ghost use Rattle.fws_box.specs.Boxes.{sides_of};
ghost use Rattle.fws_box.specs.Fields.{value_of};
ghost use Rattle.fws_net.specs.Conditions.{is_shown};
ghost use Rattle.fws_net.specs.Points.{packet_of};
ghost use Rattle.fws_net.specs.Routes.{is_local, route_of, IsSound};
ghost use Rattle.fws_net.specs.Showing.{receiving, sending};
ghost use Rattle.fws_box_conditions.specs.Scenes.{standing_addr, standing_packet, view_of};
ghost use Rattle.fws_box_conditions.specs.Areas.{AreWhere, IsOfSite};
ghost use Rattle.fws_box_conditions.specs.Ways.{AreWaysOf};

use crate::address_boxes::address_boxes;
use crate::field_boxes::field_boxes;
use crate::kept::those_in;
use crate::numbers::{HOST, LOOPBACK};
use crate::scene::{Scene, Standing};
use crate::sets::{routed_set, single};
use crate::ways::Ways;
use bumpalo::Bump;
use fws_box::{Field, PBox};
use fws_iv::Ivs;
use fws_net::Site;
use fws_num::Memory;
use std::alloc::Global;

/// Where the packet arrived at an interface of the set.
fn received_boxes<'b>(
    alloc: Global,
    bump: &'b Bump,
    set: &Ivs,
    area: &PBox<'b>,
) -> Result<Vec<PBox<'b>>, Memory>
    ensures { IfOk result (λ boxes. AreWhere (sides_of area.now) (λ p. is_shown (receiving (packet_of p)) set.now) boxes.items) }
{
    let arriving = set.minus(alloc, &single(alloc, HOST)?)?;
    field_boxes(alloc, bump, Field::Entry, &arriving, area)
}

/// Where a receiving interface of the set is shown.
pub(crate) fn recv_boxes<'b>(
    alloc: Global,
    bump: &'b Bump,
    scene: &Scene,
    set: &Ivs,
    area: &PBox<'b>,
) -> Result<Vec<PBox<'b>>, Memory>
    ensures { IfOk result (λ boxes. AreWhere (sides_of area.now) (λ p. is_shown (if scene.now.shows_recv then receiving (packet_of p) else None) set.now) boxes.items) }
{
    if scene.shows_recv {
        received_boxes(alloc, bump, set, area)
    } else {
        Ok(Vec::new(alloc))
    }
}

/// Where the packet goes to another host by an interface of the set: the host's own packets, and others where
/// the site forwards.
fn routed_boxes<'b>(
    alloc: Global,
    bump: &'b Bump,
    site: &Site,
    ways: &Ways,
    dst: Standing,
    set: &Ivs,
    area: &PBox<'b>,
) -> Result<Vec<PBox<'b>>, Memory>
    requires sound { IsSound site.now }
    requires ways { AreWaysOf site.now ways.now }
    requires within { IsOfSite site.now (sides_of area.now) }
    ensures { IfOk result (λ boxes. AreWhere (sides_of area.now) (λ p. (has set.now (route_of site.now (standing_addr dst (value_of p Field.Dst) (value_of p Field.SentDst))) && not (is_local site.now (standing_addr dst (value_of p Field.Dst) (value_of p Field.SentDst)))) && (site.now.forwarding || nat_eq (value_of p Field.Entry) 0)) boxes.items) }
{
    let there = routed_set(alloc, site, ways, set)?.minus(alloc, &ways.local)?;
    let boxes = address_boxes(alloc, bump, dst, Field::Dst, Field::SentDst, &there, area)?;
    if site.forwarding {
        Ok(boxes)
    } else {
        those_in(alloc, bump, boxes, Field::Entry, &single(alloc, HOST)?)
    }
}

/// Where the host sends to a local address, if loopback is asked for.
fn looped_boxes<'b>(
    alloc: Global,
    bump: &'b Bump,
    site: &Site,
    ways: &Ways,
    dst: Standing,
    asked: bool,
    area: &PBox<'b>,
) -> Result<Vec<PBox<'b>>, Memory>
    requires { AreWaysOf site.now ways.now }
    ensures { IfOk result (λ boxes. AreWhere (sides_of area.now) (λ p. asked && (is_local site.now (standing_addr dst (value_of p Field.Dst) (value_of p Field.SentDst)) && nat_eq (value_of p Field.Entry) 0)) boxes.items) }
{
    if asked {
        let boxes = address_boxes(
            alloc,
            bump,
            dst,
            Field::Dst,
            Field::SentDst,
            &ways.local,
            area,
        )?;
        those_in(alloc, bump, boxes, Field::Entry, &single(alloc, HOST)?)
    } else {
        Ok(Vec::new(alloc))
    }
}

/// Where the packet leaves by an interface of the set, with its destination as it stands.
fn sent_boxes<'b>(
    alloc: Global,
    bump: &'b Bump,
    site: &Site,
    ways: &Ways,
    scene: &Scene,
    set: &Ivs,
    area: &PBox<'b>,
) -> Result<Vec<PBox<'b>>, Memory>
    requires sound { IsSound site.now }
    requires ways { AreWaysOf site.now ways.now }
    requires within { IsOfSite site.now (sides_of area.now) }
    ensures { IfOk result (λ boxes. AreWhere (sides_of area.now) (λ p. is_shown (sending site.now (standing_packet scene.now p)) set.now) boxes.items) }
{
    let mut boxes = routed_boxes(alloc, bump, site, ways, scene.dst, set, area)?;
    let asked = set.has(LOOPBACK);
    let mut looped = looped_boxes(alloc, bump, site, ways, scene.dst, asked, area)?;
    boxes.append(&mut looped)?;
    Ok(boxes)
}

/// Where a sending interface of the set is shown.
pub(crate) fn xmit_boxes<'b>(
    alloc: Global,
    bump: &'b Bump,
    site: &Site,
    ways: &Ways,
    scene: &Scene,
    set: &Ivs,
    area: &PBox<'b>,
) -> Result<Vec<PBox<'b>>, Memory>
    requires sound { IsSound site.now }
    requires ways { AreWaysOf site.now ways.now }
    requires within { IsOfSite site.now (sides_of area.now) }
    ensures { IfOk result (λ boxes. AreWhere (sides_of area.now) (λ p. is_shown (if scene.now.shows_xmit then sending site.now (standing_packet scene.now p) else None) set.now) boxes.items) }
{
    if scene.shows_xmit {
        sent_boxes(alloc, bump, site, ways, scene, set, area)
    } else {
        Ok(Vec::new(alloc))
    }
}

/// Where the interface of the pass is shown and in the set.
pub(crate) fn via_boxes<'b>(
    alloc: Global,
    bump: &'b Bump,
    site: &Site,
    ways: &Ways,
    scene: &Scene,
    set: &Ivs,
    area: &PBox<'b>,
) -> Result<Vec<PBox<'b>>, Memory>
    requires sound { IsSound site.now }
    requires ways { AreWaysOf site.now ways.now }
    requires within { IsOfSite site.now (sides_of area.now) }
    ensures { IfOk result (λ boxes. AreWhere (sides_of area.now) (λ p. is_shown (if scene.now.outward then (view_of site.now scene.now p).xmit else (view_of site.now scene.now p).recv) set.now) boxes.items) }
{
    if scene.outward {
        xmit_boxes(alloc, bump, site, ways, scene, set, area)
    } else {
        recv_boxes(alloc, bump, scene, set, area)
    }
}
