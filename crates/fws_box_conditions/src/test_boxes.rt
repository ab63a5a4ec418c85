//! Where a test holds.

ghost use Rattle.std.specs.Prelude.{◌≡◌, nat_eq, IfOk};
ghost use Rattle.std.specs.List.{list_any};
ghost use Rattle.fws_box.specs.Boxes.{sides_of};
ghost use Rattle.fws_net.specs.Conditions.{test_holds};
ghost use Rattle.fws_net.specs.Routes.{IsSound};
ghost use Rattle.fws_box_conditions.specs.Scenes.{view_of};
ghost use Rattle.fws_box_conditions.specs.Areas.{AreWhere, IsOfSite};
ghost use Rattle.fws_box_conditions.specs.Ways.{AreWaysOf};

use crate::address_boxes::address_boxes;
use crate::field_boxes::{all_if, carried_boxes, field_boxes};
use crate::flag_boxes::{any_flag_boxes, flag_boxes};
use crate::interface_boxes::{recv_boxes, via_boxes, xmit_boxes};
use crate::numbers::ICMP;
use crate::port_boxes::port_boxes;
use crate::scene::Scene;
use crate::ways::Ways;
use bumpalo::Bump;
use fws_box::{Field, PBox};
use fws_net::{Site, Test};
use fws_num::Memory;
use std::alloc::Global;

/// Whether the tag is among these.
fn has_tag(tags: &[u32], tag: u32) -> bool
    ensures { result ≡ list_any (nat_eq tag) tags.now }
{
    tags.iter().any(|seen| tag == *seen)
}

/// Boxes of the points of the area at which the test holds, which share none.
pub(crate) fn test_boxes<'b>(
    alloc: Global,
    bump: &'b Bump,
    site: &Site,
    ways: &Ways,
    scene: &Scene,
    test: &Test,
    area: &PBox<'b>,
) -> Result<Vec<PBox<'b>>, Memory>
    requires sound { IsSound site.now }
    requires ways { AreWaysOf site.now ways.now }
    requires within { IsOfSite site.now (sides_of area.now) }
    ensures { IfOk result (λ boxes. AreWhere (sides_of area.now) (λ p. test_holds (view_of site.now scene.now p) test.now) boxes.items) }
{
    match test {
        Test::Src(set) => address_boxes(
            alloc,
            bump,
            scene.src,
            Field::Src,
            Field::SentSrc,
            set,
            area,
        ),
        Test::Dst(set) => address_boxes(
            alloc,
            bump,
            scene.dst,
            Field::Dst,
            Field::SentDst,
            set,
            area,
        ),
        Test::Sport(set) => port_boxes(
            alloc,
            bump,
            scene.src,
            Field::Sport,
            Field::SentSport,
            set,
            area,
        ),
        Test::Dport(set) => port_boxes(
            alloc,
            bump,
            scene.dst,
            Field::Dport,
            Field::SentDport,
            set,
            area,
        ),
        Test::Proto(set) => field_boxes(alloc, bump, Field::Proto, set, area),
        Test::Icmp(set) => carried_boxes(alloc, bump, ICMP, Field::Icmp, set, area),
        Test::Flags { mask, want } => flag_boxes(alloc, bump, *mask, *want, area),
        Test::AnyFlag(mask) => any_flag_boxes(alloc, bump, *mask, area),
        Test::Recv(set) => recv_boxes(alloc, bump, scene, set, area),
        Test::Xmit(set) => xmit_boxes(alloc, bump, site, ways, scene, set, area),
        Test::Via(set) => via_boxes(alloc, bump, site, ways, scene, set, area),
        Test::Outward => all_if(alloc, scene.outward, area),
        Test::Est => all_if(alloc, scene.est, area),
        Test::Tag(tag) => all_if(alloc, has_tag(scene.tags.as_slice(), *tag), area),
        Test::Never => Ok(Vec::new(alloc)),
    }
}
