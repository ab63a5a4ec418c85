//! Where a condition holds.

ghost use Rattle.std.specs.Prelude.{All, IfOk, OnOk};
ghost use Rattle.fws_box.specs.Boxes.{sides_of};
ghost use Rattle.fws_net.specs.Conditions.{lit_holds, holds};
ghost use Rattle.fws_net.specs.Routes.{IsSound};
ghost use Rattle.fws_box_conditions.specs.Kept.{Adds, AreThose};
ghost use Rattle.fws_box_conditions.specs.Scenes.{view_of};
ghost use Rattle.fws_box_conditions.specs.Areas.{AreWhere, IsOfSite};
ghost use Rattle.fws_box_conditions.specs.Ways.{AreWaysOf};

use crate::kept::all_of;
use crate::outside::outside;
use crate::scene::Scene;
use crate::test_boxes::test_boxes;
use crate::ways::Ways;
use bumpalo::Bump;
use fws_box::PBox;
use fws_net::{Cond, Lit, Site};
use fws_num::Memory;
use std::alloc::Global;

/// Where the literal holds.
fn lit_boxes<'b>(
    alloc: Global,
    bump: &'b Bump,
    site: &Site,
    ways: &Ways,
    scene: &Scene,
    lit: &Lit,
    area: &PBox<'b>,
) -> Result<Vec<PBox<'b>>, Memory>
    requires sound { IsSound site.now }
    requires ways { AreWaysOf site.now ways.now }
    requires within { IsOfSite site.now (sides_of area.now) }
    ensures { IfOk result (λ boxes. AreWhere (sides_of area.now) (λ p. lit_holds (view_of site.now scene.now p) lit.now) boxes.items) }
{
    let there = test_boxes(alloc, bump, site, ways, scene, &lit.test, area)?;
    if lit.not {
        outside(alloc, bump, area, there.as_slice())
    } else {
        Ok(there)
    }
}

/// Adds the points of the area at which the literal holds.
fn add_those<'b>(
    alloc: Global,
    bump: &'b Bump,
    site: &Site,
    ways: &Ways,
    scene: &Scene,
    lit: &Lit,
    area: &PBox<'b>,
    boxes: &mut Vec<PBox<'b>>,
) -> Result<(), Memory>
    requires sound { IsSound site.now }
    requires ways { AreWaysOf site.now ways.now }
    requires within { IsOfSite site.now (sides_of area.now) }
    ensures { OnOk result (Adds (sides_of area.now) (λ p. lit_holds (view_of site.now scene.now p) lit.now) boxes.old.items boxes.new.items) }
{
    let mut parts = lit_boxes(alloc, bump, site, ways, scene, lit, area)?;
    boxes.append(&mut parts)?;
    Ok(())
}

/// The points of the areas at which the literal holds.
fn those_where<'b>(
    alloc: Global,
    bump: &'b Bump,
    site: &Site,
    ways: &Ways,
    scene: &Scene,
    lit: &Lit,
    areas: &[PBox<'b>],
) -> Result<Vec<PBox<'b>>, Memory>
    requires sound { IsSound site.now }
    requires ways { AreWaysOf site.now ways.now }
    requires within { All (λ b. IsOfSite site.now (sides_of b)) areas.now }
    ensures { IfOk result (λ boxes. AreThose areas.now (λ p. lit_holds (view_of site.now scene.now p) lit.now) boxes.items) }
{
    let mut boxes = Vec::new(alloc);
    for area in areas {
        add_those(alloc, bump, site, ways, scene, lit, area, &mut boxes)?;
    }
    Ok(boxes)
}

/// Where the condition holds in the area, as rules see the packets in the scene: boxes that share no point. Fails if memory runs
/// out.
///
/// The number of boxes grows with that of the literals, and with that of the blocks of addresses over which
/// an end of fewer than 32 bits is written where a test tells addresses of one block apart.
pub fn where_holds<'b>(
    alloc: Global,
    bump: &'b Bump,
    site: &Site,
    ways: &Ways,
    scene: &Scene,
    cond: &Cond,
    area: &PBox<'b>,
) -> Result<Vec<PBox<'b>>, Memory>
    requires sound { IsSound site.now }
    requires ways { AreWaysOf site.now ways.now }
    requires within { IsOfSite site.now (sides_of area.now) }
    ensures { IfOk result (λ boxes. AreWhere (sides_of area.now) (λ p. holds cond.now (view_of site.now scene.now p)) boxes.items) }
{
    let mut boxes = all_of(alloc, area)?;
    for lit in cond.lits() {
        boxes = those_where(alloc, bump, site, ways, scene, lit, boxes.as_slice())?;
    }
    Ok(boxes)
}
