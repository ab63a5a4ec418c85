//! Where the points of a class lie.

ghost use Rattle.std.specs.Prelude.{◌≡◌, ℕ, List, true, length, IfOk};
ghost use Rattle.fws_iv.specs.Ivs.{has};
ghost use Rattle.fws_box.specs.Boxes.{sides_of};
ghost use Rattle.fws_box.specs.Fields.{value_of};
ghost use Rattle.fws_box.specs.Sides.{sides_have, IsWithin};
ghost use Rattle.fws_net.specs.Points.{tops_of};
ghost use Rattle.fws_box_conditions.specs.Areas.{IsOfSite};
ghost use Rattle.fws_exec.specs.Grounds.{IsGround};
ghost use Rattle.fws_exec.specs.Hulls.{HasPoint};
ghost use Rattle.fws_exec.specs.Sheets.{tops_in, class_at, IsSheet};

use crate::errand::Ground;
use crate::hull::Hull;
use crate::sheet::Sheet;
use crate::views::is_of_network;
use bumpalo::Bump;
use fws_box::{Field, PBox, narrow};
use fws_iv::{Ivs, one};
use fws_net::{End, Rewrite};
use fws_num::Memory;
use std::alloc::Global;

/// The part of the area in which the field has values of the set; where there is none, one in which it has the value 0.
fn part_of<'b>(
    alloc: Global,
    bump: &'b Bump,
    area: &PBox<'b>,
    field: Field,
    set: &Ivs,
) -> Result<PBox<'b>, Memory>
    ensures within { IfOk result (λ part. (p : List ℕ) → length p ≡ 12 → sides_have (sides_of part) p ≡ true → sides_have (sides_of area.now) p ≡ true) }
    ensures covers { IfOk result (λ part. (p : List ℕ) → length p ≡ 12 → sides_have (sides_of area.now) p ≡ true → has set.now (value_of p field) ≡ true → sides_have (sides_of part) p ≡ true) }
{
    if let Some(part) = narrow(bump, area, field, set)? {
        return Ok(part);
    }
    match narrow(bump, area, field, &one(alloc, 0, 0)?)? {
        Some(part) => Ok(part),
        None => Ok(*area),
    }
}

/// The part of the area in the hull; where there is none, any part.
pub(crate) fn hull_part<'b>(
    alloc: Global,
    bump: &'b Bump,
    area: &PBox<'b>,
    hull: &Hull,
) -> Result<PBox<'b>, Memory>
    ensures within { IfOk result (λ part. (p : List ℕ) → length p ≡ 12 → sides_have (sides_of part) p ≡ true → sides_have (sides_of area.now) p ≡ true) }
    ensures covers { IfOk result (λ part. (p : List ℕ) → HasPoint hull.now p → sides_have (sides_of area.now) p ≡ true → sides_have (sides_of part) p ≡ true) }
{
    let sets = hull.sets(alloc)?;
    let mut part = *area;
    for k in 0..12 {
        part = part_of(alloc, bump, &part, Field::at(k), &sets[k])?;
    }
    Ok(part)
}

impl Sheet {
    /// The part of the area with the points of the class with this number, where an end is written over the field: the
    /// area itself, unless the end is that of a network.
    fn narrowed<'b>(
        &mut self,
        alloc: Global,
        bump: &'b Bump,
        number: u32,
        area: &PBox<'b>,
        field: Field,
        end: Option<End>,
    ) -> Result<PBox<'b>, Memory>
        requires { IsSheet self.old }
        ensures sheet { IsSheet self.new }
        ensures within { IfOk result (λ part. (p : List ℕ) → length p ≡ 12 → sides_have (sides_of part) p ≡ true → sides_have (sides_of area.now) p ≡ true) }
        ensures covers { IfOk result (λ part. (p : List ℕ) → length p ≡ 12 → IsWithin (tops_in self.old) p → class_at self.old p ≡ number → sides_have (sides_of area.now) p ≡ true → sides_have (sides_of part) p ≡ true) }
        ensures tops { tops_in self.new ≡ tops_in self.old }
        ensures same { (p : List ℕ) → class_at self.new p ≡ class_at self.old p }
        ensures roll { self.new.roll ≡ self.old.roll }
        ensures reached { self.new.reached ≡ self.old.reached }
    {
        if !is_of_network(end) {
            return Ok(*area);
        }
        let set = self.canvas.spread(alloc, field, number)?;
        let part = part_of(alloc, bump, area, field, &set)?;
        Ok(part)
    }

    /// An area with the points of the class with this number, over which these ends are written: sets of addresses under the
    /// ends of networks have few parts in it.
    pub(crate) fn region<'b>(
        &mut self,
        alloc: Global,
        ground: &Ground<'_, 'b>,
        number: u32,
        wrote: Rewrite,
    ) -> Result<PBox<'b>, Memory>
        requires sheet { IsSheet self.old }
        requires ground { IsGround ground.now }
        requires tops { tops_in self.old ≡ tops_of ground.now.site.now }
        ensures sheet { IsSheet self.new }
        ensures within { IfOk result (λ area. IsOfSite ground.now.site.now (sides_of area)) }
        ensures covers { IfOk result (λ area. (p : List ℕ) → IsWithin (tops_of ground.now.site.now) p → class_at self.old p ≡ number → sides_have (sides_of area) p ≡ true) }
        ensures tops { tops_in self.new ≡ tops_in self.old }
        ensures same { (p : List ℕ) → class_at self.new p ≡ class_at self.old p }
        ensures roll { self.new.roll ≡ self.old.roll }
        ensures reached { self.new.reached ≡ self.old.reached }
    {
        let area = self.narrowed(
            alloc,
            ground.bump,
            number,
            &ground.area,
            Field::Src,
            wrote.src,
        )?;
        let part = self.narrowed(alloc, ground.bump, number, &area, Field::Dst, wrote.dst)?;
        Ok(part)
    }
}
