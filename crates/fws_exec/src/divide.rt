//! How classes are divided by a condition.

ghost use Rattle.std.specs.Prelude.{◌≡◌, ◌≢◌, ℕ, List, true, false, IfOk, OnOk};
ghost use Rattle.fws_box.specs.Boxes.{sides_of};
ghost use Rattle.fws_box.specs.Sides.{sides_have, IsWithin};
ghost use Rattle.fws_net.specs.Points.{tops_of};
ghost use Rattle.fws_box_conditions.specs.Areas.{IsOfSite};
ghost use Rattle.fws_exec.specs.declared.spot.Spot.{Spot as AnySpot};
ghost use Rattle.fws_exec.specs.declared.views.Sides.{Sides as AnySides};
ghost use Rattle.fws_exec.specs.Classes.{is_unused};
ghost use Rattle.fws_exec.specs.Divided.{held, says_of, AreMoved, AreNoted};
ghost use Rattle.fws_exec.specs.Goings.{lands};
ghost use Rattle.fws_exec.specs.Grounds.{IsGround};
ghost use Rattle.fws_exec.specs.Moving.{IsGrown};
ghost use Rattle.fws_exec.specs.Sheets.{among, tops_in, class_at, AllAt, IsSheet};
ghost use Rattle.fws_exec.specs.Views.{is_in, shows_all, AreAlike, AllFit};

use crate::errand::Ground;
use crate::going::Going;
use crate::groups::Group;
use crate::hulls::hull_of;
use crate::marks::cond_marks;
use crate::region::hull_part;
use crate::sheet::Sheet;
use crate::through::is_crowd;
use crate::views::Sides;
use fws_box::PBox;
use fws_flat::Part;
use fws_net::Cond;
use fws_num::Memory;
use std::alloc::Global;

impl Sheet {
    /// The part of the whole area with the points of the group.
    fn bounded<'b>(
        &self,
        alloc: Global,
        ground: &Ground<'_, 'b>,
        group: &Group,
    ) -> Result<PBox<'b>, Memory>
        requires sheet { IsSheet self.now }
        requires ground { IsGround ground.now }
        requires tops { tops_in self.now ≡ tops_of ground.now.site.now }
        ensures within { IfOk result (λ area. IsOfSite ground.now.site.now (sides_of area)) }
        ensures covers { IfOk result (λ area. (p : List ℕ) → IsWithin (tops_of ground.now.site.now) p → among group.now.numbers.items (class_at self.now p) ≡ true → sides_have (sides_of area) p ≡ true) }
    {
        let hull = hull_of(self.hulls.as_slice(), group.numbers.as_slice());
        let area = hull_part(alloc, ground.bump, &ground.area, &hull)?;
        Ok(area)
    }

    /// An area with all points of the group, whose ends conditions look at as the sides say: where the end of a network is
    /// written over what is looked at, the group is one class, and the area its region.
    pub(crate) fn area<'b>(
        &mut self,
        alloc: Global,
        ground: &Ground<'_, 'b>,
        sides: Sides,
        group: &Group,
    ) -> Result<PBox<'b>, Memory>
        requires sheet { IsSheet self.old }
        requires ground { IsGround ground.now }
        requires tops { tops_in self.old ≡ tops_of ground.now.site.now }
        requires alike { AreAlike sides self.old.roll.classes.items group.now }
        ensures sheet { IsSheet self.new }
        ensures within { IfOk result (λ area. IsOfSite ground.now.site.now (sides_of area)) }
        ensures covers { IfOk result (λ area. (p : List ℕ) → IsWithin (tops_of ground.now.site.now) p → among group.now.numbers.items (class_at self.old p) ≡ true → sides_have (sides_of area) p ≡ true) }
        ensures tops { tops_in self.new ≡ tops_in self.old }
        ensures same { (p : List ℕ) → class_at self.new p ≡ class_at self.old p }
        ensures roll { self.new.roll ≡ self.old.roll }
        ensures reached { self.new.reached ≡ self.old.reached }
    {
        match group.view.own {
            Some(number) => {
                let area = self.region(alloc, ground, number, group.view.wrote)?;
                Ok(area)
            }
            None => {
                if is_crowd(group.numbers.len()) {
                    return Ok(ground.area);
                }
                let area = self.bounded(alloc, ground, group)?;
                Ok(area)
            }
        }
    }

    /// The points of the group go where the condition holds, as rules of the part see them, and use the instruction behind which
    /// they go. All of them lie in the area, and the class with the first number is one of the group.
    fn divide_in<'b>(
        &mut self,
        alloc: Global,
        ground: &Ground<'_, 'b>,
        area: &PBox<'b>,
        part: Part,
        cond: &Cond,
        group: &Group,
        first: u32,
        going: Going,
    ) -> Result<(), Memory>
        requires sheet { IsSheet self.old }
        requires ground { IsGround ground.now }
        requires tops { tops_in self.old ≡ tops_of ground.now.site.now }
        requires within { IsOfSite ground.now.site.now (sides_of area.now) }
        requires covers { (p : List ℕ) → IsWithin (tops_of ground.now.site.now) p → among group.now.numbers.items (class_at self.old p) ≡ true → sides_have (sides_of area.now) p ≡ true }
        requires alike { (sides : AnySides) × (shows_all sides cond.now ≡ true) × AreAlike sides self.old.roll.classes.items group.now }
        requires fit { AllFit self.old.roll.classes.items cond.now group.now }
        requires first { among group.now.numbers.items first ≡ true }
        ensures sheet { OnOk result (IsSheet self.new) }
        ensures moved { OnOk result (AreMoved going (among group.now.numbers.items) (held ground.now.site.now ground.now.state part cond.now) self.old self.new) }
        ensures noted { OnOk result (AreNoted (says_of going) (among group.now.numbers.items) (held ground.now.site.now ground.now.state part cond.now) self.old self.new) }
        ensures grown { OnOk result (IsGrown going self.old.roll.classes.items self.new.roll.classes.items) }
        ensures tops { tops_in self.new ≡ tops_in self.old }
    {
        let class = self.roll.used(first)?;
        let marks = cond_marks(alloc, ground, area, part, &class.progress, cond)?;
        self.note_going(alloc, group.numbers.as_slice(), marks.as_slice(), going)?;
        self.move_by(alloc, group.numbers.as_slice(), marks.as_slice(), going)?;
        Ok(())
    }

    /// The points of the group go where the condition holds, as rules of the part see them. Fails if memory runs out, and a group
    /// whose classes differ in what the sides show.
    fn divide(
        &mut self,
        alloc: Global,
        ground: &Ground<'_, '_>,
        part: Part,
        cond: &Cond,
        sides: Sides,
        group: &Group,
        going: Going,
    ) -> Result<(), Memory>
        requires sheet { IsSheet self.old }
        requires ground { IsGround ground.now }
        requires tops { tops_in self.old ≡ tops_of ground.now.site.now }
        requires sides { shows_all sides cond.now ≡ true }
        ensures sheet { OnOk result (IsSheet self.new) }
        ensures moved { OnOk result (AreMoved going (among group.now.numbers.items) (held ground.now.site.now ground.now.state part cond.now) self.old self.new) }
        ensures noted { OnOk result (AreNoted (says_of going) (among group.now.numbers.items) (held ground.now.site.now ground.now.state part cond.now) self.old self.new) }
        ensures grown { OnOk result (IsGrown going self.old.roll.classes.items self.new.roll.classes.items) }
        ensures tops { tops_in self.new ≡ tops_in self.old }
    {
        let first = group.first()?;
        if !self.roll.are_alike(group, sides) {
            return Err(Memory);
        }
        if !self.roll.all_fit(group, cond) {
            return Err(Memory);
        }
        let area = self.area(alloc, ground, sides, group)?;
        self.divide_in(alloc, ground, &area, part, cond, group, first, going)?;
        Ok(())
    }

    /// The points of the groups go where the condition holds, as rules of the part see them.
    fn divide_groups(
        &mut self,
        alloc: Global,
        ground: &Ground<'_, '_>,
        part: Part,
        cond: &Cond,
        sides: Sides,
        groups: &[Group],
        going: Going,
    ) -> Result<(), Memory>
        requires sheet { IsSheet self.old }
        requires ground { IsGround ground.now }
        requires tops { tops_in self.old ≡ tops_of ground.now.site.now }
        requires sides { shows_all sides cond.now ≡ true }
        requires here { (here : AnySpot) × (is_unused here ≡ false) × AllAt here self.old.roll.classes.items (is_in groups.now) × ((label : ℕ) → lands going label ≢ here) }
        ensures sheet { OnOk result (IsSheet self.new) }
        ensures moved { OnOk result (AreMoved going (is_in groups.now) (held ground.now.site.now ground.now.state part cond.now) self.old self.new) }
        ensures noted { OnOk result (AreNoted (says_of going) (is_in groups.now) (held ground.now.site.now ground.now.state part cond.now) self.old self.new) }
        ensures grown { OnOk result (IsGrown going self.old.roll.classes.items self.new.roll.classes.items) }
        ensures tops { tops_in self.new ≡ tops_in self.old }
    {
        for group in groups {
            self.divide(alloc, ground, part, cond, sides, group, going)?;
        }
        Ok(())
    }

    /// The points of the classes with these numbers, which stand at one spot, go elsewhere where the condition holds, as rules
    /// of the part see them.
    pub(crate) fn divide_all(
        &mut self,
        alloc: Global,
        ground: &Ground<'_, '_>,
        part: Part,
        cond: &Cond,
        numbers: &[u32],
        going: Going,
    ) -> Result<(), Memory>
        requires sheet { IsSheet self.old }
        requires ground { IsGround ground.now }
        requires tops { tops_in self.old ≡ tops_of ground.now.site.now }
        requires here { (here : AnySpot) × (is_unused here ≡ false) × AllAt here self.old.roll.classes.items (among numbers.now) × ((label : ℕ) → lands going label ≢ here) }
        ensures sheet { OnOk result (IsSheet self.new) }
        ensures moved { OnOk result (AreMoved going (among numbers.now) (held ground.now.site.now ground.now.state part cond.now) self.old self.new) }
        ensures noted { OnOk result (AreNoted (says_of going) (among numbers.now) (held ground.now.site.now ground.now.state part cond.now) self.old self.new) }
        ensures grown { OnOk result (IsGrown going self.old.roll.classes.items self.new.roll.classes.items) }
        ensures tops { tops_in self.new ≡ tops_in self.old }
    {
        let sides = Sides::none().with(cond);
        let groups = self.roll.grouped(alloc, numbers, sides, cond)?;
        self.divide_groups(
            alloc,
            ground,
            part,
            cond,
            sides,
            groups.all.as_slice(),
            going,
        )?;
        Ok(())
    }
}
