//! How classes pass runs.

ghost use Rattle.std.specs.Prelude.{◌≡◌, ◌<◌, ◌≤◌, ◌+◌, ◌||◌, ℕ, List, true, false, IfOk, OnOk};
ghost use Rattle.std.specs.List.{list_all};
ghost use Rattle.fws_box.specs.Boxes.{sides_of};
ghost use Rattle.fws_box.specs.Sides.{sides_have, IsWithin};
ghost use Rattle.fws_flat.specs.Soundness.{part_ok};
ghost use Rattle.fws_net.specs.Points.{tops_of};
ghost use Rattle.fws_box_conditions.specs.Areas.{IsOfSite};
ghost use Rattle.fws_exec.specs.declared.going.Going.TheVariants.{Leaving};
ghost use Rattle.fws_exec.specs.declared.spot.Spot.TheVariants.{At};
ghost use Rattle.fws_exec.specs.declared.views.Sides.{Sides as AnySides};
ghost use Rattle.fws_exec.specs.Courses.{Keeps};
ghost use Rattle.fws_exec.specs.Divided.{says_from, seen_at, AreMoved, AreNoted};
ghost use Rattle.fws_exec.specs.Grounds.{IsGround};
ghost use Rattle.fws_exec.specs.Moving.{IsGrown};
ghost use Rattle.fws_exec.specs.Passing.{is_apart, is_parted, is_together, Passed, IsOnward};
ghost use Rattle.fws_exec.specs.Runs.{leaves, numbered, picked, run_of};
ghost use Rattle.fws_exec.specs.Sheets.{among, tops_in, class_at, AllAt, IsSheet, StandsAt, stands};
ghost use Rattle.fws_exec.specs.Views.{is_in, is_tagless, shows_code, AreAlike};

use crate::errand::Errand;
use crate::going::Going;
use crate::groups::Group;
use crate::marks::{run_marks, use_marks};
use crate::noting::are_sought;
use crate::run::run_of;
use crate::sheet::Sheet;
use crate::spot::Spot;
use crate::views::Sides;
use fws_box::PBox;
use fws_num::Memory;
use std::alloc::Global;

/// How many views at one place are no crowd yet.
const CROWD: usize = 16;

/// Whether so many views at one place are a crowd.
pub(crate) fn is_crowd(views: usize) -> bool {
    views > CROWD
}

impl Group {
    /// Whether the group passes a run by itself: in a crowd, those do over which rules wrote an end that is looked at, since
    /// most conditions are decided for them.
    fn is_apart(&self, crowded: bool) -> bool
        ensures { result ≡ is_apart crowded self.now }
    {
        crowded && !self.view.is_unwritten()
    }
}

/// Puts these numbers behind the others.
fn put_all(all: &mut Vec<u32>, numbers: &[u32]) -> Result<(), Memory>
    ensures { OnOk result ((n : ℕ) → among all.new.items n ≡ (among all.old.items n || among numbers.now n)) }
{
    for number in numbers {
        all.push(*number)?;
    }
    Ok(())
}

/// The numbers of the groups that pass a run by themselves.
fn apart_of(alloc: Global, groups: &[Group], crowded: bool) -> Result<Vec<u32>, Memory>
    ensures { IfOk result (λ numbers. (n : ℕ) → among numbers.items n ≡ is_parted crowded groups.now n) }
{
    let mut numbers = Vec::new(alloc);
    for group in groups {
        if !group.is_apart(crowded) {
            continue;
        }
        put_all(&mut numbers, group.numbers.as_slice())?;
    }
    Ok(numbers)
}

impl Sheet {
    /// Notes which instructions of the run the points of the group use, if any of these is asked for. All points of the group
    /// lie in the area, and the class with the first number is one of it.
    fn note_run_in<'b>(
        &mut self,
        alloc: Global,
        errand: &Errand<'_, 'b>,
        area: &PBox<'b>,
        group: &Group,
        first: u32,
        place: u32,
        past: u32,
    ) -> Result<(), Memory>
        requires sheet { IsSheet self.old }
        requires ground { IsGround errand.now.ground }
        requires tops { tops_in self.old ≡ tops_of errand.now.ground.site.now }
        requires area { IsOfSite errand.now.ground.site.now (sides_of area.now) }
        requires covers { (p : List ℕ) → IsWithin (tops_of errand.now.ground.site.now) p → among group.now.numbers.items (class_at self.old p) ≡ true → sides_have (sides_of area.now) p ≡ true }
        requires alike { (sides : AnySides) × (shows_code sides (run_of errand.now.code.now place past) ≡ true) × AreAlike sides self.old.roll.classes.items group.now }
        requires first { among group.now.numbers.items first ≡ true }
        requires part { part_ok errand.now.code.now errand.now.part ≡ true }
        requires later { place < past }
        requires within { past ≤ errand.now.part.past }
        requires tagless { list_all (λ ins. is_tagless ins.cond) (run_of errand.now.code.now place past) ≡ true }
        ensures sheet { OnOk result (IsSheet self.new) }
        ensures noted { OnOk result (AreNoted (says_from place) (among group.now.numbers.items) (λ g p. numbered 1 (seen_at errand.now.ground.site.now errand.now.ground.state errand.now.part g p) (run_of errand.now.code.now place past)) self.old self.new) }
        ensures same { (p : List ℕ) → class_at self.new p ≡ class_at self.old p }
        ensures roll { self.new.roll ≡ self.old.roll }
        ensures tops { tops_in self.new ≡ tops_in self.old }
    {
        if !are_sought(self.reached.as_slice(), place, past) {
            return Ok(());
        }
        let class = self.roll.used(first)?;
        let code = run_of(errand.code, place, past);
        let marks = use_marks(
            alloc,
            &errand.ground,
            area,
            errand.part,
            &class.progress,
            code,
        )?;
        self.note_run(alloc, group.numbers.as_slice(), marks.as_slice(), place)?;
        Ok(())
    }

    /// The points of the group go where the instructions of the run send them. All of them lie in the area, and the class
    /// with the first number is one of the group.
    fn divide_run_in<'b>(
        &mut self,
        alloc: Global,
        errand: &Errand<'_, 'b>,
        area: &PBox<'b>,
        group: &Group,
        first: u32,
        place: u32,
        past: u32,
    ) -> Result<(), Memory>
        requires sheet { IsSheet self.old }
        requires ground { IsGround errand.now.ground }
        requires tops { tops_in self.old ≡ tops_of errand.now.ground.site.now }
        requires area { IsOfSite errand.now.ground.site.now (sides_of area.now) }
        requires covers { (p : List ℕ) → IsWithin (tops_of errand.now.ground.site.now) p → among group.now.numbers.items (class_at self.old p) ≡ true → sides_have (sides_of area.now) p ≡ true }
        requires alike { (sides : AnySides) × (shows_code sides (run_of errand.now.code.now place past) ≡ true) × AreAlike sides self.old.roll.classes.items group.now }
        requires first { among group.now.numbers.items first ≡ true }
        requires part { part_ok errand.now.code.now errand.now.part ≡ true }
        requires later { place < past }
        requires within { past ≤ errand.now.part.past }
        requires tagless { list_all (λ ins. is_tagless ins.cond) (run_of errand.now.code.now place past) ≡ true }
        ensures sheet { OnOk result (IsSheet self.new) }
        ensures moved { OnOk result (AreMoved (Leaving errand.now.stage place) (among group.now.numbers.items) (λ g p. picked place (seen_at errand.now.ground.site.now errand.now.ground.state errand.now.part g p) (run_of errand.now.code.now place past)) self.old self.new) }
        ensures grown { OnOk result (IsGrown (Leaving errand.now.stage place) self.old.roll.classes.items self.new.roll.classes.items) }
        ensures reached { self.new.reached ≡ self.old.reached }
        ensures tops { tops_in self.new ≡ tops_in self.old }
    {
        let class = self.roll.used(first)?;
        let code = run_of(errand.code, place, past);
        let marks = run_marks(
            alloc,
            &errand.ground,
            area,
            errand.part,
            &class.progress,
            code,
            place,
        )?;
        let going = Going::Leaving(errand.stage, place);
        self.move_by(alloc, group.numbers.as_slice(), marks.as_slice(), going)?;
        Ok(())
    }

    /// The points of the group go where the instructions of the run send them. Fails if memory runs out, and a group whose classes
    /// differ in what the sides show.
    fn divide_run(
        &mut self,
        alloc: Global,
        errand: &Errand<'_, '_>,
        sides: Sides,
        group: &Group,
        place: u32,
        past: u32,
    ) -> Result<(), Memory>
        requires sheet { IsSheet self.old }
        requires ground { IsGround errand.now.ground }
        requires tops { tops_in self.old ≡ tops_of errand.now.ground.site.now }
        requires sides { shows_code sides (run_of errand.now.code.now place past) ≡ true }
        requires part { part_ok errand.now.code.now errand.now.part ≡ true }
        requires low { errand.now.part.first ≤ place }
        requires later { place < past }
        requires within { past ≤ errand.now.part.past }
        requires leaves { list_all (λ ins. leaves past ins.act) (run_of errand.now.code.now place past) ≡ true }
        requires tagless { list_all (λ ins. is_tagless ins.cond) (run_of errand.now.code.now place past) ≡ true }
        ensures sheet { OnOk result (IsSheet self.new) }
        ensures passed { OnOk result (Passed errand.now (among group.now.numbers.items) place past self.old self.new) }
        ensures onward { OnOk result (IsOnward place self.old.roll.classes.items self.new.roll.classes.items) }
        ensures tops { tops_in self.new ≡ tops_in self.old }
    {
        let first = group.first()?;
        if !self.roll.are_alike(group, sides) {
            return Err(Memory);
        }
        let area = self.area(alloc, &errand.ground, sides, group)?;
        self.note_run_in(alloc, errand, &area, group, first, place, past)?;
        self.divide_run_in(alloc, errand, &area, group, first, place, past)?;
        Ok(())
    }

    /// The points of the groups that pass the run together go where its instructions send them.
    fn divide_runs(
        &mut self,
        alloc: Global,
        errand: &Errand<'_, '_>,
        sides: Sides,
        groups: &[Group],
        crowded: bool,
        place: u32,
        past: u32,
    ) -> Result<(), Memory>
        requires sheet { IsSheet self.old }
        requires ground { IsGround errand.now.ground }
        requires tops { tops_in self.old ≡ tops_of errand.now.ground.site.now }
        requires sides { shows_code sides (run_of errand.now.code.now place past) ≡ true }
        requires part { part_ok errand.now.code.now errand.now.part ≡ true }
        requires low { errand.now.part.first ≤ place }
        requires later { place < past }
        requires within { past ≤ errand.now.part.past }
        requires leaves { list_all (λ ins. leaves past ins.act) (run_of errand.now.code.now place past) ≡ true }
        requires tagless { list_all (λ ins. is_tagless ins.cond) (run_of errand.now.code.now place past) ≡ true }
        requires here { AllAt (At place) self.old.roll.classes.items (is_in groups.now) }
        ensures sheet { OnOk result (IsSheet self.new) }
        ensures passed { OnOk result (Passed errand.now (is_together crowded groups.now) place past self.old self.new) }
        ensures onward { OnOk result (IsOnward place self.old.roll.classes.items self.new.roll.classes.items) }
        ensures tops { tops_in self.new ≡ tops_in self.old }
    {
        for group in groups {
            if group.is_apart(crowded) {
                continue;
            }
            self.divide_run(alloc, errand, sides, group, place, past)?;
        }
        Ok(())
    }

    /// The classes with these numbers, which stand at the place, meet the instructions of the run one by one.
    fn meet_run(
        &mut self,
        alloc: Global,
        errand: &Errand<'_, '_>,
        numbers: &[u32],
        place: u32,
        past: u32,
    ) -> Result<(), Memory>
        requires sheet { IsSheet self.old }
        requires ground { IsGround errand.now.ground }
        requires tops { tops_in self.old ≡ tops_of errand.now.ground.site.now }
        requires part { part_ok errand.now.code.now errand.now.part ≡ true }
        requires low { errand.now.part.first ≤ place }
        requires later { place < past }
        requires within { past ≤ errand.now.part.past }
        requires here { AllAt (At place) self.old.roll.classes.items (among numbers.now) }
        ensures sheet { OnOk result (IsSheet self.new) }
        ensures passed { OnOk result (Passed errand.now (among numbers.now) place past self.old self.new) }
        ensures onward { OnOk result (IsOnward place self.old.roll.classes.items self.new.roll.classes.items) }
        ensures tops { tops_in self.new ≡ tops_in self.old }
    {
        for at in place..past {
            self.meet_ins(alloc, errand, numbers, at)?;
        }
        Ok(())
    }

    /// The points of the groups go where the instructions of the run send them.
    fn divide_and_meet(
        &mut self,
        alloc: Global,
        errand: &Errand<'_, '_>,
        sides: Sides,
        groups: &[Group],
        place: u32,
        past: u32,
    ) -> Result<(), Memory>
        requires sheet { IsSheet self.old }
        requires ground { IsGround errand.now.ground }
        requires tops { tops_in self.old ≡ tops_of errand.now.ground.site.now }
        requires sides { shows_code sides (run_of errand.now.code.now place past) ≡ true }
        requires part { part_ok errand.now.code.now errand.now.part ≡ true }
        requires low { errand.now.part.first ≤ place }
        requires later { place < past }
        requires within { past ≤ errand.now.part.past }
        requires leaves { list_all (λ ins. leaves past ins.act) (run_of errand.now.code.now place past) ≡ true }
        requires tagless { list_all (λ ins. is_tagless ins.cond) (run_of errand.now.code.now place past) ≡ true }
        requires here { AllAt (At place) self.old.roll.classes.items (is_in groups.now) }
        ensures sheet { OnOk result (IsSheet self.new) }
        ensures passed { OnOk result (Passed errand.now (is_in groups.now) place past self.old self.new) }
        ensures onward { OnOk result (IsOnward place self.old.roll.classes.items self.new.roll.classes.items) }
        ensures tops { tops_in self.new ≡ tops_in self.old }
    {
        let crowded = is_crowd(groups.len());
        let apart = apart_of(alloc, groups, crowded)?;
        self.divide_runs(alloc, errand, sides, groups, crowded, place, past)?;
        self.meet_run(alloc, errand, apart.as_slice(), place, past)?;
        Ok(())
    }

    /// The classes with these numbers, which are those that stand at the place, pass the run that ends before the place past.
    pub(crate) fn pass_run(
        &mut self,
        alloc: Global,
        errand: &Errand<'_, '_>,
        numbers: &[u32],
        place: u32,
        past: u32,
    ) -> Result<(), Memory>
        requires sheet { IsSheet self.old }
        requires ground { IsGround errand.now.ground }
        requires tops { tops_in self.old ≡ tops_of errand.now.ground.site.now }
        requires part { part_ok errand.now.code.now errand.now.part ≡ true }
        requires low { errand.now.part.first ≤ place }
        requires later { place < past }
        requires within { past ≤ errand.now.part.past }
        requires leaves { list_all (λ ins. leaves past ins.act) (run_of errand.now.code.now place past) ≡ true }
        requires tagless { list_all (λ ins. is_tagless ins.cond) (run_of errand.now.code.now place past) ≡ true }
        requires here { AllAt (At place) self.old.roll.classes.items (among numbers.now) }
        ensures sheet { OnOk result (IsSheet self.new) }
        ensures kept { OnOk result (Keeps errand.now self.old self.new) }
        ensures tops { tops_in self.new ≡ tops_in self.old }
    {
        let sides = Sides::of_code(run_of(errand.code, place, past));
        let groups = self.roll.grouped_all(alloc, numbers, sides)?;
        self.divide_and_meet(alloc, errand, sides, groups.all.as_slice(), place, past)?;
        self.roll.wait_all(numbers, past)?;
        self.roll.send_all(numbers, Spot::At(past));
        Ok(())
    }
}
