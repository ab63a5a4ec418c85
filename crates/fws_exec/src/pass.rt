//! How classes pass instructions of a part.

ghost use Rattle.std.specs.Prelude.{◌≡◌, ◌≢◌, ◌<◌, ◌≤◌, ◌+◌, ◌^◌, ℕ, List, true, false, [], length, slice_get, Some, OnOk};
ghost use Rattle.std.specs.List.{list_all};
ghost use Rattle.fws_box.specs.Sides.{IsWithin};
ghost use Rattle.fws_flat.specs.Soundness.{part_ok};
ghost use Rattle.fws_net.specs.Conditions.{holds};
ghost use Rattle.fws_net.specs.Points.{tops_of};
ghost use Rattle.fws_flat.specs.declared.code.Ins.{Ins as AnyIns};
ghost use Rattle.fws_exec.specs.declared.spot.Class.{Class as AnyClass};
ghost use Rattle.fws_exec.specs.declared.spot.Spot.TheVariants.{At};
ghost use Rattle.fws_exec.specs.Divided.{seen_at};
ghost use Rattle.fws_exec.specs.Courses.{Keeps};
ghost use Rattle.fws_exec.specs.Grounds.{IsGround};
ghost use Rattle.fws_exec.specs.Passing.{Passed, IsOnward};
ghost use Rattle.fws_exec.specs.Runs.{leaves, run_of};
ghost use Rattle.fws_exec.specs.Sheets.{among, class_at, tops_in, AllAt, IsPut, IsSheet};
ghost use Rattle.fws_exec.specs.Views.{is_tagless};

use crate::errand::Errand;
use crate::going::Going;
use crate::noting::is_sought;
use crate::progress::Progress;
use crate::sheet::Sheet;
use crate::spot::{Class, Spot};
use fws_flat::Ins;
use fws_net::Cond;
use fws_num::Memory;
use std::alloc::Global;

/// Whether a condition has no literal, and so always holds.
fn is_always(cond: &Cond) -> bool
    ensures { result ≡ true → cond.now ≡ [] }
{
    cond.lits().is_empty()
}

impl Errand<'_, '_> {
    /// Where packets go behind the instruction at the place.
    fn going(&self, place: u32, ins: &Ins) -> Going
        ensures { result ≡ Going.Behind self.now.ground.state self.now.stage place ins.now.act }
    {
        Going::Behind(self.ground.state, self.stage, place, ins.act)
    }
}

impl Sheet {
    /// The classes with these numbers, which stand at one place, meet the instruction at this place of the part, which isn't
    /// before that: their points go where it acts, and the others stay.
    pub(crate) fn meet_ins(
        &mut self,
        alloc: Global,
        errand: &Errand<'_, '_>,
        numbers: &[u32],
        at: u32,
    ) -> Result<(), Memory>
        requires sheet { IsSheet self.old }
        requires ground { IsGround errand.now.ground }
        requires tops { tops_in self.old ≡ tops_of errand.now.ground.site.now }
        requires part { part_ok errand.now.code.now errand.now.part ≡ true }
        requires low { errand.now.part.first ≤ at }
        requires high { at < errand.now.part.past }
        requires here { (place : ℕ) × (place ≤ at) × AllAt (At place) self.old.roll.classes.items (among numbers.now) }
        ensures sheet { OnOk result (IsSheet self.new) }
        ensures passed { OnOk result (Passed errand.now (among numbers.now) at (at + 1) self.old self.new) }
        ensures onward { OnOk result (IsOnward at self.old.roll.classes.items self.new.roll.classes.items) }
        ensures tops { tops_in self.new ≡ tops_in self.old }
    {
        let ins = &errand.code[at as usize];
        let going = errand.going(at, ins);
        self.divide_all(
            alloc,
            &errand.ground,
            errand.part,
            &ins.cond,
            numbers,
            going,
        )?;
        Ok(())
    }

    /// The classes with these numbers, which stand at the place, go on where the instruction there would leave them as they
    /// are. It isn't asked whether they use it.
    fn pass_stayers(
        &mut self,
        alloc: Global,
        errand: &Errand<'_, '_>,
        numbers: &[u32],
        place: u32,
    ) -> Result<(), Memory>
        requires sheet { IsSheet self.old }
        requires tops { tops_in self.old ≡ tops_of errand.now.ground.site.now }
        requires part { part_ok errand.now.code.now errand.now.part ≡ true }
        requires low { errand.now.part.first ≤ place }
        requires high { place < errand.now.part.past }
        requires room { place + 1 < 2 ^ 32 }
        requires here { AllAt (At place) self.old.roll.classes.items (among numbers.now) }
        requires known { slice_get self.old.reached.items place ≢ Some false }
        ensures sheet { OnOk result (IsSheet self.new) }
        ensures kept { OnOk result (Keeps errand.now self.old self.new) }
        ensures tops { tops_in self.new ≡ tops_in self.old }
    {
        let ins = &errand.code[place as usize];
        let going = errand.going(place, ins);
        let behind = Spot::At(place + 1);
        let stayers = self.roll.stayers(alloc, numbers, going, behind)?;
        self.roll.wait_all(stayers.as_slice(), place + 1)?;
        self.roll.send_all(stayers.as_slice(), behind);
        self.roll.find_all(stayers.as_slice())?;
        Ok(())
    }

    /// The classes with these numbers, which stand at the place, go on where the instruction there would leave them as they
    /// are, unless it is asked whether they use it.
    fn pass_known(
        &mut self,
        alloc: Global,
        errand: &Errand<'_, '_>,
        numbers: &[u32],
        place: u32,
    ) -> Result<(), Memory>
        requires sheet { IsSheet self.old }
        requires tops { tops_in self.old ≡ tops_of errand.now.ground.site.now }
        requires part { part_ok errand.now.code.now errand.now.part ≡ true }
        requires low { errand.now.part.first ≤ place }
        requires high { place < errand.now.part.past }
        requires room { place + 1 < 2 ^ 32 }
        requires here { AllAt (At place) self.old.roll.classes.items (among numbers.now) }
        ensures sheet { OnOk result (IsSheet self.new) }
        ensures kept { OnOk result (Keeps errand.now self.old self.new) }
        ensures tops { tops_in self.new ≡ tops_in self.old }
    {
        if is_sought(self.reached.as_slice(), place) {
            return Ok(());
        }
        self.pass_stayers(alloc, errand, numbers, place)?;
        Ok(())
    }

    /// The classes with these numbers, which stand at the place, pass the instruction there.
    fn pass_ins(
        &mut self,
        alloc: Global,
        errand: &Errand<'_, '_>,
        numbers: &[u32],
        place: u32,
    ) -> Result<(), Memory>
        requires sheet { IsSheet self.old }
        requires ground { IsGround errand.now.ground }
        requires tops { tops_in self.old ≡ tops_of errand.now.ground.site.now }
        requires part { part_ok errand.now.code.now errand.now.part ≡ true }
        requires low { errand.now.part.first ≤ place }
        requires high { place < errand.now.part.past }
        requires room { place + 1 < 2 ^ 32 }
        requires here { AllAt (At place) self.old.roll.classes.items (among numbers.now) }
        ensures sheet { OnOk result (IsSheet self.new) }
        ensures kept { OnOk result (Keeps errand.now self.old self.new) }
        ensures tops { tops_in self.new ≡ tops_in self.old }
    {
        self.pass_known(alloc, errand, numbers, place)?;
        let movers = self.roll.standing(alloc, numbers, place)?;
        self.meet_ins(alloc, errand, movers.as_slice(), place)?;
        self.roll.wait_all(movers.as_slice(), place + 1)?;
        self.roll.send_all(movers.as_slice(), Spot::At(place + 1));
        Ok(())
    }

    /// The class goes to the place of the one with this number.
    fn put(&mut self, number: u32, class: Class) -> Result<(), Memory>
        requires { number < length self.old.roll.classes.items }
        ensures put { OnOk result (IsPut number class self.old.roll.classes.items self.new.roll.classes.items) }
        ensures same { self.new.canvas ≡ self.old.canvas }
        ensures hulls { self.new.hulls ≡ self.old.hulls }
        ensures reached { self.new.reached ≡ self.old.reached }
    {
        self.roll.arrive(number, class.spot)?;
        self.roll.classes[number as usize] = class;
        Ok(())
    }

    /// The class with this number, if it stands at the place, passes the instruction there as a whole: the condition holds for all of
    /// its packets. If it is asked for uses of the instruction and none is found, the class has no points: it is dropped, so that it
    /// isn't asked for its points again.
    pub(crate) fn pass_whole(
        &mut self,
        alloc: Global,
        errand: &Errand<'_, '_>,
        number: u32,
        place: u32,
    ) -> Result<(), Memory>
        requires sheet { IsSheet self.old }
        requires part { part_ok errand.now.code.now errand.now.part ≡ true }
        requires tops { tops_in self.old ≡ tops_of errand.now.ground.site.now }
        requires low { errand.now.part.first ≤ place }
        requires high { place < errand.now.part.past }
        requires held { (ins : AnyIns) (c : AnyClass) (p : List ℕ) → slice_get errand.now.code.now place ≡ Some ins → slice_get self.old.roll.classes.items number ≡ Some c → IsWithin (tops_in self.old) p → class_at self.old p ≡ number → holds ins.cond (seen_at errand.now.ground.site.now errand.now.ground.state errand.now.part c.progress p) ≡ true }
        ensures sheet { OnOk result (IsSheet self.new) }
        ensures kept { OnOk result (Keeps errand.now self.old self.new) }
        ensures tops { tops_in self.new ≡ tops_in self.old }
    {
        if !self.roll.stands(number, Spot::At(place)) {
            return Ok(());
        }
        self.note_whole(alloc, number, place)?;
        if is_sought(self.reached.as_slice(), place) {
            // None of its points uses the instruction, so it has none.
            self.put(number, Progress::entered(alloc).standing(Spot::Dropped))?;
            return Ok(());
        }
        let ins = &errand.code[place as usize];
        let class = self.roll.gone(alloc, errand.going(place, ins), number, 1)?;
        self.put(number, class)?;
        Ok(())
    }

    /// The classes with these numbers, which stand at the place, pass the instruction there as a whole. Each one without points is
    /// dropped here as long as it is asked for uses, so that it isn't asked for its points again.
    fn pass_always(
        &mut self,
        alloc: Global,
        errand: &Errand<'_, '_>,
        numbers: &[u32],
        place: u32,
    ) -> Result<(), Memory>
        requires sheet { IsSheet self.old }
        requires part { part_ok errand.now.code.now errand.now.part ≡ true }
        requires tops { tops_in self.old ≡ tops_of errand.now.ground.site.now }
        requires low { errand.now.part.first ≤ place }
        requires high { place < errand.now.part.past }
        requires always { (ins : AnyIns) → slice_get errand.now.code.now place ≡ Some ins → ins.cond ≡ [] }
        ensures sheet { OnOk result (IsSheet self.new) }
        ensures kept { OnOk result (Keeps errand.now self.old self.new) }
        ensures tops { tops_in self.new ≡ tops_in self.old }
    {
        for number in numbers {
            self.pass_whole(alloc, errand, *number, place)?;
        }
        Ok(())
    }

    /// The classes with these numbers, which are those that stand at the place, pass the instruction there, or the run that
    /// ends before the place past.
    pub(crate) fn pass(
        &mut self,
        alloc: Global,
        errand: &Errand<'_, '_>,
        numbers: &[u32],
        place: u32,
        past: u32,
    ) -> Result<(), Memory>
        requires sheet { IsSheet self.old }
        requires ground { IsGround errand.now.ground }
        requires tops { tops_in self.old ≡ tops_of errand.now.ground.site.now }
        requires part { part_ok errand.now.code.now errand.now.part ≡ true }
        requires low { errand.now.part.first ≤ place }
        requires high { place < errand.now.part.past }
        requires within { past ≤ errand.now.part.past }
        requires leaves { list_all (λ ins. leaves past ins.act) (run_of errand.now.code.now place past) ≡ true }
        requires tagless { list_all (λ ins. is_tagless ins.cond) (run_of errand.now.code.now place past) ≡ true }
        requires room { place + 1 < 2 ^ 32 }
        requires here { AllAt (At place) self.old.roll.classes.items (among numbers.now) }
        ensures sheet { OnOk result (IsSheet self.new) }
        ensures kept { OnOk result (Keeps errand.now self.old self.new) }
        ensures tops { tops_in self.new ≡ tops_in self.old }
    {
        if is_always(&errand.code[place as usize].cond) {
            self.pass_always(alloc, errand, numbers, place)?;
            return Ok(());
        }
        if past.saturating_sub(place) > 1 {
            self.pass_run(alloc, errand, numbers, place, past)?;
            return Ok(());
        }
        self.pass_ins(alloc, errand, numbers, place)?;
        Ok(())
    }
}
