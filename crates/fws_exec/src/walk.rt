//! How the classes at the instructions of a part pass them, place by place.

ghost use Rattle.std.specs.Prelude.{◌≡◌, ◌<◌, ◌≤◌, ◌+◌, ◌^◌, ℕ, true, false, OnOk};
ghost use Rattle.fws_flat.specs.Soundness.{part_ok};
ghost use Rattle.fws_net.specs.Points.{tops_of};
ghost use Rattle.fws_exec.specs.declared.spot.Spot.TheVariants.{At};
ghost use Rattle.fws_exec.specs.Classes.{is_before};
ghost use Rattle.fws_exec.specs.Courses.{Keeps};
ghost use Rattle.fws_exec.specs.Grounds.{IsGround};
ghost use Rattle.fws_exec.specs.Sheets.{among, tops_in, AllAt, IsSheet, KeepsFutures, stands};

use crate::errand::Errand;
use crate::sheet::Sheet;
use crate::spot::Spot;
use fws_num::Memory;
use std::alloc::Global;

/// How many instructions a run has at most.
const LONGEST_RUN: u32 = 1024;

/// The end of the longest run that begins at the place, or the limit if that comes first.
pub(crate) fn run_limit(place: u32, limit: u32) -> u32
    requires { place < limit }
    ensures later { place < result }
    ensures within { result ≤ limit }
{
    limit.min(place.saturating_add(LONGEST_RUN))
}

impl Sheet {
    /// The classes with these numbers, which stand at one place, pass the instruction there, or the run that begins there.
    fn visit(
        &mut self,
        alloc: Global,
        errand: &Errand<'_, '_>,
        numbers: &[u32],
        place: u32,
    ) -> Result<(), Memory>
        requires sheet { IsSheet self.old }
        requires ground { IsGround errand.now.ground }
        requires tops { tops_in self.old ≡ tops_of errand.now.ground.site.now }
        requires part { part_ok errand.now.code.now errand.now.part ≡ true }
        requires low { errand.now.part.first ≤ place }
        requires high { place < errand.now.part.past }
        requires room { place + 1 < 2 ^ 32 }
        requires here { AllAt (At place) self.old.roll.classes.items (among numbers.now) }
        ensures sheet { OnOk result (IsSheet self.new) }
        ensures kept { OnOk result (Keeps errand.now self.old self.new) }
        ensures tops { tops_in self.new ≡ tops_in self.old }
    {
        if numbers.is_empty() {
            return Ok(());
        }
        let limit = run_limit(place, errand.part.past);
        let past = errand.run_end(&self.roll, place, limit);
        self.pass(alloc, errand, numbers, place, past)?;
        Ok(())
    }

    /// Equal classes at the place become one, if some may be equal.
    fn meet(&mut self, alloc: Global, place: u32) -> Result<(), Memory>
        requires { IsSheet self.old }
        ensures sheet { OnOk result (IsSheet self.new) }
        ensures kept { OnOk result (KeepsFutures self.old self.new) }
        ensures tops { tops_in self.new ≡ tops_in self.old }
        ensures reached { self.new.reached ≡ self.old.reached }
    {
        if self.roll.has_arrivals(place) {
            let mut came = self.roll.waiting_at(alloc, place)?;
            came.sort()?;
            self.merge_these(alloc, came.as_slice())?;
        }
        Ok(())
    }

    /// Forgets which classes came to the place.
    fn forget(&mut self, alloc: Global, place: u32)
        requires { IsSheet self.old }
        ensures sheet { IsSheet self.new }
        ensures kept { KeepsFutures self.old self.new }
        ensures tops { tops_in self.new ≡ tops_in self.old }
        ensures reached { self.new.reached ≡ self.old.reached }
    {
        self.roll.wait_none(alloc, place);
    }

    /// Notes the classes at the place as those that came there.
    fn note_all(&mut self, alloc: Global, place: u32) -> Result<(), Memory>
        requires { IsSheet self.old }
        ensures sheet { OnOk result (IsSheet self.new) }
        ensures kept { OnOk result (KeepsFutures self.old self.new) }
        ensures tops { tops_in self.new ≡ tops_in self.old }
        ensures reached { self.new.reached ≡ self.old.reached }
    {
        let here = self.roll.all_at(alloc, Spot::At(place))?;
        self.roll.wait_none(alloc, place);
        self.roll.wait_all(here.as_slice(), place)?;
        Ok(())
    }

    /// Equal classes at the place become one, and each class there passes.
    fn step(&mut self, alloc: Global, errand: &Errand<'_, '_>, place: u32) -> Result<(), Memory>
        requires sheet { IsSheet self.old }
        requires ground { IsGround errand.now.ground }
        requires tops { tops_in self.old ≡ tops_of errand.now.ground.site.now }
        requires part { part_ok errand.now.code.now errand.now.part ≡ true }
        requires low { errand.now.part.first ≤ place }
        requires high { place < errand.now.part.past }
        requires room { place + 1 < 2 ^ 32 }
        ensures sheet { OnOk result (IsSheet self.new) }
        ensures kept { OnOk result (Keeps errand.now self.old self.new) }
        ensures tops { tops_in self.new ≡ tops_in self.old }
    {
        self.meet(alloc, place)?;
        let came = self.roll.waiting_at(alloc, place)?;
        self.leap(alloc, errand, came.as_slice(), place)?;
        let here = self.roll.waiting_at(alloc, place)?;
        self.visit(alloc, errand, here.as_slice(), place)?;
        self.forget(alloc, place);
        Ok(())
    }

    /// The classes at the first instruction of the part pass all of its instructions. Fails if memory runs out, and a class that
    /// was left behind.
    pub(crate) fn walk(&mut self, alloc: Global, errand: &Errand<'_, '_>) -> Result<(), Memory>
        requires sheet { IsSheet self.old }
        requires ground { IsGround errand.now.ground }
        requires tops { tops_in self.old ≡ tops_of errand.now.ground.site.now }
        requires part { part_ok errand.now.code.now errand.now.part ≡ true }
        ensures sheet { OnOk result (IsSheet self.new) }
        ensures kept { OnOk result (Keeps errand.now self.old self.new) }
        ensures passed { OnOk result ((n : ℕ) → stands (is_before errand.now.part.past) self.new.roll.classes.items n ≡ false) }
        ensures tops { tops_in self.new ≡ tops_in self.old }
    {
        let past = errand.part.past;
        self.note_all(alloc, errand.part.first)?;
        let mut place = self.roll.next_waited(errand.part.first, past);
        while place < past {
            self.step(alloc, errand, place)?;
            place = self.roll.next_waited(place + 1, past);
        }
        if !self.roll.are_past(past) {
            return Err(Memory);
        }
        Ok(())
    }
}
