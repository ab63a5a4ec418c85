//! How classes go on over instructions that do nothing to any of their packets.

ghost use Rattle.std.specs.Prelude.{◌≡◌, ◌≢◌, ◌<◌, ◌≤◌, ◌+◌, ◌^◌, ℕ, List, true, false, slice_get, Some, IfOk, IfSome, OnOk};
ghost use Rattle.fws_box.specs.Sides.{IsWithin};
ghost use Rattle.fws_flat.specs.Soundness.{part_ok};
ghost use Rattle.fws_flat.specs.declared.code.Ins.{Ins as AnyIns};
ghost use Rattle.fws_flat.specs.declared.code.FlatAct.TheVariants as acts;
ghost use Rattle.fws_net.specs.Conditions.{holds};
ghost use Rattle.fws_net.specs.Points.{tops_of};
ghost use Rattle.fws_exec.specs.declared.spot.Class.{Class as AnyClass};
ghost use Rattle.fws_exec.specs.declared.spot.Spot.TheVariants.{At};
ghost use Rattle.fws_exec.specs.Courses.{Keeps};
ghost use Rattle.fws_exec.specs.Divided.{seen_at};
ghost use Rattle.fws_exec.specs.Grounds.{IsGround};
ghost use Rattle.fws_exec.specs.Looks.{ComesTo, GoesOn, Shows};
ghost use Rattle.fws_exec.specs.Sheets.{tops_in, class_at, IsSheet, StandsAt};

use crate::errand::Errand;
use crate::hull::Hull;
use crate::hulls::hull_at;
use crate::look::Look;
use crate::noting::is_sought;
use crate::progress::Progress;
use crate::run::{bound_by, is_plain};
use crate::sheet::Sheet;
use crate::spot::Spot;
use crate::truth::Truth;
use crate::walk::run_limit;
use fws_flat::{FlatAct, Ins};
use fws_iv::Ivs;
use fws_net::{Cond, End, Lit, Test};
use fws_num::Memory;
use std::alloc::Global;

/// Where the act sends packets that it leaves as they are.
fn jump_of(act: FlatAct) -> Option<u32>
    ensures { IfSome result (λ to. act ≡ acts.Jump to) }
{
    match act {
        FlatAct::Jump(to) => Some(to),
        _ => None,
    }
}

/// Where the act of the instruction at the place sends packets that it leaves as they are, if nobody asks whether it is used.
fn free_jump(reached: &[bool], act: FlatAct, place: u32) -> Option<u32>
    ensures { IfSome result (λ to. (act ≡ acts.Jump to) × (slice_get reached.now place ≢ Some false)) }
{
    if is_sought(reached, place) {
        return None;
    }
    jump_of(act)
}

/// Whether the instruction may be in a run. Nothing hangs on it but time.
fn may_run(ins: &Ins) -> bool {
    is_plain(ins) && bound_by(ins.act, u32::MAX) > 0
}

/// Whether the address may miss the set, or its negation, everywhere between two numbers unless the end is written over it. Nothing
/// hangs on it but time.
fn misses(end: Option<End>, lo: u32, hi: u32, set: &Ivs, negated: bool) -> bool {
    if let Some(end) = end {
        return set.has(end.addr) == negated;
    }
    match (set.parts().first(), set.parts().last()) {
        (Some(first), Some(last)) => !negated && (hi < first.lo || last.hi < lo),
        _ => !negated,
    }
}

impl Errand<'_, '_> {
    /// Where packets of the look, to which rules did this, go on behind the instruction at the place, if all of them do so as
    /// they are.
    fn behind(&self, reached: &[bool], progress: &Progress, look: &Look, place: u32) -> Option<u32>
        requires part { part_ok self.now.code.now self.now.part ≡ true }
        requires low { self.now.part.first ≤ place }
        requires high { place < self.now.part.past }
        requires room { place + 1 < 2 ^ 32 }
        ensures { IfSome result (λ to. (place < to) × (to ≤ self.now.part.past) × GoesOn self.now reached.now look.now progress.now place to) }
    {
        let ins = &self.code[place as usize];
        // Tags and ends that rules wrote cost least to ask for, and tell the most.
        if progress.fails(&ins.cond) {
            return Some(place + 1);
        }
        match look.holds(progress, &ins.cond) {
            Truth::Fails => Some(place + 1),
            Truth::Holds => free_jump(reached, ins.act, place),
            Truth::Open => None,
        }
    }

    /// Where packets of the look, to which rules did this, come from the place as they are: to the limit or behind it, or to an
    /// instruction that may do something to them.
    fn onward(
        &self,
        reached: &[bool],
        progress: &Progress,
        look: &Look,
        place: u32,
        limit: u32,
    ) -> u32
        requires part { part_ok self.now.code.now self.now.part ≡ true }
        requires low { self.now.part.first ≤ place }
        requires high { place ≤ self.now.part.past }
        requires within { limit ≤ self.now.part.past }
        ensures low { place ≤ result }
        ensures high { result ≤ self.now.part.past }
        ensures goes { GoesOn self.now reached.now look.now progress.now place result }
    {
        let mut at = place;
        while at < limit {
            match self.behind(reached, progress, look, at) {
                Some(next) => at = next,
                None => return at,
            }
        }
        at
    }

    /// Where the run begins in which the place is, if that isn't before the first place. Nothing hangs on it but time.
    fn run_start(&self, first: u32, place: u32) -> u32
        ensures { result ≤ place }
    {
        let at = place.saturating_sub(self.part.first);
        match self.starts.get(at as usize) {
            Some(start) => (*start).max(first).min(place),
            None => place,
        }
    }

    /// Whether the condition of the instruction at the place, if there is one, holds at all packets of the look, to which rules did
    /// this. Nothing hangs on it but time.
    fn is_held(&self, progress: &Progress, look: &Look, place: u32) -> bool {
        match self.code.get(place as usize) {
            Some(ins) => look.holds(progress, &ins.cond).is_held(),
            None => false,
        }
    }

    /// Where packets of the look, to which rules did this, come from the place as they are: to an instruction that acts on all of
    /// them; or to where the run begins that has the place which they come to, so that classes stay together that a run may take; or
    /// else to this place, which has an instruction that may do something to them or is as far as is looked.
    fn reached(&self, reached: &[bool], progress: &Progress, look: &Look, place: u32) -> u32
        requires part { part_ok self.now.code.now self.now.part ≡ true }
        requires low { self.now.part.first ≤ place }
        requires high { place < self.now.part.past }
        ensures low { place ≤ result }
        ensures goes { GoesOn self.now reached.now look.now progress.now place result }
    {
        let limit = run_limit(place, self.part.past);
        let end = self.onward(reached, progress, look, place, limit);
        if self.is_held(progress, look, end) {
            return end;
        }
        let start = self.run_start(place, end);
        if start == end || start == place && end >= limit {
            return end;
        }
        self.onward(reached, progress, look, place, start)
    }
}

impl Progress {
    /// Whether rules wrote an end or put a tag. Nothing hangs on it but time.
    fn is_marked(&self) -> bool {
        self.wrote.src.is_some() || self.wrote.dst.is_some() || !self.tags.is_empty()
    }

    /// Whether the literal may fail at all packets to which rules did this and whose points lie in the hull. Nothing hangs on it
    /// but time.
    fn may_miss(&self, hull: &Hull, lit: &Lit) -> bool {
        match &lit.test {
            Test::Tag(tag) => self.has_tag(*tag) == lit.not,
            Test::Src(set) => misses(self.wrote.src, hull.lo[4], hull.hi[4], set, lit.not),
            Test::Dst(set) => misses(self.wrote.dst, hull.lo[2], hull.hi[2], set, lit.not),
            Test::Xmit(_) => self.wrote.dst.is_some(),
            Test::Recv(_) => hull.lo[0] == hull.hi[0],
            _ => false,
        }
    }

    /// Whether the condition may fail at all packets to which rules did this and whose points lie in the hull. Nothing hangs on it
    /// but time.
    fn may_miss_all(&self, hull: &Hull, cond: &Cond) -> bool {
        for lit in cond.lits() {
            if self.may_miss(hull, lit) {
                return true;
            }
        }
        false
    }
}

impl Sheet {
    /// What is known of the packets of the class with this number.
    fn look(&self, errand: &Errand<'_, '_>, number: u32) -> Result<Look, Memory>
        requires sheet { IsSheet self.now }
        requires ground { IsGround errand.now.ground }
        ensures { IfOk result (λ look. (c : AnyClass) (p : List ℕ) → slice_get self.now.roll.classes.items number ≡ Some c → IsWithin (tops_in self.now) p → class_at self.now p ≡ number → Shows look (seen_at errand.now.ground.site.now errand.now.ground.state errand.now.part c.progress p)) }
    {
        let class = self.roll.used(number)?;
        let hull = hull_at(self.hulls.as_slice(), number as usize);
        Ok(errand.look(&class.progress, &hull))
    }

    /// Where the packets of the class with this number come from the place as they are.
    fn reached(&self, errand: &Errand<'_, '_>, number: u32, place: u32) -> Result<u32, Memory>
        requires sheet { IsSheet self.now }
        requires ground { IsGround errand.now.ground }
        requires part { part_ok errand.now.code.now errand.now.part ≡ true }
        requires low { errand.now.part.first ≤ place }
        requires high { place < errand.now.part.past }
        ensures low { IfOk result (λ to. place ≤ to) }
        ensures comes { IfOk result (λ to. ComesTo errand.now self.now number place to) }
    {
        let look = self.look(errand, number)?;
        let class = self.roll.used(number)?;
        Ok(errand.reached(self.reached.as_slice(), &class.progress, &look, place))
    }

    /// The class with this number, which stands at the place, goes to where its packets come as they are. Gives that place.
    fn go_on(&mut self, errand: &Errand<'_, '_>, number: u32, place: u32) -> Result<u32, Memory>
        requires sheet { IsSheet self.old }
        requires ground { IsGround errand.now.ground }
        requires tops { tops_in self.old ≡ tops_of errand.now.ground.site.now }
        requires part { part_ok errand.now.code.now errand.now.part ≡ true }
        requires low { errand.now.part.first ≤ place }
        requires high { place < errand.now.part.past }
        requires here { StandsAt (At place) self.old.roll.classes.items number }
        ensures low { IfOk result (λ to. place ≤ to) }
        ensures sheet { OnOk result (IsSheet self.new) }
        ensures kept { OnOk result (Keeps errand.now self.old self.new) }
        ensures tops { tops_in self.new ≡ tops_in self.old }
    {
        let to = self.reached(errand, number, place)?;
        if to == place {
            return Ok(to);
        }
        self.roll.send(number, Spot::At(to));
        self.roll.arrive(number, Spot::At(to))?;
        Ok(to)
    }

    /// Whether the condition of the instruction at the place holds for all packets of the class with this number. False tells nothing.
    fn holds_whole(&self, errand: &Errand<'_, '_>, number: u32, place: u32) -> Result<bool, Memory>
        requires sheet { IsSheet self.now }
        requires ground { IsGround errand.now.ground }
        requires part { part_ok errand.now.code.now errand.now.part ≡ true }
        requires high { place < errand.now.part.past }
        ensures { IfOk result (λ b. b ≡ true → (ins : AnyIns) (c : AnyClass) (p : List ℕ) → slice_get errand.now.code.now place ≡ Some ins → slice_get self.now.roll.classes.items number ≡ Some c → IsWithin (tops_in self.now) p → class_at self.now p ≡ number → holds ins.cond (seen_at errand.now.ground.site.now errand.now.ground.state errand.now.part c.progress p) ≡ true) }
    {
        let look = self.look(errand, number)?;
        let class = self.roll.used(number)?;
        let ins = &errand.code[place as usize];
        Ok(look.holds(&class.progress, &ins.cond).is_held())
    }

    /// The class with this number, if it stands at the place, passes the instruction there as a whole, if the condition holds for all
    /// of its packets as far as is known.
    fn pass_held(
        &mut self,
        alloc: Global,
        errand: &Errand<'_, '_>,
        number: u32,
        place: u32,
    ) -> Result<(), Memory>
        requires sheet { IsSheet self.old }
        requires ground { IsGround errand.now.ground }
        requires tops { tops_in self.old ≡ tops_of errand.now.ground.site.now }
        requires part { part_ok errand.now.code.now errand.now.part ≡ true }
        requires low { errand.now.part.first ≤ place }
        ensures sheet { OnOk result (IsSheet self.new) }
        ensures kept { OnOk result (Keeps errand.now self.old self.new) }
        ensures tops { tops_in self.new ≡ tops_in self.old }
    {
        if place >= errand.part.past {
            return Ok(());
        }
        let held = self.holds_whole(errand, number, place)?;
        if !held {
            return Ok(());
        }
        self.pass_whole(alloc, errand, number, place)?;
        Ok(())
    }

    /// Whether the class with this number may pass the instruction at the place by itself: where the instruction may be in a run, only
    /// a class to which rules did something, since others meet again behind most conditions. Nothing hangs on it but time.
    fn may_leap(&self, errand: &Errand<'_, '_>, number: u32, place: u32) -> bool {
        let ins = match errand.code.get(place as usize) {
            Some(ins) => ins,
            None => return false,
        };
        match (
            self.roll.classes.get(number as usize),
            self.hulls.get(number as usize),
        ) {
            (Some(class), Some(hull)) => {
                (class.progress.is_marked() || !may_run(ins))
                    && class.progress.may_miss_all(hull, &ins.cond)
            }
            _ => false,
        }
    }

    /// The class with this number, if it stands at the place and may leap, goes to where its packets come as they are, and passes the
    /// instruction there if that acts on all of them.
    fn leap_one(
        &mut self,
        alloc: Global,
        errand: &Errand<'_, '_>,
        number: u32,
        place: u32,
    ) -> Result<(), Memory>
        requires sheet { IsSheet self.old }
        requires ground { IsGround errand.now.ground }
        requires tops { tops_in self.old ≡ tops_of errand.now.ground.site.now }
        requires part { part_ok errand.now.code.now errand.now.part ≡ true }
        requires low { errand.now.part.first ≤ place }
        requires high { place < errand.now.part.past }
        ensures sheet { OnOk result (IsSheet self.new) }
        ensures kept { OnOk result (Keeps errand.now self.old self.new) }
        ensures tops { tops_in self.new ≡ tops_in self.old }
    {
        if !self.roll.stands(number, Spot::At(place)) {
            return Ok(());
        }
        if !self.may_leap(errand, number, place) {
            return Ok(());
        }
        let to = self.go_on(errand, number, place)?;
        self.pass_held(alloc, errand, number, to)?;
        Ok(())
    }

    /// Those of the classes with these numbers that stand at the place and may leap go to where their packets come as they are, and
    /// pass what acts on all of them there.
    pub(crate) fn leap(
        &mut self,
        alloc: Global,
        errand: &Errand<'_, '_>,
        numbers: &[u32],
        place: u32,
    ) -> Result<(), Memory>
        requires sheet { IsSheet self.old }
        requires ground { IsGround errand.now.ground }
        requires tops { tops_in self.old ≡ tops_of errand.now.ground.site.now }
        requires part { part_ok errand.now.code.now errand.now.part ≡ true }
        requires low { errand.now.part.first ≤ place }
        requires high { place < errand.now.part.past }
        ensures sheet { OnOk result (IsSheet self.new) }
        ensures kept { OnOk result (Keeps errand.now self.old self.new) }
        ensures tops { tops_in self.new ≡ tops_in self.old }
    {
        for number in numbers {
            self.leap_one(alloc, errand, *number, place)?;
        }
        Ok(())
    }
}
