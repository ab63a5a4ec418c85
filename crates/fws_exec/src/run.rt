//! Runs: instructions in a row that all end the run.

ghost use Rattle.std.specs.Prelude.{◌≡◌, ◌<◌, ◌≤◌, ℕ, true, false, length};
ghost use Rattle.std.specs.List.{list_all};
ghost use Rattle.fws_exec.specs.Runs.{leaves, run_of};
ghost use Rattle.fws_exec.specs.Views.{is_tag, is_tagless};

use crate::errand::Errand;
use crate::roll::Roll;
use fws_flat::{FlatAct, Ins, Part};
use fws_net::{Cond, Test};
use fws_num::Memory;
use std::alloc::Global;

/// Whether the test is that of a tag.
fn is_tag(test: &Test) -> bool
    ensures { result ≡ is_tag test.now }
{
    match test {
        Test::Tag(_) => true,
        _ => false,
    }
}

/// Whether no literal of the condition tests a tag.
fn is_tagless(cond: &Cond) -> bool
    ensures { result ≡ is_tagless cond.now }
{
    cond.lits().iter().all(|lit| !is_tag(&lit.test))
}

/// Whether the instruction may stand in a run: its condition tests something, and no tag.
pub(crate) fn is_plain(ins: &Ins) -> bool
    ensures { result ≡ true → is_tagless ins.now.cond ≡ true }
{
    if ins.cond.lits().is_empty() {
        return false;
    }
    is_tagless(&ins.cond)
}

/// Where a run must end at the latest if this act is in it and else it must end at this place; 0 if the act can't be in
/// a run.
pub(crate) fn bound_by(act: FlatAct, limit: u32) -> u32
    ensures bound { result ≤ limit }
    ensures leaves { (past : ℕ) → past ≤ result → 0 < past → leaves past act ≡ true }
{
    match act {
        FlatAct::Accept => limit,
        FlatAct::Drop => limit,
        FlatAct::Jump(to) => to.min(limit),
        _ => 0,
    }
}

/// Whether a run in which the instruction is may go on to the place. Nothing hangs on it but time.
fn may_run_to(ins: &Ins, place: u32) -> bool {
    is_plain(ins) && bound_by(ins.act, u32::MAX) > place
}

/// For each place of the part where the run begins in which it is, or the place itself where it is in none. Nothing hangs on it but time.
pub(crate) fn run_starts(alloc: Global, code: &[Ins], part: Part) -> Result<Vec<u32>, Memory> {
    let mut starts = Vec::new(alloc);
    let mut start = part.first;
    let mut goes_on = false;
    for place in part.first..part.past {
        let ins = match code.get(place as usize) {
            Some(ins) => ins,
            None => return Ok(starts),
        };
        if !goes_on {
            start = place;
        }
        let is_in_run = may_run_to(ins, place);
        starts.push(if is_in_run { start } else { place })?;
        goes_on = is_in_run && may_run_to(ins, place.saturating_add(1));
    }
    Ok(starts)
}

/// The instructions from a place on, before another.
pub(crate) fn run_of(code: &[Ins], place: u32, past: u32) -> &[Ins]
    requires later { place ≤ past }
    requires within { past ≤ length code.now }
    ensures { result.now ≡ run_of code.now place past }
{
    &code[place as usize..past as usize]
}

impl Errand<'_, '_> {
    /// The end of the run that begins at the place and ends before the limit, and before the next place to which a class came.
    pub(crate) fn run_end(&self, roll: &Roll, place: u32, limit: u32) -> u32
        requires within { limit ≤ length self.now.code.now }
        requires place { place < limit }
        ensures past { result ≤ limit }
        ensures first { place ≤ result }
        ensures leaves { list_all (λ ins. leaves result ins.act) (run_of self.now.code.now place result) ≡ true }
        ensures tagless { list_all (λ ins. is_tagless ins.cond) (run_of self.now.code.now place result) ≡ true }
    {
        let mut most = limit;
        let mut past = place;
        while past < most {
            if past > place && roll.is_waited(past) {
                return past;
            }
            let ins = &self.code[past as usize];
            if !is_plain(ins) {
                return past;
            }
            let bound = bound_by(ins.act, most);
            if bound <= past {
                return past;
            }
            most = bound;
            past += 1;
        }
        past
    }
}
