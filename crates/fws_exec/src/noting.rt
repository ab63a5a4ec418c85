//! Which instructions were found to be used.

ghost use Rattle.std.specs.Prelude.{◌≡◌, ◌≢◌, ◌<◌, ◌≤◌, nat_eq, ℕ, List, [], ◌∷◌, true, false, Some, length, slice_get, IfOk, OnOk};
ghost use Rattle.std.specs.List.{list_any};
ghost use Rattle.fws_tree.specs.Marks.{mark_at};
ghost use Rattle.fws_exec.specs.Divided.{says_at, says_from, says_of, AreNoted, AreSet};
ghost use Rattle.fws_exec.specs.Sheets.{among, tops_in, class_at, IsSheet};

use crate::going::Going;
use crate::hulls::hull_of;
use crate::sheet::Sheet;
use fws_num::Memory;
use fws_tree::{Mark, Touch};
use std::alloc::Global;

/// No use of so many instructions was found so far.
pub(crate) fn none_reached(alloc: Global, places: usize) -> Result<Vec<bool>, Memory>
    ensures none { IfOk result (λ r. (k : ℕ) → slice_get r.items k ≢ Some true) }
    ensures count { IfOk result (λ r. length r.items ≡ places) }
{
    let mut reached = Vec::new(alloc);
    for _place in 0..places {
        reached.push(false)?;
    }
    Ok(reached)
}

/// Whether it is asked for uses of the instruction at the place, and none was found so far.
pub(crate) fn is_sought(reached: &[bool], place: u32) -> bool
    ensures sought { result ≡ true → slice_get reached.now place ≡ Some false }
    ensures found { result ≡ false → slice_get reached.now place ≢ Some false }
{
    match reached.get(place as usize) {
        Some(reached) => !*reached,
        None => false,
    }
}

/// Whether it is so for some instruction from a place on, before another.
pub(crate) fn are_sought(reached: &[bool], place: u32, past: u32) -> bool
    ensures { result ≡ false → (k : ℕ) → place ≤ k → k < past → slice_get reached.now k ≢ Some false }
{
    for at in place..past {
        if is_sought(reached, at) {
            return true;
        }
    }
    false
}

/// Notes that the instruction at the place is used.
fn note_place(reached: &mut Vec<bool>, place: u32)
    ensures set { AreSet (λ k. nat_eq k place) reached.old.items reached.new.items }
    ensures count { length reached.new.items ≡ length reached.old.items }
{
    if (place as usize) < reached.len() {
        reached[place as usize] = true;
    }
}

/// Notes that the instruction is used that the label tells, in a run from the place on. Fails if memory runs out, and a place that
/// can't be.
fn note_label(reached: &mut Vec<bool>, place: u32, touch: &Touch) -> Result<(), Memory>
    ensures set { OnOk result (AreSet (says_from place touch.now.label) reached.old.items reached.new.items) }
    ensures count { length reached.new.items ≡ length reached.old.items }
{
    if touch.label == 0 {
        return Ok(());
    }
    match place.checked_add(touch.label - 1) {
        Some(at) => {
            note_place(reached, at);
            Ok(())
        }
        None => Err(Memory),
    }
}

/// Notes that the instructions are used that labels of a run from the place on tell.
fn note_labels(reached: &mut Vec<bool>, place: u32, touches: &[Touch]) -> Result<(), Memory>
    ensures set { OnOk result (AreSet (λ k. list_any (λ t. says_from place t.label k) touches.now) reached.old.items reached.new.items) }
    ensures count { OnOk result (length reached.new.items ≡ length reached.old.items) }
{
    for touch in touches {
        note_label(reached, place, touch)?;
    }
    Ok(())
}

impl Sheet {
    /// Notes which instructions of a run from the place on are used by points of the classes with these numbers: those whose
    /// numbers are labels there, of which the first has number 1.
    pub(crate) fn note_run(
        &mut self,
        alloc: Global,
        numbers: &[u32],
        marks: &[Mark<'_>],
        place: u32,
    ) -> Result<(), Memory>
        requires { IsSheet self.old }
        ensures sheet { OnOk result (IsSheet self.new) }
        ensures noted { OnOk result (AreNoted (says_from place) (among numbers.now) (λ g p. mark_at marks.now 0 p) self.old self.new) }
        ensures same { (p : List ℕ) → class_at self.new p ≡ class_at self.old p }
        ensures roll { self.new.roll ≡ self.old.roll }
        ensures tops { tops_in self.new ≡ tops_in self.old }
    {
        let touches = self.canvas.touched(alloc, numbers, marks)?;
        note_labels(&mut self.reached, place, touches.as_slice())?;
        Ok(())
    }

    /// Notes that the instruction at the place is used, if points of the classes with these numbers have a label.
    fn note_one(
        &mut self,
        alloc: Global,
        numbers: &[u32],
        marks: &[Mark<'_>],
        place: u32,
    ) -> Result<(), Memory>
        requires { IsSheet self.old }
        ensures sheet { OnOk result (IsSheet self.new) }
        ensures noted { OnOk result (AreNoted (says_at place) (among numbers.now) (λ g p. mark_at marks.now 0 p) self.old self.new) }
        ensures same { (p : List ℕ) → class_at self.new p ≡ class_at self.old p }
        ensures roll { self.new.roll ≡ self.old.roll }
        ensures tops { tops_in self.new ≡ tops_in self.old }
        ensures hulls { self.new.hulls ≡ self.old.hulls }
    {
        let touches = self.canvas.touched(alloc, numbers, marks)?;
        if touches.is_empty() {
            return Ok(());
        }
        note_place(&mut self.reached, place);
        Ok(())
    }

    /// Notes that the instruction at the place is used, if it is asked for uses of it, and points of the classes with these numbers
    /// have a label.
    fn note_sought(
        &mut self,
        alloc: Global,
        numbers: &[u32],
        marks: &[Mark<'_>],
        place: u32,
    ) -> Result<(), Memory>
        requires { IsSheet self.old }
        ensures sheet { OnOk result (IsSheet self.new) }
        ensures noted { OnOk result (AreNoted (says_at place) (among numbers.now) (λ g p. mark_at marks.now 0 p) self.old self.new) }
        ensures same { (p : List ℕ) → class_at self.new p ≡ class_at self.old p }
        ensures roll { self.new.roll ≡ self.old.roll }
        ensures tops { tops_in self.new ≡ tops_in self.old }
    {
        if !is_sought(self.reached.as_slice(), place) {
            return Ok(());
        }
        self.note_one(alloc, numbers, marks, place)?;
        Ok(())
    }

    /// Notes that the instruction is used behind which packets go, if points of the classes with these numbers have a label.
    pub(crate) fn note_going(
        &mut self,
        alloc: Global,
        numbers: &[u32],
        marks: &[Mark<'_>],
        going: Going,
    ) -> Result<(), Memory>
        requires { IsSheet self.old }
        ensures sheet { OnOk result (IsSheet self.new) }
        ensures noted { OnOk result (AreNoted (says_of going) (among numbers.now) (λ g p. mark_at marks.now 0 p) self.old self.new) }
        ensures same { (p : List ℕ) → class_at self.new p ≡ class_at self.old p }
        ensures roll { self.new.roll ≡ self.old.roll }
        ensures tops { tops_in self.new ≡ tops_in self.old }
    {
        match going {
            Going::To(_) => Ok(()),
            Going::Behind(_, _, place, _) => {
                self.note_sought(alloc, numbers, marks, place)?;
                Ok(())
            }
            Going::Leaving(_, _) => Ok(()),
        }
    }

    /// Notes that the instruction at the place is used, if it is asked for uses of it, and the class with this number has a point.
    pub(crate) fn note_whole(
        &mut self,
        alloc: Global,
        number: u32,
        place: u32,
    ) -> Result<(), Memory>
        requires { IsSheet self.old }
        ensures sheet { OnOk result (IsSheet self.new) }
        ensures noted { OnOk result (AreNoted (says_at place) (among (number ∷ [])) (λ g p. 1) self.old self.new) }
        ensures same { (p : List ℕ) → class_at self.new p ≡ class_at self.old p }
        ensures roll { self.new.roll ≡ self.old.roll }
        ensures tops { tops_in self.new ≡ tops_in self.old }
    {
        if !is_sought(self.reached.as_slice(), place) {
            return Ok(());
        }
        let sets = hull_of(self.hulls.as_slice(), &[number]).sets(alloc)?;
        let mark = Mark::of_sets(&sets, 1);
        self.note_one(alloc, &[number], &[mark], place)?;
        Ok(())
    }
}
