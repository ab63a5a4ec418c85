//! How equal classes become one.

ghost use Rattle.std.specs.Prelude.{◌≡◌, ◌≤◌, ℕ, Bool, List, true, false, slice_get, slice_index_or, OnOk};
ghost use Rattle.fws_box.specs.Sides.{IsWithin};
ghost use Rattle.fws_exec.specs.declared.spot.Spot.{Spot as AnySpot};
ghost use Rattle.fws_exec.specs.declared.spot.Spot.TheVariants.{Unused};
ghost use Rattle.fws_exec.specs.Hulls.{HasAt, HullsGrow};
ghost use Rattle.fws_exec.specs.Joined.{is_joined, AreReleased};
ghost use Rattle.fws_exec.specs.Sheets.{tops_in, class_at, IsFree, IsSheet, KeepsFutures, NoneComes};

use crate::called::{bits_of, have_bits};
use crate::hull::Hull;
use crate::hulls::{hull_at, hull_of, widen};
use crate::joining::{Joining, has_twin};
use crate::key::Key;
use crate::roll::Roll;
use crate::sheet::Sheet;
use crate::spot::Spot;
use fws_num::Memory;
use fws_tree::Mark;
use std::alloc::Global;
use std::collections::HashMap;

/// For each of so many classes its own number, as long as it has no twin.
fn own_numbers(alloc: Global, count: u32) -> Result<Vec<u32>, Memory> {
    let mut twins = Vec::new(alloc);
    for number in 0..count {
        twins.push(number)?;
    }
    Ok(twins)
}

/// Notes that the class with this number has a twin.
fn note(twins: &mut Vec<u32>, number: u32, twin: u32) {
    if (number as usize) < twins.len() {
        twins[number as usize] = twin;
    }
}

impl Roll {
    /// Puts the class with this number behind those that have a twin, if an earlier one has the same key. Else it is found by
    /// its key from now on.
    fn note_class(
        &self,
        number: u32,
        first: &mut HashMap<Key, u32>,
        joined: &mut Vec<u32>,
        twins: &mut Vec<u32>,
    ) -> Result<(), Memory> {
        let class = self.used(number)?;
        let key = Key::of(class.spot, &class.progress);
        if let Some(twin) = first.get(&key) {
            let twin = *twin;
            if twin != number && self.are_twins(twin, number) {
                joined.push(number)?;
                twins.push(twin)?;
            }
            return Ok(());
        }
        first.insert(key, number)?;
        Ok(())
    }

    /// Notes which of these classes have a twin, and their twins.
    fn note_classes(
        &self,
        alloc: Global,
        numbers: &[u32],
        joined: &mut Vec<u32>,
        twins: &mut Vec<u32>,
    ) -> Result<(), Memory> {
        let mut first = HashMap::new(alloc);
        for number in numbers {
            self.note_class(*number, &mut first, joined, twins)?;
        }
        Ok(())
    }

    /// For each class its twin, or its own number: those that are joined have these twins.
    fn twins_of(&self, alloc: Global, joined: &[u32], of: &[u32]) -> Result<Vec<u32>, Memory> {
        let mut twins = own_numbers(alloc, self.count()?)?;
        for (number, twin) in joined.iter().zip(of) {
            note(&mut twins, *number, *twin);
        }
        Ok(twins)
    }

    /// Lets the numbers be given again of those classes that have become their twins. Fails if memory runs out, and a class that
    /// has none.
    fn release_all(&mut self, alloc: Global, twins: &[u32], joined: &[u32]) -> Result<(), Memory>
        ensures released { OnOk result (AreReleased (is_joined twins.now joined.now) self.old.classes.items self.new.classes.items) }
    {
        for number in joined {
            if !has_twin(twins, *number) || (*number as usize) >= self.classes.len() {
                return Err(Memory);
            }
            self.release(alloc, *number)?;
        }
        Ok(())
    }
}

/// The hull with the number of the twin takes in the one at the place.
fn take_one(hulls: &mut Vec<Hull>, place: usize, twin: u32) -> Result<(), Memory>
    ensures grown { OnOk result (HullsGrow hulls.old.items hulls.new.items) }
    ensures taken { OnOk result ((p : List ℕ) → HasAt hulls.old.items place p → HasAt hulls.new.items twin p) }
{
    let own = hull_at(hulls.as_slice(), place);
    widen(hulls, twin, &own)?;
    Ok(())
}

/// The hull of each class that has a twin is taken in by that of its twin.
fn take_in(hulls: &mut Vec<Hull>, twins: &[u32]) -> Result<(), Memory>
    ensures grown { OnOk result (HullsGrow hulls.old.items hulls.new.items) }
    ensures taken { OnOk result ((n : ℕ) (p : List ℕ) → HasAt hulls.old.items n p → HasAt hulls.new.items (slice_index_or twins.now n n) p) }
{
    for place in 0..twins.len() {
        if twins[place] as usize == place {
            continue;
        }
        take_one(hulls, place, twins[place])?;
    }
    Ok(())
}

/// The classes with these numbers that have a twin have no points any more.
fn forget(hulls: &mut Vec<Hull>, twins: &[u32], joined: &[u32])
    ensures { (n : ℕ) → is_joined twins.now joined.now n ≡ false → slice_get hulls.new.items n ≡ slice_get hulls.old.items n }
{
    for number in joined {
        if !has_twin(twins, *number) || (*number as usize) >= hulls.len() {
            continue;
        }
        hulls[*number as usize] = Hull::none();
    }
}

impl Sheet {
    /// The classes that have a twin become it, whose hulls have their points already. Fails if memory runs out, or at a twin that
    /// isn't one.
    fn join_all(&mut self, alloc: Global, twins: &[u32], joined: &[u32]) -> Result<(), Memory>
        requires sheet { IsSheet self.old }
        requires taken { (p : List ℕ) → IsWithin (tops_in self.old) p → HasAt self.old.hulls.items (slice_index_or twins.now (class_at self.old p) (class_at self.old p)) p }
        ensures sheet { OnOk result (IsSheet self.new) }
        ensures kept { OnOk result (KeepsFutures self.old self.new) }
        ensures free { OnOk result ((n : ℕ) → is_joined twins.now joined.now n ≡ true → IsFree self.new n) }
        ensures roll { self.new.roll ≡ self.old.roll }
        ensures hulls { self.new.hulls ≡ self.old.hulls }
        ensures tops { tops_in self.new ≡ tops_in self.old }
        ensures reached { self.new.reached ≡ self.old.reached }
    {
        let wanted = bits_of(self.canvas.values(), joined);
        if !have_bits(self.canvas.values(), joined, wanted) {
            return Err(Memory);
        }
        let mut joining = Joining {
            roll: &self.roll,
            twins,
        };
        let sets = hull_of(self.hulls.as_slice(), joined).sets(alloc)?;
        let mark = Mark::of_sets(&sets, 1);
        self.canvas
            .recolour(alloc, &[mark], 0, wanted, &mut joining)?;
        Ok(())
    }

    /// The classes that have a twin become it, and their numbers may be given again.
    fn join(&mut self, alloc: Global, twins: &[u32], joined: &[u32]) -> Result<(), Memory>
        requires { IsSheet self.old }
        ensures sheet { OnOk result (IsSheet self.new) }
        ensures kept { OnOk result (KeepsFutures self.old self.new) }
        ensures spots { OnOk result ((test : AnySpot → Bool) → test Unused ≡ false → NoneComes test self.old.roll.classes.items self.new.roll.classes.items) }
        ensures tops { tops_in self.new ≡ tops_in self.old }
        ensures reached { self.new.reached ≡ self.old.reached }
    {
        if joined.is_empty() {
            return Ok(());
        }
        take_in(&mut self.hulls, twins)?;
        self.join_all(alloc, twins, joined)?;
        forget(&mut self.hulls, twins, joined);
        self.roll.release_all(alloc, twins, joined)?;
        Ok(())
    }

    /// Equal ones of the classes with these numbers become one.
    pub(crate) fn merge_these(&mut self, alloc: Global, numbers: &[u32]) -> Result<(), Memory>
        requires { IsSheet self.old }
        ensures sheet { OnOk result (IsSheet self.new) }
        ensures kept { OnOk result (KeepsFutures self.old self.new) }
        ensures spots { OnOk result ((test : AnySpot → Bool) → test Unused ≡ false → NoneComes test self.old.roll.classes.items self.new.roll.classes.items) }
        ensures tops { tops_in self.new ≡ tops_in self.old }
        ensures reached { self.new.reached ≡ self.old.reached }
    {
        if numbers.len() < 2 {
            return Ok(());
        }
        let mut joined = Vec::new(alloc);
        let mut of = Vec::new(alloc);
        self.roll
            .note_classes(alloc, numbers, &mut joined, &mut of)?;
        if joined.is_empty() {
            return Ok(());
        }
        let twins = self.roll.twins_of(alloc, joined.as_slice(), of.as_slice())?;
        self.join(alloc, twins.as_slice(), joined.as_slice())?;
        Ok(())
    }

    /// Equal classes that stand at the spot become one.
    pub(crate) fn merge(&mut self, alloc: Global, spot: Spot) -> Result<(), Memory>
        requires { IsSheet self.old }
        ensures sheet { OnOk result (IsSheet self.new) }
        ensures kept { OnOk result (KeepsFutures self.old self.new) }
        ensures spots { OnOk result ((test : AnySpot → Bool) → test Unused ≡ false → NoneComes test self.old.roll.classes.items self.new.roll.classes.items) }
        ensures tops { tops_in self.new ≡ tops_in self.old }
        ensures reached { self.new.reached ≡ self.old.reached }
    {
        let here = self.roll.all_at(alloc, spot)?;
        self.merge_these(alloc, here.as_slice())?;
        Ok(())
    }
}
