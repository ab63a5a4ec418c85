//! Where in a field the points lie that have a value.

ghost use Rattle.std.specs.Prelude.{◌≡◌, ◌<◌, ◌≤◌, ℕ, List, true, false, length, slice_index, All, IfOk, OnOk};
ghost use Rattle.fws_iv.specs.Ivs.{has, AreRanges};
ghost use Rattle.fws_box.specs.Fields.{place_of};
ghost use Rattle.fws_box.specs.Sides.{IsWithin};
ghost use Rattle.fws_tree.specs.Held.{child_at};
ghost use Rattle.fws_tree.specs.Painted.{tops_of, value_at, values_of};
ghost use Rattle.fws_tree.specs.Spread.{IsHeldAt, Lacks, AreLacking, HasSpread, AreDone, Grows};

use crate::canvas::Canvas;
use crate::masks::catch_up;
use crate::store::Step;
use crate::together::{cut_field, held_by, view};
use fws_box::Field;
use fws_iv::{Iv, Ivs};
use fws_num::Memory;
use std::alloc::Global;
use std::collections::HashSet;

impl Canvas {
    // Whether the mask of the cell tells that it doesn't hold the value: it has none of the value's bits.
    fn is_masked(&self, value: u32, at: u32) -> bool
        ensures { result ≡ true → Lacks self.now value at }
    {
        let bits = self.values.bits_of(value);
        let at = at as usize;
        if bits == 0 {
            return false;
        }
        if at >= self.masks.len() {
            return false;
        }
        self.masks[at] & bits == 0
    }

    // Whether the cell holds the value somewhere. Those that lack it are noted, so that none is looked through twice.
    fn holds(&self, value: u32, lacking: &mut HashSet<u32>, at: u32) -> Result<bool, Memory>
        requires at { at < length self.now.store }
        requires lacking { AreLacking self.now value lacking.old }
        ensures lacking { OnOk result (AreLacking self.now value lacking.new) }
        ensures lacks { IfOk result (λ holds. holds ≡ false → Lacks self.now value at) }
    {
        if self.is_masked(value, at) {
            return Ok(false);
        }
        if lacking.contains(&at) {
            return Ok(false);
        }
        let Some(cut) = cut_field(&self.store, at) else {
            return Ok(self.is_leaf(value, at));
        };
        let (steps, last) = view(&self.store, at, cut);
        for step in steps {
            if self.holds(value, lacking, step.node)? {
                return Ok(true);
            }
        }
        if self.holds(value, lacking, last)? {
            return Ok(true);
        }
        lacking.insert(at)?;
        Ok(false)
    }

    // Whether the cell is a leaf of the value, if it is a leaf.
    fn is_leaf(&self, value: u32, at: u32) -> bool
        requires { at < length self.now.store }
        ensures { result ≡ false → Lacks self.now value at }
    {
        match held_by(&self.store, at) {
            Some(held) => held == value,
            None => true,
        }
    }

    // Adds the values from `lo` to `hi` if the cell holds the value.
    fn add_held(
        &self,
        value: u32,
        lacking: &mut HashSet<u32>,
        at: u32,
        lo: u32,
        hi: u32,
        ranges: &mut Vec<Iv>,
    ) -> Result<(), Memory>
        requires at { at < length self.now.store }
        requires lacking { AreLacking self.now value lacking.old }
        requires ranges { AreRanges ranges.old.items }
        ensures lacking { OnOk result (AreLacking self.now value lacking.new) }
        ensures ranges { OnOk result (AreRanges ranges.new.items) }
        ensures grown { OnOk result (Grows ranges.old.items ranges.new.items) }
        ensures held { OnOk result ((x : ℕ) (p : List ℕ) → lo ≤ x → x ≤ hi → IsHeldAt self.now value at p → has ranges.new.items x ≡ true) }
    {
        if lo > hi {
            return Ok(());
        }
        if !self.holds(value, lacking, at)? {
            return Ok(());
        }
        ranges.push(Iv { lo, hi })?;
        Ok(())
    }

    // Adds the values up to the top for which the steps lead to a cell that holds the value.
    fn add_steps(
        &self,
        value: u32,
        lacking: &mut HashSet<u32>,
        steps: &[Step],
        last: u32,
        top: u32,
        ranges: &mut Vec<Iv>,
    ) -> Result<(), Memory>
        requires steps { All (λ s. s.node < length self.now.store) steps.now }
        requires last { last < length self.now.store }
        requires lacking { AreLacking self.now value lacking.old }
        requires ranges { AreRanges ranges.old.items }
        ensures lacking { OnOk result (AreLacking self.now value lacking.new) }
        ensures ranges { OnOk result (AreRanges ranges.new.items) }
        ensures grown { OnOk result (Grows ranges.old.items ranges.new.items) }
        ensures held { OnOk result ((x : ℕ) (p : List ℕ) → x ≤ top → IsHeldAt self.now value (child_at steps.now last x) p → has ranges.new.items x ≡ true) }
    {
        let mut lo = 0;
        for step in steps {
            self.add_held(value, lacking, step.node, lo, step.hi.min(top), ranges)?;
            lo = step.hi.saturating_add(1);
        }
        self.add_held(value, lacking, last, lo, top, ranges)?;
        Ok(())
    }

    // Adds the field's values at which the cell holds the value. What was done before is not done again.
    fn add_spread(
        &self,
        value: u32,
        lacking: &mut HashSet<u32>,
        field: u8,
        done: &mut HashSet<u32>,
        ranges: &mut Vec<Iv>,
        at: u32,
    ) -> Result<(), Memory>
        requires field { field < 12 }
        requires at { at < length self.now.store }
        requires lacking { AreLacking self.now value lacking.old }
        requires ranges { AreRanges ranges.old.items }
        requires done { AreDone self.now field value done.old ranges.old.items }
        ensures lacking { OnOk result (AreLacking self.now value lacking.new) }
        ensures ranges { OnOk result (AreRanges ranges.new.items) }
        ensures grown { OnOk result (Grows ranges.old.items ranges.new.items) }
        ensures done { OnOk result (AreDone self.now field value done.new ranges.new.items) }
        ensures spread { OnOk result (HasSpread self.now field value at ranges.new.items) }
    {
        if self.is_masked(value, at) {
            return Ok(());
        }
        if done.contains(&at) {
            return Ok(());
        }
        let top = self.tops[field as usize];
        let Some(cut) = cut_field(&self.store, at) else {
            self.add_held(value, lacking, at, 0, top, ranges)?;
            return Ok(());
        };
        if cut > field {
            self.add_held(value, lacking, at, 0, top, ranges)?;
            return Ok(());
        }
        let (steps, last) = view(&self.store, at, cut);
        if cut == field {
            self.add_steps(value, lacking, steps, last, top, ranges)?;
            done.insert(at)?;
            return Ok(());
        }
        for step in steps {
            self.add_spread(value, lacking, field, done, ranges, step.node)?;
        }
        self.add_spread(value, lacking, field, done, ranges, last)?;
        done.insert(at)?;
        Ok(())
    }

    /// A set of values of the field: it has that of each point within the tops that has the canvas' value with this
    /// number. It has few others: the whole range where a cell that holds the value does not cut the field, else the
    /// parts that lead to such cells.
    ///
    /// The time is that of the cells below which a value with a bit of this one's lies, each once, and of the cells that are new.
    /// Fails if memory runs out.
    pub fn spread(&mut self, alloc: Global, field: Field, value: u32) -> Result<Ivs, Memory>
        ensures spread { IfOk result (λ s. (p : List ℕ) → IsWithin (tops_of self.old) p → value_at self.old p ≡ value → has s (slice_index p (place_of field)) ≡ true) }
        ensures tops { tops_of self.new ≡ tops_of self.old }
        ensures values { values_of self.new ≡ values_of self.old }
        ensures value { (p : List ℕ) → value_at self.new p ≡ value_at self.old p }
    {
        catch_up(&mut self.masks, &self.store, &self.values)?;
        let mut lacking = HashSet::new(alloc);
        let mut ranges = Vec::new(alloc);
        let mut done = HashSet::new(alloc);
        self.add_spread(
            value,
            &mut lacking,
            field.place() as u8,
            &mut done,
            &mut ranges,
            self.root,
        )?;
        Ivs::of_ranges(alloc, ranges.as_slice())
    }
}
