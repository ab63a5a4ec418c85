//! A tree that is changed in place.

ghost use Rattle.std.specs.Prelude.{◌≡◌, ◌<◌, ◌++◌, ◌∷◌, [], ℕ, List, length, IfOk, OnOk, OnErr};
ghost use Rattle.fws_tree.specs.Bits.{AreMasks};
ghost use Rattle.fws_tree.specs.Held.{AreOrderedFrom};
ghost use Rattle.fws_tree.specs.OrderedCells.{ordered-prop};

use crate::copy::copied;
use crate::finish::finish;
use crate::halves::marked_cell;
use crate::leaf::Leaf;
use crate::mark::Mark;
use crate::masks::catch_up;
use crate::memo::Memo;
use crate::merge::Skips;
use crate::moves::Moves;
use crate::other_leaves::{Copied, made_leaves};
use crate::recolour::recoloured;
use crate::store::{Cell, Store};
use crate::tree::Tree;
use crate::values::Values;
use fws_num::Memory;
use std::alloc::Global;

/// A value for each point within the tops, by number. It is changed in place, and is not reduced.
#[derive(Drop)]
pub struct Canvas {
    pub(crate) tops: [u32; 12],
    pub(crate) store: Store,
    pub(crate) root: u32,
    pub(crate) values: Values,
    // The masks of the first cells.
    pub(crate) masks: Vec<u64>,
    // How much the store held after the last collection.
    left: u64,
    ghost twelve: { length tops ≡ 12 },
    ghost ordered: { AreOrderedFrom 0 store } by { ordered-prop 0 store },
    ghost inside: { root < length store },
    ghost masked: { AreMasks values store masks.items },
}

impl Canvas {
    ghost use Rattle.std.specs.Prelude.{◌≡◌, ◌++◌, ◌∷◌, [], ℕ, List, length, IfOk, OnOk, OnErr};
    ghost use Rattle.fws_box.specs.Sides.{IsWithin};
    ghost use Rattle.fws_tree.specs.Building.{Extends};
    ghost use Rattle.fws_tree.specs.Marks.{mark_at};
    ghost use Rattle.fws_tree.specs.Painted.{tops_of, value_at, values_of};
    ghost use Rattle.fws_tree.specs.Recoloured.{IsRecoloured, StaysMoved};

    /// The canvas over the fields with these greatest values that has value 0 everywhere; value 0 has these bits. Fails if memory
    /// runs out.
    pub fn new(alloc: Global, tops: &[u32; 12], bits: u64) -> Result<Canvas, Memory>
        ensures tops { IfOk result (λ c. tops_of c ≡ tops.now) }
        ensures values { IfOk result (λ c. values_of c ≡ bits ∷ []) }
        ensures value { IfOk result (λ c. (p : List ℕ) → value_at c p ≡ 0) }
    {
        let mut values = Values::new(alloc);
        let _first = values.add(bits)?;
        let mut store = Store::new(alloc);
        let root = store.intern(Cell::Leaf(0))?;
        Ok(Canvas {
            tops: *tops,
            store,
            root,
            values,
            masks: Vec::new(alloc),
            left: 0,
        })
    }

    /// The values.
    pub fn values(&self) -> &Values
        ensures { result.now ≡ values_of self.now }
    {
        &self.values
    }

    /// Adds a value with these bits, and gives its number. No point has it yet. Fails if memory runs out, and so is a number past
    /// 2^32 - 1.
    pub fn add_value(&mut self, bits: u64) -> Result<u32, Memory>
        ensures number { IfOk result (λ n. n ≡ length (values_of self.old)) }
        ensures added { OnOk result (values_of self.new ≡ values_of self.old ++ bits ∷ []) }
        ensures unchanged { OnErr result (values_of self.new ≡ values_of self.old) }
        ensures tops { tops_of self.new ≡ tops_of self.old }
        ensures value { (p : List ℕ) → value_at self.new p ≡ value_at self.old p }
    {
        self.values.add(bits)
    }

    // Throws away the cells that the root doesn't reach. Fails if memory runs out; after it the canvas is as before.
    fn collect(&mut self, alloc: Global) -> Result<(), Memory>
        ensures tops { tops_of self.new ≡ tops_of self.old }
        ensures values { values_of self.new ≡ values_of self.old }
        ensures value { (p : List ℕ) → value_at self.new p ≡ value_at self.old p }
    {
        let mut fresh = Store::new(alloc);
        let mut memo = Memo::new(alloc);
        let root = copied(alloc, &self.store, &mut fresh, &mut memo, self.root)?;
        self.left = fresh.size();
        self.store = fresh;
        self.root = root;
        self.masks = Vec::new(alloc);
        Ok(())
    }

    // Collects once the store has grown to four times what was left, and by a million more.
    fn collect_grown(&mut self, alloc: Global) -> Result<(), Memory>
        ensures tops { tops_of self.new ≡ tops_of self.old }
        ensures values { values_of self.new ≡ values_of self.old }
        ensures value { (p : List ℕ) → value_at self.new p ≡ value_at self.old p }
    {
        let most = self.left.saturating_mul(4).saturating_add(1_000_000);
        if self.store.size() > most {
            return self.collect(alloc);
        }
        Ok(())
    }

    /// Changes the values that have a wanted bit, at the points that have a label: that of the first
    /// mark that holds the point, or else `rest`, where 0 is no label. The rule says what a value
    /// becomes at a label.
    ///
    /// The time is that of the cells within the marks below which a wanted value lies, each once for each part of the marks, and of
    /// the cells of the marks; now and then that of all cells that are in use, since those that are not are thrown away. Fails if
    /// memory runs out; after it each point has the value that it had.
    pub fn recolour<M: Moves>(
        &mut self,
        alloc: Global,
        marks: &[Mark<'_>],
        rest: u32,
        wanted: u64,
        by: &mut M,
    ) -> Result<(), Memory>
        ensures recoloured { OnOk result ((p : List ℕ) → IsWithin (tops_of self.old) p → IsRecoloured (M.moves by.new) (values_of self.old) wanted (value_at self.old p) (mark_at marks.now rest p) (value_at self.new p)) }
        ensures unchanged { OnErr result ((p : List ℕ) → value_at self.new p ≡ value_at self.old p) }
        ensures tops { tops_of self.new ≡ tops_of self.old }
        ensures values { Extends (values_of self.old) (values_of self.new) }
        ensures kept { StaysMoved (M.moves by.old) (M.moves by.new) }
        ensures later { M.later by.old by.new }
    {
        self.collect_grown(alloc)?;
        catch_up(&mut self.masks, &self.store, &self.values)?;
        let marked = marked_cell(alloc, &mut self.store, &self.tops, marks, rest)?;
        let skips = Skips {
            masks: self.masks.as_slice(),
            wanted,
            stay: None,
        };
        let root = recoloured(
            alloc,
            &mut self.store,
            &mut self.values,
            skips,
            self.root,
            marked,
            by,
        )?;
        self.root = root;
        Ok(())
    }
}

impl Canvas {
    ghost use Rattle.std.specs.Prelude.{◌≡◌, ◌<◌, ℕ, List, length, slice_get, IfOk};
    ghost use Rattle.fws_box.specs.Sides.{IsWithin};
    ghost use Rattle.fws_tree.specs.Painted.{tops_of, value_at};
    ghost use Rattle.fws_tree.specs.Plain.{IsReduced, value};

    /// The reduced tree that has, at each point within the tops, the leaf at the place of the canvas' value; equal leaves become
    /// one. Fails if memory runs out. The time grows with the cells that are reached.
    pub fn tree<L: Leaf>(&self, alloc: Global, leaves: &[L]) -> Result<Tree<L>, Memory>
        requires { (p : List ℕ) → IsWithin (tops_of self.now) p → value_at self.now p < length leaves.now }
        ensures tops { IfOk result (λ t. t.0 ≡ tops_of self.now) }
        ensures reduced { IfOk result (λ t. IsReduced t.0 t.1) }
        ensures value { IfOk result (λ t. (p : List ℕ) → IsWithin (tops_of self.now) p → value t.1 p ≡ slice_get leaves.now (value_at self.now p)) }
    {
        let made = made_leaves(alloc, leaves, &Copied)?;
        let places = made.places.as_slice();
        let leaves = made.leaves.as_slice();
        finish(alloc, &self.store, &self.tops, self.root, places, leaves)
    }
}
