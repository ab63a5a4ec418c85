//! Cells by number, equal cells stored once.

ghost use Rattle.std.specs.Prelude.{◌≡◌, ◌⊎◌, ◌<◌, ◌≤◌, ◌++◌, [], ◌∷◌, ℕ, List, Some, take, length, slice_get, slice_index, if◌then◌else◌, IfOk, OnOk, OnErr, All};

use crate::arena::{Exact, place_of};
use crate::digest::digest;
use fws_num::{Items, Memory};
use indexmap::IndexSet;
use std::alloc::Global;
use std::hash::{Hash, Hasher};
use std::marker::Model;

/// The values of a field up to `hi`, behind the step before, and the cell for them.
#[derive(Clone, Copy, PartialEq, Eq)]
pub struct Step {
    /// The greatest value.
    pub hi: u32,
    /// The number of the cell.
    pub node: u32,
}

/// A cell: it names earlier cells alone.
#[derive(PartialEq, Eq, Drop)]
pub enum Cell {
    /// A leaf, by its number.
    Leaf(u32),
    /// A cut of a field: steps, and the cell for the values past them.
    Cut(u8, Items<Step>, u32),
}

impl Hash for Cell {
    ghost use Rattle.std.specs.Hash as fed;
    ghost use Rattle.std.proofs.Common.{ap};
    ghost use Rattle.fws_tree.specs.CellEquality.{leaf_exact, cut_exact, never};
    ghost use Rattle.fws_tree.specs.Digest.{digest};
    ghost use Rattle.fws_tree.specs.declared.store.Cell.TheVariants.{Leaf, Cut};

    ghost hash_input = { λ c. fed.u64 (digest c) };

    ghost respects_eq = { elim [ Leaf m ↦ elim [ Leaf n ↦ λ h. ap (λ c. fed.u64 (digest c)) (leaf_exact m n h) | Cut f ss l ↦ λ h. ap (λ c. fed.u64 (digest c)) (never (Leaf m) (Cut f ss l) h) ] | Cut f ss l ↦ elim [ Leaf m ↦ λ h. ap (λ c. fed.u64 (digest c)) (never (Cut f ss l) (Leaf m) h) | Cut g ts k ↦ λ h. ap (λ c. fed.u64 (digest c)) (cut_exact f g ss ts l k h) ] ] };

    fn hash<H: Hasher>(&self, state: &mut H) {
        state.write_u64(digest(self));
    }
}

impl Exact for Cell {
    ghost use Rattle.fws_tree.specs.CellEquality.{leaf_exact, cut_exact, never};
    ghost use Rattle.fws_tree.specs.declared.store.Cell.TheVariants.{Leaf, Cut};

    ghost exact = { elim [ Leaf m ↦ elim [ Leaf n ↦ leaf_exact m n | Cut f ss l ↦ never (Leaf m) (Cut f ss l) ] | Cut f ss l ↦ elim [ Leaf m ↦ never (Cut f ss l) (Leaf m) | Cut g ts k ↦ cut_exact f g ss ts l k ] ] };
}

/// Cells of which each names earlier ones alone.
#[derive(Drop)]
pub struct Store {
    cells: IndexSet<Cell>,
    // How many steps all cells have, and how many cells there are.
    size: u64,
    // The greatest number of a leaf, or a greater one.
    greatest: u32,
}

/// How far a store goes, so that what comes behind can be thrown away.
#[derive(Clone, Copy)]
pub(crate) struct Extent {
    /// How many cells there are.
    pub(crate) cells: usize,
    size: u64,
    greatest: u32,
}

impl Model for Store {
    ghost use Rattle.std.specs.Prelude.{List};
    ghost use Rattle.fws_tree.specs.declared.store.Cell.{Cell};

    ghost Value = { List Cell };

    ghost view = { λ s. s.cells.keys };
}

impl Store {
    ghost use Rattle.fws_tree.specs.Building.{Extends};
    ghost use Rattle.fws_tree.specs.Held.{AreOrderedFrom, IsCellBelow, held_at, held_after, held_over, child_at};

    /// The store without cells.
    pub fn new(alloc: Global) -> Store
        ensures value { result ≡ [] }
    {
        Store {
            cells: IndexSet::new(alloc),
            size: 0,
            greatest: 0,
        }
    }

    /// Gives the number of the cell, which is stored unless it is there.
    pub fn intern(&mut self, cell: Cell) -> Result<u32, Memory>
        requires ordered { AreOrderedFrom 0 self.old }
        requires below { IsCellBelow (length self.old) cell }
        ensures ordered { AreOrderedFrom 0 self.new }
        ensures extends { Extends self.old self.new }
        ensures inside { IfOk result (λ r. r < length self.new) }
        ensures held { IfOk result (λ r. (p : List ℕ) → held_at self.new r p ≡ held_over p (held_after p [] self.old) cell) }
    {
        let steps = steps_in(&cell);
        self.greatest = greatest_with(self.greatest, &cell);
        let (place, is_new) = place_of(&mut self.cells, cell)?;
        self.size = grown(self.size, is_new, steps);
        match u32::try_from(place) {
            Ok(number) => Ok(number),
            Err(_) => Err(Memory),
        }
    }

    /// How much the store holds: its cells and their steps, all in all. Nothing hangs on it but time.
    pub(crate) fn size(&self) -> u64 {
        self.size
    }

    /// A number that no leaf has, nor has one a greater number. Nothing is proved of it. Fails if memory runs out: there is none.
    pub(crate) fn unused(&self) -> Result<u32, Memory> {
        match self.greatest.checked_add(1) {
            Some(number) => Ok(number),
            None => Err(Memory),
        }
    }

    /// How far the store goes.
    pub(crate) fn extent(&self) -> Extent
        ensures { result.cells ≡ length self.now }
    {
        Extent {
            cells: self.cells.len(),
            size: self.size,
            greatest: self.greatest,
        }
    }

    /// Throws away the cells behind the extent. The time is that of the cells that go.
    pub(crate) fn cut_back(&mut self, to: Extent)
        ensures { self.new ≡ take to.cells self.old }
    {
        self.cells.truncate(to.cells);
        self.size = to.size;
        self.greatest = to.greatest;
    }

    /// How many cells there are.
    pub fn len(&self) -> usize
        ensures { result ≡ length self.now }
    {
        self.cells.len()
    }

    /// The cell with this number.
    pub fn cell(&self, at: u32) -> &Cell
        requires { at < length self.now }
        ensures { slice_get self.now at ≡ Some result.now }
    {
        match self.cells.get_index(at as usize) {
            Some(cell) => cell,
            None => unreachable!(),
        }
    }

    /// The cell that cuts the field by the steps, and has `last` past them; `last` itself where there
    /// is nothing to cut.
    pub fn cut(&mut self, field: u8, steps: Vec<Step>, last: u32) -> Result<u32, Memory>
        requires ordered { AreOrderedFrom 0 self.old }
        requires below { All (λ s. s.node < length self.old) steps.items }
        requires last { last < length self.old }
        ensures ordered { AreOrderedFrom 0 self.new }
        ensures extends { Extends self.old self.new }
        ensures inside { IfOk result (λ r. r < length self.new) }
        ensures held { IfOk result (λ r. (p : List ℕ) → held_at self.new r p ≡ held_at self.old (child_at steps.items last (slice_index p field)) p) }
    {
        let steps = without_last(steps, last);
        if steps.is_empty() {
            return Ok(last);
        }
        self.intern(Cell::Cut(field, Items::from_vec(steps), last))
    }
}

ghost use Rattle.fws_tree.specs.Held.{pick, child_at};

// How much a cell adds to what the store holds: itself and its steps.
fn steps_in(cell: &Cell) -> u64 {
    match cell {
        Cell::Leaf(_) => 1,
        Cell::Cut(_, steps, _) => (steps.as_slice().len() as u64).saturating_add(1),
    }
}

// The greatest number of a leaf, with the cell.
fn greatest_with(greatest: u32, cell: &Cell) -> u32 {
    match cell {
        Cell::Leaf(n) => greatest.max(*n),
        Cell::Cut(_, _, _) => greatest,
    }
}

// The size with these steps, if they are new.
fn grown(size: u64, is_new: bool, steps: u64) -> u64 {
    if is_new {
        size.saturating_add(steps)
    } else {
        size
    }
}

// The steps but for one at the end that has the last cell.
fn without_last(mut steps: Vec<Step>, last: u32) -> Vec<Step>
    ensures same { (x : ℕ) → child_at result.items last x ≡ child_at steps.items last x }
    ensures below { (n : ℕ) → All (λ s. s.node < n) steps.items → All (λ s. s.node < n) result.items }
{
    let n = steps.len();
    if n > 0 && steps[n - 1].node == last {
        steps.truncate(n - 1);
    }
    steps
}

/// Adds a step behind the others: the last one grows where it has the same cell.
pub(crate) fn add_step(steps: &mut Vec<Step>, hi: u32, node: u32) -> Result<(), Memory>
    ensures same { OnOk result ((v : ℕ → ℕ) (z x : ℕ) → pick v steps.new.items z x ≡ pick v (steps.old.items ++ record { hi = hi; node = node } ∷ []) z x) }
    ensures below { OnOk result ((n : ℕ) → All (λ s. s.node < n) steps.old.items → node < n → All (λ s. s.node < n) steps.new.items) }
{
    let n = steps.len();
    if n > 0 && steps[n - 1].node == node && steps[n - 1].hi <= hi {
        steps[n - 1].hi = hi;
    } else {
        steps.push(Step { hi, node })?;
    }
    Ok(())
}
