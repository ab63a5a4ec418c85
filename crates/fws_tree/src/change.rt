//! Trees changed within or outside given sides.

ghost use Rattle.std.specs.Prelude.{◌≡◌, ◌<◌, ◌-◌, ℕ, List, Some, length, slice_get, slice_index, if◌then◌else◌, IfOk};
ghost use Rattle.fws_tree.specs.Plain.{IsReduced, value};
ghost use Rattle.fws_box.specs.Sides.{IsWithin, sides_have};
ghost use Rattle.fws_tree.specs.Building.{AreDifferent};
ghost use Rattle.fws_tree.specs.Changed.{changed_value};
ghost use Rattle.fws_tree.specs.Held.{AreOrderedFrom, held_at};
ghost use Rattle.fws_tree.specs.Shared.{IsShared, subtree_of};

use crate::arena::listed;
use crate::finish::finish_counted;
use crate::halves::halves;
use crate::leaf::Leaf;
use crate::load::load;
use crate::mark::Mark;
use crate::merge::merge;
use crate::numbers::number;
use crate::other_leaves::{Copied, Relabelled, made_places};
use crate::replace::Replace;
use crate::shared::Shared;
use crate::store::Store;
use crate::tree::Tree;
use fws_iv::Ivs;
use fws_num::Memory;
use indexmap::IndexSet;
use std::alloc::Global;

// The leaves and one more, equal ones once, and the place of that one.
fn leaves_with<L: Leaf>(
    alloc: Global,
    leaves: &[L],
    leaf: L,
) -> Result<(Relabelled<L>, u32), Memory>
    ensures different { IfOk result (λ r. AreDifferent r.0.leaves) }
    ensures places { IfOk result (λ r. (n : ℕ) (a : L) → slice_get leaves.now n ≡ Some a → slice_get r.0.leaves (slice_index r.0.places.items n) ≡ Some a) }
    ensures value { IfOk result (λ r. slice_get r.0.leaves r.1 ≡ Some leaf) }
{
    let mut made = IndexSet::new(alloc);
    let value = number(&mut made, leaf)?;
    let places = made_places(alloc, &mut made, leaves, &Copied)?;
    let leaves = listed(alloc, made)?;
    Ok((Relabelled { leaves, places }, value))
}

// The cell with a value in place of what another one holds: within the sides, or outside them.
fn replaced_cell(
    alloc: Global,
    store: &mut Store,
    tops: &[u32; 12],
    sides: &[Ivs; 12],
    root: u32,
    mut by: Replace,
) -> Result<u32, Memory>
    requires ordered { AreOrderedFrom 0 store.old }
    requires root { root < length store.old }
    ensures ordered { AreOrderedFrom 0 store.new }
    ensures inside { IfOk result (λ r. r < length store.new) }
    ensures held { IfOk result (λ r. (p : List ℕ) → IsWithin tops.now p → held_at store.new r p ≡ changed_value by.marked (sides_have sides.now p) by.value (held_at store.old root p)) }
{
    let marks = [Mark::of_sets(sides, 1)];
    let within = halves(alloc, store, tops, &marks)?;
    merge(alloc, &mut by, store, root, within)
}

// The cell of a tree whose leaves have these places, with a value in place of others: within the sides, or outside them.
fn replaced_root<L>(
    alloc: Global,
    store: &mut Store,
    tops: &[u32; 12],
    tree: &Shared<'_, L>,
    places: &[u32],
    sides: &[Ivs; 12],
    by: Replace,
) -> Result<u32, Memory>
    requires ordered { AreOrderedFrom 0 store.old }
    requires shared { IsShared tops.now (subtree_of tree.now.leaves.now tree.now.nodes.now (length tree.now.nodes.now - 1)) tree.now.leaves.now tree.now.nodes.now }
    ensures ordered { AreOrderedFrom 0 store.new }
    ensures inside { IfOk result (λ r. r < length store.new) }
    ensures held { IfOk result (λ r. (p : List ℕ) → IsWithin tops.now p → (n : ℕ) × (value (subtree_of tree.now.leaves.now tree.now.nodes.now (length tree.now.nodes.now - 1)) p ≡ slice_get tree.now.leaves.now n) × (n < length tree.now.leaves.now) × (held_at store.new r p ≡ changed_value by.marked (sides_have sides.now p) by.value (slice_index places.now n))) }
{
    let root = load(alloc, store, tops, tree, places)?;
    replaced_cell(alloc, store, tops, sides, root, by)
}

// The tree with a leaf, by its place, in place of others: within the sides, or outside them.
fn replaced_among<L: Leaf>(
    alloc: Global,
    tops: &[u32; 12],
    tree: &Shared<'_, L>,
    made: &Relabelled<L>,
    sides: &[Ivs; 12],
    by: Replace,
) -> Result<Tree<L>, Memory>
    requires shared { IsShared tops.now (subtree_of tree.now.leaves.now tree.now.nodes.now (length tree.now.nodes.now - 1)) tree.now.leaves.now tree.now.nodes.now }
    requires different { AreDifferent made.now.leaves }
    requires places { (n : ℕ) (a : L) → slice_get tree.now.leaves.now n ≡ Some a → slice_get made.now.leaves (slice_index made.now.places.items n) ≡ Some a }
    requires value { by.value < length made.now.leaves }
    ensures tops { IfOk result (λ t. t.0 ≡ tops.now) }
    ensures reduced { IfOk result (λ t. IsReduced t.0 t.1) }
    ensures value { IfOk result (λ t. (p : List ℕ) → IsWithin tops.now p → value t.1 p ≡ changed_value by.marked (sides_have sides.now p) (slice_get made.now.leaves by.value) (value (subtree_of tree.now.leaves.now tree.now.nodes.now (length tree.now.nodes.now - 1)) p)) }
{
    let mut store = Store::new(alloc);
    let places = made.places.as_slice();
    let whole = replaced_root(alloc, &mut store, tops, tree, places, sides, by)?;
    finish_counted(alloc, &store, tops, whole, made.leaves.as_slice())
}

// The tree with a leaf in place of others: within the sides, or outside them.
fn replaced<L: Leaf>(
    alloc: Global,
    tree: &Tree<L>,
    sides: &[Ivs; 12],
    leaf: L,
    marked: bool,
) -> Result<Tree<L>, Memory>
    ensures tops { IfOk result (λ t. t.0 ≡ tree.now.0) }
    ensures reduced { IfOk result (λ t. IsReduced t.0 t.1) }
    ensures value { IfOk result (λ t. (p : List ℕ) → IsWithin tree.now.0 p → value t.1 p ≡ changed_value marked (sides_have sides.now p) (Some leaf) (value tree.now.1 p)) }
{
    let shared = tree.shared();
    let tops = tree.tops();
    let (made, value) = leaves_with(alloc, shared.leaves, leaf)?;
    let by = Replace { value, marked };
    replaced_among(alloc, tops, &shared, &made, sides, by)
}

impl<L: Leaf> Tree<L> {
    /// The tree whose value is `off` outside the asked sides and this tree's within them. Fails if memory runs out. The time grows
    /// with the nodes of this tree that the sides meet.
    pub fn restrict(&self, alloc: Global, asked: &[Ivs; 12], off: L) -> Result<Tree<L>, Memory>
        ensures tops { IfOk result (λ t. t.0 ≡ self.now.0) }
        ensures reduced { IfOk result (λ t. IsReduced t.0 t.1) }
        ensures value { IfOk result (λ t. (p : List ℕ) → IsWithin self.now.0 p → value t.1 p ≡ (if sides_have asked.now p then value self.now.1 p else Some off)) }
    {
        replaced(alloc, self, asked, off, false)
    }

    /// The tree whose value is `on` within the asked sides and this tree's elsewhere. Fails if memory runs out. The time grows with
    /// the nodes of this tree that the sides meet.
    pub fn paint(&self, alloc: Global, asked: &[Ivs; 12], on: L) -> Result<Tree<L>, Memory>
        ensures tops { IfOk result (λ t. t.0 ≡ self.now.0) }
        ensures reduced { IfOk result (λ t. IsReduced t.0 t.1) }
        ensures value { IfOk result (λ t. (p : List ℕ) → IsWithin self.now.0 p → value t.1 p ≡ (if sides_have asked.now p then Some on else value self.now.1 p)) }
    {
        replaced(alloc, self, asked, on, true)
    }
}
