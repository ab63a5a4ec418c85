//! Trees with other leaves in their places.

ghost use Rattle.std.specs.Prelude.{◌≡◌, ◌↔◌, ℕ, ◌<◌, ◌-◌, Bool, IsTrue, List, Some, length, slice_get, slice_index, IfOk, OnOk};
ghost use Rattle.fws_box.specs.Sides.{IsWithin};
ghost use Rattle.fws_tree.specs.Building.{AreDifferent, Extends};
ghost use Rattle.fws_tree.specs.Plain.{IsReduced, value};
ghost use Rattle.fws_tree.specs.Shared.{IsShared, subtree_of};

use crate::arena::listed;
use crate::finish::finish_counted;
use crate::leaf::Leaf;
use crate::load::load;
use crate::numbers::number;
use crate::shared::Shared;
use crate::store::Store;
use crate::tree::Tree;
use fws_num::{Items, Memory};
use indexmap::IndexSet;
use std::alloc::Global;

/// What is made of leaves.
pub trait Relabelling<L, M> {
    ghost use Rattle.std.specs.Prelude.{◌≡◌, IfOk};

    // The leaf that is made of one.
    ghost gives: { Self → L → M };

    /// The leaf that is made of this one.
    fn leaf(&self, alloc: Global, leaf: &L) -> Result<M, Memory>
        ensures { IfOk result (λ m. m ≡ gives self.now leaf.now) };
}

/// Leaves made of others, equal ones once, and their places.
#[derive(Drop)]
pub(crate) struct Relabelled<M: Leaf> {
    /// The leaves.
    pub(crate) leaves: Items<M>,
    /// The place of the leaf that each was made.
    pub(crate) places: Vec<u32>,
}

/// The places of the leaves that are made of these, which are put behind the others unless they are there.
pub(crate) fn made_places<L: Leaf, M: Leaf, R: Relabelling<L, M>>(
    alloc: Global,
    made: &mut IndexSet<M>,
    leaves: &[L],
    by: &R,
) -> Result<Vec<u32>, Memory>
    requires { AreDifferent made.old.keys }
    ensures extends { OnOk result (Extends made.old.keys made.new.keys) }
    ensures different { OnOk result (AreDifferent made.new.keys) }
    ensures places { IfOk result (λ ps. (n : ℕ) (a : L) → slice_get leaves.now n ≡ Some a → slice_get made.new.keys (slice_index ps.items n) ≡ Some (R.gives by.now a)) }
{
    let mut places = Vec::new(alloc);
    for leaf in leaves {
        let leaf = by.leaf(alloc, leaf)?;
        places.push(number(made, leaf)?)?;
    }
    Ok(places)
}

/// The leaves that are made of these.
pub(crate) fn made_leaves<L: Leaf, M: Leaf, R: Relabelling<L, M>>(
    alloc: Global,
    leaves: &[L],
    by: &R,
) -> Result<Relabelled<M>, Memory>
    ensures different { IfOk result (λ r. AreDifferent r.leaves) }
    ensures places { IfOk result (λ r. (n : ℕ) (a : L) → slice_get leaves.now n ≡ Some a → slice_get r.leaves (slice_index r.places.items n) ≡ Some (R.gives by.now a)) }
{
    let mut made = IndexSet::new(alloc);
    let places = made_places(alloc, &mut made, leaves, by)?;
    let leaves = listed(alloc, made)?;
    Ok(Relabelled { leaves, places })
}

// The tree of nodes with the leaves that were made of its own.
fn with_leaves<L: Leaf, M: Leaf>(
    alloc: Global,
    tops: &[u32; 12],
    tree: &Shared<'_, L>,
    made: &Relabelled<M>,
) -> Result<Tree<M>, Memory>
    requires shared { IsShared tops.now (subtree_of tree.now.leaves.now tree.now.nodes.now (length tree.now.nodes.now - 1)) tree.now.leaves.now tree.now.nodes.now }
    requires different { AreDifferent made.now.leaves }
    requires places { (n : ℕ) → n < length tree.now.leaves.now → slice_index made.now.places.items n < length made.now.leaves }
    ensures tops { IfOk result (λ t. t.0 ≡ tops.now) }
    ensures reduced { IfOk result (λ t. IsReduced t.0 t.1) }
    ensures value { IfOk result (λ t. (p : List ℕ) → IsWithin tops.now p → (n : ℕ) × (value (subtree_of tree.now.leaves.now tree.now.nodes.now (length tree.now.nodes.now - 1)) p ≡ slice_get tree.now.leaves.now n) × (n < length tree.now.leaves.now) × (value t.1 p ≡ slice_get made.now.leaves (slice_index made.now.places.items n))) }
{
    let mut store = Store::new(alloc);
    let root = load(alloc, &mut store, tops, tree, made.places.as_slice())?;
    finish_counted(alloc, &store, tops, root, made.leaves.as_slice())
}

impl<L: Leaf> Tree<L> {
    /// The tree with the leaves that are made of this one's. Fails if memory runs out. The time grows with the pieces of the nodes'
    /// cuts.
    pub fn relabel<M: Leaf, R: Relabelling<L, M>>(
        &self,
        alloc: Global,
        by: &R,
    ) -> Result<Tree<M>, Memory>
        ensures tops { IfOk result (λ t. t.0 ≡ self.now.0) }
        ensures reduced { IfOk result (λ t. IsReduced t.0 t.1) }
        ensures value { IfOk result (λ t. (p : List ℕ) → IsWithin self.now.0 p → (a : L) × (value self.now.1 p ≡ Some a) × (value t.1 p ≡ Some (R.gives by.now a))) }
    {
        let shared = self.shared();
        let tops = self.tops();
        let made = made_leaves(alloc, shared.leaves, by)?;
        with_leaves(alloc, tops, &shared, &made)
    }
}

/// The leaves as they are.
pub(crate) struct Copied;

impl<L: Leaf> Relabelling<L, L> for Copied {
    ghost gives = { λ s x. x };

    fn leaf(&self, alloc: Global, leaf: &L) -> Result<L, Memory> {
        leaf.copy(alloc)
    }
}

/// Whether a leaf is the wanted one.
#[derive(Drop)]
struct Wanted<'a, L>(&'a L);

impl<L: Leaf> Relabelling<L, bool> for Wanted<'_, L> {
    ghost gives = { λ s x. L.PartialEq.eq x s.0.now };

    fn leaf(&self, _alloc: Global, leaf: &L) -> Result<bool, Memory> {
        Ok(*leaf == *self.0)
    }
}

impl<L: Leaf> Tree<L> {
    /// The tree that is true exactly where this tree's value is the wanted one. Fails if memory runs out.
    pub fn select(&self, alloc: Global, wanted: &L) -> Result<Tree<bool>, Memory>
        ensures tops { IfOk result (λ t. t.0 ≡ self.now.0) }
        ensures reduced { IfOk result (λ t. IsReduced t.0 t.1) }
        ensures value { IfOk result (λ t. (p : List ℕ) → IsWithin self.now.0 p → (b : Bool) × (value t.1 p ≡ Some b) × (IsTrue b ↔ (value self.now.1 p ≡ Some wanted.now))) }
    {
        self.relabel(alloc, &Wanted(wanted))
    }
}
