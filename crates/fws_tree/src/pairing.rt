//! Two trees as one with the values of both.

ghost use Rattle.std.specs.Prelude.{◌≡◌, ℕ, ◌<◌, ◌-◌, List, Some, length, slice_get, IfOk, OnOk};
ghost use Rattle.fws_tree.specs.Paired.{AreLeavesOf, HoldsPairs, HoldsPlaces};
ghost use Rattle.fws_box.specs.Sides.{IsWithin};
ghost use Rattle.fws_tree.specs.Building.{AreDifferent, Extends};
ghost use Rattle.fws_tree.specs.Held.{AreOrderedFrom, held_at};
ghost use Rattle.fws_tree.specs.Plain.{IsReduced, value};
ghost use Rattle.fws_tree.specs.Shared.{IsShared, subtree_of};

use crate::arena::{Exact, listed, place_of};
use crate::counted_places::counted;
use crate::finish::finish;
use crate::leaf::Leaf;
use crate::load::load;
use crate::merge::{Merging, merge};
use crate::numbers::number;
use crate::other_leaves::Relabelled;
use crate::shared::Shared;
use crate::store::{Cell, Store};
use crate::together::held_by;
use crate::tree::Tree;
use fws_num::{Items, Memory};
use indexmap::IndexSet;
use std::alloc::Global;

impl Exact for (u32, u32) {
    ghost use Rattle.std.proofs.lemmas.Bool.{eqb-true, and_parts};
    ghost use Rattle.std.specs.Prelude.{nat_eq};

    ghost exact = { λ x y h. let both = and_parts (nat_eq x.0 y.0) (nat_eq x.1 y.1) h in λ i. (eqb-true x.0 y.0 both.0 i, eqb-true x.1 y.1 both.1 i) };
}

/// The pairs of numbers that were met, by number.
#[derive(Drop)]
struct Pairs {
    met: IndexSet<(u32, u32)>,
}

impl Merging for Pairs {
    ghost use Rattle.std.specs.Prelude.{◌≡◌, Some, slice_get};
    ghost use Rattle.fws_tree.specs.Building.{Extends};
    ghost use Rattle.fws_tree.specs.Paired.{pairs_same, pairs_then, pairs_kept};

    ghost gives = { λ s x y z. slice_get s.met.keys z ≡ Some (x, y) };

    ghost sound = { λ s. Unit {0} };

    ghost later = { λ s t. Extends s.met.keys t.met.keys };

    fn early(&mut self, store: &mut Store, a: u32, b: u32) -> Result<Option<u32>, Memory> {
        let Some(x) = held_by(store, a) else {
            return Ok(None);
        };
        let Some(y) = held_by(store, b) else {
            return Ok(None);
        };
        let (place, _) = place_of(&mut self.met, (x, y))?;
        let pair = match u32::try_from(place) {
            Ok(pair) => pair,
            Err(_) => return Err(Memory),
        };
        let cell = store.intern(Cell::Leaf(pair))?;
        Ok(Some(cell))
    }

    ghost same = { λ s. pairs_same s.met.keys };

    ghost then = { λ s t u e f. pairs_then s.met.keys t.met.keys u.met.keys e f };

    ghost kept = { λ s t e x y z g. pairs_kept s.met.keys t.met.keys e x y z g };
}

// The leaf at a place, copied, if it is there.
fn copied_leaf<L: Leaf>(alloc: Global, leaves: &[L], place: u32) -> Result<Option<L>, Memory>
    ensures { IfOk result (λ o. o ≡ slice_get leaves.now place) }
{
    match leaves.get(place as usize) {
        Some(leaf) => Ok(Some(leaf.copy(alloc)?)),
        None => Ok(None),
    }
}

// The leaf of a pair of places, if both are there.
fn pair_leaf<L: Leaf, M: Leaf>(
    alloc: Global,
    first: &[L],
    second: &[M],
    x: u32,
    y: u32,
) -> Result<Option<(L, M)>, Memory>
    ensures { IfOk result (λ o. (a : L) (b : M) → slice_get first.now x ≡ Some a → slice_get second.now y ≡ Some b → o ≡ Some (a, b)) }
{
    let Some(a) = copied_leaf(alloc, first, x)? else {
        return Ok(None);
    };
    let Some(b) = copied_leaf(alloc, second, y)? else {
        return Ok(None);
    };
    Ok(Some((a, b)))
}

// The place of the leaf, which is put behind the others unless it is there; 0 where there is none.
fn pair_place<L: Leaf>(leaves: &mut IndexSet<L>, leaf: Option<L>) -> Result<u32, Memory>
    ensures place { IfOk result (λ i. (x : L) → leaf ≡ Some x → slice_get leaves.new.keys i ≡ Some x) }
    ensures extends { Extends leaves.old.keys leaves.new.keys }
    ensures different { AreDifferent leaves.old.keys → AreDifferent leaves.new.keys }
{
    match leaf {
        Some(leaf) => number(leaves, leaf),
        None => Ok(0),
    }
}

// The places of the leaves of pairs of places, which are put behind the others unless they are there.
fn pair_places<L: Leaf, M: Leaf>(
    alloc: Global,
    leaves: &mut IndexSet<(L, M)>,
    first: &[L],
    second: &[M],
    pairs: &[(u32, u32)],
) -> Result<Vec<u32>, Memory>
    requires { AreDifferent leaves.old.keys }
    ensures different { OnOk result (AreDifferent leaves.new.keys) }
    ensures places { IfOk result (λ ps. AreLeavesOf first.now second.now pairs.now leaves.new.keys ps.items (length pairs.now)) }
{
    let mut places = Vec::new(alloc);
    for pair in pairs {
        let leaf = pair_leaf(alloc, first, second, pair.0, pair.1)?;
        places.push(pair_place(leaves, leaf)?)?;
    }
    Ok(places)
}

// The leaves of pairs of places, equal ones once.
fn pair_leaves<L: Leaf, M: Leaf>(
    alloc: Global,
    first: &[L],
    second: &[M],
    pairs: &[(u32, u32)],
) -> Result<Relabelled<(L, M)>, Memory>
    ensures different { IfOk result (λ r. AreDifferent r.leaves) }
    ensures places { IfOk result (λ r. AreLeavesOf first.now second.now pairs.now r.leaves r.places.items (length pairs.now)) }
{
    let mut leaves = IndexSet::new(alloc);
    let places = pair_places(alloc, &mut leaves, first, second, pairs)?;
    let leaves = listed(alloc, leaves)?;
    Ok(Relabelled { leaves, places })
}

// The cell of a tree that holds the place of its leaf.
fn load_places<L>(
    alloc: Global,
    store: &mut Store,
    tops: &[u32; 12],
    tree: &Shared<'_, L>,
) -> Result<u32, Memory>
    requires ordered { AreOrderedFrom 0 store.old }
    requires shared { IsShared tops.now (subtree_of tree.now.leaves.now tree.now.nodes.now (length tree.now.nodes.now - 1)) tree.now.leaves.now tree.now.nodes.now }
    ensures ordered { AreOrderedFrom 0 store.new }
    ensures extends { Extends store.old store.new }
    ensures inside { IfOk result (λ r. r < length store.new) }
    ensures held { IfOk result (λ r. HoldsPlaces tops.now tree.now.leaves.now tree.now.nodes.now store.new r) }
{
    let places = counted(alloc, tree.leaves.len())?;
    load(alloc, store, tops, tree, places.as_slice())
}

// The cell that holds the numbers of the pairs of what two cells hold, and these pairs.
fn paired(
    alloc: Global,
    store: &mut Store,
    a: u32,
    b: u32,
) -> Result<(u32, Items<(u32, u32)>), Memory>
    requires ordered { AreOrderedFrom 0 store.old }
    requires a { a < length store.old }
    requires b { b < length store.old }
    ensures ordered { AreOrderedFrom 0 store.new }
    ensures inside { IfOk result (λ r. r.0 < length store.new) }
    ensures held { IfOk result (λ r. (p : List ℕ) → slice_get r.1 (held_at store.new r.0 p) ≡ Some (held_at store.old a p, held_at store.old b p)) }
{
    let mut by = Pairs {
        met: IndexSet::new(alloc),
    };
    let whole = merge(alloc, &mut by, store, a, b)?;
    let pairs = listed(alloc, by.met)?;
    Ok((whole, pairs))
}

// The cell that holds the numbers of the pairs of places of two trees, and these pairs.
fn paired_trees<L, M>(
    alloc: Global,
    store: &mut Store,
    tops: &[u32; 12],
    one: &Shared<'_, L>,
    two: &Shared<'_, M>,
) -> Result<(u32, Items<(u32, u32)>), Memory>
    requires ordered { AreOrderedFrom 0 store.old }
    requires one { IsShared tops.now (subtree_of one.now.leaves.now one.now.nodes.now (length one.now.nodes.now - 1)) one.now.leaves.now one.now.nodes.now }
    requires two { IsShared tops.now (subtree_of two.now.leaves.now two.now.nodes.now (length two.now.nodes.now - 1)) two.now.leaves.now two.now.nodes.now }
    ensures ordered { AreOrderedFrom 0 store.new }
    ensures inside { IfOk result (λ r. r.0 < length store.new) }
    ensures held { IfOk result (λ r. HoldsPairs tops.now one.now.leaves.now one.now.nodes.now two.now.leaves.now two.now.nodes.now r.1 store.new r.0) }
{
    let a = load_places(alloc, store, tops, one)?;
    let b = load_places(alloc, store, tops, two)?;
    paired(alloc, store, a, b)
}

// The reduced tree that has, at each point within the tops, the leaves of the pair whose number the cell holds.
fn finish_pairs<L: Leaf, M: Leaf>(
    alloc: Global,
    store: &Store,
    tops: &[u32; 12],
    at: u32,
    one: &Shared<'_, L>,
    two: &Shared<'_, M>,
    pairs: &[(u32, u32)],
) -> Result<Tree<(L, M)>, Memory>
    requires ordered { AreOrderedFrom 0 store.now }
    requires inside { at < length store.now }
    requires held { HoldsPairs tops.now one.now.leaves.now one.now.nodes.now two.now.leaves.now two.now.nodes.now pairs.now store.now at }
    ensures tops { IfOk result (λ t. t.0 ≡ tops.now) }
    ensures reduced { IfOk result (λ t. IsReduced t.0 t.1) }
    ensures value { IfOk result (λ t. (p : List ℕ) → IsWithin tops.now p → (a : L) × (b : M) × (value (subtree_of one.now.leaves.now one.now.nodes.now (length one.now.nodes.now - 1)) p ≡ Some a) × (value (subtree_of two.now.leaves.now two.now.nodes.now (length two.now.nodes.now - 1)) p ≡ Some b) × (value t.1 p ≡ Some (a, b))) }
{
    let made = pair_leaves(alloc, one.leaves, two.leaves, pairs)?;
    let places = made.places.as_slice();
    finish(alloc, store, tops, at, places, made.leaves.as_slice())
}

impl<L: Leaf> Tree<L> {
    /// The tree whose value is the pair of this tree's and the other one's. Fails if memory runs out. The time grows with the pairs
    /// of nodes that meet.
    pub fn pair<M: Leaf>(&self, alloc: Global, other: &Tree<M>) -> Result<Tree<(L, M)>, Memory>
        requires { other.now.0 ≡ self.now.0 }
        ensures tops { IfOk result (λ t. t.0 ≡ self.now.0) }
        ensures reduced { IfOk result (λ t. IsReduced t.0 t.1) }
        ensures value { IfOk result (λ t. (p : List ℕ) → IsWithin self.now.0 p → (a : L) × (b : M) × (value self.now.1 p ≡ Some a) × (value other.now.1 p ≡ Some b) × (value t.1 p ≡ Some (a, b))) }
    {
        let one = self.shared();
        let two = other.shared();
        let tops = self.tops();
        let mut store = Store::new(alloc);
        let (whole, pairs) = paired_trees(alloc, &mut store, tops, &one, &two)?;
        finish_pairs(alloc, &store, tops, whole, &one, &two, pairs.as_slice())
    }
}
