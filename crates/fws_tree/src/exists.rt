//! Whether a tree is true somewhere in a set of fields.

ghost use Rattle.std.specs.Prelude.{◌≡◌, ◌⊎◌, ◌↔◌, ℕ, ◌<◌, ◌-◌, Bool, true, IsTrue, List, Some, length, slice_get, slice_index, IfOk, All};
ghost use Rattle.fws_box.specs.Sides.{IsWithin};
ghost use Rattle.fws_tree.specs.Building.{Extends};
ghost use Rattle.fws_tree.specs.Changed.{is_free, IsTrueSomewhere};
ghost use Rattle.fws_tree.specs.Held.{AreOrderedFrom, held_at};
ghost use Rattle.fws_tree.specs.Loaded.{kid_number, named_cell};
ghost use Rattle.fws_tree.specs.Plain.{IsReduced, value};
ghost use Rattle.fws_tree.specs.Projected.{any_of, AreProjected};
ghost use Rattle.fws_tree.specs.Shared.{IsShared, subtree_of};

use crate::finish::finish;
use crate::load::{load_cut, number_at};
use crate::merge::merge;
use crate::node::{Kid, Node};
use crate::over::Over;
use crate::shared::Shared;
use crate::store::{Cell, Store};
use crate::tree::Tree;
use fws_num::Memory;
use std::alloc::Global;

// Whether the bit of one of the twelve fields is set.
fn is_free(fields: u16, field: u8) -> bool
    ensures { result ≡ is_free fields field }
{
    field < 12 && fields & 2u16.pow(u32::from(field)) != 0
}

// 1 where the leaf at the place is true, else 0.
fn truth(leaves: &[bool], place: u32) -> u32
    ensures { ((result ≡ 1) × (slice_get leaves.now place ≡ Some true)) ⊎ ((result ≡ 0) × (slice_get leaves.now place ≡ Some true → ⊥)) }
{
    match leaves.get(place as usize) {
        Some(leaf) => if *leaf { 1 } else { 0 },
        None => 0,
    }
}

// The cell that holds what the first of the kids' cells holds that isn't 0.
fn any_of(
    alloc: Global,
    store: &mut Store,
    kids: &[Kid],
    at: &[u32],
    rest: u32,
) -> Result<u32, Memory>
    requires ordered { AreOrderedFrom 0 store.old }
    requires at { All (λ c. c < length store.old) at.now }
    requires rest { rest < length store.old }
    ensures ordered { AreOrderedFrom 0 store.new }
    ensures extends { Extends store.old store.new }
    ensures inside { IfOk result (λ r. r < length store.new) }
    ensures held { IfOk result (λ r. (p : List ℕ) → held_at store.new r p ≡ any_of (λ n. held_at store.old (slice_index at.now n) p) (held_at store.old rest p) kids.now) }
{
    let mut any = rest;
    for kid in kids {
        let cell = number_at(at, kid.node as usize);
        any = merge(alloc, &mut Over, store, any, cell)?;
    }
    Ok(any)
}

// Cells for the nodes, in their order, of which each tells whether its tree is true somewhere.
fn project(
    alloc: Global,
    store: &mut Store,
    tops: &[u32; 12],
    tree: &Shared<'_, bool>,
    fields: u16,
) -> Result<Vec<u32>, Memory>
    requires ordered { AreOrderedFrom 0 store.old }
    requires shared { IsShared tops.now (subtree_of tree.now.leaves.now tree.now.nodes.now (length tree.now.nodes.now - 1)) tree.now.leaves.now tree.now.nodes.now }
    ensures ordered { AreOrderedFrom 0 store.new }
    ensures many { IfOk result (λ at. length at.items ≡ length tree.now.nodes.now) }
    ensures projected { IfOk result (λ at. AreProjected tops.now fields tree.now.leaves.now tree.now.nodes.now store.new at.items) }
{
    let rest = store.intern(Cell::Leaf(0))?;
    let mut at = Vec::new(alloc);
    for node in tree.nodes {
        let cell = match node {
            Node::Leaf(place) => store.intern(Cell::Leaf(truth(tree.leaves, *place)))?,
            Node::Cut(field, kids) => if is_free(fields, *field) {
                any_of(alloc, store, kids.as_slice(), at.as_slice(), rest)?
            } else {
                let top = number_at(tops, *field as usize);
                load_cut(
                    alloc,
                    store,
                    *field,
                    top,
                    kids.as_slice(),
                    at.as_slice(),
                    rest,
                )?
            },
        };
        at.push(cell)?;
    }
    Ok(at)
}

impl Tree<bool> {
    /// The tree that is true at a point exactly where this one is true at some point within the tops that agrees with it in every
    /// field whose bit isn't set. Bit i is that of field i. Fails if memory runs out. The time grows with the pieces of the nodes'
    /// cuts and, for each cut of a field whose bit is set, with the pairs of nodes that meet when its kids are merged.
    pub fn exists(&self, alloc: Global, fields: u16) -> Result<Tree<bool>, Memory>
        ensures tops { IfOk result (λ t. t.0 ≡ self.now.0) }
        ensures reduced { IfOk result (λ t. IsReduced t.0 t.1) }
        ensures value { IfOk result (λ t. (p : List ℕ) → IsWithin self.now.0 p → (b : Bool) × (value t.1 p ≡ Some b) × (IsTrue b ↔ IsTrueSomewhere self.now.0 fields self.now.1 p)) }
    {
        let shared = self.shared();
        let tops = self.tops();
        let mut store = Store::new(alloc);
        let at = project(alloc, &mut store, tops, &shared, fields)?;
        let root = at[shared.nodes.len() - 1];
        finish(alloc, &store, tops, root, &[0, 1], &[false, true])
    }
}
