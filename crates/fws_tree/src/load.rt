//! The nodes of a tree as cells of a working store.

ghost use Rattle.std.specs.Prelude.{◌≡◌, ℕ, ◌<◌, ◌≤◌, ◌-◌, List, length, slice_index, IfOk, All};
ghost use Rattle.fws_box.specs.Sides.{IsWithin};
ghost use Rattle.fws_tree.specs.Building.{Extends};
ghost use Rattle.fws_tree.specs.Held.{AreOrderedFrom, held_at};
ghost use Rattle.fws_tree.specs.Loaded.{kid_number, named_cell, AreLoaded, HoldsNode, IsLoaded};
ghost use Rattle.fws_tree.specs.Nodes.{AreOrderedFrom as AreNodesOrderedFrom};
ghost use Rattle.fws_tree.specs.Shared.{IsShared, subtree_of};

use crate::kid_steps::{cell_steps, kid_steps};
use crate::node::{Kid, Node};
use crate::shared::Shared;
use crate::store::{Cell, Store};
use fws_num::Memory;
use std::alloc::Global;

/// The number at a place, 0 behind the end.
pub(crate) fn number_at(numbers: &[u32], place: usize) -> u32
    ensures { result ≡ slice_index numbers.now place }
{
    match numbers.get(place) {
        Some(number) => *number,
        None => 0,
    }
}

/// The cell of a cut over the cells of its kids' nodes; the other cell where no kid has the value.
pub(crate) fn load_cut(
    alloc: Global,
    store: &mut Store,
    field: u8,
    top: u32,
    kids: &[Kid],
    at: &[u32],
    rest: u32,
) -> Result<u32, Memory>
    requires ordered { AreOrderedFrom 0 store.old }
    requires at { All (λ c. c < length store.old) at.now }
    requires rest { rest < length store.old }
    ensures ordered { AreOrderedFrom 0 store.new }
    ensures extends { Extends store.old store.new }
    ensures inside { IfOk result (λ r. r < length store.new) }
    ensures held { IfOk result (λ r. (p : List ℕ) → slice_index p field ≤ top → held_at store.new r p ≡ held_at store.old (named_cell at.now rest (kid_number kids.now (slice_index p field))) p) }
{
    let numbers = kid_steps(alloc, kids, top)?;
    let cells = cell_steps(alloc, &numbers, at, rest)?;
    store.cut(field, cells.steps, cells.last)
}

// The cell of node `k` over the cells of those before it.
fn load_node(
    alloc: Global,
    store: &mut Store,
    tops: &[u32; 12],
    nodes: &[Node],
    values: &[u32],
    k: usize,
    at: &[u32],
    rest: u32,
) -> Result<u32, Memory>
    requires ordered { AreOrderedFrom 0 store.old }
    requires nodes { AreNodesOrderedFrom 0 nodes.now }
    requires inside { k < length nodes.now }
    requires many { length at.now ≡ k }
    requires loaded { AreLoaded tops.now nodes.now values.now store.old at.now }
    requires rest { rest < length store.old }
    ensures ordered { AreOrderedFrom 0 store.new }
    ensures extends { Extends store.old store.new }
    ensures inside { IfOk result (λ r. r < length store.new) }
    ensures holds { IfOk result (λ r. HoldsNode tops.now nodes.now values.now store.new k r) }
{
    match &nodes[k] {
        Node::Leaf(place) => store.intern(Cell::Leaf(number_at(values, *place as usize))),
        Node::Cut(field, kids) => {
            let top = number_at(tops, *field as usize);
            load_cut(alloc, store, *field, top, kids.as_slice(), at, rest)
        }
    }
}

/// Cells for nodes, in their order: at each point within the tops a cell holds the value that the list
/// gives for the place that its node has there. The time grows with the pieces of the nodes' cuts.
pub(crate) fn load_nodes(
    alloc: Global,
    store: &mut Store,
    tops: &[u32; 12],
    nodes: &[Node],
    values: &[u32],
) -> Result<Vec<u32>, Memory>
    requires ordered { AreOrderedFrom 0 store.old }
    requires nodes { AreNodesOrderedFrom 0 nodes.now }
    ensures ordered { AreOrderedFrom 0 store.new }
    ensures extends { Extends store.old store.new }
    ensures many { IfOk result (λ at. length at.items ≡ length nodes.now) }
    ensures loaded { IfOk result (λ at. AreLoaded tops.now nodes.now values.now store.new at.items) }
{
    let rest = store.intern(Cell::Leaf(0))?;
    let mut at = Vec::new(alloc);
    for k in 0..nodes.len() {
        let cell = load_node(alloc, store, tops, nodes, values, k, at.as_slice(), rest)?;
        at.push(cell)?;
    }
    Ok(at)
}

/// The cell of a tree.
pub(crate) fn load<L>(
    alloc: Global,
    store: &mut Store,
    tops: &[u32; 12],
    tree: &Shared<'_, L>,
    values: &[u32],
) -> Result<u32, Memory>
    requires ordered { AreOrderedFrom 0 store.old }
    requires shared { IsShared tops.now (subtree_of tree.now.leaves.now tree.now.nodes.now (length tree.now.nodes.now - 1)) tree.now.leaves.now tree.now.nodes.now }
    ensures ordered { AreOrderedFrom 0 store.new }
    ensures extends { Extends store.old store.new }
    ensures inside { IfOk result (λ r. r < length store.new) }
    ensures loaded { IfOk result (IsLoaded tops.now tree.now.leaves.now tree.now.nodes.now values.now store.new) }
{
    let at = load_nodes(alloc, store, tops, tree.nodes, values)?;
    Ok(at[tree.nodes.len() - 1])
}
