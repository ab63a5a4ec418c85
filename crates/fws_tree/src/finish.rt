//! The tree of a cell, with its leaves in the order of the nodes.

ghost use Rattle.std.specs.Prelude.{◌≡◌, ℕ, ◌<◌, ◌++◌, [], List, length, slice_get, slice_index, IfOk, OnOk, All};
ghost use Rattle.fws_tree.specs.Building.{AreDifferent, IsArena};
ghost use Rattle.fws_tree.specs.Held.{AreOrderedFrom, held_at};
ghost use Rattle.fws_tree.specs.Plain.{IsReduced, value};
ghost use Rattle.fws_tree.specs.Settled.{IsPlaceBelow, IsPut, AreSettled};
ghost use Rattle.fws_tree.specs.Shown.{IsShown, AreAddedBelow};
ghost use Rattle.fws_box.specs.Sides.{IsWithin};

use crate::arena::Arena;
use crate::counted_places::counted;
use crate::leaf::Leaf;
use crate::memo::Memo;
use crate::node::Node;
use crate::show::show;
use crate::store::Store;
use crate::tree::{Tree, from_nodes};
use fws_num::{Items, Memory};
use std::alloc::Global;

// The node, after its leaf was put behind the others.
fn put_node<L: Leaf>(
    alloc: Global,
    leaves: &[L],
    node: Node,
    kept: &mut Items<L>,
) -> Result<Node, Memory>
    requires { IsPlaceBelow (length leaves.now) node }
    ensures { IfOk result (λ put. IsPut leaves.now node put kept.old kept.new) }
{
    match node {
        Node::Leaf(n) => {
            let place = match u32::try_from(kept.len()) {
                Ok(place) => place,
                Err(_) => return Err(Memory),
            };
            let leaf = leaves[n as usize].copy(alloc)?;
            kept.put(leaf)?;
            Ok(Node::Leaf(place))
        }
        Node::Cut(field, kids) => Ok(Node::Cut(field, kids)),
    }
}

/// Leaves, and nodes that name them.
#[derive(Drop)]
struct Settled<L: Leaf> {
    leaves: Items<L>,
    nodes: Items<Node>,
}

// Puts the nodes, and the leaves that they name, behind no others.
fn settle_into<L: Leaf>(
    alloc: Global,
    leaves: &[L],
    nodes: Items<Node>,
    kept: &mut Items<L>,
    put: &mut Items<Node>,
) -> Result<(), Memory>
    requires places { All (IsPlaceBelow (length leaves.now)) nodes }
    requires kept { kept.old ≡ [] }
    requires put { put.old ≡ [] }
    ensures { OnOk result (AreSettled leaves.now nodes kept.new put.new) }
{
    for node in nodes.into_vec() {
        let node = put_node(alloc, leaves, node, kept)?;
        put.put(node)?;
    }
    Ok(())
}

// The nodes with the leaves that they name, in the order in which they name them.
fn settle<L: Leaf>(alloc: Global, leaves: &[L], nodes: Items<Node>) -> Result<Settled<L>, Memory>
    requires { All (IsPlaceBelow (length leaves.now)) nodes }
    ensures { IfOk result (λ s. AreSettled leaves.now nodes s.leaves s.nodes) }
{
    let mut kept = Items::new(alloc);
    let mut put = Items::new(alloc);
    settle_into(alloc, leaves, nodes, &mut kept, &mut put)?;
    Ok(Settled {
        leaves: kept,
        nodes: put,
    })
}

// Puts the nodes of the reduced tree of cell `at` behind no others, and gives the number of the tree's own.
fn show_root(
    alloc: Global,
    store: &Store,
    tops: &[u32; 12],
    at: u32,
    places: &[u32],
    arena: &mut Arena,
) -> Result<u32, Memory>
    requires ordered { AreOrderedFrom 0 store.now }
    requires inside { at < length store.now }
    requires empty { arena.old ≡ [] }
    requires arena { IsArena arena.old }
    ensures arena { IsArena arena.new }
    ensures shown { IfOk result (λ r. IsShown store.now tops.now places.now 0 at arena.new r) }
    ensures below { IfOk result (λ r. AreAddedBelow [] arena.new r) }
{
    let mut memo = Memo::new(alloc);
    show(alloc, store, tops, places, arena, &mut memo, 0, at)
}

// The nodes of the reduced tree over the tops that has, at each point, the place of the value that cell `at` holds
// there: no node is there that the tree has not.
fn shown_nodes(
    alloc: Global,
    store: &Store,
    tops: &[u32; 12],
    at: u32,
    places: &[u32],
) -> Result<Items<Node>, Memory>
    requires ordered { AreOrderedFrom 0 store.now }
    requires inside { at < length store.now }
    ensures arena { IfOk result (λ ns. IsArena ns) }
    ensures root { IfOk result (λ ns. (r : ℕ) × IsShown store.now tops.now places.now 0 at ns r × AreAddedBelow [] ns r) }
{
    let mut arena = Arena::new(alloc);
    let _root = show_root(alloc, store, tops, at, places, &mut arena)?;
    arena.into_nodes(alloc)
}

/// The reduced tree that has, at each point within the tops, the leaf at the place of the value that cell `at` holds there. Fails
/// if memory runs out.
pub(crate) fn finish<L: Leaf>(
    alloc: Global,
    store: &Store,
    tops: &[u32; 12],
    at: u32,
    places: &[u32],
    leaves: &[L],
) -> Result<Tree<L>, Memory>
    requires ordered { AreOrderedFrom 0 store.now }
    requires inside { at < length store.now }
    requires different { AreDifferent leaves.now }
    requires places { (p : List ℕ) → IsWithin tops.now p → slice_index places.now (held_at store.now at p) < length leaves.now }
    ensures tops { IfOk result (λ t. t.0 ≡ tops.now) }
    ensures reduced { IfOk result (λ t. IsReduced t.0 t.1) }
    ensures value { IfOk result (λ t. (p : List ℕ) → IsWithin tops.now p → value t.1 p ≡ slice_get leaves.now (slice_index places.now (held_at store.now at p))) }
{
    let nodes = shown_nodes(alloc, store, tops, at, places)?;
    let settled = settle(alloc, leaves, nodes)?;
    Ok(from_nodes(tops, settled.leaves, settled.nodes))
}

/// The reduced tree that has, at each point within the tops, the leaf at the place that cell `at` holds there. Fails if memory runs
/// out.
pub(crate) fn finish_counted<L: Leaf>(
    alloc: Global,
    store: &Store,
    tops: &[u32; 12],
    at: u32,
    leaves: &[L],
) -> Result<Tree<L>, Memory>
    requires ordered { AreOrderedFrom 0 store.now }
    requires inside { at < length store.now }
    requires different { AreDifferent leaves.now }
    requires places { (p : List ℕ) → IsWithin tops.now p → held_at store.now at p < length leaves.now }
    ensures tops { IfOk result (λ t. t.0 ≡ tops.now) }
    ensures reduced { IfOk result (λ t. IsReduced t.0 t.1) }
    ensures value { IfOk result (λ t. (p : List ℕ) → IsWithin tops.now p → value t.1 p ≡ slice_get leaves.now (held_at store.now at p)) }
{
    let places = counted(alloc, leaves.len())?;
    finish(alloc, store, tops, at, places.as_slice(), leaves)
}
