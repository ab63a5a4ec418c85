//! The search for a point at which two trees come to different fates.

ghost use Rattle.std.specs.Prelude.{◌≡◌, ℕ, ◌-◌, ◌<◌, Option, Some, List, length, slice_get, IfOk, MatchOption};
ghost use Rattle.fws_dead.specs.Rows.{IsRow};
ghost use Rattle.fws_dead.specs.Searched.{AreAlikeFor, IsApartFor, AreAlikeBelow, IsApartBelow, AreAlikeWithin, IsApartWithin, IsNarrowed};
ghost use Rattle.fws_dead.specs.Points.{AreTops};
ghost use Rattle.fws_net.specs.declared.outcome.Outcome.{Outcome};
ghost use Rattle.fws_tree.specs.Nodes.{AreOrderedFrom};
ghost use Rattle.fws_tree.specs.Shared.{IsShared, subtree_of};

use crate::point::bounds;
use crate::row::apart_in;
use fws_box::{Point, copy_sides, whole_sides};
use fws_iv::Ivs;
use fws_net::{Outcome, State};
use fws_num::Memory;
use fws_tree::{Node, Tree};
use fws_tree_seen::{cut_nodes_part_values, kids_stand_before, leaf_nodes_are_leaves};
use std::alloc::Global;

/// Two outcomes that aren't equal, if they aren't.
type Apart = Option<(Outcome, Outcome)>;

// The sides, of which the one for the field has the members of the set alone.
fn narrowed(alloc: Global, sides: &[Ivs; 12], field: u8, set: &Ivs) -> Result<[Ivs; 12], Memory>
    ensures { IfOk result (λ next. field < 12 → IsNarrowed sides.now field set.now next) }
{
    let mut next = copy_sides(alloc, sides)?;
    if field < 12 {
        next[field as usize] = sides[field as usize].inter(alloc, set)?;
    }
    Ok(next)
}

// A point of the row at which the outcomes come to different fates, if they do.
fn apart_for(state: State, leaf: Apart, sides: &[Ivs; 12]) -> Option<Point>
    ensures { (tops : List ℕ) → IsRow tops sides.now → MatchOption result (AreAlikeFor state tops sides.now leaf) (IsApartFor state tops sides.now leaf) }
{
    match leaf {
        Some(pair) => apart_in(state, sides, pair.0, pair.1),
        None => None,
    }
}

// The same of the leaf at a place.
fn apart_at(state: State, leaves: &[Apart], place: u32, sides: &[Ivs; 12]) -> Option<Point>
    ensures { (tops : List ℕ) (leaf : Option (Outcome × Outcome)) → IsRow tops sides.now → slice_get leaves.now place ≡ Some leaf
        → MatchOption result (AreAlikeFor state tops sides.now leaf) (IsApartFor state tops sides.now leaf) }
{
    match leaves.get(place as usize) {
        Some(leaf) => apart_for(state, *leaf, sides),
        None => None,
    }
}

// A point of the sides at which the outcomes of the tree of node `at` come to different fates, if there is one. It goes from
// row to row, and stops at the first one that has such a point.
fn apart_below(
    alloc: Global,
    state: State,
    leaves: &[Apart],
    nodes: &[Node],
    at: usize,
    sides: &[Ivs; 12],
) -> Result<Option<Point>, Memory>
    requires ordered { AreOrderedFrom 0 nodes.now }
    requires inside { at < length nodes.now }
    ensures { (tops : List ℕ) → IsShared tops (subtree_of leaves.now nodes.now (length nodes.now - 1)) leaves.now nodes.now → IsRow tops sides.now
        → IfOk result (λ found. MatchOption found (AreAlikeBelow state tops sides.now (subtree_of leaves.now nodes.now at)) (IsApartBelow state tops sides.now (subtree_of leaves.now nodes.now at))) }
{
    kids_stand_before();
    leaf_nodes_are_leaves::<Apart>();
    cut_nodes_part_values::<Apart>();
    match &nodes[at] {
        Node::Leaf(place) => {
            let found = apart_at(state, leaves, *place, sides);
            return Ok(found);
        }
        Node::Cut(field, kids) => {
            for kid in kids.as_slice() {
                let next = narrowed(alloc, sides, *field, &kid.set)?;
                let found = apart_below(alloc, state, leaves, nodes, kid.node as usize, &next)?;
                if found.is_some() {
                    return Ok(found);
                }
            }
        }
    }
    Ok(None)
}

/// A point at which the outcomes of the tree come to different fates, if there is one. Fails if memory runs out.
pub(crate) fn apart(
    alloc: Global,
    state: State,
    tree: &Tree<Apart>,
) -> Result<Option<Point>, Memory>
    requires { AreTops tree.now.0 }
    ensures { IfOk result (λ found. MatchOption found (AreAlikeWithin state tree.now.0 tree.now.1) (IsApartWithin state tree.now.0 tree.now.1)) }
{
    let shared = tree.shared();
    let sides = whole_sides(alloc, &bounds(state, tree.tops()))?;
    let root = shared.nodes.len() - 1;
    let found = apart_below(alloc, state, shared.leaves, shared.nodes, root, &sides)?;
    Ok(found)
}
