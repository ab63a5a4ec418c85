//! The first path of a tree that is true.

ghost use Rattle.std.specs.Prelude.{◌≡◌, ◌<◌, true, false, length, slice_set, All, Contains, IfOk, MatchOption};
ghost use Rattle.fws_tree.specs.Nodes.{tree_of, AreOrderedFrom, relabel};
ghost use Rattle.fws_tree.specs.Rows.{paths_below};

use crate::node::Node;
use fws_box::copy_sides;
use fws_iv::Ivs;
use fws_num::Memory;
use std::alloc::Global;

// The sides, with this one for the field.
fn with_side(alloc: Global, sides: &[Ivs; 12], field: u8, side: &Ivs) -> Result<[Ivs; 12], Memory>
    ensures { IfOk result (λ next. next ≡ slice_set sides.now field side.now) }
{
    let mut next = copy_sides(alloc, sides)?;
    if field < 12 {
        next[field as usize] = side.copy(alloc)?;
    }
    Ok(next)
}

/// The sides of the first path of the tree of node `at` that is true, where all others are those that are given.
pub(crate) fn first_below(
    alloc: Global,
    leaves: &[bool],
    nodes: &[Node],
    at: usize,
    sides: &[Ivs; 12],
) -> Result<Option<[Ivs; 12]>, Memory>
    requires ordered { AreOrderedFrom 0 nodes.now }
    requires inside { at < length nodes.now }
    ensures { IfOk result (λ found. MatchOption found (All (λ row. row.leaf ≡ false) (paths_below sides.now (relabel leaves.now (tree_of nodes.now at)))) (λ first. Contains (paths_below sides.now (relabel leaves.now (tree_of nodes.now at))) (record { sides = first; leaf = true }))) }
{
    match &nodes[at] {
        Node::Leaf(place) => {
            if let Some(leaf) = leaves.get(*place as usize) {
                if *leaf {
                    return Ok(Some(copy_sides(alloc, sides)?));
                }
            }
        }
        Node::Cut(field, kids) => {
            for kid in kids.as_slice() {
                let next = with_side(alloc, sides, *field, &kid.set)?;
                let found = first_below(alloc, leaves, nodes, kid.node as usize, &next)?;
                if found.is_some() {
                    return Ok(found);
                }
            }
        }
    }
    Ok(None)
}
