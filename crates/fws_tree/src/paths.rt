//! The paths of a tree as rows, one by one.

ghost use Rattle.std.specs.Prelude.{◌≡◌, ◌<◌, length, slice_set, OnOk};
ghost use Rattle.fws_tree.specs.Nodes.{tree_of, AreOrderedFrom, relabel};
ghost use Rattle.fws_tree.specs.Rows.{paths_below, paths_of};

use crate::leaf::Leaf;
use crate::node::Node;
use crate::row::Row;
use crate::takes_rows::TakesRows;
use crate::tree::Tree;
use fws_box::{copy_sides, whole_sides};
use fws_iv::Ivs;
use fws_num::Memory;
use std::alloc::Global;
use std::mem;

// Puts the set in the place of the field's side, and gives back the side that stood there. Behind the last field
// nothing is put, and the set comes back.
fn put_side(sides: &mut [Ivs; 12], field: u8, set: Ivs) -> Ivs
    ensures put { sides.new ≡ slice_set sides.old field set }
    ensures back { slice_set sides.new field result ≡ sides.old }
{
    if field < 12 {
        mem::replace(&mut sides[field as usize], set)
    } else {
        set
    }
}

// Hands on the paths of the tree of node `at`, each with the sides but for those of the fields that the path cuts. A
// place without a leaf has no path.
fn take_paths<L: Leaf, T: TakesRows<L>>(
    alloc: Global,
    leaves: &[L],
    nodes: &[Node],
    at: usize,
    sides: &mut [Ivs; 12],
    by: &mut T,
) -> Result<(), Memory>
    requires ordered { AreOrderedFrom 0 nodes.now }
    requires inside { at < length nodes.now }
    ensures took { OnOk result (T.took by.old by.new (paths_below sides.old (relabel leaves.now (tree_of nodes.now at)))) }
    ensures back { OnOk result (sides.new ≡ sides.old) }
{
    match &nodes[at] {
        Node::Leaf(place) => {
            if let Some(leaf) = leaves.get(*place as usize) {
                by.take(sides, leaf)?;
            }
        }
        Node::Cut(field, kids) => {
            for kid in kids.as_slice() {
                let set = kid.set.copy(alloc)?;
                let former = put_side(sides, *field, set);
                take_paths(alloc, leaves, nodes, kid.node as usize, sides, by)?;
                let _set = put_side(sides, *field, former);
            }
        }
    }
    Ok(())
}

impl<L: Leaf> Tree<L> {
    /// Hands on the rows of `paths`, one by one. None of them is kept: the memory that this takes grows with the depth of the tree,
    /// and not with its rows. Fails if memory runs out, or where the taker fails.
    pub fn each_row<T: TakesRows<L>>(&self, alloc: Global, by: &mut T) -> Result<(), Memory>
        ensures { OnOk result (T.took by.old by.new (paths_of self.now.0 self.now.1)) }
    {
        let shared = self.shared();
        let mut sides = whole_sides(alloc, self.tops())?;
        let root = shared.nodes.len() - 1;
        take_paths(alloc, shared.leaves, shared.nodes, root, &mut sides, by)?;
        Ok(())
    }
}

/// Rows that are listed.
#[derive(Drop)]
pub(crate) struct Listing<L> {
    /// Where copies are made.
    pub(crate) alloc: Global,
    /// The rows.
    pub(crate) rows: Vec<Row<L>>,
}

impl<L: Leaf> TakesRows<L> for Listing<L> {
    ghost use Rattle.std.specs.Prelude.{◌≡◌, ◌++◌};
    ghost use Rattle.fws_tree.specs.RowLists.{more_none, more_then};

    ghost took = { λ s t rows. t.rows.items ≡ s.rows.items ++ rows };

    fn take(&mut self, sides: &[Ivs; 12], leaf: &L) -> Result<(), Memory> {
        let sides = copy_sides(self.alloc, sides)?;
        let leaf = leaf.copy(self.alloc)?;
        self.rows.push(Row { sides, leaf })?;
        Ok(())
    }

    ghost same = { λ s. more_none s.rows.items };

    ghost then = { λ s t u xs ys e f. more_then s.rows.items t.rows.items u.rows.items xs ys e f };
}
