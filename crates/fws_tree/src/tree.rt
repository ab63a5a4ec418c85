//! Trees, seen by contracts as the tops of the fields and the plain tree.

ghost use Rattle.std.specs.Prelude.{◌≡◌, ℕ, ◌-◌, List, true, false, length, Some, All, Contains, IfOk, IsTrue, MatchOption};
ghost use Rattle.fws_tree.specs.Plain.{Plain, IsReduced, value};
ghost use Rattle.fws_box.specs.Sides.{IsWithin, sides_have};
ghost use Rattle.fws_tree.specs.Rows.{row_hits, paths_of};
ghost use Rattle.fws_tree.specs.Shared.{IsShared, subtree_of};
ghost use Rattle.fws_tree.specs.Subtrees.{AreSubtrees};

use crate::first_path::first_below;
use crate::leaf::Leaf;
use crate::node::Node;
use crate::paths::Listing;
use crate::row::Row;
use crate::shared::Shared;
use crate::walk::place_at;
use fws_box::whole_sides;
use fws_iv::Ivs;
use fws_num::{Items, Memory};
use std::alloc::Global;
use std::marker::Model;

/// A reduced decision tree over twelve fields, each with values from 0 to its top.
#[derive(Drop)]
pub struct Tree<L: Leaf> {
    tops: [u32; 12],
    leaves: Items<L>,
    nodes: Items<Node>,
}

impl<L: Leaf> Model for Tree<L> {
    ghost use Rattle.std.specs.Prelude.{List, ℕ, ◌-◌, length};
    ghost use Rattle.std.specs.Coded.{coded×, coded_list, coded_ℕ};
    ghost use Rattle.fws_tree.specs.Plain.{Plain};
    ghost use Rattle.fws_tree.specs.PlainCode.{coded_plain};

    ghost Value = { List ℕ × Plain L };

    ghost coded = { coded× (coded_list coded_ℕ) (coded_plain L.code) };

    ghost use Rattle.fws_tree.specs.Shared.{subtree_of};
    ghost use Rattle.fws_tree.specs.Tree.{IsKept};

    ghost view = { λ t. (t.tops, subtree_of t.leaves t.nodes (length t.nodes - 1)) };

    ghost invariant = { λ t. IsKept L t.tops t.leaves t.nodes };
}

impl<L: Leaf> Tree<L> {
    /// The greatest value of each field, in the order of the fields.
    pub fn tops(&self) -> &[u32; 12]
        ensures value { result.now ≡ self.now.0 }
        ensures twelve { length self.now.0 ≡ 12 }
        ensures reduced { IsReduced self.now.0 self.now.1 }
    {
        &self.tops
    }

    /// The leaf at a point whose values are at most the tops. It allocates nothing.
    pub fn lookup(&self, p: &[u32; 12]) -> &L
        requires { IsWithin self.now.0 p.now }
        ensures { value self.now.1 p.now ≡ Some result.now }
    {
        match place_at(self.nodes.as_slice(), self.nodes.len() - 1, p) {
            Some(n) => &self.leaves.as_slice()[n as usize],
            None => unreachable!(),
        }
    }

    /// The paths of the tree: a row for each leaf, depth first, with the values of each field that lead
    /// to it. Each point whose values are at most the tops lies in just one of them.
    pub fn paths(&self, alloc: Global) -> Result<Vec<Row<L>>, Memory>
        ensures rows { IfOk result (λ rows. rows.items ≡ paths_of self.now.0 self.now.1) }
        ensures once { IfOk result (λ rows. (p : List ℕ) → IsWithin self.now.0 p → row_hits rows.items p ≡ 1) }
        ensures right { IfOk result (λ rows. (p : List ℕ) → IsWithin self.now.0 p → All (λ row. IsTrue (sides_have row.sides p) → value self.now.1 p ≡ Some row.leaf) rows.items) }
    {
        // The tree is reduced, as its tops say.
        let _tops = self.tops();
        let mut listing = Listing {
            alloc,
            rows: Vec::new(alloc),
        };
        self.each_row(alloc, &mut listing)?;
        Ok(listing.rows)
    }

    /// How many different subtrees the tree has, itself and its leaves included. It allocates nothing.
    pub fn nodes(&self) -> usize
        ensures { (ts : List (Plain L)) × AreSubtrees self.now.1 ts × (length ts ≡ result) }
    {
        self.nodes.len()
    }

    /// The leaves and the nodes of the tree: one node for each different subtree.
    pub fn shared(&self) -> Shared<'_, L>
        ensures { IsShared self.now.0 self.now.1 result.leaves.now result.nodes.now }
    {
        Shared {
            leaves: self.leaves.as_slice(),
            nodes: self.nodes.as_slice(),
        }
    }
}

/// The tree of the last node, with the leaves at the places that its leaves name.
pub(crate) fn from_nodes<L: Leaf>(tops: &[u32; 12], leaves: Items<L>, nodes: Items<Node>) -> Tree<L>
    requires { IsShared tops.now (subtree_of leaves nodes (length nodes - 1)) leaves nodes }
    ensures { result ≡ (tops.now, subtree_of leaves nodes (length nodes - 1)) }
{
    Tree {
        tops: *tops,
        leaves,
        nodes,
    }
}

impl Tree<bool> {
    /// The sides of the first path of the tree that is true, if there is one. It goes down to that leaf alone, since in a reduced
    /// tree all nodes but the leaf that is false have one below them that is true: so the time doesn't grow with the paths. Fails
    /// if memory runs out.
    pub fn first_true(&self, alloc: Global) -> Result<Option<[Ivs; 12]>, Memory>
        ensures first { IfOk result (λ found. MatchOption found (All (λ row. row.leaf ≡ false) (paths_of self.now.0 self.now.1)) (λ sides. Contains (paths_of self.now.0 self.now.1) (record { sides = sides; leaf = true }))) }
        ensures once { IfOk result (λ found. (p : List ℕ) → IsWithin self.now.0 p → row_hits (paths_of self.now.0 self.now.1) p ≡ 1) }
        ensures right { IfOk result (λ found. (p : List ℕ) → IsWithin self.now.0 p → All (λ row. IsTrue (sides_have row.sides p) → value self.now.1 p ≡ Some row.leaf) (paths_of self.now.0 self.now.1)) }
    {
        let sides = whole_sides(alloc, &self.tops)?;
        let found = first_below(
            alloc,
            self.leaves.as_slice(),
            self.nodes.as_slice(),
            self.nodes.len() - 1,
            &sides,
        )?;
        Ok(found)
    }
}
