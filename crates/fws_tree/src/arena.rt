//! The nodes of a tree under construction, equal nodes stored once.

ghost use Rattle.std.specs.Prelude.{◌≡◌, ◌⊎◌, ◌++◌, [], ◌∷◌, ℕ, Some, length, slice_get, if◌then◌else◌, IfOk, OnErr};
ghost use Rattle.fws_tree.specs.Building.{AreDifferent};

use crate::node::Node;
use fws_num::{Items, Memory};
use indexmap::IndexSet;
use std::alloc::Global;
use std::hash::Hash;
use std::marker::Model;

/// A key that equals no other value than itself.
pub(crate) trait Exact: Eq + Hash + Drop {
    ghost use Rattle.std.specs.Prelude.{◌≡◌, true};

    // What `==` holds equal is equal.
    ghost exact: { (x y : Self) → Self.PartialEq.eq x y ≡ true → x ≡ y };
}

impl Exact for u32 {
    ghost use Rattle.std.proofs.lemmas.Bool.{eqb-true};

    ghost exact = { eqb-true };
}

impl Exact for Node {
    ghost use Rattle.fws_tree.specs.Exactly.{leaf_exact, cut_exact, never};
    ghost use Rattle.fws_tree.specs.declared.node.Node.TheVariants.{Leaf, Cut};

    ghost exact = { elim [ Leaf m ↦ elim [ Leaf n ↦ leaf_exact m n | Cut f ks ↦ never (Leaf m) (Cut f ks) ] | Cut f ks ↦ elim [ Leaf m ↦ never (Cut f ks) (Leaf m) | Cut g js ↦ cut_exact f g ks js ] ] };
}

/// Puts the value behind the others unless it is among them. Gives its place, and whether it is new.
pub(crate) fn place_of<T: Exact>(kept: &mut IndexSet<T>, value: T) -> Result<(usize, bool), Memory>
    ensures place { IfOk result (λ r. slice_get kept.new.keys r.0 ≡ Some value) }
    ensures grown { IfOk result (λ r. kept.new.keys ≡ (if r.1 then kept.old.keys ++ value ∷ [] else kept.old.keys)) }
    ensures different { AreDifferent kept.new.keys }
    ensures err { OnErr result (kept.new.keys ≡ kept.old.keys) }
{
    Ok(kept.insert_full(value)?)
}

/// The values of a set, in their order.
pub(crate) fn listed<T: Eq + Hash + Drop>(
    alloc: Global,
    kept: IndexSet<T>,
) -> Result<Items<T>, Memory>
    ensures { IfOk result (λ xs. xs ≡ kept.keys) }
{
    let mut items = Items::new(alloc);
    for value in kept {
        items.put(value)?;
    }
    Ok(items)
}

/// The nodes of a tree under construction: each names earlier ones alone, and no two are equal.
#[derive(Drop)]
pub(crate) struct Arena {
    nodes: IndexSet<Node>,
}

impl Model for Arena {
    ghost use Rattle.std.specs.Prelude.{List};
    ghost use Rattle.fws_tree.specs.declared.node.Node.{Node};

    ghost Value = { List Node };

    ghost view = { λ a. a.nodes.keys };
}

impl Arena {
    ghost use Rattle.fws_tree.specs.Building.{IsArena};
    ghost use Rattle.fws_tree.specs.Nodes.{IsNodeBelow, tree_of, tree_over, trees_after};

    /// The arena without nodes.
    pub(crate) fn new(alloc: Global) -> Arena
        ensures value { result ≡ [] }
        ensures arena { IsArena result }
    {
        Arena {
            nodes: IndexSet::new(alloc),
        }
    }

    /// Gives the number of the node, which is stored unless it is there. Fails if memory runs out, or
    /// at a number past 2^32 - 1.
    pub(crate) fn intern(&mut self, node: Node) -> Result<u32, Memory>
        requires arena { IsArena self.old }
        requires below { IsNodeBelow (length self.old) node }
        ensures arena { IsArena self.new }
        ensures grown { (self.new ≡ self.old) ⊎ (self.new ≡ self.old ++ node ∷ []) }
        ensures number { IfOk result (λ i. slice_get self.new i ≡ Some node) }
        ensures tree { IfOk result (λ i. tree_of self.new i ≡ tree_over (trees_after [] self.old) node) }
    {
        let (place, _) = place_of(&mut self.nodes, node)?;
        match u32::try_from(place) {
            Ok(number) => Ok(number),
            Err(_) => Err(Memory),
        }
    }

    /// The nodes, in the order of their numbers.
    pub(crate) fn into_nodes(self, alloc: Global) -> Result<Items<Node>, Memory>
        ensures { IfOk result (λ ns. ns ≡ self) }
    {
        listed(alloc, self.nodes)
    }
}
