//! How many rows a tree has, counted node by node.

ghost use Rattle.std.specs.Prelude.{◌≡◌, ◌<◌, ◌-◌, length, slice_index, IfOk};
ghost use Rattle.fws_tree.specs.Nodes.{AreOrderedFrom};
ghost use Rattle.fws_tree.specs.PathCounts.{kid_sum, node_sum, AreCounted};
ghost use Rattle.fws_tree.specs.Rows.{paths_of};

use crate::leaf::Leaf;
use crate::node::{Kid, Node};
use crate::tree::Tree;
use fws_num::Memory;
use std::alloc::Global;

// The count at a place, 0 behind the end.
fn count_at(counts: &[u64], place: usize) -> u64
    ensures { result ≡ slice_index counts.now place }
{
    match counts.get(place) {
        Some(count) => *count,
        None => 0,
    }
}

// The sum of the counts at the nodes that the kids name. Fails at one past 2^64 - 1, as if memory ran out.
fn kid_sum(counts: &[u64], kids: &[Kid]) -> Result<u64, Memory>
    ensures { IfOk result (λ n. n ≡ kid_sum counts.now kids.now) }
{
    let mut sum = 0u64;
    for kid in kids {
        match sum.checked_add(count_at(counts, kid.node as usize)) {
            Some(more) => sum = more,
            None => return Err(Memory),
        }
    }
    Ok(sum)
}

// The count of a node, by those of earlier ones, where there are so many leaves.
fn node_sum(many: usize, counts: &[u64], node: &Node) -> Result<u64, Memory>
    ensures { IfOk result (λ n. n ≡ node_sum many counts.now node.now) }
{
    match node {
        Node::Leaf(place) => {
            if (*place as usize) < many {
                Ok(1)
            } else {
                Ok(0)
            }
        }
        Node::Cut(_, kids) => kid_sum(counts, kids.as_slice()),
    }
}

// How many paths the tree of each node has. The nodes are met once, in their order.
fn path_counts<L: Leaf>(alloc: Global, leaves: &[L], nodes: &[Node]) -> Result<Vec<u64>, Memory>
    requires { AreOrderedFrom 0 nodes.now }
    ensures many { IfOk result (λ counts. length counts.items ≡ length nodes.now) }
    ensures counted { IfOk result (λ counts. AreCounted leaves.now nodes.now counts.items) }
{
    let mut counts = Vec::new(alloc);
    for node in nodes {
        let count = node_sum(leaves.len(), counts.as_slice(), node)?;
        counts.push(count)?;
    }
    Ok(counts)
}

impl<L: Leaf> Tree<L> {
    /// How many rows `paths` has. They are counted node by node, so that a subtree which stands in many places is counted once, and
    /// no row is listed. Fails if memory runs out, or a count past 2^64 - 1, which is answered as such: no machine holds as many
    /// rows.
    pub fn row_count(&self, alloc: Global) -> Result<u64, Memory>
        ensures { IfOk result (λ n. n ≡ length (paths_of self.now.0 self.now.1)) }
    {
        let shared = self.shared();
        let counts = path_counts(alloc, shared.leaves, shared.nodes)?;
        Ok(counts[shared.nodes.len() - 1])
    }
}
