//! The way down numbered nodes to the value at a point.

ghost use Rattle.std.specs.Prelude.{◌≡◌, ℕ, ◌<◌, List, length, slice_index_or, IfSome};
ghost use Rattle.std.specs.List.{AllByRecursion};
ghost use Rattle.std.specs.Option.{option_map_or};
ghost use Rattle.fws_tree.specs.Plain.{Plain, cut, none, kid_at, leaf_of, branch, value};
ghost use Rattle.fws_tree.specs.Nodes.{kids_over, tree_of, AreOrderedFrom};

use crate::node::{Kid, Node};

// The number of the node of the first kid that has the value.
fn find_kid(kids: &[Kid], x: u32) -> Option<usize>
    ensures tree { (trees : List (Plain ℕ)) → kid_at (kids_over trees kids.now) x ≡ option_map_or (λ n. slice_index_or trees n (cut 0 none)) result (cut 0 none) }
    ensures below { (n : ℕ) → AllByRecursion (λ k. k.node < n) kids.now → IfSome result (λ at. at < n) }
{
    for kid in kids {
        if kid.set.has(x) {
            return Some(kid.node as usize);
        }
    }
    None
}

// The number of the node that is left of node `at` at a value of a field; none where no kid has the
// value.
fn node_left(nodes: &[Node], at: usize, field: u8, x: u32) -> Option<usize>
    requires ordered { AreOrderedFrom 0 nodes.now }
    requires inside { at < length nodes.now }
    ensures tree { branch field (tree_of nodes.now at) x ≡ option_map_or (tree_of nodes.now) result (cut 0 none) }
    ensures inside { IfSome result (λ n. n < length nodes.now) }
{
    match &nodes[at] {
        Node::Leaf(_) => Some(at),
        Node::Cut(cut_field, kids) => {
            if *cut_field == field {
                find_kid(kids.as_slice(), x)
            } else {
                Some(at)
            }
        }
    }
}

// What node `at` holds if it is a leaf.
fn leaf_at(nodes: &[Node], at: usize) -> Option<u32>
    requires ordered { AreOrderedFrom 0 nodes.now }
    requires inside { at < length nodes.now }
    ensures { result ≡ leaf_of (tree_of nodes.now at) }
{
    match &nodes[at] {
        Node::Leaf(n) => Some(*n),
        Node::Cut(_, _) => None,
    }
}

/// The place of the leaf that the tree of node `root` has at the point, if it has one.
pub fn place_at(nodes: &[Node], root: usize, p: &[u32; 12]) -> Option<u32>
    requires ordered { AreOrderedFrom 0 nodes.now }
    requires inside { root < length nodes.now }
    ensures { result ≡ value (tree_of nodes.now root) p.now }
{
    let mut at = root;
    let mut field = 0;
    for x in p {
        at = node_left(nodes, at, field, *x)?;
        field += 1;
    }
    leaf_at(nodes, at)
}
