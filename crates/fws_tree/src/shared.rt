//! A tree as it is kept.

use crate::node::Node;

/// The leaves and the nodes of a tree. Each node stands for a subtree, different nodes for different
/// ones, and the last one for the whole tree. A node names earlier ones alone, and each leaf is named
/// by one node.
#[derive(Drop)]
pub struct Shared<'a, L> {
    /// The leaves.
    pub leaves: &'a [L],
    /// The nodes.
    pub nodes: &'a [Node],
}
