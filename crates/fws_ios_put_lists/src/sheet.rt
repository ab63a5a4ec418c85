//! What all entries of a list have in common.

use fws_tree::{Node, Tree};

/// What all entries of a list have in common.
#[derive(Clone, Copy)]
pub(crate) struct Sheet<'a> {
    /// Where packets are permitted.
    pub tree: &'a Tree<bool>,
    /// The leaves of the tree.
    pub leaves: &'a [bool],
    /// The nodes of the tree.
    pub nodes: &'a [Node],
    /// How many entries each node takes.
    pub sizes: &'a [usize],
    /// Whether state is kept of permitted packets.
    pub keep: bool,
}
