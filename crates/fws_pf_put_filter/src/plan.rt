//! What is placed.

use fws_net::{Outcome, Site};
use fws_tree::{Node, Tree};

/// A tree of new packets with its nodes and their states.
#[derive(Clone, Copy)]
pub struct Plan<'a> {
    /// The site whose packets these are.
    pub site: &'a Site,
    /// The tree.
    pub tree: &'a Tree<Outcome>,
    /// The leaves of the tree.
    pub leaves: &'a [Outcome],
    /// The nodes of the tree.
    pub nodes: &'a [Node],
    /// The state of each node.
    pub states: &'a [u32],
}
