//! What all translations of a list have in common.

use crate::ends::Ends;
use fws_net::{Outcome, Site};
use fws_tree::{Node, Tree};

/// What all translations of a list have in common.
#[derive(Clone, Copy)]
pub(crate) struct Sheet<'a> {
    /// The site.
    pub site: &'a Site,
    /// What becomes of new packets.
    pub tree: &'a Tree<Outcome>,
    /// The leaves of the tree.
    pub leaves: &'a [Outcome],
    /// The nodes of the tree.
    pub nodes: &'a [Node],
    /// For each node the tag of its state.
    pub states: &'a [u32],
    /// Whether the list is that of the out pass.
    pub outward: bool,
    /// For each node the ends that its packets get.
    pub ends: &'a [Ends],
    /// The node at which packets begin.
    pub start: usize,
}
