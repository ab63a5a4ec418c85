//! What all translations of a list have in common.

use fws_net::{Outcome, Site};
use fws_tree::{Node, Tree};

/// For which packets a list of translations is made, and what they get.
#[derive(Clone, Copy)]
pub struct Plan<'a> {
    /// The site.
    pub site: &'a Site,
    /// What becomes of new packets.
    pub tree: &'a Tree<Outcome>,
    /// The leaves of the tree.
    pub leaves: &'a [Outcome],
    /// The nodes of the tree.
    pub nodes: &'a [Node],
    /// For each node the tag of the state of the filter that goes on as the node's tree does.
    pub states: &'a [u32],
    /// Whether the list is that of the out pass, for the host's own packets; else it is that of the in pass, for packets
    /// that arrive.
    pub outward: bool,
}
