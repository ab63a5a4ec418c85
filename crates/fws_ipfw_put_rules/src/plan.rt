//! What all rules of a list have in common.

use crate::choice::{Choice, Section};
use fws_net::Site;
use fws_tree::{Node, Tree};

/// What all rules of a list have in common.
#[derive(Clone, Copy)]
pub(crate) struct Plan<'a> {
    /// The site whose packets meet them.
    pub site: &'a Site,
    /// The tree.
    pub tree: &'a Tree<Choice>,
    /// Where they stand.
    pub section: &'a Section,
    /// The leaves of the tree.
    pub leaves: &'a [Choice],
    /// The nodes of the tree.
    pub nodes: &'a [Node],
}
