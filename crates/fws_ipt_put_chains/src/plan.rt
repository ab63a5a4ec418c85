//! What all chains of a tree have in common.

use crate::verdict::Verdict;
use fws_ipt::IptTable;
use fws_net::Site;
use fws_tree::Tree;
use fws_tree_seen::Seen;

/// What all chains of a tree have in common.
#[derive(Clone, Copy)]
pub(crate) struct Plan<'a> {
    /// The site whose packets meet them.
    pub site: &'a Site,
    /// The tree.
    pub tree: &'a Tree<Verdict>,
    /// Their table.
    pub table: IptTable,
    /// What their names begin with.
    pub front: &'a [u8],
    /// What their rules see.
    pub seen: Seen,
    /// The least number of a chain that sets a mark.
    pub least: u32,
}
