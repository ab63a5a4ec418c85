//! What a configuration makes of packets, as trees.

use crate::tree::Tree;
use fws_net::Outcome;

/// The outcomes for packets of new connections, and those for packets of established ones.
#[derive(Drop)]
pub struct Tables {
    /// By the packet alone: in regular tables the last four fields are never cut.
    pub fresh: Tree<Outcome>,
    /// By the packet and by the ends with which its connection sends it.
    pub est: Tree<Outcome>,
}
