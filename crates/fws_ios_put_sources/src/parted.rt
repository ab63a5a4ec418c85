//! Two sets of packets.

use fws_tree::Tree;

/// Two sets of packets, of which a list permits the one and denies the other.
#[derive(Drop)]
pub(crate) struct Parted {
    /// The packets that it permits.
    pub(crate) permitted: Tree<bool>,
    /// Those that it denies.
    pub(crate) denied: Tree<bool>,
}
