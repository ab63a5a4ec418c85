//! Where packets turn to.

use fws_net::Lit;

/// A node of a tree to which the packets turn for which a literal holds. Without one all do.
#[derive(Drop)]
pub struct Turn {
    /// The literal.
    pub lit: Option<Lit>,
    /// The number of the node.
    pub node: u32,
}
