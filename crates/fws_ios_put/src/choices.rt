//! What packets that come in by an entry are permitted.

use fws_tree::Tree;

/// Which packets that come in by an entry are permitted. New ones that are lost anyway may be.
#[derive(Drop)]
pub(crate) struct Choices {
    /// New packets without ACK and RST.
    pub fresh: Tree<bool>,
    /// Those that are so in some connection.
    pub known: Tree<bool>,
    /// New packets of TCP with ACK or RST.
    pub acked_fresh: Tree<bool>,
    /// Those that are so in some connection.
    pub acked_known: Tree<bool>,
}
