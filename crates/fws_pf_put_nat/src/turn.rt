//! Where packets turn to.

use crate::path::Path;

/// A node of a tree to which packets turn.
#[derive(Clone, Copy, Drop)]
pub struct Turn {
    /// What is asked of them.
    pub path: Path,
    /// The number of the node.
    pub node: u32,
    /// Whether packets that get no end need no translation there, since they meet one further on.
    pub falls: bool,
}

/// What becomes of all that no test of a cut takes.
#[derive(Clone, Copy)]
pub enum Last {
    /// It turns to this node, as all packets do that get no end.
    Root(u32),
    /// It turns to this node.
    Kept(u32),
    /// There is nothing that no test takes.
    Nothing,
}
