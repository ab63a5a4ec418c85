//! Where packets turn to.

use fws_ios_put_entries::Path;

/// A node of a tree to which packets turn.
#[derive(Clone, Copy, Drop)]
pub struct Turn {
    /// What is asked of them.
    pub path: Path,
    /// The number of the node.
    pub node: u32,
    /// What packets get that no entry of the node decides on, if this is known.
    pub falls: Option<bool>,
}
