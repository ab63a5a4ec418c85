//! The nodes of a tree, by number.

use fws_iv::Ivs;
use fws_num::Items;

/// A node: it names earlier nodes alone.
#[derive(PartialEq, Eq, Hash, Drop)]
pub enum Node {
    /// A leaf, with the place of its value among the tree's leaves.
    Leaf(u32),
    /// A cut of a field, by its number from 0 to 11, into two or more sets of values.
    Cut(u8, Items<Kid>),
}

/// A set of a field's values, and the number of the node for them.
#[derive(PartialEq, Eq, Hash, Drop)]
pub struct Kid {
    /// The values.
    pub set: Ivs,
    /// The number of the node.
    pub node: u32,
}
