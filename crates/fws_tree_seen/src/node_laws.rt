//! Laws of the nodes of a tree.

ghost use Rattle.fws_tree_seen.specs.NodeLaws.{CutNodesPartValues, KidsStandBefore, LeafNodesAreLeaves};

/// The kids of a node stand before it. The call does nothing: its contract is the law.
pub fn kids_stand_before()
    ensures { KidsStandBefore }
{}

/// The tree of a leaf's node is the leaf. The call does nothing: its contract is the law.
pub fn leaf_nodes_are_leaves<L: Drop>()
    ensures { LeafNodesAreLeaves L }
{}

/// The tree of a cut's node is the cut over the trees of its kids, whose sets part the values of its
/// field. The call does nothing: its contract is the law.
pub fn cut_nodes_part_values<L: Drop>()
    ensures { CutNodesPartValues L }
{}
