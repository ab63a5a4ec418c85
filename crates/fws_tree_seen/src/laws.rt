//! Laws of what rules see.

ghost use Rattle.fws_tree_seen.specs.SightLaws.{LeftSetsAreOpen, OpenKidsAreReached, ReachedValuesAreTold, RelabelledTreesAreTold, SeenFieldsAgree, SeenPointsAreTopped, UnseenFieldsAreOpen};

/// What a packet reaches through open kids is the value at each point as which it is seen, where rules
/// can tell the values. The call does nothing: its contract is the law.
pub fn reached_values_are_told<L: Drop>()
    ensures { ReachedValuesAreTold L }
{}

/// What is seen as a point within the tops lies up to them. The call does nothing: its contract is the
/// law.
pub fn seen_points_are_topped()
    ensures { SeenPointsAreTopped }
{}

/// A field of a point and the packet's field that is seen in its place agree: in the protocols that have
/// them, in their greatest values, and in what is seen. The call does nothing: its contract is the law.
pub fn seen_fields_agree()
    ensures { SeenFieldsAgree }
{}

/// Where nothing is seen in place of a field, each of its sets is open. The call does nothing: its
/// contract is the law.
pub fn unseen_fields_are_open()
    ensures { UnseenFieldsAreOpen }
{}

/// Among sets that part the values of a field, the one that is left is open to a packet that hits none
/// of the others. The call does nothing: its contract is the law.
pub fn left_sets_are_open()
    ensures { LeftSetsAreOpen }
{}

/// What is reached by an open kid, or by fewer kids, is reached by all. The call does nothing: its
/// contract is the law.
pub fn open_kids_are_reached<L: Drop>()
    ensures { OpenKidsAreReached L }
{}

/// Where rules can tell the values of a tree, they can tell their images under a function. The call
/// does nothing: its contract is the law.
pub fn relabelled_trees_are_told<L: Drop, M: Drop>()
    ensures { RelabelledTreesAreTold L M }
{}
