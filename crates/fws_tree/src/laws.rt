//! Laws of reduced trees.

ghost use Rattle.fws_tree.specs.Plain.{OneReducedTree, HasValues};

use fws_iv::same_members_same_list;

/// Two reduced trees over the same tops with the same value at each point are equal. The call does
/// nothing: its contract is the law.
pub fn one_reduced_tree<L: Drop>()
    ensures { OneReducedTree L }
{
    same_members_same_list();
}

/// A reduced tree has a value at each point within its tops. The call does nothing: its contract is
/// the law.
pub fn has_values<L: Drop>()
    ensures { HasValues L }
{}
