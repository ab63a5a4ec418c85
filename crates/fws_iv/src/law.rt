//! Laws of sets.

ghost use Rattle.fws_iv.specs.Ivs.{SameMembersSameList, RangesAreRegular, RangesAddMembers, ManyRangesAddMembers};
ghost use Rattle.fws_iv.specs.Prefixes.{PrefixesAreApart};

/// Regular lists with the same members are equal. The call does nothing: its clause is the law.
pub fn same_members_same_list()
    ensures { SameMembersSameList }
{}

/// A further range keeps a list regular. The call does nothing: its clause is the law.
pub fn ranges_are_regular()
    ensures { RangesAreRegular }
{}

/// A further range adds its numbers. The call does nothing: its clause is the law.
pub fn ranges_add_members()
    ensures { RangesAddMembers }
{}

/// Ranges from the empty set on make a regular list of their numbers. The call does nothing: its clause is the law.
pub fn many_ranges_add_members()
    ensures { ManyRangesAddMembers }
{}

/// An address lies in one at most of prefixes that ascend. The call does nothing: its clause is the law.
pub fn prefixes_are_apart()
    ensures { PrefixesAreApart }
{}
