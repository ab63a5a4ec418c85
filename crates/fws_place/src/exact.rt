//! Sets of values that are compared exactly.

ghost use Rattle.std.specs.Prelude.{◌≡◌, OnOk};
ghost use Rattle.fws_place.specs.Exactly.{IsPut};

use crate::redirect::Redirect;
use fws_num::Memory;
use fws_tree::Leaf;
use indexmap::IndexSet;
use std::alloc::Global;
use std::hash::Hash;

/// A value that equals no other one than itself.
pub(crate) trait Exact: Eq + Hash + Drop {
    ghost use Rattle.std.specs.Prelude.{◌≡◌, true};

    // What `==` holds equal is equal.
    ghost exact: { (x y : Self) → Self.PartialEq.eq x y ≡ true → x ≡ y };
}

impl Exact for Redirect {
    ghost use Rattle.fws_tree.specs.OutcomeEquality.{end_exact};
    ghost use Rattle.fws_place.specs.Exactly.{pair_exact, public_exact, redirect_exact};

    ghost exact = { redirect_exact _ end_exact _ (public_exact _ pair_exact) };
}

/// Puts the value behind the others, unless it is there. Fails if memory runs out.
pub(crate) fn put_new<T: Exact>(kept: &mut IndexSet<T>, value: T) -> Result<(), Memory>
    ensures { OnOk result (IsPut kept.old.keys kept.new.keys value) }
{
    kept.insert(value)?;
    Ok(())
}

/// Puts the leaf behind the others, unless it is there. Fails if memory runs out.
pub(crate) fn put_leaf<L: Leaf>(
    alloc: Global,
    kept: &mut IndexSet<L>,
    leaf: &L,
) -> Result<(), Memory>
    ensures { OnOk result (IsPut kept.old.keys kept.new.keys leaf.now) }
{
    kept.insert(leaf.copy(alloc)?)?;
    Ok(())
}
