//! Sets of paths.

ghost use Rattle.std.specs.Prelude.{◌≡◌, OnOk};
ghost use Rattle.fws_ios_put_cover.specs.Exactly.{IsPut};

use fws_ios_put_entries::Path;
use fws_num::Memory;
use indexmap::IndexSet;
use std::hash::Hash;

/// A value that equals no other one than itself.
pub(crate) trait Exact: Eq + Hash + Drop {
    ghost use Rattle.std.specs.Prelude.{◌≡◌, true};

    // What `==` holds equal is equal.
    ghost exact: { (x y : Self) → Self.PartialEq.eq x y ≡ true → x ≡ y };
}

impl Exact for Path {
    ghost use Rattle.fws_ios_put_cover.specs.Exactly.{iv_exact, path_exact, prefix_exact};

    ghost exact = { path_exact _ prefix_exact _ iv_exact };
}

/// Puts the value behind the others, unless it is there. Fails if memory runs out.
pub(crate) fn put_new<T: Exact>(kept: &mut IndexSet<T>, value: T) -> Result<(), Memory>
    ensures { OnOk result (IsPut kept.old.keys kept.new.keys value) }
{
    kept.insert(value)?;
    Ok(())
}
