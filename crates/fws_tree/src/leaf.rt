//! What a leaf of a tree may hold.

ghost use Rattle.std.specs.Prelude.{◌≡◌, true, ◌↔◌, IsTrue, IfOk};

use fws_num::Memory;
use std::alloc::Global;
use std::hash::Hash;

/// A value that a leaf may hold: it is compared, ordered, hashed and copied exactly.
pub trait Leaf: Eq + Ord + Hash + Drop {
    /// Whether the two are equal.
    fn same(&self, other: &Self) -> bool
        ensures { IsTrue result ↔ (self.now ≡ other.now) };

    /// An equal value.
    fn copy(&self, alloc: Global) -> Result<Self, Memory>
        ensures { IfOk result (λ x. x ≡ self.now) };

    // What `==` holds equal is equal.
    ghost exact: { (x y : Self) → Self.PartialEq.eq x y ≡ true → x ≡ y };
}
