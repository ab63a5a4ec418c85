//! Leaves of truth values, of a leaf or none, and of pairs.

ghost use Rattle.std.specs.Prelude.{◌≡◌, true, ◌↔◌, IsTrue, IfOk};
ghost use Rattle.std.proofs.lemmas.Bool.{and_parts};
ghost use Rattle.fws_tree.specs.LeafEquality.{bool_exact, option_exact};

use crate::leaf::Leaf;
use fws_num::Memory;
use std::alloc::Global;

impl Leaf for bool {
    fn same(&self, other: &Self) -> bool {
        *self == *other
    }

    fn copy(&self, _alloc: Global) -> Result<Self, Memory> {
        Ok(*self)
    }

    ghost exact = { bool_exact };
}

impl<L: Leaf> Leaf for Option<L> {
    fn same(&self, other: &Self) -> bool {
        match (self, other) {
            (Some(x), Some(y)) => x.same(y),
            (None, None) => true,
            _ => false,
        }
    }

    fn copy(&self, alloc: Global) -> Result<Self, Memory> {
        match self {
            Some(x) => Ok(Some(x.copy(alloc)?)),
            None => Ok(None),
        }
    }

    ghost exact = { option_exact L.PartialEq.eq L.exact };
}

impl<L: Leaf, M: Leaf> Leaf for (L, M) {
    fn same(&self, other: &Self) -> bool {
        self.0.same(&other.0) && self.1.same(&other.1)
    }

    fn copy(&self, alloc: Global) -> Result<Self, Memory> {
        let first = self.0.copy(alloc)?;
        let second = self.1.copy(alloc)?;
        Ok((first, second))
    }

    ghost exact = { λ x y h. let both = and_parts (L.PartialEq.eq x.0 y.0) (M.PartialEq.eq x.1 y.1) h in λ i. (L.exact x.0 y.0 both.0 i, M.exact x.1 y.1 both.1 i) };
}
