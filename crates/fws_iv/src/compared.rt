//! Equality and hashes of sets: those of their intervals in order.

ghost use Rattle.std.specs.Cmp.Lexicographic.{pointwise, lists_per, lists_equiv};
ghost use Rattle.std.specs.Cmp.Rules.{comparing, hashing};
ghost use Rattle.std.specs.Hash as fed;
ghost use Rattle.std.specs.Hash.{items_Alike};
ghost use Rattle.std.proofs.Common.{rules};

use crate::iv::Iv;
use crate::ivs::Ivs;
use std::hash::{Hash, Hasher};

impl PartialEq for Ivs {
    ghost eq = { λ a b. pointwise ⟦<Iv as PartialEq>⟧.eq a b };

    ghost laws = { lists_per (Prim.search (comparing, rules)) };

    fn eq(&self, other: &Ivs) -> bool {
        self.parts() == other.parts()
    }
}

impl Eq for Ivs {
    ghost laws = { lists_equiv (Prim.search (comparing, rules)) };
}

impl Hash for Ivs {
    ghost hash_input = { λ a. fed.slice ⟦<Iv as Hash>⟧.hash_input a };

    ghost respects_eq = { (items_Alike {F = ⟦<Iv as Hash>⟧.hash_input} (record { fed = Prim.search (hashing, rules) })).fed };

    fn hash<H: Hasher>(&self, state: &mut H) {
        self.parts().hash(state);
    }
}
