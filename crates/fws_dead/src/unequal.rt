//! Where two trees aren't equal.

ghost use Rattle.std.specs.Prelude.{◌≡◌, ℕ, List, IfOk};
ghost use Rattle.fws_box.specs.Sides.{IsWithin};
ghost use Rattle.fws_dead.specs.Unequal.{IsUnequal};
ghost use Rattle.fws_tree.specs.Plain.{value};

use fws_num::Memory;
use fws_tree::{Leaf, Relabelling, Tree};
use std::alloc::Global;

/// Pairs of leaves that aren't equal.
#[derive(Drop)]
struct Unequal;

impl<L: Leaf> Relabelling<(L, L), Option<(L, L)>> for Unequal {
    ghost use Rattle.std.specs.Prelude.{if◌then◌else◌, Some, None};

    ghost gives = { λ s x. (if L.PartialEq.eq x.0 x.1 then None else Some x) };

    fn leaf(&self, alloc: Global, leaf: &(L, L)) -> Result<Option<(L, L)>, Memory> {
        if leaf.0 == leaf.1 {
            return Ok(None);
        }
        Ok(Some(leaf.copy(alloc)?))
    }
}

/// The tree of the leaves that two trees have where these aren't equal. Fails if memory runs out. The time grows with the pairs of
/// nodes that meet; where the trees are equal everywhere the result is one leaf.
pub(crate) fn unequal_leaves<L: Leaf>(
    alloc: Global,
    first: &Tree<L>,
    second: &Tree<L>,
) -> Result<Tree<Option<(L, L)>>, Memory>
    requires { second.now.0 ≡ first.now.0 }
    ensures tops { IfOk result (λ t. t.0 ≡ first.now.0) }
    ensures value { IfOk result (λ t. (p : List ℕ) → IsWithin first.now.0 p → IsUnequal (value first.now.1 p) (value second.now.1 p) (value t.1 p)) }
{
    let both = first.pair(alloc, second)?;
    let apart = both.relabel(alloc, &Unequal)?;
    Ok(apart)
}
