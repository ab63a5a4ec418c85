//! And, or, not and without, of trees.

ghost use Rattle.std.specs.Prelude.{◌≡◌, ◌&&◌, ◌||◌, not, IfOk};
ghost use Rattle.fws_truth.specs.Truths.{AreJoined, IsNegated};

use fws_num::Memory;
use fws_tree::{Relabelling, Tree};
use std::alloc::Global;

/// The other truth value.
struct Not;

impl Relabelling<bool, bool> for Not {
    ghost use Rattle.std.specs.Prelude.{not};

    ghost gives = { λ s leaf. not leaf };

    fn leaf(&self, _alloc: Global, leaf: &bool) -> Result<bool, Memory> {
        Ok(!*leaf)
    }
}

/// Whether both truth values are true.
struct And;

impl Relabelling<(bool, bool), bool> for And {
    ghost use Rattle.std.specs.Prelude.{◌&&◌};

    ghost gives = { λ s leaf. leaf.0 && leaf.1 };

    fn leaf(&self, _alloc: Global, leaf: &(bool, bool)) -> Result<bool, Memory> {
        Ok(leaf.0 && leaf.1)
    }
}

/// Whether one of two truth values is true.
struct Or;

impl Relabelling<(bool, bool), bool> for Or {
    ghost use Rattle.std.specs.Prelude.{◌||◌};

    ghost gives = { λ s leaf. leaf.0 || leaf.1 };

    fn leaf(&self, _alloc: Global, leaf: &(bool, bool)) -> Result<bool, Memory> {
        Ok(leaf.0 || leaf.1)
    }
}

/// Whether the first truth value is true and the second one isn't.
struct AndNot;

impl Relabelling<(bool, bool), bool> for AndNot {
    ghost use Rattle.std.specs.Prelude.{◌&&◌, not};

    ghost gives = { λ s leaf. leaf.0 && not leaf.1 };

    fn leaf(&self, _alloc: Global, leaf: &(bool, bool)) -> Result<bool, Memory> {
        Ok(leaf.0 && !leaf.1)
    }
}

/// The tree that is true where this one is false. Fails if memory runs out, here and in all of this crate.
pub fn negated(alloc: Global, tree: &Tree<bool>) -> Result<Tree<bool>, Memory>
    ensures tops { IfOk result (λ t. t.0 ≡ tree.now.0) }
    ensures value { IfOk result (λ t. IsNegated tree.now.0 tree.now.1 t.1) }
{
    tree.relabel(alloc, &Not)
}

/// The tree that is true where both are.
pub fn both(alloc: Global, first: &Tree<bool>, second: &Tree<bool>) -> Result<Tree<bool>, Memory>
    requires { second.now.0 ≡ first.now.0 }
    ensures tops { IfOk result (λ t. t.0 ≡ first.now.0) }
    ensures value { IfOk result (λ t. AreJoined (λ a b. a && b) first.now.0 first.now.1 second.now.1 t.1) }
{
    let pairs = first.pair(alloc, second)?;
    pairs.relabel(alloc, &And)
}

/// The tree that is true where one of both is.
pub fn either(alloc: Global, first: &Tree<bool>, second: &Tree<bool>) -> Result<Tree<bool>, Memory>
    requires { second.now.0 ≡ first.now.0 }
    ensures tops { IfOk result (λ t. t.0 ≡ first.now.0) }
    ensures value { IfOk result (λ t. AreJoined (λ a b. a || b) first.now.0 first.now.1 second.now.1 t.1) }
{
    let pairs = first.pair(alloc, second)?;
    pairs.relabel(alloc, &Or)
}

/// The tree that is true where the first one is and the second one isn't.
pub fn without(alloc: Global, first: &Tree<bool>, second: &Tree<bool>) -> Result<Tree<bool>, Memory>
    requires { second.now.0 ≡ first.now.0 }
    ensures tops { IfOk result (λ t. t.0 ≡ first.now.0) }
    ensures value { IfOk result (λ t. AreJoined (λ a b. a && not b) first.now.0 first.now.1 second.now.1 t.1) }
{
    let pairs = first.pair(alloc, second)?;
    pairs.relabel(alloc, &AndNot)
}
