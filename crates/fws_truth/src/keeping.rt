//! Trees where the value of a field lies in a set.

ghost use Rattle.std.specs.Prelude.{◌≡◌, IfOk};
ghost use Rattle.fws_box.specs.Fields.{place_of};
ghost use Rattle.fws_truth.specs.Truths.{IsKeptIn};

use fws_box::{Field, whole_sides};
use fws_iv::Ivs;
use fws_num::Memory;
use fws_tree::{Leaf, Tree};
use std::alloc::Global;

/// The tree whose value is this one's where the value of the field is a member, and `off` elsewhere.
pub fn kept_in<L: Leaf>(
    alloc: Global,
    tree: &Tree<L>,
    field: Field,
    set: Ivs,
    off: L,
) -> Result<Tree<L>, Memory>
    ensures tops { IfOk result (λ t. t.0 ≡ tree.now.0) }
    ensures value { IfOk result (λ t. IsKeptIn (place_of field) set off tree.now.0 tree.now.1 t.1) }
{
    let mut sides = whole_sides(alloc, tree.tops())?;
    sides[field.place()] = set;
    tree.restrict(alloc, &sides, off)
}
