//! The rule of a recolouring.

use crate::values::Values;
use fws_num::Memory;

/// What a value becomes where it meets a label. A rule may change itself while a recolouring asks it; `later` says what
/// stays of it through the whole recolouring, so that whoever recolours knows it afterwards.
pub trait Moves {
    ghost use Rattle.std.specs.Prelude.{ℕ, IfOk};
    ghost use Rattle.fws_tree.specs.Building.{Extends};
    ghost use Rattle.fws_tree.specs.Recoloured.{StaysMoved};

    // The value that a value becomes at a label.
    ghost moves: { Self → ℕ → ℕ → ℕ → Type 0 };

    // The second is the first at a later time of a recolouring.
    ghost later: { Self → Self → Type 0 };

    /// The value that `value` becomes at the label, which is at least 1. It may be a new one. It is asked only where the value
    /// meets the label, once for each pair in a recolouring. Fails if memory runs out.
    fn moved(&mut self, values: &mut Values, value: u32, label: u32) -> Result<u32, Memory>
        ensures moved { IfOk result (λ r. moves self.new value label r) }
        ensures kept { StaysMoved (moves self.old) (moves self.new) }
        ensures later { later self.old self.new }
        ensures values { Extends values.old values.new };

    ghost same: { (s : Self) → later s s };

    ghost then: { (s t u : Self) → later s t → later t u → later s u };
}
