//! One value in place of others, where a mark says so.

use crate::merge::Merging;
use crate::store::{Cell, Store};
use fws_num::Memory;

/// One value where the second cell isn't 0, or where it is; the first cell elsewhere.
#[derive(Clone, Copy)]
pub(crate) struct Replace {
    /// The value.
    pub(crate) value: u32,
    /// Whether it stands where the second cell isn't 0.
    pub(crate) marked: bool,
}

impl Merging for Replace {
    ghost use Rattle.std.specs.Prelude.{◌≡◌};
    ghost use Rattle.fws_tree.specs.Changed.{replaced};

    ghost gives = { λ s x y z. z ≡ replaced s.marked s.value x y };

    ghost sound = { λ s. Unit {0} };

    ghost later = { λ s t. s ≡ t };

    fn early(&mut self, store: &mut Store, a: u32, b: u32) -> Result<Option<u32>, Memory> {
        let marked = match store.cell(b) {
            Cell::Leaf(n) => *n != 0,
            Cell::Cut(_, _, _) => return Ok(None),
        };
        if marked != self.marked {
            return Ok(Some(a));
        }
        let cell = store.intern(Cell::Leaf(self.value))?;
        Ok(Some(cell))
    }

    ghost use Rattle.std.specs.Prelude.{refl};
    ghost use Rattle.std.proofs.Common.{◌∙◌};
    ghost use Rattle.fws_tree.specs.Changed.{replaced_later};

    ghost same = { λ s. refl };

    ghost then = { λ s t u e f. e ∙ f };

    ghost kept = { λ s t e x y z g. replaced_later s t e x y z g };
}
