//! One cell over another.

use crate::merge::Merging;
use crate::store::{Cell, Store};
use fws_num::Memory;

/// The first cell over the second: the second shows where the first is 0.
#[derive(Clone, Copy)]
pub(crate) struct Over;

impl Merging for Over {
    ghost use Rattle.std.specs.Prelude.{◌≡◌};
    ghost use Rattle.fws_tree.specs.Held.{over_leaf};

    ghost gives = { λ s a b c. c ≡ over_leaf a b };

    ghost sound = { λ s. Unit {0} };

    ghost later = { λ s t. Unit {0} };

    fn early(&mut self, store: &mut Store, a: u32, b: u32) -> Result<Option<u32>, Memory> {
        match store.cell(a) {
            Cell::Leaf(n) => Ok(Some(if *n == 0 { b } else { a })),
            Cell::Cut(_, _, _) => Ok(None),
        }
    }

    ghost same = { λ s. tt };

    ghost then = { λ s t u e f. tt };

    ghost kept = { λ s t e x y z g. g };
}
