//! Rows that hold something, counted and handed on.

use fws_iv::Ivs;
use fws_net::Outcome;
use fws_num::Memory;
use fws_tree::TakesRows;

/// How many rows were taken.
#[derive(Drop)]
pub(crate) struct Count {
    /// The number.
    pub(crate) count: u64,
}

impl TakesRows<Outcome> for Count {
    ghost use Rattle.std.specs.Prelude.{◌≡◌, ◌+◌, length};
    ghost use Rattle.fws_table.specs.MoreLines.{none_counted, counted_behind};

    ghost took = { λ s t rows. t.count ≡ s.count + length rows };

    fn take(&mut self, _sides: &[Ivs; 12], _leaf: &Outcome) -> Result<(), Memory> {
        match self.count.checked_add(1) {
            Some(count) => {
                self.count = count;
                Ok(())
            }
            None => Err(Memory),
        }
    }

    ghost same = { λ s. none_counted s.count };

    ghost then = { λ s t u xs ys e f. counted_behind s.count t.count u.count xs ys e f };
}

/// What takes the rows that hold something.
#[derive(Drop)]
pub(crate) struct Held<T> {
    /// What takes these rows, with what they hold.
    pub(crate) by: T,
}

impl<T: TakesRows<Outcome>> TakesRows<Option<Outcome>> for Held<T> {
    ghost use Rattle.std.proofs.Common.{subst, sym};
    ghost use Rattle.fws_table.specs.QueryText.{held_rows};
    ghost use Rattle.fws_table.specs.MoreLines.{held_behind};

    ghost took = { λ s t rows. T.took s.by t.by (held_rows rows) };

    fn take(&mut self, sides: &[Ivs; 12], leaf: &Option<Outcome>) -> Result<(), Memory> {
        match leaf {
            Some(outcome) => self.by.take(sides, outcome),
            None => Ok(()),
        }
    }

    ghost same = { λ s. T.same s.by };

    ghost then = { λ s t u xs ys e f. subst (T.took s.by u.by) (sym (held_behind xs ys)) (T.then s.by t.by u.by (held_rows xs) (held_rows ys) e f) };
}
