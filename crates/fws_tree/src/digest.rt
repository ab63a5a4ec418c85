//! A number for each cell, by which equal ones are found.

ghost use Rattle.std.specs.Prelude.{◌≡◌, ◌+◌, ◌*◌, ◌^◌};
ghost use Rattle.fws_tree.specs.Digest.{summed, stepped, digest};

use crate::store::{Cell, Step};

// The sum with one more word.
#[tactic(auto, unfolding(crate::specs::Digest::summed))]
fn summed(sum: u64, word: u64) -> u64
    ensures { result ≡ summed sum word }
{
    (sum.rotate_left(5) ^ word).wrapping_mul(0x517c_c1b7_2722_0a95)
}

// The step as one word.
fn word_of(step: Step) -> u64
    ensures { result ≡ step.hi * 2 ^ 32 + step.node }
{
    step.hi as u64 * 4_294_967_296 + step.node as u64
}

// The sum with the words of the steps.
fn stepped(sum: u64, steps: &[Step]) -> u64
    ensures { result ≡ stepped sum steps.now }
{
    let mut all = sum;
    for step in steps {
        all = summed(all, word_of(*step));
    }
    all
}

/// A number that is the same for equal cells, and mostly another for others.
pub(crate) fn digest(cell: &Cell) -> u64
    ensures { result ≡ digest cell.now }
{
    match cell {
        Cell::Leaf(value) => summed(0, *value as u64),
        Cell::Cut(field, steps, last) => {
            stepped(summed(*field as u64 + 1, *last as u64), steps.as_slice())
        }
    }
}
