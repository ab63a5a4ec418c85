//! The leaves of rows by number, equal leaves stored once.

ghost use Rattle.std.specs.Prelude.{◌≡◌, Some, slice_get, length, IfOk, OnOk, All};
ghost use Rattle.fws_tree.specs.Building.{AreDifferent, AreNumbersOf, Extends};

use crate::arena::listed;
use crate::leaf::Leaf;
use crate::row::Row;
use fws_num::{Items, Memory};
use indexmap::IndexSet;
use std::alloc::Global;

/// Leaves, of which no two are equal, and where those of rows stand among them.
#[derive(Drop)]
pub(crate) struct Numbered<L: Leaf> {
    /// The leaves.
    pub(crate) leaves: Items<L>,
    /// The number of each row's leaf.
    pub(crate) numbers: Vec<u32>,
    /// The number of the leaf where no row is.
    pub(crate) rest: u32,
}

// Gives the number of the leaf, which is stored unless it is there.
pub(crate) fn number<L: Leaf>(leaves: &mut IndexSet<L>, leaf: L) -> Result<u32, Memory>
    ensures place { IfOk result (λ i. slice_get leaves.new.keys i ≡ Some leaf) }
    ensures extends { Extends leaves.old.keys leaves.new.keys }
    ensures different { AreDifferent leaves.new.keys }
{
    let (place, _) = leaves.insert_full(leaf)?;
    match u32::try_from(place) {
        Ok(number) => Ok(number),
        Err(_) => Err(Memory),
    }
}

// The row's leaf, copied. A row has a side for each field.
fn leaf_of<L: Leaf>(alloc: Global, row: &Row<L>) -> Result<L, Memory>
    ensures leaf { IfOk result (λ x. x ≡ row.now.leaf) }
    ensures sides { length row.now.sides ≡ 12 }
{
    let sides = &row.sides[..];
    prove_eq!(sides.len(), 12);
    row.leaf.copy(alloc)
}

// The numbers of the rows' leaves, which are put behind the others unless they are there.
fn number_rows<L: Leaf>(
    alloc: Global,
    leaves: &mut IndexSet<L>,
    rows: &[Row<L>],
) -> Result<Vec<u32>, Memory>
    ensures sides { OnOk result (All (λ r. length r.sides ≡ 12) rows.now) }
    ensures extends { OnOk result (Extends leaves.old.keys leaves.new.keys) }
    ensures different { OnOk result (AreDifferent leaves.old.keys → AreDifferent leaves.new.keys) }
    ensures numbers { IfOk result (λ ns. AreNumbersOf leaves.new.keys ns.items rows.now) }
{
    let mut numbers = Vec::new(alloc);
    for row in rows {
        let leaf = leaf_of(alloc, row)?;
        numbers.push(number(leaves, leaf)?)?;
    }
    Ok(numbers)
}

// The numbers of the rows' leaves and of the one elsewhere, which are put behind the others unless they are there.
fn number_all<L: Leaf>(
    alloc: Global,
    leaves: &mut IndexSet<L>,
    rows: &[Row<L>],
    rest: L,
) -> Result<(Vec<u32>, u32), Memory>
    ensures sides { OnOk result (All (λ r. length r.sides ≡ 12) rows.now) }
    ensures different { OnOk result (AreDifferent leaves.new.keys) }
    ensures numbers { IfOk result (λ r. AreNumbersOf leaves.new.keys r.0.items rows.now) }
    ensures rest { IfOk result (λ r. slice_get leaves.new.keys r.1 ≡ Some rest) }
{
    let rest = number(leaves, rest)?;
    let numbers = number_rows(alloc, leaves, rows)?;
    Ok((numbers, rest))
}

/// The leaves of the rows and the one elsewhere, by number.
pub(crate) fn number_leaves<L: Leaf>(
    alloc: Global,
    rows: &[Row<L>],
    rest: L,
) -> Result<Numbered<L>, Memory>
    ensures sides { OnOk result (All (λ r. length r.sides ≡ 12) rows.now) }
    ensures different { IfOk result (λ r. AreDifferent r.leaves) }
    ensures numbers { IfOk result (λ r. AreNumbersOf r.leaves r.numbers.items rows.now) }
    ensures rest { IfOk result (λ r. slice_get r.leaves r.rest ≡ Some rest) }
{
    let mut leaves = IndexSet::new(alloc);
    let (numbers, rest) = number_all(alloc, &mut leaves, rows, rest)?;
    let leaves = listed(alloc, leaves)?;
    Ok(Numbered {
        leaves,
        numbers,
        rest,
    })
}
