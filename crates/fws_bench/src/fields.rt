//! Rows that each have cuts of their own in four fields.

ghost use Rattle.std.specs.Prelude.{◌<◌, ◌≤◌};

use crate::MOST;
use crate::tops::TOPS;
use fws_box::whole_sides;
use fws_iv::{Ivs, one};
use fws_num::Memory;
use fws_tree::{Row, Tree, from_rows};
use std::alloc::Global;

/// Sets the sides of four fields to addresses and ports of their own.
fn set_sides(alloc: Global, sides: &mut [Ivs; 12], k: u32) -> Result<(), Memory>
    requires { k < MOST }
{
    sides[2] = one(alloc, 1000 * k, 1000 * k + 499)?;
    sides[3] = one(alloc, 16 * k, 16 * k + 7)?;
    sides[4] = one(alloc, 1000 * k + 250, 1000 * k + 749)?;
    sides[5] = one(alloc, 16 * k + 4, 16 * k + 11)?;
    Ok(())
}

/// A row with addresses and ports of its own.
fn make_row(alloc: Global, k: u32) -> Result<Row<bool>, Memory>
    requires { k < MOST }
{
    let mut sides = whole_sides(alloc, &TOPS)?;
    set_sides(alloc, &mut sides, k)?;
    Ok(Row { sides, leaf: true })
}

/// So many rows.
fn make_rows(alloc: Global, n: u32) -> Result<Vec<Row<bool>>, Memory>
    requires { n ≤ MOST }
{
    let mut rows = Vec::new(alloc);
    for k in 0..n {
        rows.push(make_row(alloc, k)?)?;
    }
    Ok(rows)
}

/// The tree of so many rows.
fn tree_of(alloc: Global, n: u32) -> Result<Tree<bool>, Memory>
    requires { n ≤ MOST }
{
    let rows = make_rows(alloc, n)?;
    from_rows(alloc, &TOPS, rows.as_slice(), false)
}

/// How many paths a tree has.
fn paths_of(alloc: Global, tree: &Tree<bool>) -> Result<usize, Memory> {
    let paths = tree.paths(alloc)?;
    Ok(paths.len())
}

/// How many paths the tree of `n` rows has.
pub fn count_paths(alloc: Global, n: u32) -> Result<usize, Memory>
    requires { n ≤ MOST }
{
    let tree = tree_of(alloc, n)?;
    paths_of(alloc, &tree)
}
