//! Rows that each test one of four fields, so that the paths of their tree are as many as the product of their numbers.

ghost use Rattle.std.specs.Prelude.{◌<◌, ◌≤◌};

use crate::MOST;
use crate::tops::TOPS;
use fws_box::whole_sides;
use fws_iv::{Ivs, one};
use fws_num::Memory;
use fws_tree::{Row, from_rows};
use std::alloc::Global;

/// The side of the row with this number in the field that it tests: addresses or ports of its own.
fn tested_side(alloc: Global, k: u32) -> Result<Ivs, Memory>
    requires { k < MOST }
{
    let own = k / 4;
    if k % 2 == 0 {
        one(alloc, 1000 * own, 1000 * own + 499)
    } else {
        one(alloc, 16 * own, 16 * own + 7)
    }
}

/// A number that looks random, by a multiplication.
pub fn scattered(k: u32) -> u32 {
    k.wrapping_add(1).wrapping_mul(2_654_435_761) >> 8
}

/// Sets the side of the field that the row with this number tests.
fn set_tested(alloc: Global, sides: &mut [Ivs; 12], k: u32) -> Result<(), Memory>
    requires { k < MOST }
{
    sides[(2 + k % 4) as usize] = tested_side(alloc, k)?;
    Ok(())
}

/// A row that tests a destination, its port, a source or its port, each in turn.
fn make_row(alloc: Global, k: u32) -> Result<Row<bool>, Memory>
    requires { k < MOST }
{
    let mut sides = whole_sides(alloc, &TOPS)?;
    set_tested(alloc, &mut sides, k)?;
    Ok(Row {
        sides,
        leaf: scattered(k) % 2 == 0,
    })
}

/// So many rows.
fn make_rows(alloc: Global, n: u32) -> Result<Vec<Row<bool>>, Memory>
    requires { n ≤ MOST }
{
    let mut rows = Vec::new(alloc);
    for k in 0..n {
        rows.push(make_row(alloc, k)?)?;
    }
    Ok(rows)
}

/// How many nodes the tree of `n` rows has.
pub fn count_nodes(alloc: Global, n: u32) -> Result<usize, Memory>
    requires { n ≤ MOST }
{
    let rows = make_rows(alloc, n)?;
    let tree = from_rows(alloc, &TOPS, rows.as_slice(), false)?;
    Ok(tree.nodes())
}
