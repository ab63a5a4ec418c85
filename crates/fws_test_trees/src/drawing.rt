//! Tops, sides and rows that a seed gives.

ghost use Rattle.std.specs.Prelude.{◌≤◌, ◌<◌};

use crate::leaves::{Tag, tag};
use crate::random::Random;
use fws_box::{Point, no_sides};
use fws_iv::{Ivs, one};
use fws_num::Memory;
use fws_tree::Row;
use std::alloc::Global;

/// Tops of which three to five are from 1 to 3 and the others 0.
pub fn draw_tops(random: &mut Random) -> Point {
    let mut tops = [0; 12];
    let mut field = random.below(12);
    let fields = 3 + random.below(3);
    for _ in 0..fields {
        tops[(field % 12) as usize] = 1 + random.below(3);
        field = field.wrapping_add(5) % 12;
    }
    tops
}

/// A range whose ends may lie one past the top.
fn draw_range(random: &mut Random, top: u32) -> (u32, u32)
    ensures { result.0 ≤ result.1 }
{
    let end = top.saturating_add(2);
    let first = random.below(end);
    let second = random.below(end);
    (first.min(second), first.max(second))
}

/// A side: seldom empty, often the whole range, else one or two ranges.
fn draw_side(alloc: Global, random: &mut Random, top: u32) -> Result<Ivs, Memory> {
    let chance = random.below(32);
    if chance == 0 {
        return Ok(Ivs::none(alloc));
    }
    if top == 0 || chance < 10 {
        return one(alloc, 0, top);
    }
    let (lo, hi) = draw_range(random, top);
    let side = one(alloc, lo, hi)?;
    if chance < 24 {
        return Ok(side);
    }
    let (lo, hi) = draw_range(random, top);
    side.with_range(alloc, lo, hi)
}

/// A side for each field.
pub fn draw_sides(alloc: Global, random: &mut Random, tops: &Point) -> Result<[Ivs; 12], Memory> {
    let mut sides = no_sides(alloc);
    for field in 0..12 {
        sides[field] = draw_side(alloc, random, tops[field])?;
    }
    Ok(sides)
}

/// Up to twelve rows with one of so many leaves each.
pub fn draw_rows(
    alloc: Global,
    random: &mut Random,
    tops: &Point,
    leaves: u32,
) -> Result<Vec<Row<Tag>>, Memory>
    requires { 0 < leaves }
{
    let mut rows = Vec::new(alloc);
    let count = random.below(13);
    for _ in 0..count {
        let sides = draw_sides(alloc, random, tops)?;
        let leaf = tag(random.below(leaves));
        rows.push(Row { sides, leaf })?;
    }
    Ok(rows)
}
