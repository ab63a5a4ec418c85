//! What rows say of points, tried one by one.

use crate::leaves::Tag;
use crate::points::{count_points, point_at};
use fws_box::Point;
use fws_iv::Ivs;
use fws_num::Memory;
use fws_tree::Row;
use std::alloc::Global;

/// Whether a point lies in all of the sides.
pub fn holds(sides: &[Ivs; 12], point: &Point) -> bool {
    for field in 0..12 {
        if !sides[field].has(point[field]) {
            return false;
        }
    }
    true
}

/// The leaf of the first row that holds the point, else the rest.
pub fn first_leaf(rows: &[Row<Tag>], rest: Tag, point: &Point) -> Tag {
    for row in rows {
        if holds(&row.sides, point) {
            return row.leaf;
        }
    }
    rest
}

/// What rows say of each point within the tops, by the points' numbers.
pub fn values_of_rows(
    alloc: Global,
    tops: &Point,
    rows: &[Row<Tag>],
    rest: Tag,
) -> Result<Vec<Tag>, Memory> {
    let mut values = Vec::new(alloc);
    for number in 0..count_points(tops) {
        values.push(first_leaf(rows, rest, &point_at(tops, number)))?;
    }
    Ok(values)
}
