//! Where a tree is true somewhere in some of the fields.

use crate::agreeing::has_values;
use crate::changes::wanted_values;
use crate::leaves::{Tag, tag};
use crate::points::{count_points, number_of, point_at};
use crate::trial::Given;
use fws_box::Point;
use fws_num::Memory;
use fws_tree::Tree;
use std::alloc::Global;

/// The point with 0 in place of its values of these fields.
fn without(point: &Point, fields: u16) -> Point {
    let mut left = *point;
    let mut bits = fields;
    for field in 0..12 {
        if bits & 1 != 0 {
            left[field] = 0;
        }
        bits >>= 1;
    }
    left
}

/// So many truth values that are false.
fn falses(alloc: Global, count: usize) -> Result<Vec<bool>, Memory> {
    let mut falses = Vec::new(alloc);
    for _ in 0..count {
        falses.push(false)?;
    }
    Ok(falses)
}

/// Marks for each true value the number of its point with 0 in place of the fields.
fn mark(found: &mut [bool], tops: &Point, values: &[bool], fields: u16) {
    for (number, value) in values.iter().enumerate() {
        let first = number_of(tops, &without(&point_at(tops, number), fields));
        if *value && first < found.len() {
            found[first] = true;
        }
    }
}

/// For each point whether it has a mark, with 0 in place of the fields.
fn marked(alloc: Global, tops: &Point, found: &[bool], fields: u16) -> Result<Vec<bool>, Memory> {
    let mut all = Vec::new(alloc);
    for number in 0..count_points(tops) {
        let first = number_of(tops, &without(&point_at(tops, number), fields));
        all.push(found.get(first) == Some(&true))?;
    }
    Ok(all)
}

/// Where a point has this value that agrees in the other fields.
fn somewhere(
    alloc: Global,
    tops: &Point,
    values: &[bool],
    fields: u16,
) -> Result<Vec<bool>, Memory> {
    let mut found = falses(alloc, values.len())?;
    mark(found.as_mut_slice(), tops, values, fields);
    marked(alloc, tops, found.as_slice(), fields)
}

/// Whether a tree is true where a value is somewhere in the fields.
fn is_somewhere(
    alloc: Global,
    tops: &Point,
    tree: &Tree<bool>,
    values: &[bool],
    fields: u16,
) -> Result<bool, Memory> {
    let wanted = somewhere(alloc, tops, values, fields)?;
    Ok(has_values(tree, tops, wanted.as_slice()))
}

/// Whether the tree of these values is true somewhere in the fields where a value is.
fn agrees_in(
    alloc: Global,
    tops: &Point,
    tree: &Tree<bool>,
    values: &[bool],
    fields: u16,
) -> Result<bool, Memory> {
    let tree = tree.exists(alloc, fields)?;
    is_somewhere(alloc, tops, &tree, values, fields)
}

/// Whether a tree is true somewhere in no field, in all, in these and in the others where it should be.
fn agrees_everywhere(
    alloc: Global,
    tops: &Point,
    tree: &Tree<bool>,
    values: &[bool],
    chosen: u16,
) -> Result<bool, Memory> {
    for fields in [0, 0x0fff, chosen, chosen ^ 0x0fff] {
        if !agrees_in(alloc, tops, tree, values, fields)? {
            return Ok(false);
        }
    }
    Ok(true)
}

/// Whether the tree of where the value is the wanted one is true somewhere in each of these sets of fields where it should
/// be.
fn selected_agrees(
    alloc: Global,
    given: &Given,
    tree: &Tree<bool>,
    wanted: &Tag,
) -> Result<bool, Memory> {
    let values = wanted_values(alloc, given.values, wanted)?;
    let trial = given.trial;
    agrees_everywhere(alloc, &trial.tops, tree, values.as_slice(), trial.fields)
}

/// Whether a tree is true somewhere in no field, in all, in those of the trial and in the others where it should be.
pub fn exists_agrees(alloc: Global, given: &Given) -> Result<bool, Memory> {
    let wanted = tag(1);
    let tree = given.tree.select(alloc, &wanted)?;
    selected_agrees(alloc, given, &tree, &wanted)
}
