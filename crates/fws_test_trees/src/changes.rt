//! Trees made of other trees.

ghost use Rattle.std.specs.Prelude.{◌≡◌};

use crate::agreeing::has_values;
use crate::leaves::{Tag, tag};
use crate::meaning::holds;
use crate::points::point_at;
use crate::trial::Given;
use fws_num::Memory;
use fws_tree::{Relabelling, Tree};
use std::alloc::Global;

/// The values of the points, but for this one outside the sides, or else within them.
fn changed_values(
    alloc: Global,
    given: &Given,
    value: Tag,
    outside: bool,
) -> Result<Vec<Tag>, Memory> {
    let mut changed = Vec::new(alloc);
    for (number, old) in given.values.iter().enumerate() {
        let inside = holds(&given.trial.sides, &point_at(&given.trial.tops, number));
        changed.push(if inside == outside { *old } else { value })?;
    }
    Ok(changed)
}

/// Whether a tree has the values of the points, but for this one outside the sides, or else within them.
fn is_changed_so(
    alloc: Global,
    given: &Given,
    tree: &Tree<Tag>,
    value: Tag,
    outside: bool,
) -> Result<bool, Memory> {
    let values = changed_values(alloc, given, value, outside)?;
    Ok(has_values(tree, &given.trial.tops, values.as_slice()))
}

/// Whether restricting a tree changes the points outside the sides alone.
pub fn restrict_agrees(alloc: Global, given: &Given) -> Result<bool, Memory> {
    let off = tag(15);
    let tree = given.tree.restrict(alloc, &given.trial.sides, off)?;
    is_changed_so(alloc, given, &tree, off, true)
}

/// Whether painting a tree changes the points within the sides alone.
pub fn paint_agrees(alloc: Global, given: &Given) -> Result<bool, Memory> {
    let on = tag(1);
    let tree = given.tree.paint(alloc, &given.trial.sides, on)?;
    is_changed_so(alloc, given, &tree, on, false)
}

/// For each value whether it is the wanted one.
pub fn wanted_values(alloc: Global, values: &[Tag], wanted: &Tag) -> Result<Vec<bool>, Memory> {
    let mut are_wanted = Vec::new(alloc);
    for value in values {
        are_wanted.push(*value == *wanted)?;
    }
    Ok(are_wanted)
}

/// Whether a tree is true where the value is the wanted one.
fn is_selected(
    alloc: Global,
    given: &Given,
    tree: &Tree<bool>,
    wanted: &Tag,
) -> Result<bool, Memory> {
    let values = wanted_values(alloc, given.values, wanted)?;
    Ok(has_values(tree, &given.trial.tops, values.as_slice()))
}

/// Whether the selected tree is true where the value is the wanted one.
pub fn select_agrees(alloc: Global, given: &Given) -> Result<bool, Memory> {
    let wanted = tag(1);
    let tree = given.tree.select(alloc, &wanted)?;
    is_selected(alloc, given, &tree, &wanted)
}

/// The second bit of each leaf, so that different leaves become equal.
struct SecondBit;

impl Relabelling<Tag, bool> for SecondBit {
    ghost gives = { λ s leaf. leaf.0.1 };

    fn leaf(&self, _alloc: Global, leaf: &Tag) -> Result<bool, Memory> {
        Ok(leaf.0.1)
    }
}

/// The second bit of each value.
fn second_bits(alloc: Global, values: &[Tag]) -> Result<Vec<bool>, Memory> {
    let mut bits = Vec::new(alloc);
    for value in values {
        bits.push(value.0.1)?;
    }
    Ok(bits)
}

/// Whether a tree has the second bit of each value.
fn has_second_bits(alloc: Global, given: &Given, tree: &Tree<bool>) -> Result<bool, Memory> {
    let values = second_bits(alloc, given.values)?;
    Ok(has_values(tree, &given.trial.tops, values.as_slice()))
}

/// Whether the relabelled tree has what is made of the values.
pub fn relabel_agrees(alloc: Global, given: &Given) -> Result<bool, Memory> {
    let tree = given.tree.relabel(alloc, &SecondBit)?;
    has_second_bits(alloc, given, &tree)
}

/// The pairs of values.
fn pairs(alloc: Global, values: &[Tag], others: &[Tag]) -> Result<Vec<(Tag, Tag)>, Memory> {
    let mut pairs = Vec::new(alloc);
    for (value, other) in values.iter().zip(others) {
        pairs.push((*value, *other))?;
    }
    Ok(pairs)
}

/// What both rows say of each point.
fn paired_values(alloc: Global, given: &Given) -> Result<Vec<(Tag, Tag)>, Memory> {
    let others = given.trial.others.values(alloc, &given.trial.tops)?;
    pairs(alloc, given.values, others.as_slice())
}

/// Whether a tree has what both rows say of each point.
fn has_pairs(alloc: Global, given: &Given, tree: &Tree<(Tag, Tag)>) -> Result<bool, Memory> {
    let values = paired_values(alloc, given)?;
    Ok(has_values(tree, &given.trial.tops, values.as_slice()))
}

/// Whether the pair with the tree of the other rows has the values of both.
fn pair_with(alloc: Global, given: &Given, other: &Tree<Tag>) -> Result<bool, Memory>
    requires { given.now.tree.now.0 ≡ other.now.0 }
{
    let tree = given.tree.pair(alloc, other)?;
    has_pairs(alloc, given, &tree)
}

/// Whether the pair of two trees has the values of both.
pub fn pair_agrees(alloc: Global, given: &Given) -> Result<bool, Memory>
    requires { given.now.tree.now.0 ≡ given.now.trial.now.tops }
{
    let other = given.trial.others.tree(alloc, &given.trial.tops)?;
    pair_with(alloc, given, &other)
}
