//! Trees against values by point.

use crate::points::{count_points, point_at, within};
use fws_box::Point;
use fws_tree::{Leaf, Tree};

/// The tree's value at the point nearest to this one within its tops.
pub fn value_near<'a, L: Leaf>(tree: &'a Tree<L>, point: &Point) -> &'a L {
    tree.lookup(&within(tree.tops(), point))
}

/// Whether the tree has these tops, and at each point within them the value with the point's number.
pub fn has_values<L: Leaf>(tree: &Tree<L>, tops: &Point, values: &[L]) -> bool {
    if tree.tops() != tops || values.len() != count_points(tops) {
        return false;
    }
    for (number, value) in values.iter().enumerate() {
        if !value_near(tree, &point_at(tops, number)).same(value) {
            return false;
        }
    }
    true
}
