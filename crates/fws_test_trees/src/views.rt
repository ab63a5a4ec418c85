//! What a tree shows of itself: its values, its paths and its nodes.

use crate::agreeing::{has_values, value_near};
use crate::leaves::Tag;
use crate::meaning::holds;
use crate::points::{count_points, point_at};
use crate::trial::Given;
use fws_box::Point;
use fws_num::Memory;
use fws_tree::{Kid, Node, Row, Shared};
use std::alloc::Global;

/// Whether the tree of the rows has what they say.
pub fn rows_agree(given: &Given) -> bool {
    has_values(given.tree, &given.trial.tops, given.values)
}

/// How many of the paths hold the point, where all that do have this leaf; else none.
fn paths_with(paths: &[Row<Tag>], point: &Point, leaf: &Tag) -> usize {
    let mut count: usize = 0;
    for path in paths {
        if holds(&path.sides, point) {
            if path.leaf != *leaf {
                return 0;
            }
            count = count.saturating_add(1);
        }
    }
    count
}

/// Whether each point lies in one of the paths, with its value.
fn are_paths(given: &Given, paths: &[Row<Tag>]) -> bool {
    let tops = &given.trial.tops;
    for number in 0..count_points(tops) {
        let point = point_at(tops, number);
        if paths_with(paths, &point, value_near(given.tree, &point)) != 1 {
            return false;
        }
    }
    true
}

/// Whether each point lies in one path of the tree, with its value.
pub fn paths_agree(alloc: Global, given: &Given) -> Result<bool, Memory> {
    let paths = given.tree.paths(alloc)?;
    Ok(are_paths(given, paths.as_slice()))
}

/// The node of the kid that has a value.
fn kid_node(kids: &[Kid], value: u32) -> Option<u32> {
    for kid in kids {
        if kid.set.has(value) {
            return Some(kid.node);
        }
    }
    None
}

/// The place of the leaf to which the nodes lead a point from the last one on; each names earlier nodes.
fn place_of(nodes: &[Node], point: &Point) -> Option<u32> {
    let mut at = nodes.len().checked_sub(1)?;
    for _ in 0..nodes.len() {
        match nodes.get(at)? {
            Node::Leaf(place) => return Some(*place),
            Node::Cut(field, kids) => {
                let value = *point.get(*field as usize)?;
                let next = kid_node(kids.as_slice(), value)? as usize;
                if next >= at {
                    return None;
                }
                at = next;
            }
        }
    }
    None
}

/// Whether none of the nodes is equal to this one.
fn is_new(nodes: &[Node], node: &Node) -> bool {
    for other in nodes {
        if *other == *node {
            return false;
        }
    }
    true
}

/// Whether no two nodes are equal.
fn are_different(nodes: &[Node]) -> bool {
    for (place, node) in nodes.iter().enumerate() {
        if !is_new(&nodes[..place], node) {
            return false;
        }
    }
    true
}

/// Whether the nodes lead the point to this leaf.
fn leads_to(shared: &Shared<'_, Tag>, point: &Point, leaf: &Tag) -> bool {
    match place_of(shared.nodes, point) {
        Some(place) => shared.leaves.get(place as usize) == Some(leaf),
        None => false,
    }
}

/// Whether the nodes lead each point to its value, no two of them are equal, and they are counted.
pub fn shared_agrees(given: &Given) -> bool {
    let shared = given.tree.shared();
    if given.tree.nodes() != shared.nodes.len() || !are_different(shared.nodes) {
        return false;
    }
    for (number, leaf) in given.values.iter().enumerate() {
        if !leads_to(&shared, &point_at(&given.trial.tops, number), leaf) {
            return false;
        }
    }
    true
}
