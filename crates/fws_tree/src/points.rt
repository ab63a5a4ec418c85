//! Points that lead to new leaves. What is found here is looked at again where it is used, so that nothing is proved of it.

ghost use Rattle.std.specs.Prelude.{◌<◌, length};
ghost use Rattle.fws_tree.specs.Held.{AreOrderedFrom};

use crate::store::Store;
use crate::together::{cut_field, held_by, view};
use fws_num::Memory;
use std::alloc::Global;

/// What is gone through: the cells of a store from a number on.
#[derive(Clone, Copy)]
pub(crate) struct Fresh<'a> {
    /// The cells.
    pub(crate) store: &'a Store,
    /// The greatest value of each field.
    pub(crate) tops: &'a [u32; 12],
    /// The first cell that is new.
    pub(crate) from: usize,
    /// The number of the first leaf that is wanted. Those of the others follow.
    pub(crate) first: u32,
}

impl Fresh<'_> {
    /// Whether the cell is new.
    fn has(&self, at: u32) -> bool {
        at as usize >= self.from
    }

    /// The greatest value of a field.
    fn top(&self, field: u8) -> u32 {
        let field = field as usize;
        if field < self.tops.len() {
            self.tops[field]
        } else {
            0
        }
    }
}

/// A way down, and what was found.
#[derive(Drop)]
struct Way {
    // The least point to which the way leads, as far as it goes.
    point: [u32; 12],
    // Which new cells were met.
    met: Vec<bool>,
    // The point for each leaf that is wanted.
    points: Vec<[u32; 12]>,
    // How many of them are still to be found.
    left: usize,
}

impl Way {
    /// Whether the cell is met for the first time, of those from a number on.
    fn meets(&mut self, from: usize, at: u32) -> bool {
        let place = (at as usize).saturating_sub(from);
        if place < self.met.len() && !self.met[place] {
            self.met[place] = true;
            return true;
        }
        false
    }

    /// Goes on at this value of the field.
    fn turn(&mut self, field: u8, value: u32) {
        let field = field as usize;
        if field < self.point.len() {
            self.point[field] = value;
        }
    }

    /// Notes the point for the leaf with this number, where that of the first one is given.
    fn note(&mut self, first: u32, leaf: u32) {
        let place = leaf.saturating_sub(first) as usize;
        if first <= leaf && place < self.points.len() {
            self.points[place] = self.point;
            self.left = self.left.saturating_sub(1);
        }
    }
}

// Goes down from the cell to all new cells that were not met before.
fn go_down(fresh: Fresh<'_>, way: &mut Way, at: u32)
    requires ordered { AreOrderedFrom 0 fresh.store.now }
    requires at { at < length fresh.store.now }
{
    if !way.meets(fresh.from, at) {
        return;
    }
    if let Some(leaf) = held_by(fresh.store, at) {
        way.note(fresh.first, leaf);
    }
    let Some(field) = cut_field(fresh.store, at) else {
        return;
    };
    let (steps, last) = view(fresh.store, at, field);
    let top = fresh.top(field);
    let mut least = 0;
    for step in steps {
        if way.left == 0 {
            return;
        }
        if fresh.has(step.node) {
            way.turn(field, least);
            go_down(fresh, way, step.node);
        }
        if step.hi >= top {
            return;
        }
        least = step.hi + 1;
    }
    if fresh.has(last) {
        way.turn(field, least);
        go_down(fresh, way, last);
    }
}

// So many times no.
fn none_met(alloc: Global, count: usize) -> Result<Vec<bool>, Memory> {
    let mut met = Vec::with_capacity(alloc, count)?;
    for _k in 0..count {
        met.push(false)?;
    }
    Ok(met)
}

// So many times the point whose values are all 0.
fn least_points(alloc: Global, count: usize) -> Result<Vec<[u32; 12]>, Memory> {
    let mut points = Vec::with_capacity(alloc, count)?;
    for _k in 0..count {
        points.push([0; 12])?;
    }
    Ok(points)
}

/// For so many new leaves, from a number on, points within the tops to which the new cells from this one on lead. The time is
/// that of the new cells.
pub(crate) fn points_of(
    alloc: Global,
    fresh: Fresh<'_>,
    at: u32,
    count: usize,
) -> Result<Vec<[u32; 12]>, Memory>
    requires ordered { AreOrderedFrom 0 fresh.store.now }
    requires at { at < length fresh.store.now }
{
    let met = none_met(alloc, fresh.store.len().saturating_sub(fresh.from))?;
    let points = least_points(alloc, count)?;
    let mut way = Way {
        point: [0; 12],
        met,
        points,
        left: count,
    };
    if fresh.has(at) {
        go_down(fresh, &mut way, at);
    }
    Ok(way.points)
}
