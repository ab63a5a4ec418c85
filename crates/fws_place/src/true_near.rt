//! Points that agree in all fields but some, at which trees are true.

ghost use Rattle.std.specs.Prelude.{◌≡◌, ◌<◌, ◌↔◌, ℕ, true, List, Some, IfOk};
ghost use Rattle.fws_box.specs.Sides.{IsWithin, sides_have};
ghost use Rattle.fws_place.specs.Apart.{near_side, AreFoundNear, IsFoundFirst, IsFoundNear, TellsFirstNear};
ghost use Rattle.fws_tree.specs.Changed.{is_free, Agree};
ghost use Rattle.fws_tree.specs.Plain.{value};

use crate::first_true::first_true;
use fws_box::{Point, no_sides};
use fws_iv::{Ivs, one};
use fws_num::Memory;
use fws_tree::Tree;
use fws_truth::both;
use std::alloc::Global;

// Whether the bit of one of the twelve fields is set.
fn is_free(fields: u16, field: u32) -> bool
    requires { field < 12 }
    ensures { result ≡ is_free fields field }
{
    fields & 2u16.pow(field) != 0
}

// The values of a field that keep a point near: all of them where its bit is set, else the point's alone.
fn near_side(alloc: Global, free: bool, top: u32, value: u32) -> Result<Ivs, Memory>
    ensures { IfOk result (λ side. side ≡ near_side free top value) }
{
    if free {
        return one(alloc, 0, top);
    }
    one(alloc, value, value)
}

// The sides of the points that agree with this one in all fields whose bits aren't set.
fn near_sides(
    alloc: Global,
    tops: &[u32; 12],
    point: &Point,
    fields: u16,
) -> Result<[Ivs; 12], Memory>
    requires { IsWithin tops.now point.now }
    ensures { IfOk result (λ sides. (q : List ℕ) → IsWithin tops.now q → (sides_have sides q ≡ true) ↔ Agree fields point.now q) }
{
    let mut sides = no_sides(alloc);
    for k in 0..12 {
        sides[k] = near_side(alloc, is_free(fields, k as u32), tops[k], point[k])?;
    }
    Ok(sides)
}

// A point that agrees with this one in all fields whose bits aren't set, at which the tree is true, if there is one.
fn true_near(
    alloc: Global,
    tree: &Tree<bool>,
    point: &Point,
    fields: u16,
) -> Result<Option<Point>, Memory>
    requires { IsWithin tree.now.0 point.now }
    ensures { IfOk result (IsFoundNear fields tree.now.0 tree.now.1 point.now) }
{
    let sides = near_sides(alloc, tree.tops(), point, fields)?;
    let near = tree.restrict(alloc, &sides, false)?;
    first_true(alloc, &near)
}

// The tree that is true where the first one is and the second is at a point that agrees in all fields whose bits aren't set.
fn first_together(
    alloc: Global,
    first: &Tree<bool>,
    second: &Tree<bool>,
    fields: u16,
) -> Result<Tree<bool>, Memory>
    requires { second.now.0 ≡ first.now.0 }
    ensures tops { IfOk result (λ t. t.0 ≡ first.now.0) }
    ensures value { IfOk result (λ t. TellsFirstNear fields first.now.0 first.now.1 second.now.1 t.1) }
{
    let somewhere = second.exists(alloc, fields)?;
    both(alloc, first, &somewhere)
}

// The first of two such points, if there are any.
fn first_near(
    alloc: Global,
    first: &Tree<bool>,
    second: &Tree<bool>,
    fields: u16,
) -> Result<Option<Point>, Memory>
    requires { second.now.0 ≡ first.now.0 }
    ensures { IfOk result (IsFoundFirst fields first.now.0 first.now.1 second.now.1) }
{
    let both = first_together(alloc, first, second, fields)?;
    first_true(alloc, &both)
}

/// Two points that agree in all fields whose bits aren't set, at the first of which the one tree is true, and at the second the
/// other, if there are any. Fails if memory runs out.
pub(crate) fn true_together(
    alloc: Global,
    first: &Tree<bool>,
    second: &Tree<bool>,
    fields: u16,
) -> Result<Option<(Point, Point)>, Memory>
    requires { second.now.0 ≡ first.now.0 }
    ensures { IfOk result (AreFoundNear fields first.now.0 first.now.1 second.now.1) }
{
    match first_near(alloc, first, second, fields)? {
        None => Ok(None),
        Some(point) => match true_near(alloc, second, &point, fields)? {
            Some(other) => Ok(Some((point, other))),
            None => unreachable!(),
        },
    }
}
