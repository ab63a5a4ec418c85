//! A canvas over a site's fields that is recoloured many times: values go to new ones or to ones that are there, and some
//! of them are then done.

ghost use Rattle.std.specs.Prelude.{◌≡◌, ◌<◌, ◌≤◌, length, IfOk, OnOk};
ghost use Rattle.fws_tree.specs.Building.{Extends};
ghost use Rattle.fws_bench.specs.Bounded.{IsBounded};

use crate::MOST;
use crate::product::scattered;
use crate::tops::TOPS;
use fws_box::whole_sides;
use fws_iv::{Ivs, one};
use fws_net::{End, Outcome, Rewrite};
use fws_num::Memory;
use fws_tree::{Canvas, Mark, Moves, Values};
use std::alloc::Global;

/// The bits of values that may still change.
const OPEN: u64 = 1;

/// The bits of values that are done.
const DONE: u64 = 2;

/// The greatest number of a value.
const LAST: u32 = 4000;

/// 10.0.0.0
const BASE: u32 = 167_772_160;

/// A rule that moves all values that it is asked about to one: to one that is there, or to a new one with these bits.
#[derive(Drop)]
struct Goal {
    to: Option<u32>,
    bits: u64,
}

impl Goal {
    /// The rule of the recolouring with this number, where there are so many values.
    fn new(k: u32, values: usize) -> Goal {
        let there = u32::try_from(values).unwrap_or(LAST);
        match k % 3 {
            0 => Goal {
                to: None,
                bits: OPEN,
            },
            1 => Goal {
                to: None,
                bits: DONE,
            },
            _ => Goal {
                to: Some(scattered(k) % there.max(1)),
                bits: OPEN,
            },
        }
    }

    /// Where the values go; a new value is made when it is needed.
    fn value(&mut self, values: &mut Values) -> Result<u32, Memory>
        ensures { Extends values.old values.new }
    {
        match self.to {
            Some(to) => Ok(to),
            None => {
                let to = values.add(self.bits)?;
                self.to = Some(to);
                Ok(to)
            }
        }
    }
}

impl Moves for Goal {
    ghost use Rattle.std.specs.Prelude.{ℕ, ◌≤◌};

    ghost moves = { λ s value label next. next ≤ 4000 };

    ghost later = { λ s t. Unit {0} };

    ghost same = { λ s. tt };

    ghost then = { λ s t u e f. tt };

    fn moved(&mut self, values: &mut Values, _value: u32, _label: u32) -> Result<u32, Memory> {
        Ok(self.value(values)?.min(LAST))
    }
}

/// Sets the side of destinations to an address block of its own.
fn set_block(alloc: Global, sides: &mut [Ivs; 12], k: u32) -> Result<(), Memory>
    requires { k < MOST }
{
    sides[2] = one(alloc, BASE + 256 * k, BASE + 256 * k + 255)?;
    Ok(())
}

/// Sets the side of destinations to one of 64 address blocks that overlap, and that of their ports to a range.
fn set_overlapping(alloc: Global, sides: &mut [Ivs; 12], k: u32) -> Result<(), Memory>
    requires { k < MOST }
{
    let block = scattered(k) % 64;
    let first = BASE + 256 * (scattered(block) % 4096);
    sides[2] = one(alloc, first, first + 256 * block + 255)?;
    let port = scattered(k) % 60000;
    sides[3] = one(alloc, port, port + k)?;
    Ok(())
}

/// Keeps the points of the recolouring with this number: an address block of its own, or one of 64 that overlap and a
/// range of ports.
fn set_sides(alloc: Global, sides: &mut [Ivs; 12], k: u32) -> Result<(), Memory>
    requires { k < MOST }
{
    if k % 2 == 0 {
        set_block(alloc, sides, k)
    } else {
        set_overlapping(alloc, sides, k)
    }
}

/// The points of the recolouring with this number.
fn sides_of(alloc: Global, k: u32) -> Result<[Ivs; 12], Memory>
    requires { k < MOST }
{
    let mut sides = whole_sides(alloc, &TOPS)?;
    set_sides(alloc, &mut sides, k)?;
    Ok(sides)
}

/// Recolours the points within the sides by the rule with this number.
fn recolour_within(
    alloc: Global,
    canvas: &mut Canvas,
    k: u32,
    sides: &[Ivs; 12],
) -> Result<(), Memory>
    requires { IsBounded canvas.old }
    ensures { OnOk result (IsBounded canvas.new) }
{
    let marks = [Mark::of_sets(sides, 1)];
    let mut goal = Goal::new(k, canvas.values().len());
    canvas.recolour(alloc, &marks, 0, OPEN, &mut goal)?;
    Ok(())
}

/// Recolours the canvas once.
fn recolour(alloc: Global, canvas: &mut Canvas, k: u32) -> Result<(), Memory>
    requires number { k < MOST }
    requires bounded { IsBounded canvas.old }
    ensures { OnOk result (IsBounded canvas.new) }
{
    let sides = sides_of(alloc, k)?;
    recolour_within(alloc, canvas, k, &sides)?;
    Ok(())
}

/// Recolours the canvas so many times.
fn recolour_often(alloc: Global, canvas: &mut Canvas, n: u32) -> Result<(), Memory>
    requires number { n ≤ MOST }
    requires bounded { IsBounded canvas.old }
    ensures { OnOk result (IsBounded canvas.new) }
{
    for k in 0..n {
        recolour(alloc, canvas, k)?;
    }
    Ok(())
}

/// A leaf for each value, no two of them equal.
fn leaves(alloc: Global) -> Result<Vec<Outcome>, Memory>
    ensures { IfOk result (λ leaves. length leaves.items ≡ 4001) }
{
    let mut leaves = Vec::new(alloc);
    for number in 0..4001 {
        leaves.push(Outcome::Accept(Rewrite {
            src: None,
            dst: Some(End::host(number, None)),
        }))?;
    }
    Ok(leaves)
}

/// How many values and nodes a canvas has, whose values stand for these leaves.
fn count_both(alloc: Global, canvas: &Canvas, leaves: &[Outcome]) -> Result<[usize; 2], Memory>
    requires bounded { IsBounded canvas.now }
    requires leaves { length leaves.now ≡ 4001 }
{
    let tree = canvas.tree(alloc, leaves)?;
    Ok([canvas.values().len(), tree.nodes()])
}

/// How many values and nodes a canvas has.
fn count_painted(alloc: Global, canvas: &Canvas) -> Result<[usize; 2], Memory>
    requires { IsBounded canvas.now }
{
    let leaves = leaves(alloc)?;
    count_both(alloc, canvas, leaves.as_slice())
}

/// How many values and nodes there are after `n` recolourings.
pub fn count_recoloured(alloc: Global, n: u32) -> Result<[usize; 2], Memory>
    requires { n ≤ MOST }
{
    let mut canvas = Canvas::new(alloc, &TOPS, OPEN)?;
    recolour_often(alloc, &mut canvas, n)?;
    count_painted(alloc, &canvas)
}
