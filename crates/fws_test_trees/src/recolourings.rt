//! Recolourings that a seed gives.

use crate::drawing::draw_sides;
use crate::meaning::holds;
use crate::random::Random;
use fws_box::{Point, meet_sides, whole_sides};
use fws_iv::Ivs;
use fws_num::Memory;
use std::alloc::Global;

/// A label for the points that lie in all of the sides.
#[derive(Drop)]
pub struct Labelled {
    /// The sides.
    pub sides: [Ivs; 12],
    /// The label, from 1 to 3.
    pub label: u32,
}

/// What a canvas is recoloured by.
#[derive(Drop)]
pub struct Recolouring {
    /// The labels of boxes; the first that holds a point decides.
    pub boxes: Vec<Labelled>,
    /// The label elsewhere; 0 is none.
    pub rest: u32,
    /// The bits that are wanted.
    pub wanted: u64,
}

/// The points of these sides within the tops, with a label.
fn label_within(
    alloc: Global,
    random: &mut Random,
    tops: &Point,
    drawn: &[Ivs; 12],
) -> Result<Labelled, Memory> {
    let whole = whole_sides(alloc, tops)?;
    let sides = meet_sides(alloc, drawn, &whole)?;
    Ok(Labelled {
        sides,
        label: 1 + random.below(3),
    })
}

/// A box within the tops, with a label.
fn draw_labelled(alloc: Global, random: &mut Random, tops: &Point) -> Result<Labelled, Memory> {
    let drawn = draw_sides(alloc, random, tops)?;
    label_within(alloc, random, tops, &drawn)
}

/// Up to three boxes within the tops, with labels.
fn draw_boxes(alloc: Global, random: &mut Random, tops: &Point) -> Result<Vec<Labelled>, Memory> {
    let mut boxes = Vec::new(alloc);
    let count = random.below(4);
    for _ in 0..count {
        boxes.push(draw_labelled(alloc, random, tops)?)?;
    }
    Ok(boxes)
}

impl Recolouring {
    /// Up to three boxes within the tops, with labels.
    pub fn draw(alloc: Global, random: &mut Random, tops: &Point) -> Result<Recolouring, Memory> {
        let boxes = draw_boxes(alloc, random, tops)?;
        let rest = random.below(5).saturating_sub(2);
        let wanted = u64::from(random.below(8));
        Ok(Recolouring {
            boxes,
            rest,
            wanted,
        })
    }

    /// The label of a point.
    pub fn label_at(&self, point: &Point) -> u32 {
        for labelled in self.boxes.as_slice() {
            if holds(&labelled.sides, point) {
                return labelled.label;
            }
        }
        self.rest
    }
}
