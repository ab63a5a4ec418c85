//! Diagrams with other colours, and the colours of places.

use fws_num::Memory;
use fws_suggest::{Colour, Diagram, Mask, Policy, Stop, plain_colour};
use std::alloc::Global;

/// The colour of a place.
pub(crate) fn colour_of(place: usize) -> u32 {
    u32::try_from(place).unwrap_or(u32::MAX)
}

/// The colours from one number to another, of which none costs anything besides.
pub(crate) fn plain_colours(alloc: Global, from: u32, to: u32) -> Result<Vec<Colour>, Memory> {
    let mut colours = Vec::new(alloc);
    for number in from..=to {
        colours.push(plain_colour(number))?;
    }
    Ok(colours)
}

/// A mask for the first of so many colours, and one for each other: the first has one in any case.
fn first_and_others(
    alloc: Global,
    first: Mask,
    others: Mask,
    count: usize,
) -> Result<Vec<Mask>, Memory> {
    let mut masks = Vec::new(alloc);
    masks.push(first)?;
    for _other in 1..count {
        masks.push(others)?;
    }
    Ok(masks)
}

/// The diagram with one mask in the place of the first of so many colours, and another one in that of each other.
pub(crate) fn parted(
    policy: &mut Policy,
    diagram: Diagram,
    first: Mask,
    others: Mask,
    count: usize,
) -> Result<Diagram, Stop> {
    let masks = first_and_others(policy.alloc, first, others, count)?;
    policy.translated(diagram, &masks)
}

/// Everything for one of so many colours, and nothing for each other.
fn only_at(alloc: Global, place: usize, count: usize) -> Result<Vec<Mask>, Memory> {
    let mut masks = Vec::new(alloc);
    for other in 0..count {
        masks.push(if other == place {
            Mask::ALL
        } else {
            Mask::NONE
        })?;
    }
    Ok(masks)
}

/// The diagram with everything where it has the colour of a place, of so many, and nothing elsewhere.
pub(crate) fn only_where(
    policy: &mut Policy,
    diagram: Diagram,
    place: usize,
    count: usize,
) -> Result<Diagram, Stop> {
    let masks = only_at(policy.alloc, place, count)?;
    policy.translated(diagram, &masks)
}
