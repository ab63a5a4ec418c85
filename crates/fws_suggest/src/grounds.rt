//! Regions that one bold rule at the end may fill, with the exceptions to it in front.

use crate::rules::Rule;
use crate::solving::Task;
use crate::style::Style;
use fws_diagram::{DST, Diagram, ENTRY, Mask, PROTO, SRC, STATE, Side, Space, Stop, TAG};
use fws_num::Memory;

/// The fields by which such regions are cut.
const CUT: [usize; 6] = [ENTRY, DST, SRC, PROTO, STATE, TAG];

/// How many choices there are of fields that are cut.
const CHOICES: u32 = 5;

/// Whether a choice cuts a field.
fn cuts(choice: u32, field: usize) -> bool {
    match choice {
        0 => true,
        1 => field == ENTRY || field == DST,
        2 => field == DST,
        3 => field == ENTRY,
        _ => field == SRC,
    }
}

/// The diagram that asks for something just where the colour is allowed and the default isn't.
fn needing(
    space: &mut Space,
    diagram: Diagram,
    colour: u32,
    default: u32,
) -> Result<Diagram, Stop> {
    let old = space.leaves(diagram)?;
    let new = needed_masks(space, &old, colour, default)?;
    space.relabel(diagram, &old, &new)
}

/// Nothing for masks that have the colour and not the default, and everything for others.
fn needed_masks(
    space: &Space,
    masks: &[Mask],
    colour: u32,
    default: u32,
) -> Result<Vec<Mask>, Memory> {
    let mut new = Vec::new(space.alloc);
    for mask in masks {
        let is_needed = space.has(*mask, colour) && !space.has(*mask, default);
        new.push(if is_needed { Mask::NONE } else { Mask::ALL })?;
    }
    Ok(new)
}

/// The narrowest side in one short line that has all that is needed.
fn short_hull(
    space: &mut Space,
    style: &mut Style,
    field: usize,
    needed: Side,
) -> Result<Side, Stop> {
    let full = space.full(field);
    if needed == full || needed.is_empty() {
        return Ok(full);
    }
    let first = narrower(space, style, field, full, needed)?;
    let hulls = style.hulls_of(space, field, needed)?;
    narrowest(space, style, field, first, &hulls)
}

/// The narrowest of a side and of those of the hulls that are short.
fn narrowest(
    space: &mut Space,
    style: &mut Style,
    field: usize,
    first: Side,
    hulls: &[Side],
) -> Result<Side, Stop> {
    let mut best = first;
    for hull in hulls {
        best = narrower(space, style, field, best, *hull)?;
    }
    Ok(best)
}

/// Another side in the place of the best one, where it is one short line and within the best one.
fn narrower(
    space: &mut Space,
    style: &mut Style,
    field: usize,
    best: Side,
    other: Side,
) -> Result<Side, Stop> {
    if other == space.full(field) {
        return Ok(best);
    }
    let measure = style.measure(space, field, other)?;
    if measure.lines != 1 || measure.words >= 300 {
        return Ok(best);
    }
    let is_within = space.is_within(other, best)?;
    Ok(if is_within { other } else { best })
}

/// Puts a rule where it isn't there already.
fn put_ground(grounds: &mut Vec<Rule>, ground: Rule) -> Result<(), Memory> {
    for known in grounds.iter() {
        if *known == ground {
            return Ok(());
        }
    }
    grounds.push(ground)?;
    Ok(())
}

/// Puts the regions for a colour that isn't the default, as rules.
fn put_for(
    space: &mut Space,
    style: &mut Style,
    needed: Diagram,
    colour: u32,
    grounds: &mut Vec<Rule>,
) -> Result<(), Stop> {
    let everything = space.everything();
    let mut hull = everything;
    for field in CUT {
        let asked = space.asked(needed, &everything, field)?;
        let side = short_hull(space, style, field, asked)?;
        hull = hull.with(field, side);
    }
    for choice in 0..CHOICES {
        let mut region = everything;
        for field in CUT {
            if cuts(choice, field) {
                region = region.with(field, hull.side(field));
            }
        }
        put_ground(grounds, Rule { region, colour })?;
    }
    Ok(())
}

/// Regions that one last rule of another colour than the default may fill, as rules.
pub(crate) fn grounds_for(
    space: &mut Space,
    style: &mut Style,
    task: &Task,
    default: u32,
) -> Result<Vec<Rule>, Stop> {
    let mut grounds = Vec::new(space.alloc);
    put_all(space, style, task, default, &mut grounds)?;
    Ok(grounds)
}

/// Puts the regions for all colours but the default, as rules.
fn put_all(
    space: &mut Space,
    style: &mut Style,
    task: &Task,
    default: u32,
    grounds: &mut Vec<Rule>,
) -> Result<(), Stop> {
    for colour in &task.colours {
        if colour.number == default {
            continue;
        }
        let needed = needing(space, task.diagram, colour.number, default)?;
        if space.least_mask(needed) != Mask::ALL {
            put_for(space, style, needed, colour.number, grounds)?;
        }
    }
    Ok(())
}
