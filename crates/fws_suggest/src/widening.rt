//! A rule as wide as what is allowed lets it be.

use crate::forms::{Sought, cost_of};
use crate::plan::{ORDERS, bonus};
use crate::solving::{Colour, Task};
use crate::style::Style;
use fws_diagram::{Diagram, Mask, PROTO, Region, Side, Space, Stop};

/// A rule that was found: where it decides, what it costs, and how many paths it decides.
#[derive(Clone, Copy)]
pub(crate) struct Found {
    pub(crate) region: Region,
    pub(crate) cost: u64,
    pub(crate) paths: u32,
}

/// What a rule is to be: of a colour, where another one is the default.
#[derive(Clone, Copy)]
pub(crate) struct Wish {
    pub(crate) diagram: Diagram,
    pub(crate) colour: Colour,
    pub(crate) default: u32,
}

/// The most paths that are counted of a rule.
const COUNTED: u32 = 1_000_000;

/// The region widened, side by side in an order of fields.
fn widened(
    space: &mut Space,
    style: &mut Style,
    wish: &Wish,
    region: &Region,
    order: &[usize; 10],
    wide: bool,
) -> Result<Region, Stop> {
    let mut now = *region;
    for field in order {
        let field = *field;
        let side = now.side(field);
        let full = space.full(field);
        if side == full {
            continue;
        }
        let mut most = space.allowed(wish.diagram, &now, field, wish.colour.number)?;
        if field == PROTO {
            most = within_protocols(space, style, wish, &now, most)?;
        }
        if most == full {
            now = now.with(field, full);
            continue;
        }
        let extra = space.minus(most, side)?;
        let useful = if extra.is_empty() {
            extra
        } else {
            let wider = now.with(field, most);
            space.useful(wish.diagram, &wider, field, wish.default, extra)?
        };
        let wanted = space.either(useful, side)?;
        let sought = Sought {
            field,
            least: side,
            most: space.either(most, side)?,
            wanted,
            wide,
        };
        let chosen = style.chosen(space, sought)?;
        now = now.with(field, chosen);
    }
    Ok(now)
}

/// Those of the allowed protocols that a rule may have for what else it asks for.
fn within_protocols(
    space: &mut Space,
    style: &mut Style,
    wish: &Wish,
    region: &Region,
    most: Side,
) -> Result<Side, Stop> {
    let needed = style.protocols_for(space, region)?;
    let limit = match needed {
        Some(limit) => limit,
        None => {
            if !wish.colour.writes_ports {
                return Ok(most);
            }
            style.with_ports(space)?
        }
    };
    Ok(space.both(most, limit)?)
}

/// The better of two rules: by what it costs less what it decides, and then by what it decides.
fn better(best: Option<Found>, found: Found) -> Option<Found> {
    let Some(before) = best else {
        return Some(found);
    };
    let old = before.cost.saturating_sub(bonus(before.paths));
    let new = found.cost.saturating_sub(bonus(found.paths));
    if new < old || (new == old && found.paths > before.paths) {
        Some(found)
    } else {
        Some(before)
    }
}

/// The best rule that was found for a region, by so many orders of fields.
pub(crate) fn best_rule(
    space: &mut Space,
    style: &mut Style,
    wish: &Wish,
    region: &Region,
    orders: usize,
) -> Result<Found, Stop> {
    let mut best: Option<Found> = None;
    let tries = if style.settings.widens && orders > 1 {
        2
    } else {
        1
    };
    for round in 0..tries {
        let mut left = if round == 0 { orders } else { orders.min(2) };
        for order in &ORDERS {
            if left == 0 {
                break;
            }
            left = left.saturating_sub(1);
            let now = widened(space, style, wish, region, order, round == 1)?;
            let cost = cost_of(style, space, &now)?;
            let paths = space.paths(wish.diagram, wish.default, &now, COUNTED)?;
            best = better(
                best,
                Found {
                    region: now,
                    cost,
                    paths,
                },
            );
        }
    }
    match best {
        Some(found) => Ok(found),
        None => Ok(Found {
            region: *region,
            cost: cost_of(style, space, region)?,
            paths: 1,
        }),
    }
}

/// The cheapest rule that was found for a region, of the colours that are allowed there, if there is one.
pub(crate) fn best_of_colours(
    space: &mut Space,
    style: &mut Style,
    task: &Task,
    wish: &Wish,
    mask: Mask,
    region: &Region,
    orders: usize,
) -> Result<Option<(Found, Colour)>, Stop> {
    let mut best: Option<(Found, Colour)> = None;
    for colour in &task.colours {
        if !space.has(mask, colour.number) {
            continue;
        }
        let wished = Wish {
            diagram: wish.diagram,
            colour: *colour,
            default: wish.default,
        };
        let mut found = best_rule(space, style, &wished, region, orders)?;
        found.cost = found.cost.saturating_add(colour.penalty);
        let is_better = match best {
            Some((before, _)) => found.cost < before.cost,
            None => true,
        };
        if is_better {
            best = Some((found, *colour));
        }
    }
    Ok(best)
}
