//! Rules, one behind the other, until the default is right at what is left.

use crate::forms::cost_of;
use crate::plan::{Errand, NESTED, Place};
use crate::rules::Rule;
use crate::solving::Colour;
use crate::style::Style;
use crate::widening::{Found, Wish, best_of_colours, best_rule};
use fws_diagram::{Diagram, FIELDS, PROTO, Region, Side, Space, Stop};

/// What rules leave: the diagram with everything painted that they decide, and what they cost.
#[derive(Clone, Copy)]
pub(crate) struct Left {
    pub(crate) diagram: Diagram,
    pub(crate) cost: u64,
}

/// A rule that costs this much takes several lines or long ones.
const UGLY: u64 = 1750;

/// Rules that were found at the end of a list, from a place on, and what they cost.
#[derive(Clone, Copy)]
struct Pick {
    from: usize,
    cost: u64,
}

/// Lets the rules from `later` on take the place of those from `earlier` on.
pub(crate) fn keep_later(rules: &mut Vec<Rule>, earlier: usize, later: usize) {
    let count = rules.len();
    let mut to = earlier;
    for from in later..count {
        if let Some(rule) = rules.get(from).copied() {
            if let Some(slot) = rules.get_mut(to) {
                *slot = rule;
            }
            to = to.saturating_add(1);
        }
    }
    rules.truncate(to);
}

/// The diagram with everything painted that the rules from a place on decide.
pub(crate) fn painted(
    space: &mut Space,
    diagram: Diagram,
    rules: &[Rule],
    from: usize,
) -> Result<Diagram, Stop> {
    let mut now = diagram;
    if let Some(last) = rules.get(from..) {
        for rule in last {
            now = space.paint(now, &rule.region)?;
        }
    }
    Ok(now)
}

/// Whether a side is dear to write: it takes several lines or a long one.
fn is_dear(
    style: &mut Style,
    space: &mut Space,
    region: &Region,
    field: usize,
) -> Result<bool, Stop> {
    let side = region.side(field);
    if side == space.full(field) {
        return Ok(false);
    }
    let measure = style.measure(space, field, side)?;
    Ok(measure.lines > 1 || measure.words > 350)
}

/// Puts the regions in which the side of a field is a wider one.
fn put_wider(
    style: &mut Style,
    space: &mut Space,
    region: &Region,
    field: usize,
    hulls: &[Side],
    bold: &mut Vec<Region>,
) -> Result<(), Stop> {
    for hull in hulls {
        let wider = region.with(field, *hull);
        let is_needed = field == PROTO && needs_protocols(style, space, &wider)?;
        if !is_needed {
            bold.push(wider)?;
        }
    }
    Ok(())
}

/// Whether a region has to be within some protocols.
fn needs_protocols(style: &mut Style, space: &mut Space, region: &Region) -> Result<bool, Stop> {
    let needed = style.protocols_for(space, region)?;
    Ok(needed.is_some())
}

/// Puts wider regions in which one side that is dear to write is another one, and one in which all such sides are.
fn put_bold(
    style: &mut Style,
    space: &mut Space,
    region: &Region,
    bold: &mut Vec<Region>,
) -> Result<(), Stop> {
    let mut all = *region;
    let mut count: usize = 0;
    for field in 0..FIELDS {
        if !is_dear(style, space, region, field)? {
            continue;
        }
        count = count.saturating_add(1);
        let hulls = style.hulls_of(space, field, region.side(field))?;
        if let Some(first) = hulls.first() {
            all = all.with(field, *first);
        }
        put_wider(style, space, region, field, &hulls, bold)?;
    }
    if count < 2 {
        return Ok(());
    }
    let fits = match style.protocols_for(space, &all)? {
        Some(needed) => space.is_within(all.side(PROTO), needed)?,
        None => true,
    };
    if fits {
        bold.push(all)?;
    }
    Ok(())
}

/// Rules behind which the default is right in a region, put at the end of `rules`, and what they leave. None where there are
/// none within the budget, or where the search gave up: then nothing is put.
#[cycle(search)]
pub(crate) fn run(
    space: &mut Space,
    style: &mut Style,
    errand: &Errand<'_>,
    diagram: Diagram,
    within: &Region,
    place: Place,
    rules: &mut Vec<Rule>,
) -> Result<Option<Left>, Stop> {
    let first = rules.len();
    let mut now = Left { diagram, cost: 0 };
    let depth = place.left as usize;
    space.forget(depth);
    for _ in 0..u32::MAX {
        if space.steps() > errand.plan.end {
            break;
        }
        let Some((region, mask)) = space.seed(now.diagram, place.default, within, depth)? else {
            return Ok(Some(now));
        };
        let is_plain = space.steps() > errand.plan.plain_from;
        let orders = if place.left < NESTED {
            errand.plan.orders.min(2)
        } else if is_plain {
            1
        } else {
            errand.plan.orders
        };
        let wish = Wish {
            diagram: now.diagram,
            colour: Colour {
                number: place.default,
                penalty: 0,
                writes_ports: false,
            },
            default: place.default,
        };
        let Some((found, colour)) = best_of_colours(
            space,
            style,
            errand.task,
            &wish,
            mask,
            &region,
            orders,
        )?
        else {
            break;
        };
        let from = rules.len();
        rules.push(Rule {
            region: found.region,
            colour: colour.number,
        })?;
        let wish = Wish {
            diagram: now.diagram,
            colour,
            default: place.default,
        };
        let mut pick = Pick {
            from,
            cost: found.cost,
        };
        if found.cost >= UGLY && place.left > 0 && !is_plain {
            pick = bolder(
                space,
                style,
                errand,
                &wish,
                &found,
                Place {
                    default: place.default,
                    budget: place.budget.saturating_sub(now.cost),
                    left: place.left,
                },
                rules,
                pick,
            )?;
        }
        if errand.plan.parts && found.cost >= UGLY && pick.cost > 1900 {
            pick = by_parts(space, style, &wish, &region, &found, orders, rules, pick)?;
        }
        now.cost = now.cost.saturating_add(pick.cost);
        if now.cost > place.budget {
            break;
        }
        now.diagram = painted(space, now.diagram, rules, pick.from)?;
    }
    rules.truncate(first);
    Ok(None)
}

/// The pick, or rules for exceptions and a bolder rule behind them where these are cheaper.
#[cycle(search)]
fn bolder(
    space: &mut Space,
    style: &mut Style,
    errand: &Errand<'_>,
    wish: &Wish,
    found: &Found,
    place: Place,
    rules: &mut Vec<Rule>,
    pick: Pick,
) -> Result<Pick, Stop> {
    let mut bold = Vec::new(space.alloc);
    put_bold(style, space, &found.region, &mut bold)?;
    let mut pick = pick;
    for region in &bold {
        pick = with_exceptions(
            space, style, errand, wish, found, region, place, rules, pick,
        )?;
    }
    Ok(pick)
}

/// The pick, or rules for exceptions to a bolder rule and that rule, where these are cheaper.
#[cycle(search)]
fn with_exceptions(
    space: &mut Space,
    style: &mut Style,
    errand: &Errand<'_>,
    wish: &Wish,
    found: &Found,
    region: &Region,
    place: Place,
    rules: &mut Vec<Rule>,
    pick: Pick,
) -> Result<Pick, Stop> {
    let cost = cost_of(style, space, region)?;
    let rest = found
        .cost
        .min(place.budget)
        .saturating_sub(cost)
        .saturating_sub(50);
    if rest < 1000 {
        return Ok(pick);
    }
    if place.left == 0 {
        return Ok(pick);
    }
    let most = match u32::try_from(rest / 25) {
        Ok(most) => most,
        Err(_) => u32::MAX,
    };
    let colour = wish.colour.number;
    let paths = space.paths(wish.diagram, colour, region, most)?;
    if paths > most {
        return Ok(pick);
    }
    let from = rules.len();
    let inner = Place {
        default: colour,
        budget: rest,
        left: place.left - 1,
    };
    let done = run(space, style, errand, wish.diagram, region, inner, rules)?;
    let Some(done) = done else {
        return Ok(pick);
    };
    if done.cost.saturating_add(cost).saturating_add(10) >= pick.cost {
        rules.truncate(from);
        return Ok(pick);
    }
    let wish = Wish {
        diagram: done.diagram,
        colour: wish.colour,
        default: wish.default,
    };
    let mut last = best_rule(space, style, &wish, region, 2)?;
    if last.cost > cost {
        last.region = *region;
        last.cost = cost;
    }
    rules.push(Rule {
        region: last.region,
        colour,
    })?;
    keep_later(rules, pick.from, from);
    Ok(Pick {
        from: pick.from,
        cost: done.cost.saturating_add(last.cost),
    })
}

/// The pick, or a rule for a part of the region where this decides more paths for what it costs.
fn by_parts(
    space: &mut Space,
    style: &mut Style,
    wish: &Wish,
    region: &Region,
    found: &Found,
    orders: usize,
    rules: &mut Vec<Rule>,
    pick: Pick,
) -> Result<Pick, Stop> {
    let mut best = Lightest {
        found: None,
        weight: weight_of(pick.cost, found.paths),
    };
    for field in 0..FIELDS {
        let side = found.region.side(field);
        if side == space.full(field) {
            continue;
        }
        let measure = style.measure(space, field, side)?;
        if measure.lines <= 1 {
            continue;
        }
        let pieces = style.pieces_of(space, field, side)?;
        best = lighter_part(space, style, wish, region, field, &pieces, orders, best)?;
    }
    let Some(other) = best.found else {
        return Ok(pick);
    };
    rules.truncate(pick.from);
    rules.push(Rule {
        region: other.region,
        colour: wish.colour.number,
    })?;
    Ok(Pick {
        from: pick.from,
        cost: other.cost,
    })
}

/// The rule that decides most paths for what it costs, if there is one, and what each path costs, in millionths of a line.
#[derive(Clone, Copy)]
struct Lightest {
    found: Option<Found>,
    weight: u64,
}

/// How many pieces of a side are tried.
const PIECES: usize = 6;

/// The lightest so far, or a rule for one of the first pieces of a side, where that is lighter.
fn lighter_part(
    space: &mut Space,
    style: &mut Style,
    wish: &Wish,
    region: &Region,
    field: usize,
    pieces: &[Side],
    orders: usize,
    best: Lightest,
) -> Result<Lightest, Stop> {
    let mut best = best;
    let mut count: usize = 0;
    for piece in pieces {
        count = count.saturating_add(1);
        if count > PIECES {
            break;
        }
        let part = space.both(*piece, region.side(field))?;
        if part.is_empty() {
            continue;
        }
        let narrow = region.with(field, part);
        let other = best_rule(space, style, wish, &narrow, orders)?;
        let weight = weight_of(other.cost, other.paths);
        if other.cost < UGLY && weight < best.weight {
            best = Lightest {
                found: Some(other),
                weight,
            };
        }
    }
    Ok(best)
}

/// What a rule costs for each path that it decides, in millionths of a line.
fn weight_of(cost: u64, paths: u32) -> u64 {
    cost.saturating_mul(1000) / u64::from(paths.max(1))
}
