//! Lists that begin with the source's own rules.

use crate::best::Offers;
use crate::forms::Sought;
use crate::plan::{DEAR, Errand, NESTED, Place};
use crate::rules::Rule;
use crate::running::run;
use crate::solving::Task;
use crate::style::Style;
use fws_diagram::{DST, Diagram, ENTRY, Mask, PROTO, Region, Space, Stop};

/// What a side costs that is dear to write, in thousandths of a line, if it is one line.
const PLAIN: u64 = 100;

/// The region, where a side of it that is dear to write may be all atoms with all of them.
fn widened(
    space: &mut Space,
    style: &mut Style,
    diagram: Diagram,
    hint: &Rule,
) -> Result<Region, Stop> {
    let mut region = hint.region;
    for field in [DST, ENTRY, PROTO] {
        let side = region.side(field);
        if side == space.full(field) {
            continue;
        }
        let measure = style.measure(space, field, side)?;
        if measure.lines <= 1 && measure.words <= PLAIN {
            continue;
        }
        let wide = region.with(field, space.full(field));
        let needs_protocols = field == PROTO && style.protocols_for(space, &wide)?.is_some();
        if !needs_protocols && space.is_allowed(diagram, &wide, hint.colour)? {
            region = wide;
        } else if field == ENTRY && style.follows_source {
            region = by_fewer_entries(space, style, diagram, &region, hint.colour)?;
        }
    }
    Ok(region)
}

/// The region with the entries that are shorter to write, where more are allowed than it has.
fn by_fewer_entries(
    space: &mut Space,
    style: &mut Style,
    diagram: Diagram,
    region: &Region,
    colour: u32,
) -> Result<Region, Stop> {
    let side = region.side(ENTRY);
    let allowed = space.allowed(diagram, region, ENTRY, colour)?;
    let sought = Sought {
        field: ENTRY,
        least: side,
        most: space.either(allowed, side)?,
        wanted: side,
        wide: false,
    };
    let chosen = style.chosen(space, sought)?;
    Ok(region.with(ENTRY, chosen))
}

/// Puts the hints that are right where nothing was decided before, until a step, with the diagrams ahead of them, and gives what
/// they leave. None where the steps came to an end.
pub(crate) fn take_hints(
    space: &mut Space,
    style: &mut Style,
    task: &Task,
    end: u64,
    offers: &mut Offers,
) -> Result<Option<Diagram>, Stop> {
    let mut now = task.diagram;
    for hint in &task.hints {
        if space.steps() > end {
            return Ok(None);
        }
        let mask = space.allow(now, &hint.region)?;
        if mask == Mask::ALL || !space.has(mask, hint.colour) {
            continue;
        }
        let region = widened(space, style, now, hint)?;
        offers.ahead.push(now)?;
        offers.rules.push(Rule {
            region,
            colour: hint.colour,
        })?;
        now = space.paint(now, &region)?;
    }
    Ok(Some(now))
}

/// Puts rules behind the hints until the default is right at what is left. False where there are none.
pub(crate) fn run_behind(
    space: &mut Space,
    style: &mut Style,
    errand: &Errand<'_>,
    diagram: Diagram,
    default: u32,
    budget: u64,
    rules: &mut Vec<Rule>,
) -> Result<bool, Stop> {
    let everything = space.everything();
    let place = Place {
        default,
        budget,
        left: NESTED,
    };
    let done = run(space, style, errand, diagram, &everything, place, rules)?;
    Ok(done.is_some())
}
