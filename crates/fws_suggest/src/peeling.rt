//! Rules in front that ask for one thing, or for one thing and an interface.

use crate::forms::{Sought, cost_of};
use crate::rules::Rule;
use crate::style::Style;
use fws_diagram::{DST, Diagram, ENTRY, FLAGS, PROTO, Region, SRC, STATE, Side, Space, Stop, TAG};

/// The fields of rules that ask for one thing.
const ALONE: [usize; 7] = [STATE, TAG, ENTRY, SRC, DST, PROTO, FLAGS];

/// The fields of rules that ask for one thing and an interface.
const BESIDE: [usize; 4] = [SRC, DST, PROTO, FLAGS];

/// The most lines of such a rule.
const LINES: u64 = 3;

/// The side of a field that is asked for in a region where the colour is right at all of it, if there is one.
fn peeled_side(
    space: &mut Space,
    style: &mut Style,
    diagram: Diagram,
    region: &Region,
    field: usize,
    colour: u32,
) -> Result<Option<Side>, Stop> {
    let most = space.allowed(diagram, region, field, colour)?;
    if most.is_empty() || most == space.full(field) {
        return Ok(None);
    }
    let wide = region.with(field, most);
    let asked = space.asked(diagram, &wide, field)?;
    let wanted = space.both(asked, most)?;
    if wanted.is_empty() {
        return Ok(None);
    }
    let side = style.chosen(
        space,
        Sought {
            field,
            least: wanted,
            most,
            wanted,
            wide: false,
        },
    )?;
    Ok(Some(side))
}

/// The region within which a field is asked for alone: flags are TCP's.
fn region_for(space: &mut Space, region: &Region, field: usize) -> Result<Region, Stop> {
    if field != FLAGS {
        return Ok(*region);
    }
    let tcp = space.range(PROTO, 6, 6)?;
    Ok(region.with(PROTO, tcp))
}

/// Puts rules of a colour that ask for one thing, and gives what they leave.
pub(crate) fn peel_alone(
    space: &mut Space,
    style: &mut Style,
    diagram: Diagram,
    colour: u32,
    rules: &mut Vec<Rule>,
) -> Result<Diagram, Stop> {
    let mut now = diagram;
    let everything = space.everything();
    for field in ALONE {
        let region = region_for(space, &everything, field)?;
        let Some(side) = peeled_side(space, style, now, &region, field, colour)? else {
            continue;
        };
        let region = region.with(field, side);
        if side != space.full(field) {
            let measure = style.measure(space, field, side)?;
            if measure.lines > LINES {
                continue;
            }
        }
        rules.push(Rule { region, colour })?;
        now = space.paint(now, &region)?;
    }
    Ok(now)
}

/// A side that is peeled at some entries.
#[derive(Clone, Copy)]
struct Group {
    side: Side,
    entries: Side,
}

/// Puts a side with the entry beside those that it has already.
fn put_group(
    space: &mut Space,
    groups: &mut Vec<Group>,
    side: Side,
    entry: Side,
) -> Result<(), Stop> {
    for place in 0..groups.len() {
        let Some(known) = groups.get(place).copied() else {
            break;
        };
        if known.side == side {
            let entries = space.either(known.entries, entry)?;
            if let Some(slot) = groups.get_mut(place) {
                *slot = Group { side, entries };
            }
            return Ok(());
        }
    }
    groups.push(Group {
        side,
        entries: entry,
    })?;
    Ok(())
}

/// The sides of a field that are peeled at each entry, with their entries.
fn groups_of(
    space: &mut Space,
    style: &mut Style,
    diagram: Diagram,
    field: usize,
    colour: u32,
) -> Result<Vec<Group>, Stop> {
    let mut groups = Vec::new(space.alloc);
    put_groups(space, style, diagram, field, colour, &mut groups)?;
    Ok(groups)
}

/// Puts the sides of a field that are peeled at each entry, with their entries.
fn put_groups(
    space: &mut Space,
    style: &mut Style,
    diagram: Diagram,
    field: usize,
    colour: u32,
    groups: &mut Vec<Group>,
) -> Result<(), Stop> {
    let everything = space.everything();
    let base = region_for(space, &everything, field)?;
    for atom in 0..space.atoms(ENTRY) {
        let entry = space.atoms_between(atom, atom.saturating_add(1))?;
        let region = base.with(ENTRY, entry);
        if let Some(side) = peeled_side(space, style, diagram, &region, field, colour)? {
            put_group(space, groups, side, entry)?;
        }
    }
    Ok(())
}

/// Puts rules of a colour that ask for one thing and an interface, and gives what they leave.
pub(crate) fn peel_beside(
    space: &mut Space,
    style: &mut Style,
    diagram: Diagram,
    colour: u32,
    rules: &mut Vec<Rule>,
) -> Result<Diagram, Stop> {
    let mut now = diagram;
    for field in BESIDE {
        let groups = groups_of(space, style, now, field, colour)?;
        now = peel_groups(space, style, now, field, colour, &groups, rules)?;
    }
    Ok(now)
}

/// What a rule that asks for one thing and an interface may cost, in thousandths of a line.
const COST: u64 = 4000;

/// Puts rules of a colour for sides of a field at their entries, and gives what they leave.
fn peel_groups(
    space: &mut Space,
    style: &mut Style,
    diagram: Diagram,
    field: usize,
    colour: u32,
    groups: &[Group],
    rules: &mut Vec<Rule>,
) -> Result<Diagram, Stop> {
    let mut now = diagram;
    let everything = space.everything();
    let base = region_for(space, &everything, field)?;
    for group in groups {
        let mut region = base.with(ENTRY, group.entries).with(field, group.side);
        let cost = cost_of(style, space, &region)?;
        if cost > COST {
            continue;
        }
        if !space.is_allowed(now, &region, colour)? {
            continue;
        }
        let full = space.full(ENTRY);
        let allowed = space.allowed(now, &region, ENTRY, colour)?;
        if allowed == full {
            region = region.with(ENTRY, full);
        }
        rules.push(Rule { region, colour })?;
        now = space.paint(now, &region)?;
    }
    Ok(now)
}
