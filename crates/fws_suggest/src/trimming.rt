//! The source's own rules as a list, where tables are too large for more: rules are left out that other rules make idle, which is
//! seen by two rules at a time.

use crate::rules::Rule;
use crate::running::keep_later;
use crate::solving::Task;
use fws_diagram::{DPORT, DST, ENTRY, FIELDS, PROTO, Region, SRC, Space, Stop};

/// The fields, those first in which rules differ most often.
const FIRST: [usize; 5] = [DST, SRC, DPORT, PROTO, ENTRY];

/// Whether two regions have a point together.
fn do_meet(space: &mut Space, one: &Region, other: &Region) -> Result<bool, Stop> {
    space.visit()?;
    for field in FIRST {
        if !space.meets(one.side(field), other.side(field))? {
            return Ok(false);
        }
    }
    for field in 0..FIELDS {
        if !space.meets(one.side(field), other.side(field))? {
            return Ok(false);
        }
    }
    Ok(true)
}

/// Whether a region has all points of another one.
fn has_all(space: &mut Space, whole: &Region, part: &Region) -> Result<bool, Stop> {
    space.visit()?;
    for field in FIRST {
        if !space.is_within(part.side(field), whole.side(field))? {
            return Ok(false);
        }
    }
    for field in 0..FIELDS {
        if !space.is_within(part.side(field), whole.side(field))? {
            return Ok(false);
        }
    }
    Ok(true)
}

/// Whether one of the rules decides all of a region.
fn is_decided(space: &mut Space, rules: &[Rule], region: &Region) -> Result<bool, Stop> {
    for rule in rules {
        if has_all(space, &rule.region, region)? {
            return Ok(true);
        }
    }
    Ok(false)
}

/// Whether one of the rules of another colour decides something of a region.
fn is_met(space: &mut Space, rules: &[Rule], region: &Region, colour: u32) -> Result<bool, Stop> {
    for rule in rules {
        if rule.colour != colour && do_meet(space, &rule.region, region)? {
            return Ok(true);
        }
    }
    Ok(false)
}

/// The region with all destinations, where the rules decide what that adds.
fn widened(space: &mut Space, rules: &[Rule], region: &Region) -> Result<Region, Stop> {
    let side = region.side(DST);
    let others = space.others(DST, side)?;
    if others.is_empty() || !is_decided(space, rules, &region.with(DST, others))? {
        return Ok(*region);
    }
    Ok(region.with(DST, space.full(DST)))
}

/// Drops rules of the default's colour where no later one of another colour decides something of theirs.
fn drop_idle(space: &mut Space, default: u32, rules: &mut Vec<Rule>) -> Result<(), Stop> {
    let mut kept = rules.len();
    for at in (0..rules.len()).rev() {
        let Some(rule) = rules.get(at).copied() else {
            break;
        };
        let later = match rules.get(kept..) {
            Some(later) => later,
            None => &[],
        };
        if rule.colour == default && !is_met(space, later, &rule.region, default)? {
            continue;
        }
        kept = kept.saturating_sub(1);
        if let Some(slot) = rules.get_mut(kept) {
            *slot = rule;
        }
    }
    keep_later(rules, 0, kept);
    Ok(())
}

/// Puts the hints, up to one that decides everything, but for those that do nothing; and gives the colour of what no rule decides.
pub(crate) fn take_plainly(
    space: &mut Space,
    task: &Task,
    rules: &mut Vec<Rule>,
) -> Result<Option<u32>, Stop> {
    let everything = space.everything();
    let mut default = task.defaults.first().copied();
    for hint in &task.hints {
        if hint.region == everything {
            default = Some(hint.colour);
            break;
        }
        if is_decided(space, rules, &hint.region)? {
            continue;
        }
        let region = widened(space, rules, &hint.region)?;
        rules.push(Rule {
            region,
            colour: hint.colour,
        })?;
    }
    if let Some(colour) = default {
        drop_idle(space, colour, rules)?;
    }
    Ok(default)
}
