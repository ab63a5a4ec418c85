//! Lists for diagrams with many paths: few ways are tried, each in so many steps.

use crate::best::Offers;
use crate::cleaning::{clean_large, total};
use crate::forms::cost_of;
use crate::hinting::{run_behind, take_hints};
use crate::plan::{DEAR, Errand, Plan};
use crate::rules::Rule;
use crate::small::penalty;
use crate::solving::{Budget, Task};
use crate::style::Style;
use crate::trimming::take_plainly;
use fws_diagram::{Diagram, FIELDS, Space, Stop};

/// The most paths that are counted.
pub(crate) const COUNTED: u32 = 1_000_000;

/// How many orders of fields are tried where there are so many paths.
fn orders_for(paths: u32) -> usize {
    if paths <= 400 { 2 } else { 1 }
}

/// The default that is right at most paths of a diagram, and how many it isn't right at.
fn fewest(
    space: &mut Space,
    task: &Task,
    diagram: Diagram,
    without: Option<u32>,
) -> Result<Option<(u32, u32)>, Stop> {
    let everything = space.everything();
    let mut best: Option<(u32, u32)> = None;
    for default in &task.defaults {
        if without == Some(*default) {
            continue;
        }
        let wrong = space.paths(diagram, *default, &everything, COUNTED)?;
        let is_better = match best {
            Some((fewest, _)) => wrong < fewest,
            None => true,
        };
        if is_better {
            best = Some((wrong, *default));
        }
    }
    Ok(best)
}

/// What rules cost that are products of several lists: a sign that rules overlap.
fn overlapping(space: &mut Space, style: &mut Style, rules: &[Rule]) -> Result<u64, Stop> {
    let mut sum: u64 = 0;
    for rule in rules {
        let mut lists: usize = 0;
        for field in 0..FIELDS {
            let side = rule.region.side(field);
            if side == space.full(field) {
                continue;
            }
            let measure = style.measure(space, field, side)?;
            let is_list = if style.settings.lists_addresses {
                measure.words > 400
            } else {
                measure.lines > 1
            };
            if is_list {
                lists = lists.saturating_add(1);
            }
        }
        if lists > 1 {
            sum = sum.saturating_add(cost_of(style, space, &rule.region)?);
        }
    }
    Ok(sum)
}

/// Makes a list shorter in so many steps, and offers it.
fn offer(
    space: &mut Space,
    style: &mut Style,
    task: &Task,
    default: u32,
    steps: u64,
    offers: &mut Offers,
) -> Result<(), Stop> {
    // Some steps are left over: a list that isn't made shorter is one, too.
    let left = space.last_step().saturating_sub(space.steps());
    let most = (left / 8).saturating_mul(7);
    let end = space.steps().saturating_add(steps.min(most));
    let cost = clean_large(
        space,
        style,
        task.diagram,
        default,
        &offers.ahead,
        end,
        &mut offers.rules,
    )?;
    let whole = cost.saturating_add(penalty(style, task, default));
    offers.offer(default, whole);
    Ok(())
}

/// Offers the hints as they are, but for those that do nothing. Whether they are right isn't known.
fn offer_plainly(
    space: &mut Space,
    style: &mut Style,
    task: &Task,
    offers: &mut Offers,
) -> Result<(), Stop> {
    offers.begin();
    if let Some(default) = take_plainly(space, task, &mut offers.rules)? {
        let cost = total(space, style, &offers.rules)?;
        offers.offer(default, cost);
    }
    Ok(())
}

/// Offers the list that begins with the hints, or where that takes too many steps the hints as they are.
fn try_hints(
    space: &mut Space,
    style: &mut Style,
    task: &Task,
    budget: u64,
    offers: &mut Offers,
) -> Result<(), Stop> {
    offers.begin();
    let end = space.steps().saturating_add(budget / 6);
    let Some(left) = take_hints(space, style, task, end, offers)? else {
        return offer_plainly(space, style, task, offers);
    };
    let Some((_, default)) = fewest(space, task, left, None)? else {
        return Ok(());
    };
    let errand = Errand {
        task,
        plan: plan_for(space, 4, budget / 4),
    };
    let rules = &mut offers.rules;
    if run_behind(space, style, &errand, left, default, DEAR, rules)? {
        offer(space, style, task, default, budget, offers)?;
    }
    Ok(())
}

/// A plan of so many steps from here on.
fn plan_for(space: &Space, orders: usize, budget: u64) -> Plan {
    Plan {
        orders,
        plain_from: space.steps().saturating_add(budget / 6),
        end: space.steps().saturating_add(budget),
        enough: u64::MAX,
        parts: false,
    }
}

/// Offers the list that `run` finds with a default in so many steps.
fn try_run(
    space: &mut Space,
    style: &mut Style,
    errand: &Errand<'_>,
    default: u32,
    budget: u64,
    offers: &mut Offers,
) -> Result<(), Stop> {
    offers.begin();
    let most = match offers.cost {
        Some(cost) => cost.saturating_add(cost / 10).saturating_add(2000),
        None => DEAR,
    };
    let rules = &mut offers.rules;
    let diagram = errand.task.diagram;
    if run_behind(space, style, errand, diagram, default, most, rules)? {
        offer(space, style, errand.task, default, budget / 2, offers)?;
    }
    Ok(())
}

/// Whether another list should be sought beside the best: none is there, or its rules overlap by more than a share of its cost.
fn is_open(
    space: &mut Space,
    style: &mut Style,
    offers: &Offers,
    share: u64,
) -> Result<bool, Stop> {
    let Some(cost) = offers.cost else {
        return Ok(true);
    };
    let ugly = overlapping(space, style, &offers.best)?;
    Ok(ugly.saturating_mul(100) > cost.saturating_mul(share))
}

/// Whether there is no list, or a rule for each path would make a clearly shorter one than the best.
fn is_beaten(offers: &Offers, paths: u32) -> bool {
    match offers.cost {
        Some(_) => (paths as usize) < (offers.best.len() / 5).saturating_mul(4),
        None => true,
    }
}

/// Offers lists for a diagram with many paths: the source's own list made shorter, where there is one, and others where that
/// isn't short.
pub(crate) fn solve_large(
    space: &mut Space,
    style: &mut Style,
    task: &Task,
    budget: Budget,
    offers: &mut Offers,
) -> Result<(), Stop> {
    let Some((paths, default)) = fewest(space, task, task.diagram, None)? else {
        return Ok(());
    };
    if !task.hints.is_empty() {
        try_hints(space, style, task, budget.most, offers)?;
    }
    if !is_beaten(offers, paths) {
        return Ok(());
    }
    let begin = space.steps();
    let left = (budget.most / 8).saturating_mul(7);
    let errand = Errand {
        task,
        plan: plan_for(space, orders_for(paths), left),
    };
    try_run(space, style, &errand, default, left, offers)?;
    let spent = space.steps().saturating_sub(begin);
    let Some((more, other)) = fewest(space, task, task.diagram, Some(default))? else {
        return Ok(());
    };
    if more <= paths.saturating_mul(2)
        && spent < budget.enough
        && is_open(space, style, offers, 2)?
    {
        let errand = Errand {
            task,
            plan: plan_for(space, orders_for(paths), budget.enough),
        };
        try_run(space, style, &errand, other, budget.enough, offers)?;
    }
    Ok(())
}

/// The fewest paths at which a default isn't right.
pub(crate) fn fewest_paths(space: &mut Space, task: &Task) -> Result<u32, Stop> {
    match fewest(space, task, task.diagram, None)? {
        Some((paths, _)) => Ok(paths),
        None => Ok(0),
    }
}
