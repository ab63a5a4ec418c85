//! Lists for diagrams with few paths: several ways are tried, and each list is made shorter.

use crate::best::Offers;
use crate::cleaning::clean;
use crate::grounds::grounds_for;
use crate::hinting::{run_behind, take_hints};
use crate::peeling::{peel_alone, peel_beside};
use crate::plan::{DEAR, Errand, NESTED, Place, Plan};
use crate::rules::Rule;
use crate::running::run;
use crate::solving::Task;
use crate::style::Style;
use fws_diagram::{Diagram, Space, Stop};

/// How many paths a ground may have that lack its colour.
const FEW: u32 = 150;

/// What a list costs besides for its default.
pub(crate) fn penalty(style: &Style, task: &Task, default: u32) -> u64 {
    if task.defaults.first().copied() == Some(default) {
        0
    } else {
        style.settings.default_penalty
    }
}

/// Makes the list shorter and offers it. From then on fewer steps may be taken.
fn offer(
    space: &mut Space,
    style: &mut Style,
    errand: &Errand<'_>,
    default: u32,
    offers: &mut Offers,
) -> Result<(), Stop> {
    let task = errand.task;
    let cost = clean(space, style, task.diagram, default, &mut offers.rules)?;
    let whole = cost.saturating_add(penalty(style, task, default));
    offers.offer(default, whole);
    space.set_limit(errand.plan.enough);
    Ok(())
}

/// Puts rules behind those of the list until the default is right at what is left. False where there are none.
fn go_on(
    space: &mut Space,
    style: &mut Style,
    errand: &Errand<'_>,
    diagram: Diagram,
    default: u32,
    offers: &mut Offers,
) -> Result<bool, Stop> {
    run_behind(
        space,
        style,
        errand,
        diagram,
        default,
        DEAR,
        &mut offers.rules,
    )
}

/// Offers the list that `run` finds.
fn try_run(
    space: &mut Space,
    style: &mut Style,
    errand: &Errand<'_>,
    default: u32,
    offers: &mut Offers,
) -> Result<(), Stop> {
    offers.begin();
    if go_on(space, style, errand, errand.task.diagram, default, offers)? {
        offer(space, style, errand, default, offers)?;
    }
    Ok(())
}

/// Offers the list that begins with the hints.
fn try_hints(
    space: &mut Space,
    style: &mut Style,
    errand: &Errand<'_>,
    default: u32,
    offers: &mut Offers,
) -> Result<(), Stop> {
    offers.begin();
    let Some(left) = take_hints(space, style, errand.task, u64::MAX, offers)? else {
        return Ok(());
    };
    if go_on(space, style, errand, left, default, offers)? {
        offer(space, style, errand, default, offers)?;
    }
    Ok(())
}

/// Puts rules in front that ask for one thing: of all colours, and with an interface where `beside` asks for it.
fn peel(
    space: &mut Space,
    style: &mut Style,
    task: &Task,
    beside: bool,
    rules: &mut Vec<Rule>,
) -> Result<Diagram, Stop> {
    let mut now = task.diagram;
    for colour in &task.colours {
        now = peel_alone(space, style, now, colour.number, rules)?;
    }
    if beside {
        for colour in &task.colours {
            now = peel_beside(space, style, now, colour.number, rules)?;
        }
    }
    Ok(now)
}

/// Offers the list that begins with rules that ask for one thing.
fn try_peel(
    space: &mut Space,
    style: &mut Style,
    errand: &Errand<'_>,
    default: u32,
    beside: bool,
    offers: &mut Offers,
) -> Result<(), Stop> {
    offers.begin();
    let left = peel(space, style, errand.task, beside, &mut offers.rules)?;
    if offers.rules.is_empty() {
        return Ok(());
    }
    if go_on(space, style, errand, left, default, offers)? {
        offer(space, style, errand, default, offers)?;
    }
    Ok(())
}

/// Offers the list with a ground behind the exceptions to it.
fn try_ground(
    space: &mut Space,
    style: &mut Style,
    errand: &Errand<'_>,
    default: u32,
    ground: &Rule,
    offers: &mut Offers,
) -> Result<(), Stop> {
    offers.begin();
    if space.paths(errand.task.diagram, ground.colour, &ground.region, FEW)? > FEW {
        return Ok(());
    }
    let place = Place {
        default: ground.colour,
        budget: DEAR,
        left: NESTED,
    };
    let Some(left) = run(
        space,
        style,
        errand,
        errand.task.diagram,
        &ground.region,
        place,
        &mut offers.rules,
    )?
    else {
        return Ok(());
    };
    offers.rules.push(*ground)?;
    let behind = space.paint(left.diagram, &ground.region)?;
    if go_on(space, style, errand, behind, default, offers)? {
        offer(space, style, errand, default, offers)?;
    }
    Ok(())
}

/// Offers the lists with a ground behind the exceptions to it.
fn try_grounds(
    space: &mut Space,
    style: &mut Style,
    errand: &Errand<'_>,
    default: u32,
    offers: &mut Offers,
) -> Result<(), Stop> {
    let grounds = grounds_for(space, style, errand.task, default)?;
    for ground in &grounds {
        try_ground(space, style, errand, default, ground, offers)?;
    }
    Ok(())
}

/// Offers the lists that begin with the source's own rules: once there is one, in so many steps.
pub(crate) fn solve_by_hints(
    space: &mut Space,
    style: &mut Style,
    task: &Task,
    steps: u64,
    offers: &mut Offers,
) -> Result<(), Stop> {
    let enough = space.steps().saturating_add(steps).min(space.last_step());
    let errand = Errand {
        task,
        plan: Plan::thorough(enough),
    };
    for default in &task.defaults {
        try_hints(space, style, &errand, *default, offers)?;
    }
    Ok(())
}

/// Offers lists for a diagram with few paths: once there is one, in so many steps.
pub(crate) fn solve_small(
    space: &mut Space,
    style: &mut Style,
    task: &Task,
    steps: u64,
    offers: &mut Offers,
) -> Result<(), Stop> {
    let enough = space.steps().saturating_add(steps).min(space.last_step());
    let errand = Errand {
        task,
        plan: Plan::thorough(enough),
    };
    for default in &task.defaults {
        try_run(space, style, &errand, *default, offers)?;
    }
    if !task.hints.is_empty() {
        for default in &task.defaults {
            try_hints(space, style, &errand, *default, offers)?;
        }
    }
    for beside in [false, true] {
        for default in &task.defaults {
            try_peel(space, style, &errand, *default, beside, offers)?;
        }
    }
    for default in &task.defaults {
        try_grounds(space, style, &errand, *default, offers)?;
    }
    if !style.settings.lists_addresses {
        let parts = Errand {
            task,
            plan: errand.plan.with_parts(),
        };
        for default in &task.defaults {
            try_run(space, style, &parts, *default, offers)?;
        }
    }
    Ok(())
}
