//! What is dropped ahead of `check-state`, whether packets are new or established.

use crate::diagrams::parted;
use fws_net::Outcome;
use fws_num::Memory;
use fws_suggest::{
    ACCEPT, DROP, DST, Diagram, FIELDS, List, Mask, Meeting, Policy, Rule, Settings, Stop, Style,
    plain_colour, solved, task_for,
};
use std::alloc::Global;

/// Whether some rule has a side that takes very many lines.
fn is_ugly(policy: &mut Policy, style: &mut Style, rules: &[Rule]) -> Result<bool, Stop> {
    for rule in rules {
        for field in 0..FIELDS {
            let side = rule.region.side(field);
            if side == policy.space.full(field) {
                continue;
            }
            let measure = style.measure(&mut policy.space, field, side)?;
            if measure.lines >= 20 {
                return Ok(true);
            }
        }
    }
    Ok(false)
}

/// The list by rules that drop alone.
fn by_drops(policy: &mut Policy, style: &mut Style, diagram: Diagram) -> Result<List, Stop> {
    let mut colours = Vec::new(policy.alloc);
    colours.push(plain_colour(DROP))?;
    let task = task_for(policy.alloc, diagram, colours, &[ACCEPT])?;
    solved(policy, style, &task)
}

/// The list by rules that drop and rules that let pass.
fn by_both(policy: &mut Policy, style: &mut Style, diagram: Diagram) -> Result<List, Stop> {
    let mut colours = Vec::new(policy.alloc);
    colours.push(plain_colour(DROP))?;
    colours.push(plain_colour(ACCEPT))?;
    let task = task_for(policy.alloc, diagram, colours, &[ACCEPT])?;
    solved(policy, style, &task)
}

/// The list of what is dropped: by rules that drop alone, or where these are ugly with rules that let pass.
fn drops(policy: &mut Policy, style: &mut Style, diagram: Diagram) -> Result<List, Stop> {
    match by_drops(policy, style, diagram) {
        Ok(list) => {
            if !is_ugly(policy, style, &list.rules)? {
                return Ok(list);
            }
        }
        Err(Stop::Memory) => return Err(Stop::Memory),
        Err(Stop::Late) => {}
    }
    by_both(policy, style, diagram)
}

/// A diagram in which anything goes where rules drop.
fn without(policy: &mut Policy, diagram: Diagram, rules: &[Rule]) -> Result<Diagram, Stop> {
    let painted = policy.painted(rules, ACCEPT)?;
    let passes = policy.where_it_is(painted, ACCEPT)?;
    policy.space.met(diagram, passes, Meeting::Either)
}

/// What may become of packets as they come in, where anything may of those that are forwarded and dropped by these rules as they leave.
pub(crate) fn unless_dropped_later(
    policy: &mut Policy,
    diagram: Diagram,
    rules: &[Rule],
) -> Result<Diagram, Stop> {
    if !policy.forwarding || rules.is_empty() {
        return Ok(diagram);
    }
    let painted = policy.painted(rules, ACCEPT)?;
    let drops = policy.where_it_is(painted, ACCEPT)?;
    let departures = policy.departures();
    let delivered = policy.everything().with(DST, policy.local);
    let drops = policy.space.put(drops, &departures, Mask::NONE)?;
    let drops = policy.space.put(drops, &delivered, Mask::NONE)?;
    policy.space.met(diagram, drops, Meeting::Either)
}

/// Leaves new packets that rules for packets that come in drop out of what follows.
fn leave_out(policy: &mut Policy, rules: &[Rule]) -> Result<(), Stop> {
    let arriving = policy.arriving;
    let narrow = policy.narrowed(rules, arriving)?;
    let fresh = policy.fresh;
    let rest = without(policy, fresh, &narrow)?;
    policy.fresh = rest;
    Ok(())
}

/// A mask for each outcome: everything where it drops.
fn unless_dropped(alloc: Global, outcomes: &[Outcome], passed: Mask) -> Result<Vec<Mask>, Memory> {
    let mut masks = Vec::new(alloc);
    for outcome in outcomes {
        masks.push(match outcome {
            Outcome::Drop => Mask::ALL,
            Outcome::Accept(_) => passed,
        })?;
    }
    Ok(masks)
}

/// New packets, of which those that are dropped may be dropped.
fn passed_alone(policy: &mut Policy) -> Result<Diagram, Stop> {
    let fresh = policy.fresh;
    let accept = policy.space.only(ACCEPT)?;
    let masks = unless_dropped(policy.alloc, &policy.outcomes, accept)?;
    policy.translated(fresh, &masks)
}

/// What may become of packets that come in, by what is decided of established ones.
fn coming(policy: &mut Policy, established: Diagram) -> Result<Diagram, Stop> {
    let new = passed_alone(policy)?;
    let whole = policy.space.meet(established, new)?;
    let arrivals = policy.arrivals();
    policy.space.keep(whole, &arrivals)
}

/// The rules for packets that come in, by what may become of them.
fn dropped(policy: &mut Policy, style: &mut Style, diagram: Diagram) -> Result<Vec<Rule>, Stop> {
    let list = drops(policy, style, diagram)?;
    leave_out(policy, &list.rules)?;
    Ok(list.rules)
}

/// The rules for packets that come in, by what is decided of established ones as they arrive. New packets that are dropped so
/// are left out of what follows.
pub(crate) fn ahead(policy: &mut Policy, established: Option<Diagram>) -> Result<Vec<Rule>, Stop> {
    let Some(established) = established else {
        return Ok(Vec::new(policy.alloc));
    };
    let diagram = coming(policy, established)?;
    if policy.fails(diagram)? {
        return Err(Stop::Late);
    }
    let everywhere = policy.space.full(DST);
    let mut style = policy.style(Settings::ipfw(), everywhere)?;
    dropped(policy, &mut style, diagram)
}

/// What may become of packets that leave, by what is decided of established ones behind the translation of destinations. It gives up
/// where some are dropped that are delivered.
fn leaving(policy: &mut Policy, established: Diagram, new: Diagram) -> Result<Diagram, Stop> {
    let delivered = policy.arrivals().with(DST, policy.local);
    let kept = policy.space.keep(established, &delivered)?;
    let least = policy.space.least_mask(kept);
    if !policy.space.has(least, ACCEPT) {
        return Err(Stop::Late);
    }
    let seen = policy.space.paint(established, &delivered)?;
    let accept = policy.space.only(ACCEPT)?;
    let count = policy.sources.len().saturating_add(1);
    let passed = parted(policy, new, Mask::ALL, accept, count)?;
    policy.space.meet(seen, passed)
}

/// Rules that drop packets ahead of `check-state`, and what is left to be asked then of new ones.
#[derive(Drop)]
pub(crate) struct Cut {
    pub(crate) rules: Vec<Rule>,
    pub(crate) rest: Diagram,
}

/// The rules for packets that leave, by what is decided of established ones behind the translation of destinations; and what is
/// left to be asked then of new ones, of which the diagram has 0 where they are dropped.
pub(crate) fn leaving_ahead(
    policy: &mut Policy,
    style: &mut Style,
    established: Option<Diagram>,
    new: Diagram,
) -> Result<Cut, Stop> {
    let Some(established) = established else {
        return Ok(Cut {
            rules: Vec::new(policy.alloc),
            rest: new,
        });
    };
    let diagram = leaving(policy, established, new)?;
    if policy.fails(diagram)? {
        return Err(Stop::Late);
    }
    let list = drops(policy, style, diagram)?;
    let rest = without(policy, new, &list.rules)?;
    Ok(Cut {
        rules: list.rules,
        rest,
    })
}
