//! What INPUT and FORWARD have in common stands once, in a chain that both call first.
//!
//! A rule may stand there that is right for what both meet, wherever no rule ahead of it decides. Such rules are taken from the
//! lists of both, from those of the source, and from a list that is sought for both at once; then each of both gets a list for what
//! is left.

use crate::chains::{Filtered, Filters, Own};
use crate::filter::{Asked, Hook, answered, hints_of_arriving};
use fws_flat::Flat;
use fws_num::Memory;
use fws_suggest::{
    ACCEPT, DROP, DST, Diagram, ENTRY, Mask, Meeting, Policy, Region, Rule, Settings, Side, Stop,
    solved, verdict_task,
};
use std::alloc::Global;

/// How many rules are tried for the chain.
const MOST_TRIED: usize = 400;

/// What both chains are asked for.
#[derive(Clone, Copy)]
struct Both {
    /// What INPUT has to say.
    input: Asked,
    /// What FORWARD has to say.
    forward: Asked,
    /// What both have to say.
    diagram: Diagram,
    /// Whether established packets pass first.
    has_established: bool,
    /// The host's own addresses.
    local: Side,
    /// All other destinations.
    foreign: Side,
}

/// Chains of the table filter, and what was asked of those that may have something in common.
#[derive(Drop)]
pub(crate) struct Base {
    pub(crate) filters: Filters,
    pub(crate) input: Asked,
    pub(crate) forward: Asked,
}

/// What both chains are asked for, where they may have something in common.
fn both_of(policy: &mut Policy, base: &Base) -> Result<Option<Both>, Stop> {
    let filters = &base.filters;
    let has_established = filters.input.has_established && filters.forward.has_established;
    let only_new = base.input.only_new;
    if only_new != base.forward.only_new || only_new != has_established {
        return Ok(None);
    }
    let diagram = policy.space.meet(base.input.diagram, base.forward.diagram)?;
    let foreign = policy.foreign()?;
    Ok(Some(Both {
        input: base.input,
        forward: base.forward,
        diagram,
        has_established,
        local: policy.local,
        foreign,
    }))
}

/// Whether a rule of a colour decides something within a region.
fn decides(
    policy: &mut Policy,
    diagram: Diagram,
    region: &Region,
    within: Side,
) -> Result<bool, Stop> {
    let side = policy.space.both(region.side(DST), within)?;
    let part = region.with(DST, side);
    Ok(policy.space.allow(diagram, &part)? != Mask::ALL)
}

/// The rule without the destinations that are all of those that its chain meets.
fn widened(policy: &mut Policy, rule: &Rule, both: &Both) -> Result<Rule, Memory> {
    let side = rule.region.side(DST);
    let is_wide = policy.space.is_within(both.local, side)?
        || policy.space.is_within(both.foreign, side)?;
    let region = if is_wide {
        rule.region.with(DST, policy.space.full(DST))
    } else {
        rule.region
    };
    Ok(Rule {
        region,
        colour: rule.colour,
    })
}

/// Puts those rules behind the common ones that are right for both chains and decide something in each, and gives what they leave.
fn take(
    policy: &mut Policy,
    both: &Both,
    diagram: Diagram,
    rules: &[Rule],
    common: &mut Vec<Rule>,
) -> Result<Diagram, Stop> {
    let mut now = diagram;
    for rule in rules.iter().take(MOST_TRIED) {
        let wide = widened(policy, rule, both)?;
        let mask = policy.space.allow(now, &wide.region)?;
        if mask == Mask::ALL || !policy.space.has(mask, wide.colour) {
            continue;
        }
        if decides(policy, now, &wide.region, both.local)?
            && decides(policy, now, &wide.region, both.foreign)?
        {
            common.push(wide)?;
            now = policy.space.paint(now, &wide.region)?;
        }
    }
    Ok(now)
}

/// The diagram with everything painted that rules decide.
fn behind(policy: &mut Policy, diagram: Diagram, rules: &[Rule]) -> Result<Diagram, Stop> {
    let mut now = diagram;
    for rule in rules {
        now = policy.space.paint(now, &rule.region)?;
    }
    Ok(now)
}

/// A chain behind the common rules.
fn chain_behind(
    policy: &mut Policy,
    hook: Hook,
    before: Asked,
    common: &[Rule],
    source: &Flat,
) -> Result<Filtered, Stop> {
    let diagram = behind(policy, before.diagram, common)?;
    let left = Asked {
        diagram,
        only_new: before.only_new,
        calls_chains: before.calls_chains,
    };
    let mut chain = answered(policy, hook, left, source)?;
    chain.has_established = false;
    Ok(chain)
}

/// The chains with these rules in common.
fn with_common(
    policy: &mut Policy,
    both: &Both,
    filters: &Filters,
    common: Vec<Rule>,
    source: &Flat,
) -> Result<Filters, Stop> {
    let input = chain_behind(policy, Hook::Input, both.input, &common, source)?;
    let forward = chain_behind(policy, Hook::Forward, both.forward, &common, source)?;
    Ok(Filters {
        has_established: both.has_established,
        own: filters.own,
        common,
        input,
        forward,
        output: filters.output.copy(policy.alloc)?,
    })
}

/// The rules of a list that is sought for both chains at once.
fn rules_for_both(policy: &mut Policy, both: &Both, source: &Flat) -> Result<Vec<Rule>, Stop> {
    let mut task = verdict_task(policy.alloc, both.diagram, &[DROP, ACCEPT])?;
    task.hints = hints_of_arriving(policy, source, both.input.only_new)?;
    let everywhere = policy.space.full(DST);
    let mut style = policy.style(Settings::iptables(), everywhere)?;
    match solved(policy, &mut style, &task) {
        Ok(list) => Ok(Vec::from_slice(policy.alloc, &list.rules)?),
        Err(Stop::Late) => Ok(Vec::new(policy.alloc)),
        Err(Stop::Memory) => Err(Stop::Memory),
    }
}

/// Puts the rules that may stand in both chains of these, and then of those.
fn put_set(
    policy: &mut Policy,
    both: &Both,
    first: &[Rule],
    second: &[Rule],
    sets: &mut Vec<Vec<Rule>>,
) -> Result<(), Stop> {
    let mut common = Vec::new(policy.alloc);
    let left = take(policy, both, both.diagram, first, &mut common)?;
    take(policy, both, left, second, &mut common)?;
    sets.push(common)?;
    Ok(())
}

/// Sets of rules that may stand in both chains.
fn sets_of(
    policy: &mut Policy,
    both: &Both,
    filters: &Filters,
    source: &Flat,
) -> Result<Vec<Vec<Rule>>, Stop> {
    let mut sets = Vec::new(policy.alloc);
    let input = filters.input.list.rules.as_slice();
    let forward = filters.forward.list.rules.as_slice();
    put_set(policy, both, input, forward, &mut sets)?;
    put_set(policy, both, forward, input, &mut sets)?;
    let hints = hints_of_arriving(policy, source, both.input.only_new)?;
    put_set(policy, both, &hints, &[], &mut sets)?;
    let joint = rules_for_both(policy, both, source)?;
    put_set(policy, both, &joint, &[], &mut sets)?;
    Ok(sets)
}

/// The place of the first of the largest sets with fewer rules than so many.
fn largest(sets: &[Vec<Rule>], below: usize) -> Option<usize> {
    let mut best: Option<usize> = None;
    let mut most: usize = 0;
    for (place, set) in sets.iter().enumerate() {
        if set.len() > most && set.len() < below {
            most = set.len();
            best = Some(place);
        }
    }
    best
}

/// Puts the chains with something in common: the largest sets of rules are tried.
fn put_all(
    policy: &mut Policy,
    both: &Both,
    filters: &Filters,
    source: &Flat,
    versions: &mut Vec<Filters>,
) -> Result<(), Stop> {
    let mut sets = sets_of(policy, both, filters, source)?;
    let mut below = usize::MAX;
    for _ in 0..MOST_SETS {
        let Some(place) = largest(&sets, below) else {
            break;
        };
        if place >= sets.len() {
            break;
        }
        let common = sets.remove(place);
        below = common.len();
        let version = with_common(policy, both, filters, common, source)?;
        versions.push(version)?;
    }
    Ok(())
}

/// How many sets are tried.
const MOST_SETS: usize = 2;

/// Puts versions of the chains in which INPUT and FORWARD have rules in common.
pub(crate) fn put_shared(
    policy: &mut Policy,
    base: &Base,
    source: &Flat,
    versions: &mut Vec<Filters>,
) -> Result<(), Stop> {
    let filters = &base.filters;
    if !policy.forwarding
        || filters.input.list.rules.is_empty()
        || filters.forward.list.rules.is_empty()
    {
        return Ok(());
    }
    let Some(both) = both_of(policy, base)? else {
        return Ok(());
    };
    put_all(policy, &both, filters, source, versions)
}

/// What is asked of the host's own packets, and of those from loopback that are forwarded as of these. Nothing where these fare
/// otherwise, or all of them alike.
fn own_and_loopback(
    policy: &mut Policy,
    output: Diagram,
    forward: Diagram,
    loopback: Side,
) -> Result<Option<Diagram>, Stop> {
    let passing = policy.everything().with(ENTRY, loopback);
    let through = policy.space.keep(forward, &passing)?;
    let mask = policy.space.least_mask(through);
    if policy.space.has(mask, ACCEPT) || policy.space.has(mask, DROP) {
        return Ok(None);
    }
    let both = policy.space.meet(output, through)?;
    let all = policy.space.project(both, ENTRY, Meeting::Both)?;
    if policy.fails(all)? {
        return Ok(None);
    }
    let departures = policy.departures();
    Ok(Some(policy.space.keep(all, &departures)?))
}

/// The rules for what comes from loopback alone.
fn for_loopback(alloc: Global, rules: &[Rule], loopback: Side) -> Result<Vec<Rule>, Memory> {
    let mut narrow = Vec::new(alloc);
    for rule in rules {
        narrow.push(Rule {
            region: rule.region.with(ENTRY, loopback),
            colour: rule.colour,
        })?;
    }
    Ok(narrow)
}

/// The chains with the rules of OUTPUT in a chain that FORWARD calls for what comes from loopback; nothing where that isn't right.
pub(crate) fn with_output_shared(
    policy: &mut Policy,
    base: &Base,
    output: Asked,
    source: &Flat,
) -> Result<Option<Base>, Stop> {
    if !policy.forwarding || !base.forward.only_new || !output.only_new {
        return Ok(None);
    }
    let loopback = policy.space.range(ENTRY, 1, 1)?;
    let all = own_and_loopback(policy, output.diagram, base.forward.diagram, loopback)?;
    let Some(diagram) = all else {
        return Ok(None);
    };
    let own = Asked {
        diagram,
        only_new: true,
        calls_chains: output.calls_chains,
    };
    let leaving = answered(policy, Hook::Output, own, source)?;
    let narrow = for_loopback(policy.alloc, &leaving.list.rules, loopback)?;
    let left = behind(policy, base.forward.diagram, &narrow)?;
    let forward = Asked {
        diagram: left,
        only_new: true,
        calls_chains: output.calls_chains,
    };
    let passing = answered(policy, Hook::Forward, forward, source)?;
    Ok(Some(Base {
        filters: Filters {
            common: Vec::new(policy.alloc),
            has_established: false,
            own: Own::ForLoopback,
            input: base.filters.input.copy(policy.alloc)?,
            forward: passing,
            output: leaving,
        },
        input: base.input,
        forward,
    }))
}
