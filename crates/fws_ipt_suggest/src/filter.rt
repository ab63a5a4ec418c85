//! The chains of the table filter.

use crate::chains::Filtered;
use fws_flat::Flat;
use fws_num::Memory;
use fws_suggest::{
    ACCEPT, DROP, DST, Diagram, List, Policy, Region, Rule, Settings, Side, Stop, Style, solved,
    verdict_task,
};

/// A chain of the table filter.
#[derive(Clone, Copy, Debug, PartialEq, Eq)]
pub(crate) enum Hook {
    /// INPUT.
    Input,
    /// FORWARD.
    Forward,
    /// OUTPUT.
    Output,
}

/// How a chain writes sides.
fn style_at(policy: &mut Policy, hook: Hook, universe: Side) -> Result<Style, Memory> {
    let mut settings = Settings::iptables();
    if hook != Hook::Input {
        settings = settings.with_exits();
    }
    if hook != Hook::Output {
        // A closed policy is worth two rules.
        settings.default_penalty = 2000;
    }
    policy.style(settings, universe)
}

/// The packets that a chain meets, and the destinations that they have.
fn met_at(policy: &mut Policy, hook: Hook) -> Result<(Region, Side), Memory> {
    let foreign = policy.foreign()?;
    let local = policy.local;
    Ok(match hook {
        Hook::Input => (policy.arrivals().with(DST, local), local),
        Hook::Forward => (policy.arrivals().with(DST, foreign), foreign),
        Hook::Output => (policy.departures(), policy.space.full(DST)),
    })
}

/// The source's rules that decide what arrives, wherever it goes.
pub(crate) fn hints_of_arriving(
    policy: &mut Policy,
    source: &Flat,
    only_new: bool,
) -> Result<Vec<Rule>, Memory> {
    let mut hints = Vec::new(policy.alloc);
    policy.put_hints(&mut hints, source, source.arrive.as_slice(), only_new)?;
    Ok(hints)
}

/// The source's rules that decide what a chain meets, ahead of it too.
fn hints_at(
    policy: &mut Policy,
    hook: Hook,
    source: &Flat,
    only_new: bool,
) -> Result<Vec<Rule>, Memory> {
    let mut hints = Vec::new(policy.alloc);
    if hook != Hook::Output {
        policy.put_hints(&mut hints, source, source.arrive.as_slice(), only_new)?;
    }
    let parts = match hook {
        Hook::Input => source.deliver.as_slice(),
        Hook::Forward => source.forward.as_slice(),
        Hook::Output => source.send.as_slice(),
    };
    policy.put_hints(&mut hints, source, parts, only_new)?;
    Ok(hints)
}

/// The list of a chain for what is asked of it.
fn list_at(policy: &mut Policy, hook: Hook, asked: Asked, source: &Flat) -> Result<List, Stop> {
    let mut task = verdict_task(policy.alloc, asked.diagram, &[DROP, ACCEPT])?;
    task.hints = hints_at(policy, hook, source, asked.only_new)?;
    let mut style = style_of(policy, hook)?;
    style.settings.calls_chains = asked.calls_chains;
    solved(policy, &mut style, &task)
}

/// The chain that drops everything.
fn closed(policy: &Policy) -> Filtered {
    Filtered {
        has_established: false,
        list: List {
            rules: Vec::new(policy.alloc),
            default: DROP,
            cost: 0,
        },
    }
}

/// What a chain has to say.
#[derive(Clone, Copy)]
pub(crate) struct Asked {
    /// What is allowed of what it meets.
    pub(crate) diagram: Diagram,
    /// Whether new packets alone are meant, since all established ones are accepted.
    pub(crate) only_new: bool,
    /// Whether rules count as if what takes several lines led to chains of its own.
    pub(crate) calls_chains: bool,
}

/// What a chain has to say of packets of both states, where some established ones may not be accepted.
fn both_states(
    policy: &mut Policy,
    region: &Region,
    new: Diagram,
    established: Option<Diagram>,
) -> Result<Option<Diagram>, Stop> {
    let Some(established) = established else {
        return Ok(None);
    };
    let tracked = policy.space.keep(established, region)?;
    let least = policy.space.least_mask(tracked);
    if policy.space.has(least, ACCEPT) {
        return Ok(None);
    }
    Ok(Some(policy.by_state(new, tracked)?))
}

/// What a chain has to say, by the verdict on new packets and on established ones.
pub(crate) fn asked_at(
    policy: &mut Policy,
    hook: Hook,
    fresh: Diagram,
    established: Option<Diagram>,
    calls_chains: bool,
) -> Result<Asked, Stop> {
    let (region, _universe) = met_at(policy, hook)?;
    let new = policy.space.keep(fresh, &region)?;
    Ok(match both_states(policy, &region, new, established)? {
        Some(diagram) => Asked {
            diagram,
            only_new: false,
            calls_chains,
        },
        None => Asked {
            diagram: new,
            only_new: true,
            calls_chains,
        },
    })
}

/// The chain that says what it has to.
pub(crate) fn answered(
    policy: &mut Policy,
    hook: Hook,
    asked: Asked,
    source: &Flat,
) -> Result<Filtered, Stop> {
    let list = list_at(policy, hook, asked, source)?;
    let drops = list.default == DROP || list.rules.iter().any(|rule| rule.colour == DROP);
    Ok(Filtered {
        has_established: asked.only_new && drops,
        list,
    })
}

/// The chain that says what it has to, where a chain that is never met drops everything.
pub(crate) fn filtered(
    policy: &mut Policy,
    hook: Hook,
    asked: Asked,
    source: &Flat,
) -> Result<Filtered, Stop> {
    if hook == Hook::Forward && !policy.forwarding {
        return Ok(closed(policy));
    }
    answered(policy, hook, asked, source)
}

/// How the chain's rules are written.
pub(crate) fn style_of(policy: &mut Policy, hook: Hook) -> Result<Style, Memory> {
    let (_region, universe) = met_at(policy, hook)?;
    style_at(policy, hook, universe)
}
