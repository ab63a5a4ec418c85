//! What arrives is asked in one chain, which INPUT and FORWARD call, and some of it again where it leaves.
//!
//! A rule of that chain drops, accepts, or leads to the rules for what the host itself sends. These decide then: they may drop what
//! has to be dropped, or accept what has to be accepted. So what is forwarded need not be asked by rules of its own where it fares
//! as what the host sends, and a rule for what arrives may be as wide as those rules allow.

use crate::chains::{Filtered, Filters, Own};
use crate::common::Base;
use crate::filter::Asked;
use fws_flat::Flat;
use fws_num::Memory;
use fws_suggest::{
    ACCEPT, Colour, DROP, DST, Diagram, ENTRY, List, Mask, Meeting, Policy, Rule, Settings, Stop,
    plain_colour, solved, task_for,
};
use std::alloc::Global;

/// The colour of rules that lead to the rules for what the host itself sends.
pub(crate) const GO: u32 = 2;

/// The name of the chain of these rules, which OUTPUT calls.
pub(crate) const LEAVING: &[u8] = b"LEAVING";

/// Rules that don't ask where packets come in.
fn wherever(policy: &Policy, rules: &[Rule]) -> Result<Vec<Rule>, Memory> {
    let mut wide = Vec::new(policy.alloc);
    for rule in rules {
        wide.push(Rule {
            region: rule.region.with(ENTRY, policy.space.full(ENTRY)),
            colour: rule.colour,
        })?;
    }
    Ok(wide)
}

/// The colour of rules that lead on, where both verdicts are this one: of what is asked, and of the rules for what the host itself
/// sends.
fn leading(
    policy: &mut Policy,
    asked: Diagram,
    said: Diagram,
    verdict: u32,
) -> Result<Diagram, Stop> {
    let go = policy.space.only(GO)?;
    let (by_asked, by_said) = if verdict == DROP {
        ([go, Mask::NONE], [Mask::ALL, Mask::NONE])
    } else {
        ([Mask::NONE, go], [Mask::NONE, Mask::ALL])
    };
    let wanted = policy.translated(asked, &by_asked)?;
    let given = policy.translated(said, &by_said)?;
    policy.space.meet(wanted, given)
}

/// What may be done with what arrives, by what is asked of it and by the rules for what the host itself sends.
fn allowed(policy: &mut Policy, asked: Diagram, leaving: &Filtered) -> Result<Diagram, Stop> {
    let rules = wherever(policy, &leaving.list.rules)?;
    let said = policy.painted(&rules, leaving.list.default)?;
    let dropped = leading(policy, asked, said, DROP)?;
    let accepted = leading(policy, asked, said, ACCEPT)?;
    let either = policy.space.met(dropped, accepted, Meeting::Either)?;
    policy.space.met(asked, either, Meeting::Either)
}

/// The colours of rules for what arrives.
fn colours(alloc: Global) -> Result<Vec<Colour>, Memory> {
    let mut colours = Vec::new(alloc);
    colours.push(plain_colour(ACCEPT))?;
    colours.push(Colour {
        number: GO,
        penalty: 60,
        writes_ports: false,
    })?;
    colours.push(plain_colour(DROP))?;
    Ok(colours)
}

/// The source's rules for what arrives: of those that accept each leads on, too, where it can't.
fn hints(policy: &mut Policy, source: &Flat) -> Result<Vec<Rule>, Memory> {
    policy.note_hints(source)?;
    let coming = policy.coming_hints()?;
    let mut hints = Vec::new(policy.alloc);
    for rule in &coming {
        hints.push(*rule)?;
        if rule.colour == ACCEPT {
            hints.push(Rule {
                region: rule.region,
                colour: GO,
            })?;
        }
    }
    Ok(hints)
}

/// The list for what arrives, of which some may lead on.
fn arriving(
    policy: &mut Policy,
    asked: Diagram,
    calls_chains: bool,
    may_lead: bool,
    source: &Flat,
) -> Result<List, Stop> {
    let all = colours(policy.alloc)?;
    let other = if may_lead { GO } else { ACCEPT };
    let mut task = task_for(policy.alloc, asked, all, &[DROP, other])?;
    task.hints = hints(policy, source)?;
    let mut settings = Settings::iptables().with_exits();
    settings.calls_chains = calls_chains;
    // what leads all else on is a rule, and a closed policy is worth two
    settings.default_penalty = if may_lead { 1000 } else { 2000 };
    let everywhere = policy.space.full(DST);
    let mut style = policy.style(settings, everywhere)?;
    solved(policy, &mut style, &task)
}

/// A chain that has nothing to say but its policy.
fn silent(alloc: Global, default: u32) -> Filtered {
    Filtered {
        has_established: false,
        list: List {
            rules: Vec::new(alloc),
            default,
            cost: 0,
        },
    }
}

/// Whether a list has rules of a colour, or it is what becomes of all else.
fn has_colour(list: &List, colour: u32) -> bool {
    list.default == colour || list.rules.iter().any(|rule| rule.colour == colour)
}

/// The chains with this list for what arrives, and this one for what leaves.
fn chains(policy: &Policy, list: List, leaving: Filtered) -> Result<Filters, Memory> {
    let alloc = policy.alloc;
    let leads = has_colour(&list, GO);
    let has_established = leads || has_colour(&list, DROP);
    let List {
        mut rules,
        mut default,
        cost: _,
    } = list;
    if default == GO {
        rules.push(Rule {
            region: policy.everything(),
            colour: GO,
        })?;
        default = leaving.list.default;
    }
    Ok(Filters {
        common: rules,
        has_established,
        own: if leads { Own::ForPassing } else { Own::Apart },
        input: silent(alloc, default),
        forward: silent(alloc, default),
        output: leaving,
    })
}

/// The chains in which all that arrives is asked in one, and some of it by the rules for what the host itself sends: none where
/// established packets are asked, or nothing is.
pub(crate) fn passing(
    policy: &mut Policy,
    base: &Base,
    output: Asked,
    source: &Flat,
) -> Result<Option<Filters>, Stop> {
    let is_plain = base.input.only_new && base.forward.only_new && output.only_new;
    if !policy.forwarding || !is_plain {
        return Ok(None);
    }
    let mut asked = policy.space.meet(base.input.diagram, base.forward.diagram)?;
    let leaving = base.filters.output.copy(policy.alloc)?;
    let may_lead = has_colour(&leaving.list, DROP);
    if may_lead {
        asked = allowed(policy, asked, &leaving)?;
    }
    let calls_chains = base.input.calls_chains;
    let list = arriving(policy, asked, calls_chains, may_lead, source)?;
    if list.rules.is_empty() {
        return Ok(None);
    }
    Ok(Some(chains(policy, list, leaving)?))
}
