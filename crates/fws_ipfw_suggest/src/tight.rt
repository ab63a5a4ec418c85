//! Lists in which a rule that translates ends the pass.

use crate::ahead::{ahead, leaving_ahead, unless_dropped_later};
use crate::diagrams::colour_of;
use crate::ends::{by_destination, images};
use crate::instances::{Instances, by_instances, instances_of, put_instances};
use crate::lists::{asks_host, put_ahead, put_list, put_rules};
use crate::script::{Mark, Script};
use crate::sending::put_sources;
use crate::writer::{Way, Writer};
use fws_net::{Outcome, Site};
use fws_num::Memory;
use fws_suggest::{
    ACCEPT, Colour, DROP, DST, Diagram, Established, List, Mask, Meeting, Policy, Rule, Settings,
    Stop, Style, plain_colour, solved, task_for,
};
use std::alloc::Global;

/// What is put for packets that come in, but for their list.
#[derive(Drop)]
struct Incoming {
    before: Vec<Rule>,
    found: Instances,
}

/// What is put for packets that leave.
#[derive(Drop)]
struct Outgoing {
    before: Vec<Rule>,
    list: List,
}

/// A mask for each outcome: none where it writes a destination.
fn plain_masks(
    alloc: Global,
    outcomes: &[Outcome],
    drop: Mask,
    accept: Mask,
) -> Result<Vec<Mask>, Memory> {
    let mut masks = Vec::new(alloc);
    for outcome in outcomes {
        masks.push(match outcome {
            Outcome::Drop => drop,
            Outcome::Accept(rewrite) => {
                if rewrite.dst.is_none() {
                    accept
                } else {
                    Mask::NONE
                }
            }
        })?;
    }
    Ok(masks)
}

/// What is asked of packets whose destination stays.
fn staying(policy: &mut Policy) -> Result<Diagram, Stop> {
    let drop = policy.space.only(DROP)?;
    let accept = policy.space.only(ACCEPT)?;
    let masks = plain_masks(policy.alloc, &policy.outcomes, drop, accept)?;
    let fresh = policy.fresh;
    policy.translated(fresh, &masks)
}

/// What is asked of packets as they come in: 0 and 1 for dropping and accepting, and from 2 on the instances.
fn coming(policy: &mut Policy, found: &Instances) -> Result<Diagram, Stop> {
    let plain = staying(policy)?;
    let allowed = by_destination(policy, Mask::NONE)?;
    let translated = by_instances(policy, found, allowed, 2)?;
    let whole = policy.space.met(plain, translated, Meeting::Either)?;
    let arrivals = policy.arrivals();
    policy.space.keep(whole, &arrivals)
}

/// What is asked of packets as they leave: 0 and 1 for dropping and accepting, and from 2 on the sources that are written.
fn leaving(policy: &mut Policy) -> Result<Diagram, Stop> {
    let none = policy.space.only(0)?;
    let ends = by_destination(policy, none)?;
    let direct = policy.direct()?;
    let drop = policy.space.only(DROP)?;
    let arrivals = policy.arrivals();
    let departures = policy.departures();
    let arrived = policy.space.keep(direct, &arrivals)?;
    let arrived = policy.replaced(arrived, drop, Mask::ALL)?;
    let own = policy.space.keep(direct, &departures)?;
    let seen = policy.space.meet(arrived, own)?;
    let whole = images(policy, ends, seen, None, 0)?;
    let mut delivered = arrivals;
    if policy.forwarding {
        delivered = arrivals.with(DST, policy.local);
    }
    policy.space.paint(whole, &delivered)
}

/// The colours for packets that come in, where there are so many instances.
fn coming_colours(alloc: Global, instances: usize) -> Result<Vec<Colour>, Memory> {
    let mut colours = Vec::new(alloc);
    colours.push(plain_colour(ACCEPT))?;
    for instance in 0..instances {
        colours.push(Colour {
            number: colour_of(instance).saturating_add(2),
            penalty: 300,
            writes_ports: false,
        })?;
    }
    colours.push(plain_colour(DROP))?;
    Ok(colours)
}

/// The list for packets that come in.
fn coming_list(
    policy: &mut Policy,
    style: &mut Style,
    instances: usize,
    diagram: Diagram,
) -> Result<List, Stop> {
    let colours = coming_colours(policy.alloc, instances)?;
    let mut task = task_for(policy.alloc, diagram, colours, &[DROP, ACCEPT])?;
    task.hints = policy.coming_hints()?;
    solved(policy, style, &task)
}

/// The colours for packets that leave, where there are so many sources.
fn leaving_colours(alloc: Global, sources: usize) -> Result<Vec<Colour>, Memory> {
    let mut colours = Vec::new(alloc);
    for place in 0..sources {
        colours.push(plain_colour(colour_of(place).saturating_add(ACCEPT)))?;
    }
    colours.push(plain_colour(DROP))?;
    Ok(colours)
}

/// The list for packets that leave.
fn leaving_list(policy: &mut Policy, style: &mut Style, diagram: Diagram) -> Result<List, Stop> {
    let colours = leaving_colours(policy.alloc, policy.sources.len())?;
    // what no rule lets out is dropped behind them
    let mut task = task_for(policy.alloc, diagram, colours, &[DROP, ACCEPT])?;
    task.hints = policy.sending_hints()?;
    solved(policy, style, &task)
}

/// The list for packets that come in, by the instances that are found, where these rules drop packets as they leave.
fn list_by(
    policy: &mut Policy,
    style: &mut Style,
    found: &Instances,
    leaving: &[Rule],
) -> Result<List, Stop> {
    let mut diagram = coming(policy, found)?;
    if policy.destinations.len() == 1 {
        // what leaves has the destination that it came with
        diagram = unless_dropped_later(policy, diagram, leaving)?;
    }
    coming_list(policy, style, found.maps.len(), diagram)
}

/// What is put for packets that come in, but for their list.
fn coming_plan(policy: &mut Policy, established: Established) -> Result<Incoming, Stop> {
    let before = ahead(policy, established.ahead)?;
    let found = instances_of(policy)?;
    Ok(Incoming { before, found })
}

/// What is put for packets that leave. It gives up where two that must fare differently have become one.
fn going_plan(
    policy: &mut Policy,
    style: &mut Style,
    established: Established,
) -> Result<Outgoing, Stop> {
    let seen = leaving(policy)?;
    if policy.fails(seen)? {
        return Err(Stop::Late);
    }
    let cut = leaving_ahead(policy, style, established.behind, seen)?;
    let list = leaving_list(policy, style, cut.rest)?;
    Ok(Outgoing {
        before: cut.rules,
        list,
    })
}

/// Appends what stands ahead of the lists.
fn put_start(
    script: &mut Script,
    writer: &Writer,
    policy: &mut Policy,
    coming: &Incoming,
    going: &Outgoing,
) -> Result<(), Stop> {
    put_instances(&mut script.instances, &coming.found)?;
    let redirecting = coming.found.configs.len();
    script.numbers = redirecting;
    put_sources(script, policy, writer.site, redirecting)?;
    if asks_host(policy, &going.before) || asks_host(policy, &going.list.rules) {
        script.put(b"count tag 1 ip from any to any in")?;
    }
    Ok(())
}

/// Appends the lists.
fn put_lists(
    script: &mut Script,
    writer: &Writer,
    policy: &mut Policy,
    inward: &mut Style,
    outward: &mut Style,
    coming: &Incoming,
    list: &List,
    going: &Outgoing,
) -> Result<(), Stop> {
    script.put_check()?;
    let passes_out = going.list.default == ACCEPT && going.list.rules.is_empty();
    if passes_out && list.default == ACCEPT {
        let rules = &list.rules;
        put_rules(script, writer, policy, inward, rules, Way::Coming, 0)?;
        script.put(b"allow ip from any to any keep-state")?;
        return Ok(());
    }
    put_list(script, writer, policy, inward, list, Way::Coming, 0)?;
    let more = colour_of(coming.found.configs.len());
    put_list(
        script,
        writer,
        policy,
        outward,
        &going.list,
        Way::Leaving,
        more,
    )
}

/// Appends lists for both directions, by the ways to write each.
fn put_both(
    script: &mut Script,
    writer: &Writer,
    policy: &mut Policy,
    inward: &mut Style,
    outward: &mut Style,
    established: Established,
) -> Result<(), Stop> {
    let coming = coming_plan(policy, established)?;
    let going = going_plan(policy, outward, established)?;
    let list = list_by(policy, inward, &coming.found, &going.before)?;
    put_start(script, writer, policy, &coming, &going)?;
    let (arriving, leaving) = (&coming.before, &going.before);
    put_ahead(
        script,
        writer,
        policy,
        inward,
        arriving,
        Way::Coming,
        Mark::Check,
    )?;
    put_ahead(
        script,
        writer,
        policy,
        outward,
        leaving,
        Way::Leaving,
        Mark::Check,
    )?;
    put_lists(
        script, writer, policy, inward, outward, &coming, &list, &going,
    )
}

/// Appends lists for both directions, by the way to write what comes in.
fn put_inward(
    script: &mut Script,
    writer: &Writer,
    policy: &mut Policy,
    inward: &mut Style,
    established: Established,
) -> Result<(), Stop> {
    let everywhere = policy.space.full(DST);
    let settings = Settings::ipfw().outward().with_exits();
    let mut outward = policy.style(settings, everywhere)?;
    put_both(script, writer, policy, inward, &mut outward, established)
}

/// Appends lists for both directions, in which a rule that translates ends the pass.
pub(crate) fn put_tight(
    script: &mut Script,
    policy: &mut Policy,
    site: &Site,
    established: Established,
) -> Result<(), Stop> {
    let everywhere = policy.space.full(DST);
    let mut inward = policy.style(Settings::ipfw(), everywhere)?;
    let writer = Writer::new(policy, site);
    put_inward(script, &writer, policy, &mut inward, established)
}
