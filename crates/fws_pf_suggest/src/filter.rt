//! What is passed and blocked.

use crate::draft::{Filter, Found};
use crate::free::Free;
use crate::sending::{by_tags, solved_by};
use fws_suggest::{
    ACCEPT, DROP, DST, Diagram, ENTRY, FLAGS, List, Marked, Mask, Meeting, PROTO, Policy, Region,
    Settings, Side, Stop, plain_colour, task_for, verdict_task,
};

/// Whether TCP flags open a connection as `flags S/SA` asks.
fn opens(flags: u32) -> bool {
    flags & 18 == 2
}

/// The flags that open no connection, where the atoms of flags are so cut that a side has just these.
pub(crate) fn not_opening(policy: &mut Policy) -> Result<Option<Side>, Stop> {
    let mut side = Side::EMPTY;
    for flags in 0..64u32 {
        if !opens(flags) {
            let one = policy.space.range(FLAGS, flags, flags)?;
            side = policy.space.either(side, one)?;
        }
    }
    let values = policy.space.values(FLAGS, side)?;
    for flags in 0..64u32 {
        if opens(flags) && values.has(flags) {
            return Ok(None);
        }
    }
    Ok(Some(side))
}

/// TCP packets that open no connection.
pub(crate) fn later_packets(policy: &mut Policy) -> Result<Option<Region>, Stop> {
    let Some(side) = not_opening(policy)? else {
        return Ok(None);
    };
    let tcp = policy.space.range(PROTO, 6, 6)?;
    Ok(Some(policy.everything().with(PROTO, tcp).with(FLAGS, side)))
}

/// Leaves out TCP packets that open no connection, where all of them may be dropped and something else may not; whether it did.
pub(crate) fn leave_out(policy: &mut Policy, diagram: &mut Diagram) -> Result<bool, Stop> {
    if policy.space.least_mask(*diagram) != Mask::NONE {
        return Ok(false);
    }
    let Some(region) = later_packets(policy)? else {
        return Ok(false);
    };
    let allowed = policy.space.allow(*diagram, &region)?;
    if allowed == Mask::ALL || !policy.space.has(allowed, DROP) {
        return Ok(false);
    }
    *diagram = policy.space.paint(*diagram, &region)?;
    Ok(true)
}

/// The list of what passes in, where entries have tags: a colour for each tag.
pub(crate) fn tagged_list(
    policy: &mut Policy,
    universe: Side,
    diagram: Diagram,
    marks: &[Marked],
) -> Result<List, Stop> {
    let mut colours = Vec::new(policy.alloc);
    for class in marks {
        colours.push(plain_colour(ACCEPT.saturating_add(class.mark)))?;
    }
    colours.push(plain_colour(DROP))?;
    let task = task_for(policy.alloc, diagram, colours, &[DROP])?;
    solved_by(policy, Settings::pf(), universe, &task)
}

/// What one list has to say for both directions: it gives up where they differ.
fn in_both_directions(
    policy: &mut Policy,
    coming: Diagram,
    leaving: Diagram,
) -> Result<Diagram, Stop> {
    let departures = policy.departures();
    let own = policy.space.keep(leaving, &departures)?;
    let both = policy.space.meet(coming, own)?;
    let all = policy.space.project(both, ENTRY, Meeting::Both)?;
    if policy.fails(all)? {
        return Err(Stop::Late);
    }
    Ok(all)
}

/// What is passed and blocked of packets that come in, which behind the translation of destinations are as `verdict` says.
fn coming_list(
    policy: &mut Policy,
    verdict: Diagram,
    leaving: Diagram,
    marks: &[Marked],
    free: &Free,
    is_one: bool,
) -> Result<Found, Stop> {
    let universe = if policy.forwarding {
        policy.space.full(DST)
    } else {
        policy.local
    };
    let entries = free.others(policy)?;
    let region = policy.everything().with(ENTRY, entries).with(DST, universe);
    let mut coming = policy.space.keep(verdict, &region)?;
    if is_one {
        if !marks.is_empty() {
            return Err(Stop::Late);
        }
        coming = in_both_directions(policy, coming, leaving)?;
    }
    let opens_only = leave_out(policy, &mut coming)?;
    if !marks.is_empty() {
        let tagged = by_tags(policy, coming, marks)?;
        let list = tagged_list(policy, universe, tagged, marks)?;
        return Ok(Found { list, opens_only });
    }
    let universe = if is_one {
        policy.space.full(DST)
    } else {
        universe
    };
    let mut task = verdict_task(policy.alloc, coming, &[DROP, ACCEPT])?;
    task.hints = if is_one {
        let everywhere = policy.space.full(ENTRY);
        policy.hints_from(everywhere)?
    } else {
        policy.coming_hints()?
    };
    let list = solved_by(policy, Settings::pf(), universe, &task)?;
    Ok(Found { list, opens_only })
}

/// What is passed and blocked of the host's own packets.
pub(crate) fn leaving_list(policy: &mut Policy, leaving: Diagram) -> Result<Found, Stop> {
    let mut own = leaving;
    let opens_only = leave_out(policy, &mut own)?;
    // what nothing passes is blocked without a rule of its own
    let mut task = verdict_task(policy.alloc, own, &[DROP, ACCEPT])?;
    task.hints = policy.sending_hints()?;
    let everywhere = policy.space.full(DST);
    let list = solved_by(policy, Settings::pf().with_exits(), everywhere, &task)?;
    Ok(Found { list, opens_only })
}

/// What is passed and blocked: `verdict` is what becomes of packets behind the translation of destinations, and `leaving` what
/// the filter sees of the host's own packets. One list in both directions where that is asked.
pub(crate) fn filtered(
    policy: &mut Policy,
    verdict: Diagram,
    leaving: Diagram,
    marks: &[Marked],
    free: &Free,
    is_one: bool,
) -> Result<Filter, Stop> {
    let coming = coming_list(policy, verdict, leaving, marks, free, is_one)?;
    let least = policy.space.least_mask(leaving);
    let all_leave = policy.space.has(least, ACCEPT);
    let leaving = if is_one || all_leave {
        None
    } else {
        Some(leaving_list(policy, leaving)?)
    };
    Ok(Filter {
        is_one,
        coming,
        leaving,
        asks_again: false,
    })
}
