//! What is dropped ahead of translations, and how destinations and sources are translated.

use crate::chains::{Ahead, Redirected, Sent};
use fws_flat::Flat;
use fws_net::{Outcome, Site};
use fws_num::Memory;
use fws_suggest::{
    ACCEPT, DROP, DST, Diagram, ENTRY, FIELDS, List, Mask, Meeting, Policy, Reach, Region, Rule,
    Settings, Side, Space, Stop, Style, Task, end_colours, marks_of, plain_colour, solved,
    split_by_class, task_for,
};
use std::alloc::Global;

/// The list that is found for a task where sides are written by these settings.
pub(crate) fn solved_by(
    policy: &mut Policy,
    settings: Settings,
    universe: Side,
    task: &Task,
) -> Result<List, Stop> {
    let mut style = policy.style(settings, universe)?;
    solved(policy, &mut style, task)
}

/// Whether a rule has a side that takes very many lines.
fn is_ugly_rule(space: &mut Space, style: &mut Style, region: &Region) -> Result<bool, Stop> {
    for field in 0..FIELDS {
        let side = region.side(field);
        if side != space.full(field) && style.measure(space, field, side)?.lines >= 50 {
            return Ok(true);
        }
    }
    Ok(false)
}

/// Whether some rule has a side that takes very many lines.
fn is_ugly(policy: &mut Policy, style: &mut Style, rules: &[Rule]) -> Result<bool, Stop> {
    for rule in rules {
        if is_ugly_rule(&mut policy.space, style, &rule.region)? {
            return Ok(true);
        }
    }
    Ok(false)
}

/// What is sought of packets that are dropped ahead of translations, by rules of these colours; all others pass.
fn ahead_task(alloc: Global, diagram: Diagram, colours: &[u32]) -> Result<Task, Memory> {
    let mut plain = Vec::new(alloc);
    for colour in colours {
        plain.push(plain_colour(*colour))?;
    }
    task_for(alloc, diagram, plain, &[ACCEPT])
}

/// The list that is found for a task, if there is one.
fn found_list(policy: &mut Policy, style: &mut Style, task: &Task) -> Result<Option<List>, Stop> {
    match solved(policy, style, task) {
        Ok(list) => Ok(Some(list)),
        Err(Stop::Memory) => Err(Stop::Memory),
        Err(Stop::Late) => Ok(None),
    }
}

/// The list of what is dropped ahead of translations, by rules that drop alone: none where there is none that isn't ugly.
fn dropping_list(
    policy: &mut Policy,
    style: &mut Style,
    diagram: Diagram,
) -> Result<Option<List>, Stop> {
    let task = ahead_task(policy.alloc, diagram, &[DROP])?;
    let Some(list) = found_list(policy, style, &task)? else {
        return Ok(None);
    };
    if is_ugly(policy, style, &list.rules)? {
        Ok(None)
    } else {
        Ok(Some(list))
    }
}

/// The list of what is dropped ahead of translations, by rules that drop and rules that accept: none where there is none.
fn mixed_list(
    policy: &mut Policy,
    style: &mut Style,
    diagram: Diagram,
) -> Result<Option<List>, Stop> {
    let task = ahead_task(policy.alloc, diagram, &[DROP, ACCEPT])?;
    found_list(policy, style, &task)
}

/// The most paths on which something is dropped, so that the source's own rules aren't asked.
const FEW_PATHS: u32 = 150;

/// Whether something is dropped ahead of translations on many paths.
fn drops_much(policy: &mut Policy, diagram: Diagram) -> Result<bool, Stop> {
    let everything = policy.everything();
    let paths = policy.space.paths(diagram, ACCEPT, &everything, FEW_PATHS)?;
    Ok(paths > FEW_PATHS)
}

/// The list of what is dropped ahead of translations that begins with the source's own rules for what arrives: none where there is
/// none, or where it would be sought for few paths.
fn hinted_list(
    policy: &mut Policy,
    style: &mut Style,
    diagram: Diagram,
    source: &Flat,
) -> Result<Option<List>, Stop> {
    if !drops_much(policy, diagram)? {
        return Ok(None);
    }
    let mut task = ahead_task(policy.alloc, diagram, &[DROP, ACCEPT])?;
    policy.put_hints(&mut task.hints, source, source.arrive.as_slice(), false)?;
    if task.hints.is_empty() {
        return Ok(None);
    }
    found_list(policy, style, &task)
}

/// The list of what is dropped ahead of translations, written in this way.
fn ahead_list_by(
    policy: &mut Policy,
    style: &mut Style,
    diagram: Diagram,
    source: &Flat,
) -> Result<List, Stop> {
    if let Some(list) = hinted_list(policy, style, diagram, source)? {
        return Ok(list);
    }
    let dropping = dropping_list(policy, style, diagram)?;
    let mixed = mixed_list(policy, style, diagram)?;
    match (dropping, mixed) {
        (Some(dropping), Some(mixed)) => Ok(if mixed.cost < dropping.cost {
            mixed
        } else {
            dropping
        }),
        (Some(dropping), None) => Ok(dropping),
        (None, Some(mixed)) => Ok(mixed),
        (None, None) => Err(Stop::Late),
    }
}

/// The list of what is dropped ahead of translations: by the source's own rules where that is much, and else by rules that drop
/// alone, or with rules that accept where that is shorter.
fn ahead_list(policy: &mut Policy, diagram: Diagram, source: &Flat) -> Result<List, Stop> {
    let everywhere = policy.space.full(DST);
    let mut style = policy.style(Settings::iptables(), everywhere)?;
    ahead_list_by(policy, &mut style, diagram, source)
}

/// Of which new packets that are dropped it is asked that they are so ahead of translations.
#[derive(Clone, Copy)]
pub(crate) enum Early {
    /// Of none: any of them may be.
    May,
    /// Of all of them.
    Must,
    /// Of those that this accepts: what it drops is dropped later, whether it is new or established.
    Unless(Diagram),
}

/// What becomes of new packets ahead of translations: of those that are dropped what the mask has, and all others pass.
fn new_with(policy: &mut Policy, original: Diagram, dropped: Mask) -> Result<Diagram, Stop> {
    let accept = policy.space.only(ACCEPT)?;
    let mut table = Vec::new(policy.alloc);
    for outcome in &policy.outcomes {
        table.push(match outcome {
            Outcome::Drop => dropped,
            _ => accept,
        })?;
    }
    policy.translated(original, &table)
}

/// What becomes of new packets ahead of translations: those that are dropped may be so there, or are where that is asked; all
/// others pass.
fn new_ahead(policy: &mut Policy, original: Diagram, early: Early) -> Result<Diagram, Stop> {
    let drop = policy.space.only(DROP)?;
    match early {
        Early::May => new_with(policy, original, Mask::ALL),
        Early::Must => new_with(policy, original, drop),
        Early::Unless(later) => {
            let all = new_with(policy, original, drop)?;
            let either = policy.space.mask(&[DROP, ACCEPT])?;
            let free = policy.translated(later, &[either, Mask::NONE])?;
            let free = policy.replaced(free, Mask::ALL, Mask::NONE)?;
            let some = new_with(policy, original, either)?;
            let lost = policy.space.meet(some, free)?;
            policy.space.met(all, lost, Meeting::Either)
        }
    }
}

/// What may be dropped ahead of translations: it gives up where nothing can be right.
fn droppable(
    policy: &mut Policy,
    original: Diagram,
    established: Option<Diagram>,
    clashes: Option<Diagram>,
    early: Early,
) -> Result<Diagram, Stop> {
    let mut new = new_ahead(policy, original, early)?;
    if let Some(clashes) = clashes {
        new = policy.space.meet(new, clashes)?;
    }
    let accept = policy.space.only(ACCEPT)?;
    let passing = policy.space.leaf(accept)?;
    let whole = policy.by_state(new, established.unwrap_or(passing))?;
    let arrivals = policy.arrivals();
    let diagram = policy.space.keep(whole, &arrivals)?;
    if policy.fails(diagram)? {
        return Err(Stop::Late);
    }
    Ok(diagram)
}

/// Leaves new packets that rules drop ahead of translations out of what follows.
fn leave_out(policy: &mut Policy, original: Diagram, rules: &[Rule]) -> Result<(), Stop> {
    let arriving = policy.arriving;
    let narrow = policy.narrowed(rules, arriving)?;
    let painted = policy.painted(&narrow, ACCEPT)?;
    let seen = policy.of_new(painted)?;
    let passes = policy.where_it_is(seen, ACCEPT)?;
    policy.fresh = policy.space.met(original, passes, Meeting::Either)?;
    Ok(())
}

/// What is dropped ahead of translations: established packets as the diagram says, and new ones, of which the original says what
/// becomes of them, where nothing but dropping is allowed by `clashes`, and as early as that is asked. New packets that are dropped
/// so are left out of what follows.
pub(crate) fn ahead(
    policy: &mut Policy,
    original: Diagram,
    established: Option<Diagram>,
    clashes: Option<Diagram>,
    early: Early,
    source: &Flat,
) -> Result<Ahead, Stop> {
    let diagram = droppable(policy, original, established, clashes, early)?;
    let list = ahead_list(policy, diagram, source)?;
    leave_out(policy, original, &list.rules)?;
    Ok(Ahead { rules: list.rules })
}

/// How rules that translate write sides: where networks are mapped without ranges, since such a rule names a network.
pub(crate) fn nat_settings(policy: &Policy) -> Settings {
    let mut settings = Settings::iptables();
    settings.has_ranges = !policy.maps_networks();
    settings.calls_chains = false;
    settings
}

/// How destinations of packets from these entries are translated.
fn redirecting(
    policy: &mut Policy,
    entries: Side,
    shows_exits: bool,
    reach: Reach,
) -> Result<Vec<Rule>, Stop> {
    let diagram = policy.redirections(entries, reach)?;
    let settings = nat_settings(policy);
    let settings = if shows_exits {
        settings.with_exits()
    } else {
        settings
    };
    let colours = end_colours(policy.alloc, &policy.destinations)?;
    let task = task_for(policy.alloc, diagram, colours, &[0])?;
    let everywhere = policy.space.full(DST);
    let list = solved_by(policy, settings, everywhere, &task)?;
    Ok(list.rules)
}

/// Rules for arriving packets, and for the host's own.
#[derive(Drop)]
struct Redirections {
    arriving: Vec<Rule>,
    own: Vec<Rule>,
}

/// How destinations are translated of arriving packets, and of the host's own.
fn both_lists(policy: &mut Policy, reach: Reach) -> Result<Redirections, Stop> {
    let (coming, host) = (policy.arriving, policy.host);
    let arriving = redirecting(policy, coming, false, reach)?;
    let own = redirecting(policy, host, true, reach)?;
    Ok(Redirections { arriving, own })
}

/// What packets are behind redirections, each of which is for its entries alone: nothing where two packets that must fare
/// differently become one.
fn behind(
    policy: &mut Policy,
    found: &Redirections,
    is_tagged: bool,
) -> Result<Option<Diagram>, Stop> {
    let (coming, host) = (policy.arriving, policy.host);
    let mut all = policy.narrowed(&found.arriving, coming)?;
    let mine = policy.narrowed(&found.own, host)?;
    all.extend_from_slice(&mine)?;
    policy.behind(&all, is_tagged)
}

/// How destinations are translated, plainly: nothing where two packets that must fare differently become one.
fn redirected_by(
    policy: &mut Policy,
    reach: Reach,
    is_tagged: bool,
) -> Result<Option<Redirected>, Stop> {
    let found = both_lists(policy, reach)?;
    match behind(policy, &found, is_tagged)? {
        Some(behind) => Ok(Some(Redirected {
            arriving: found.arriving,
            own: found.own,
            is_tagged,
            behind,
        })),
        None => Ok(None),
    }
}

/// What must be dropped ahead, where that mends what would become one.
fn dropped_ahead(
    policy: &mut Policy,
    original: Diagram,
    established: Option<Diagram>,
    source: &Flat,
) -> Result<Option<Ahead>, Stop> {
    let found = both_lists(policy, Reach::Near)?;
    let Some(tagged) = behind(policy, &found, true)? else {
        return Ok(None);
    };
    let clashes = policy.clashes(tagged)?;
    match ahead(
        policy,
        original,
        established,
        Some(clashes),
        Early::May,
        source,
    ) {
        Ok(ahead) => Ok(Some(ahead)),
        Err(Stop::Late) => Ok(None),
        Err(Stop::Memory) => Err(Stop::Memory),
    }
}

/// How destinations are translated where more is dropped ahead of it: nothing where that doesn't mend it.
fn redirected_behind(
    policy: &mut Policy,
    original: Diagram,
    established: Option<Diagram>,
    before: &mut Ahead,
    source: &Flat,
) -> Result<Option<Redirected>, Stop> {
    let fresh = policy.fresh;
    let Some(ahead) = dropped_ahead(policy, original, established, source)? else {
        return Ok(None);
    };
    let found = redirected_by(policy, Reach::Near, false)?;
    if found.is_some() {
        before.rules = ahead.rules;
    } else {
        policy.fresh = fresh;
    }
    Ok(found)
}

/// How no destination is translated.
fn none_redirected(policy: &mut Policy) -> Result<Redirected, Stop> {
    let behind = policy.direct()?;
    Ok(Redirected {
        arriving: Vec::new(policy.alloc),
        own: Vec::new(policy.alloc),
        is_tagged: false,
        behind,
    })
}

/// How destinations are translated of packets that pass alone. It gives up where two packets that must fare differently become one.
fn redirected_strictly(policy: &mut Policy) -> Result<Redirected, Stop> {
    match redirected_by(policy, Reach::Strict, false)? {
        Some(found) => Ok(found),
        None => Err(Stop::Late),
    }
}

/// How destinations are translated, and what is dropped ahead of it: of packets that pass alone where that is asked. It gives up where
/// none of the ways is open.
pub(crate) fn redirected(
    policy: &mut Policy,
    original: Diagram,
    established: Option<Diagram>,
    before: &mut Ahead,
    is_strict: bool,
    source: &Flat,
) -> Result<Redirected, Stop> {
    if policy.destinations.len() == 1 {
        return none_redirected(policy);
    }
    if is_strict {
        return redirected_strictly(policy);
    }
    for reach in [Reach::Wide, Reach::Near] {
        if let Some(found) = redirected_by(policy, reach, false)? {
            return Ok(found);
        }
    }
    if let Some(found) = redirected_behind(policy, original, established, before, source)? {
        return Ok(found);
    }
    if let Some(found) = redirected_by(policy, Reach::Near, true)? {
        return Ok(found);
    }
    redirected_strictly(policy)
}

/// What sources may be written over those of packets that are forwarded.
fn forwarded(policy: &mut Policy, sendings: Diagram) -> Result<Diagram, Stop> {
    if !policy.forwarding {
        let anything = policy.space.anything()?;
        return Ok(anything);
    }
    let foreign = policy.foreign()?;
    let passing = policy.arrivals().with(DST, foreign);
    policy.space.keep(sendings, &passing)
}

/// What sources may be written over those of packets that leave.
fn leaving(policy: &mut Policy, site: &Site, sendings: Diagram) -> Result<Diagram, Stop> {
    let passing = forwarded(policy, sendings)?;
    let departures = policy.departures();
    let own = policy.space.keep(sendings, &departures)?;
    let both = policy.space.meet(passing, own)?;
    policy.with_leaving_address(both, site)
}

/// The rules that write sources of packets that leave. A colour behind those of the ends stands for the address of the interface.
fn leaving_rules(policy: &mut Policy, diagram: Diagram) -> Result<Vec<Rule>, Stop> {
    let own_address = u32::try_from(policy.sources.len()).unwrap_or(u32::MAX);
    let mut colours = Vec::new(policy.alloc);
    colours.push(plain_colour(own_address))?;
    let ends = end_colours(policy.alloc, &policy.sources)?;
    colours.extend_from_slice(&ends)?;
    let task = task_for(policy.alloc, diagram, colours, &[0])?;
    let settings = nat_settings(policy).with_exits();
    let everywhere = policy.space.full(DST);
    let list = solved_by(policy, settings, everywhere, &task)?;
    Ok(list.rules)
}

/// The rules that write sources of packets that are delivered.
fn delivered_rules(policy: &mut Policy, sendings: Diagram) -> Result<Vec<Rule>, Stop> {
    let local = policy.local;
    let delivering = policy.arrivals().with(DST, local);
    let diagram = policy.space.keep(sendings, &delivering)?;
    let colours = end_colours(policy.alloc, &policy.sources)?;
    let task = task_for(policy.alloc, diagram, colours, &[0])?;
    let settings = nat_settings(policy);
    let list = solved_by(policy, settings, local, &task)?;
    Ok(list.rules)
}

/// How sources are translated of packets that leave, where entries have to be told apart by marks.
fn sent_by_entries(policy: &mut Policy, found: &mut Sent, seen: Diagram) -> Result<(), Stop> {
    let classes = policy.entry_classes(seen)?;
    let whole = leaving_rules(policy, seen)?;
    let rules = split_by_class(policy, &whole, &classes)?;
    found.marks = marks_of(policy, &rules, &classes, false)?;
    found.leaving = rules;
    Ok(())
}

/// Notes how sources are translated.
fn put_sent(
    policy: &mut Policy,
    found: &mut Sent,
    site: &Site,
    behind: Diagram,
) -> Result<(), Stop> {
    let sendings = policy.sendings(behind)?;
    let seen = leaving(policy, site, sendings)?;
    let diagram = policy.space.project(seen, ENTRY, Meeting::Both)?;
    if policy.fails(diagram)? {
        sent_by_entries(policy, found, seen)?;
    } else {
        found.leaving = leaving_rules(policy, diagram)?;
    }
    found.delivered = delivered_rules(policy, sendings)?;
    Ok(())
}

/// How sources are translated.
pub(crate) fn sent(policy: &mut Policy, site: &Site, behind: Diagram) -> Result<Sent, Stop> {
    let mut found = Sent {
        leaving: Vec::new(policy.alloc),
        delivered: Vec::new(policy.alloc),
        marks: Vec::new(policy.alloc),
    };
    if policy.sources.len() > 1 {
        put_sent(policy, &mut found, site, behind)?;
    }
    Ok(found)
}
