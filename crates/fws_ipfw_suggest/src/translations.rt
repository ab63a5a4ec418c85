//! Translations ahead of `check-state`, and what packets are behind them.

use crate::diagrams::{colour_of, parted, plain_colours};
use crate::ends::images;
use crate::instances::{Instances, by_instances, relabelled, written_by};
use fws_net::End;
use fws_suggest::{
    DPORT, DST, Diagram, FLAGS, ICMP, List, Mask, Meeting, PROTO, Policy, Reach, Region, Rule, SRC,
    Side, Stop, Style, end_colours, solved, task_for,
};

/// Rules that translate, and what packets are behind them.
#[derive(Drop)]
pub(crate) struct Translated {
    pub(crate) rules: Vec<Rule>,
    pub(crate) behind: Diagram,
    /// Whether the rules tag what they translate.
    pub(crate) is_tagged: bool,
}

/// How packets that come in are translated by these rules, for all of which their instances redirect. It gives up where that isn't right.
pub(crate) fn redirected_by(
    policy: &mut Policy,
    found: &Instances,
    rules: &[Rule],
) -> Result<Translated, Stop> {
    let direct = policy.direct()?;
    let arriving = policy.arriving;
    let allowed = policy.redirections(arriving, Reach::Wide)?;
    let narrow = policy.narrowed(rules, arriving)?;
    let painted = policy.painted(&narrow, 0)?;
    let ends = written_by(policy, found, painted)?;
    let fit = policy.space.meet(allowed, ends)?;
    if policy.fails(fit)? {
        return Err(Stop::Late);
    }
    for is_tagged in [false, true] {
        let behind = behind(policy, found, direct, rules, is_tagged)?;
        if !policy.fails(behind)? {
            return Ok(Translated {
                rules: Vec::from_slice(policy.alloc, rules)?,
                behind,
                is_tagged,
            });
        }
    }
    Err(Stop::Late)
}

/// Which instances may translate packets that come in: a colour is the place of one and one more, 0 for none.
fn inward(policy: &mut Policy, found: &Instances, reach: Reach) -> Result<Diagram, Stop> {
    let arriving = policy.arriving;
    let allowed = policy.redirections(arriving, reach)?;
    let none = policy.space.only(0)?;
    let count = policy.destinations.len();
    let stays = parted(policy, allowed, none, Mask::NONE, count)?;
    let translated = by_instances(policy, found, allowed, 1)?;
    policy.space.met(stays, translated, Meeting::Either)
}

/// The list of colours from one number on, where there are so many instances.
fn inward_list(
    policy: &mut Policy,
    style: &mut Style,
    diagram: Diagram,
    from: u32,
    instances: usize,
) -> Result<List, Stop> {
    let colours = plain_colours(policy.alloc, from, colour_of(instances))?;
    let task = task_for(policy.alloc, diagram, colours, &[0])?;
    solved(policy, style, &task)
}

/// Which instances translate packets that come in: by rules that translate alone, or where there are none by others too.
fn inward_rules(
    policy: &mut Policy,
    style: &mut Style,
    found: &Instances,
    reach: Reach,
) -> Result<Vec<Rule>, Stop> {
    let diagram = inward(policy, found, reach)?;
    match inward_list(policy, style, diagram, 1, found.maps.len()) {
        Ok(list) => return Ok(list.rules),
        Err(Stop::Memory) => return Err(Stop::Memory),
        Err(Stop::Late) => {}
    }
    let list = inward_list(policy, style, diagram, 0, found.maps.len())?;
    Ok(list.rules)
}

/// Whether an instance has a destination, by its number.
fn has_home(found: &Instances, number: u32) -> bool {
    for home in &found.homes {
        if colour_of(home.instance).saturating_add(1) == number {
            return true;
        }
    }
    false
}

/// The region with less at a field, where something is left.
fn narrowed(policy: &mut Policy, region: Region, field: usize, side: Side) -> Result<Region, Stop> {
    let both = policy.space.both(region.side(field), side)?;
    if both.is_empty() {
        return Ok(region);
    }
    Ok(region.with(field, both))
}

/// The region of a rule for what its instance redirects.
fn reached(policy: &mut Policy, found: &Instances, rule: &Rule) -> Result<Region, Stop> {
    if !has_home(found, rule.colour) {
        return Ok(rule.region);
    }
    let [protocols, destinations, ports] = found.reach(policy, rule.colour)?;
    let region = narrowed(policy, rule.region, PROTO, protocols)?;
    let region = narrowed(policy, region, DST, destinations)?;
    narrowed(policy, region, DPORT, ports)
}

/// The rules for what their instances redirect, as far as a rule can tell: other instances may follow.
fn tightened(policy: &mut Policy, found: &Instances, rules: &[Rule]) -> Result<Vec<Rule>, Stop> {
    let mut narrow = Vec::new(policy.alloc);
    for rule in rules {
        let region = reached(policy, found, rule)?;
        narrow.push(Rule {
            region,
            colour: rule.colour,
        })?;
    }
    Ok(narrow)
}

/// The rules that translate packets that come in.
fn redirecting(
    policy: &mut Policy,
    style: &mut Style,
    found: &Instances,
    reach: Reach,
) -> Result<Vec<Rule>, Stop> {
    let wide = inward_rules(policy, style, found, reach)?;
    tightened(policy, found, &wide)
}

/// What packets are behind rules that translate them as they come in.
fn behind(
    policy: &mut Policy,
    found: &Instances,
    direct: Diagram,
    rules: &[Rule],
    is_tagged: bool,
) -> Result<Diagram, Stop> {
    let arriving = policy.arriving;
    let narrow = policy.narrowed(rules, arriving)?;
    let painted = policy.painted(&narrow, 0)?;
    let ends = written_by(policy, found, painted)?;
    let tagging = if is_tagged { Some(painted) } else { None };
    let count = found.maps.len().saturating_add(1);
    images(policy, ends, direct, tagging, count)
}

/// How packets that come in are translated, in a way.
fn redirected_so(
    policy: &mut Policy,
    style: &mut Style,
    found: &Instances,
    direct: Diagram,
    reach: Reach,
    is_tagged: bool,
) -> Result<Translated, Stop> {
    let rules = redirecting(policy, style, found, reach)?;
    let behind = behind(policy, found, direct, &rules, is_tagged)?;
    Ok(Translated {
        rules,
        behind,
        is_tagged,
    })
}

/// How packets that come in are translated. It gives up where no way is open.
pub(crate) fn redirected(
    policy: &mut Policy,
    style: &mut Style,
    found: &Instances,
) -> Result<Translated, Stop> {
    let direct = policy.direct()?;
    if found.maps.is_empty() {
        return Ok(Translated {
            rules: Vec::new(policy.alloc),
            behind: direct,
            is_tagged: false,
        });
    }
    // answers to other connections mustn't be redirected, so that ports are asked
    let ways = [
        (Reach::Near, false),
        (Reach::Near, true),
        (Reach::Strict, false),
    ];
    for (reach, is_tagged) in ways {
        let way = redirected_so(policy, style, found, direct, reach, is_tagged)?;
        if !policy.fails(way.behind)? {
            return Ok(way);
        }
    }
    Err(Stop::Late)
}

/// Over the sources of which of the host's own packets that are dropped something may be written.
#[derive(Clone, Copy, PartialEq, Eq)]
enum Care {
    /// Of all of them.
    Free,
    /// Of those of which other ones pass with other flags or ICMP types.
    Rough,
    /// Of none.
    Strict,
}

/// What may be written over the sources of the host's own packets.
fn own_sendings(
    policy: &mut Policy,
    all: Diagram,
    own: Diagram,
    care: Care,
) -> Result<Diagram, Stop> {
    let departures = policy.departures();
    let mine = policy.space.keep(all, &departures)?;
    if care == Care::Free {
        return Ok(mine);
    }
    let none = policy.space.only(0)?;
    let mut kept = parted(policy, own, none, Mask::ALL, 2)?;
    if care == Care::Rough {
        kept = policy.space.project(kept, FLAGS, Meeting::Either)?;
        kept = policy.space.project(kept, ICMP, Meeting::Either)?;
    }
    policy.space.meet(mine, kept)
}

/// What may be written over the sources of packets that leave.
fn sendings(
    policy: &mut Policy,
    behind: Diagram,
    own: Diagram,
    care: Care,
) -> Result<Diagram, Stop> {
    let all = policy.sendings(behind)?;
    let mine = own_sendings(policy, all, own, care)?;
    if !policy.forwarding {
        return Ok(mine);
    }
    let foreign = policy.foreign()?;
    let passing = policy.arrivals().with(DST, foreign);
    let forwarded = policy.space.keep(all, &passing)?;
    policy.space.meet(forwarded, mine)
}

/// The host's own packets as the filter sees them behind the translation of sources, where an end is written.
fn seen_from(
    policy: &mut Policy,
    own: Diagram,
    painted: Diagram,
    place: usize,
    end: End,
) -> Result<Diagram, Stop> {
    let away = policy.where_it_is(painted, colour_of(place))?;
    let here = policy.space.met(own, away, Meeting::Either)?;
    let image = policy.space.project(here, SRC, Meeting::Both)?;
    let side = policy.space.range(SRC, end.addr, end.addr)?;
    let region = policy.everything().with(SRC, side);
    policy.space.keep(image, &region)
}

/// The host's own packets as the filter sees them behind the translation of sources, of which the diagram has the places.
fn seen_leaving(policy: &mut Policy, own: Diagram, painted: Diagram) -> Result<Diagram, Stop> {
    let count = policy.sources.len();
    let written = policy.where_it_is(painted, 0)?;
    let mut seen = policy.space.met(own, written, Meeting::Either)?;
    for place in 1..count {
        let Some(Some(end)) = policy.sources.get(place).copied() else {
            continue;
        };
        let placed = seen_from(policy, own, painted, place, end)?;
        seen = policy.space.meet(seen, placed)?;
    }
    Ok(seen)
}

/// The list of sources that are written.
fn sending_list(policy: &mut Policy, style: &mut Style, diagram: Diagram) -> Result<List, Stop> {
    let colours = end_colours(policy.alloc, &policy.sources)?;
    let task = task_for(policy.alloc, diagram, colours, &[0])?;
    solved(policy, style, &task)
}

/// A diagram that doesn't ask for flags and ICMP types where that may be: later packets of a connection have other ones.
fn without_details(policy: &mut Policy, diagram: Diagram) -> Result<Diagram, Stop> {
    let flat = policy.space.project(diagram, FLAGS, Meeting::Both)?;
    let flat = policy.space.project(flat, ICMP, Meeting::Both)?;
    Ok(if policy.fails(flat)? { diagram } else { flat })
}

/// A diagram in which nothing is written over sources that are written themselves, where that may be: no packet is translated twice then.
fn unless_written(policy: &mut Policy, diagram: Diagram) -> Result<Diagram, Stop> {
    let mut side = Side::EMPTY;
    for place in 1..policy.sources.len() {
        if let Some(Some(end)) = policy.sources.get(place).copied() {
            let one = policy.space.range(SRC, end.addr, end.addr)?;
            side = policy.space.either(side, one)?;
        }
    }
    let region = policy.everything().with(SRC, side);
    let none = policy.space.only(0)?;
    let anything = policy.space.anything()?;
    let limit = policy.space.put(anything, &region, none)?;
    let once = policy.space.meet(diagram, limit)?;
    Ok(if policy.fails(once)? { diagram } else { once })
}

/// How sources are translated, in a way.
fn sent_so(
    policy: &mut Policy,
    style: &mut Style,
    behind: Diagram,
    own: Diagram,
    care: Care,
) -> Result<Translated, Stop> {
    let diagram = sendings(policy, behind, own, care)?;
    let diagram = without_details(policy, diagram)?;
    let diagram = unless_written(policy, diagram)?;
    let list = sending_list(policy, style, diagram)?;
    let painted = policy.painted(&list.rules, 0)?;
    let seen = seen_leaving(policy, own, painted)?;
    Ok(Translated {
        rules: list.rules,
        behind: seen,
        is_tagged: false,
    })
}

/// What the rules write that translate by one instance: places of sources. `map` has what it writes.
fn written(policy: &mut Policy, rules: &[Rule], map: Diagram) -> Result<Diagram, Stop> {
    let painted = policy.painted(rules, 0)?;
    let none = policy.space.only(0)?;
    let stays = parted(policy, painted, none, Mask::NONE, 2)?;
    let here = parted(policy, painted, Mask::NONE, Mask::ALL, 2)?;
    let away = policy.space.meet(here, map)?;
    policy.space.met(stays, away, Meeting::Either)
}

/// Where one instance may translate sources, which has the colour 1: `map` has what it writes, by the places of sources.
fn by_one(policy: &mut Policy, diagram: Diagram, map: Diagram) -> Result<Diagram, Stop> {
    let count = policy.sources.len();
    let none = policy.space.only(0)?;
    let stays = parted(policy, diagram, none, Mask::NONE, count)?;
    let fits = policy.space.meet(diagram, map)?;
    let one = policy.space.only(1)?;
    let away = relabelled(policy, fits, one)?;
    policy.space.met(stays, away, Meeting::Either)
}

/// How sources are translated by one instance, in a way.
fn sent_by_one_so(
    policy: &mut Policy,
    style: &mut Style,
    behind: Diagram,
    own: Diagram,
    map: Diagram,
    care: Care,
) -> Result<Translated, Stop> {
    let diagram = sendings(policy, behind, own, care)?;
    let diagram = without_details(policy, diagram)?;
    let diagram = by_one(policy, diagram, map)?;
    if policy.fails(diagram)? {
        return Err(Stop::Late);
    }
    let colours = plain_colours(policy.alloc, 0, 1)?;
    let task = task_for(policy.alloc, diagram, colours, &[0])?;
    let list = solved(policy, style, &task)?;
    let painted = written(policy, &list.rules, map)?;
    let seen = seen_leaving(policy, own, painted)?;
    Ok(Translated {
        rules: list.rules,
        behind: seen,
        is_tagged: false,
    })
}

/// How sources are translated by one instance: `map` has what it writes, by the places of sources. It gives up where no way is open.
pub(crate) fn sent_by_one(
    policy: &mut Policy,
    style: &mut Style,
    behind: Diagram,
    own: Diagram,
    map: Diagram,
) -> Result<Translated, Stop> {
    for care in [Care::Free, Care::Rough, Care::Strict] {
        let way = sent_by_one_so(policy, style, behind, own, map, care)?;
        if !policy.fails(way.behind)? {
            return Ok(way);
        }
    }
    Err(Stop::Late)
}

/// How sources are translated, and what is seen then of the host's own packets. It gives up where no way is open.
pub(crate) fn sent(
    policy: &mut Policy,
    style: &mut Style,
    behind: Diagram,
    own: Diagram,
) -> Result<Translated, Stop> {
    if policy.sources.len() == 1 {
        return Ok(Translated {
            rules: Vec::new(policy.alloc),
            behind: own,
            is_tagged: false,
        });
    }
    for care in [Care::Free, Care::Rough, Care::Strict] {
        let way = sent_so(policy, style, behind, own, care)?;
        if !policy.fails(way.behind)? {
            return Ok(way);
        }
    }
    Err(Stop::Late)
}
