//! How destinations and sources are translated.

use crate::draft::Translations;
use crate::filter::later_packets;
use crate::free::Free;
use fws_net::End;
use fws_suggest::{
    ACCEPT, DROP, DST, Diagram, ENTRY, FLAGS, ICMP, List, Marked, Mask, Meeting, Policy, Reach,
    Rule, SRC, Settings, Side, Stop, TAG, Task, end_colours, marks_of, solved, split_by_class,
    task_for,
};

/// The end at a place of a list.
pub(crate) fn end_at(ends: &[Option<End>], place: u32) -> Option<End> {
    match ends.get(place as usize) {
        Some(end) => *end,
        None => None,
    }
}

/// How rules that translate write sides: where networks are mapped without ranges, since such a rule names a network.
pub(crate) fn nat_settings(policy: &Policy) -> Settings {
    let mut settings = Settings::pf();
    settings.has_ranges = !policy.maps_networks();
    settings
}

/// The list that is found for a task where sides are written by these settings.
pub(crate) fn solved_by(
    policy: &mut Policy,
    settings: Settings,
    universe: Side,
    task: &Task,
) -> Result<List, Stop> {
    let mut style = policy.style(settings, universe)?;
    solved(policy, &mut style, task)
}

/// A diagram that doesn't ask for flags and ICMP types, which translations can't ask.
fn without_details(policy: &mut Policy, diagram: Diagram) -> Result<Diagram, Stop> {
    let flat = policy.space.project(diagram, FLAGS, Meeting::Both)?;
    let flat = policy.space.project(flat, ICMP, Meeting::Both)?;
    if policy.fails(flat)? {
        return Err(Stop::Late);
    }
    Ok(flat)
}

/// The rules for destinations that may be written.
fn redirecting(policy: &mut Policy, diagram: Diagram) -> Result<Vec<Rule>, Stop> {
    let diagram = without_details(policy, diagram)?;
    let colours = end_colours(policy.alloc, &policy.destinations)?;
    let task = task_for(policy.alloc, diagram, colours, &[0])?;
    let settings = nat_settings(policy);
    let everywhere = policy.space.full(DST);
    let list = solved_by(policy, settings, everywhere, &task)?;
    Ok(list.rules)
}

/// Tries one way to translate destinations: gives what packets are behind it, and nothing where two that must fare differently
/// have become one.
fn redirected_by(
    policy: &mut Policy,
    translations: &mut Translations,
    reach: Reach,
    is_tagged: bool,
) -> Result<Option<Diagram>, Stop> {
    let arriving = policy.arriving;
    let diagram = policy.redirections(arriving, reach)?;
    let rules = redirecting(policy, diagram)?;
    let narrow = policy.narrowed(&rules, arriving)?;
    let found = policy.behind(&narrow, is_tagged)?;
    if found.is_some() {
        translations.redirected = rules;
        translations.tags_redirected = is_tagged;
    }
    Ok(found)
}

/// Notes how destinations are translated, and gives what packets are behind that. It gives up where none of the ways is open.
fn redirect(policy: &mut Policy, translations: &mut Translations) -> Result<Diagram, Stop> {
    if policy.destinations.len() == 1 {
        return policy.direct();
    }
    let ways = [
        (Reach::Wide, false),
        (Reach::Near, false),
        (Reach::Near, true),
        (Reach::Strict, false),
    ];
    for (reach, is_tagged) in ways {
        if let Some(behind) = redirected_by(policy, translations, reach, is_tagged)? {
            return Ok(behind);
        }
    }
    Err(Stop::Late)
}

/// What packets are behind the translation of destinations, and which sources may be written over theirs.
#[derive(Clone, Copy)]
pub(crate) struct Redirected {
    /// What becomes of them, as `direct` has it.
    pub(crate) behind: Diagram,
    /// The sources that may be written.
    pub(crate) sendings: Diagram,
}

/// Notes how destinations are translated, by rules that let these packets pass or by others, and gives what packets are behind that.
pub(crate) fn take_redirects(
    policy: &mut Policy,
    translations: &mut Translations,
    passes: bool,
) -> Result<Redirected, Stop> {
    if passes {
        return redirect_passing(policy, translations);
    }
    let behind = redirect(policy, translations)?;
    let sendings = policy.sendings(behind)?;
    Ok(Redirected { behind, sendings })
}

/// Which destinations may be written where all packets over whose destination one is written pass in. TCP packets that open no
/// connection may be among these, as rules can't ask for flags there.
fn passing(policy: &mut Policy) -> Result<Diagram, Stop> {
    let arriving = policy.arriving;
    let strict = policy.redirections(arriving, Reach::Strict)?;
    let Some(later) = later_packets(policy)? else {
        return Ok(strict);
    };
    let near = policy.redirections(arriving, Reach::Near)?;
    let opening = policy.space.paint(strict, &later)?;
    let others = policy.space.keep(near, &later)?;
    policy.space.meet(opening, others)
}

/// As `redirected`, by rules that let packets pass: the filter sees all others as they come in.
fn redirect_passing(
    policy: &mut Policy,
    translations: &mut Translations,
) -> Result<Redirected, Stop> {
    let diagram = passing(policy)?;
    let rules = redirecting(policy, diagram)?;
    let arriving = policy.arriving;
    let narrow = policy.narrowed(&rules, arriving)?;
    let Some(whole) = policy.behind(&narrow, true)? else {
        return Err(Stop::Late);
    };
    let side = policy.space.range(TAG, 0, 0)?;
    let plain = policy.everything().with(TAG, side);
    let staying = policy.space.keep(whole, &plain)?;
    let behind = policy.space.project(staying, TAG, Meeting::Both)?;
    let all = policy.sendings(whole)?;
    let sendings = policy.space.project(all, TAG, Meeting::Both)?;
    translations.redirected = rules;
    translations.passes_redirected = true;
    Ok(Redirected { behind, sendings })
}

/// Where packets pass or drop, of those that differ in flags and ICMP types alone: both where some pass. Rules that translate can't tell
/// these apart.
fn of_any_detail(policy: &mut Policy, verdict: Diagram) -> Result<Diagram, Stop> {
    let wide = policy.space.project(verdict, FLAGS, Meeting::Either)?;
    policy.space.project(wide, ICMP, Meeting::Either)
}

/// What of the host's packets may be written over: where that is asked nothing over those that are dropped whatever their flags
/// and ICMP types are.
fn own_sendings(
    policy: &mut Policy,
    free: &Free,
    sendings: Diagram,
    verdict: Diagram,
    is_strict: bool,
) -> Result<Diagram, Stop> {
    let own = free.sent(policy, sendings)?;
    if !is_strict {
        return Ok(own);
    }
    let mut table = Vec::new(policy.alloc);
    table.push(policy.space.only(0)?)?;
    table.push(Mask::ALL)?;
    let wide = of_any_detail(policy, verdict)?;
    let kept = policy.translated(wide, &table)?;
    policy.space.meet(own, kept)
}

/// What of packets that are forwarded may be written over.
fn forwarded_sendings(
    policy: &mut Policy,
    free: &Free,
    sendings: Diagram,
) -> Result<Diagram, Stop> {
    if !policy.forwarding {
        let anything = policy.space.anything()?;
        return Ok(anything);
    }
    let foreign = policy.foreign()?;
    let entries = free.others(policy)?;
    let forwarded = policy.everything().with(ENTRY, entries).with(DST, foreign);
    policy.space.keep(sendings, &forwarded)
}

/// The host's own packets that are sent from an end as the filter sees them: `here` is what becomes of them.
fn seen_from(policy: &mut Policy, here: Diagram, end: End) -> Result<Diagram, Stop> {
    if end.port.is_some() {
        return Err(Stop::Late);
    }
    if end.len < 32 {
        return policy.mapped(here, SRC, end);
    }
    let image = policy.space.project(here, SRC, Meeting::Both)?;
    let side = policy.space.range(SRC, end.addr, end.addr)?;
    let region = policy.everything().with(SRC, side);
    policy.space.keep(image, &region)
}

/// What becomes of packets over which the source of this colour is written, by what would become of all.
pub(crate) fn sent_as(
    policy: &mut Policy,
    verdict: Diagram,
    painted: Diagram,
    colour: u32,
) -> Result<Diagram, Stop> {
    let away = policy.where_it_is(painted, colour)?;
    policy.space.met(verdict, away, Meeting::Either)
}

/// The host's own packets as the filter sees them behind the translation of sources.
fn seen_leaving(
    policy: &mut Policy,
    verdict: Diagram,
    rules: &[Rule],
    tags_sent: bool,
) -> Result<Diagram, Stop> {
    let painted = policy.painted(rules, 0)?;
    let mut seen = sent_as(policy, verdict, painted, 0)?;
    if tags_sent {
        return Ok(seen);
    }
    for place in 1..policy.sources.len() {
        let colour = u32::try_from(place).unwrap_or(u32::MAX);
        if let Some(end) = end_at(&policy.sources, colour) {
            let here = sent_as(policy, verdict, painted, colour)?;
            let placed = seen_from(policy, here, end)?;
            seen = policy.space.meet(seen, placed)?;
        }
    }
    Ok(seen)
}

/// Rules for sources, and the tags of the entries that they name.
#[derive(Drop)]
struct Sending {
    rules: Vec<Rule>,
    marks: Vec<Marked>,
}

/// The rules that write sources, which ask for no entry.
fn sending_of(policy: &mut Policy, diagram: Diagram) -> Result<Vec<Rule>, Stop> {
    let colours = end_colours(policy.alloc, &policy.sources)?;
    let task = task_for(policy.alloc, diagram, colours, &[0])?;
    let settings = nat_settings(policy).with_exits();
    let everywhere = policy.space.full(DST);
    let list = solved_by(policy, settings, everywhere, &task)?;
    Ok(list.rules)
}

/// The rules that write sources where entries have to be told apart by tags.
fn sending_by_entries(policy: &mut Policy, seen: Diagram) -> Result<Sending, Stop> {
    let classes = policy.entry_classes(seen)?;
    let whole = sending_of(policy, seen)?;
    let rules = split_by_class(policy, &whole, &classes)?;
    let marks = marks_of(policy, &rules, &classes, true)?;
    Ok(Sending { rules, marks })
}

/// The rules that write sources as the diagram says.
fn sending_rules(policy: &mut Policy, seen: Diagram) -> Result<Sending, Stop> {
    let diagram = policy.space.project(seen, ENTRY, Meeting::Both)?;
    if policy.fails(diagram)? {
        return sending_by_entries(policy, seen);
    }
    let rules = sending_of(policy, diagram)?;
    let marks = Vec::new(policy.alloc);
    Ok(Sending { rules, marks })
}

/// Tries one way to translate sources: gives what the filter sees then of the host's own packets, and nothing where two of
/// them that must fare differently have become one.
fn sent_by(
    policy: &mut Policy,
    translations: &mut Translations,
    free: &Free,
    sendings: Diagram,
    verdict: Diagram,
    is_strict: bool,
    tags_sent: bool,
) -> Result<Option<Diagram>, Stop> {
    let forwarded = forwarded_sendings(policy, free, sendings)?;
    let own = own_sendings(policy, free, sendings, verdict, is_strict)?;
    let both = policy.space.meet(forwarded, own)?;
    let seen = without_details(policy, both)?;
    let found = sending_rules(policy, seen)?;
    let leaving = seen_leaving(policy, verdict, &found.rules, tags_sent)?;
    if policy.fails(leaving)? {
        return Ok(None);
    }
    translations.sent = found.rules;
    translations.marks = found.marks;
    translations.tags_sent = tags_sent;
    Ok(Some(leaving))
}

/// Notes how sources are translated, and gives what the filter sees of the host's own packets. It gives up where none of the
/// ways is open.
pub(crate) fn send(
    policy: &mut Policy,
    translations: &mut Translations,
    free: &Free,
    redirected: Redirected,
) -> Result<Diagram, Stop> {
    let verdict = policy.verdict(redirected.behind)?;
    let own = free.leaving(policy, verdict)?;
    if policy.fails(own)? {
        return Err(Stop::Late);
    }
    if policy.sources.len() == 1 {
        return Ok(own);
    }
    let sendings = redirected.sendings;
    for (is_strict, tags_sent) in [(false, false), (true, false), (true, true)] {
        if let Some(seen) = sent_by(
            policy,
            translations,
            free,
            sendings,
            own,
            is_strict,
            tags_sent,
        )? {
            return Ok(seen);
        }
    }
    Err(Stop::Late)
}

/// The verdict on packets from the entries that have this tag, in which the colour of a pass stands for it.
fn tagged_as(policy: &mut Policy, verdict: Diagram, class: Marked) -> Result<Diagram, Stop> {
    let mut table = Vec::new(policy.alloc);
    table.push(policy.space.only(DROP)?)?;
    table.push(policy.space.only(ACCEPT.saturating_add(class.mark))?)?;
    let tagged = policy.translated(verdict, &table)?;
    let region = policy.everything().with(ENTRY, class.entries);
    policy.space.keep(tagged, &region)
}

/// Where packets come in from entries that have tags: the colour of a pass is one that stands for the tag.
pub(crate) fn by_tags(
    policy: &mut Policy,
    verdict: Diagram,
    marks: &[Marked],
) -> Result<Diagram, Stop> {
    let mut whole = policy.space.anything()?;
    for class in marks {
        let kept = tagged_as(policy, verdict, *class)?;
        whole = policy.space.meet(whole, kept)?;
    }
    Ok(whole)
}
