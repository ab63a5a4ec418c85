//! Translations ahead of `check-state`, and filters behind it: packets are translated and translated back before a connection is
//! looked up.

use crate::again::{asked_again, colours, put_coming_list, tags, wherever};
use crate::ahead::{ahead, leaving_ahead, unless_dropped_later};
use crate::answers::{put_answers, put_replies};
use crate::diagrams::colour_of;
use crate::instances::{Instances, instances_of, put_instances};
use crate::lists::{asks_host, nat, put_ahead, put_list};
use crate::script::{Mark, Script};
use crate::sending::put_sources;
use crate::single::{Single, single_of};
use crate::translations::{Translated, redirected, redirected_by, sent, sent_by_one};
use crate::writer::{Way, Writer};
use fws_net::Site;
use fws_num::{Memory, Text};
use fws_suggest::{
    ACCEPT, DROP, DST, Diagram, ENTRY, Established, List, Meeting, Phrases, Policy, Rule, Settings,
    Stop, Style, solved, task_for, verdict_task,
};
use std::alloc::Global;

/// What is put for packets that come in, ahead of `check-state`.
#[derive(Drop)]
struct Incoming {
    before: Vec<Rule>,
    found: Instances,
    translated: Translated,
    /// What one instance writes for all, where there is one alone.
    single: Option<Single>,
    /// Whether tables are small, so that more is tried.
    is_small: bool,
}

/// What is put for packets that leave, ahead of `check-state`.
#[derive(Drop)]
struct Outgoing {
    before: Vec<Rule>,
    translated: Translated,
    /// Whether packets get the tag as they come in, whether they are new or established: what is asked ahead of `check-state` asks for it.
    tags_all: bool,
}

/// What is put behind `check-state`.
#[derive(Drop)]
struct Filters {
    inward: List,
    /// The list for the host's own packets; none where all of them pass.
    own: Option<List>,
    /// Whether packets from loopback pass as they come in, and are asked as the host's own are.
    passes_loopback: bool,
    /// Whether all packets are asked as the host's own are, but for those that get a tag as they come in.
    asks_again: bool,
}

/// The action of a rule that translates by an instance, and may tag what it translates.
fn translating(alloc: Global, number: u32, is_tagged: bool) -> Result<Text, Memory> {
    let mut action = nat(alloc, number)?;
    if is_tagged {
        action.put(b" tag 2")?;
    }
    Ok(action)
}

/// Appends rules that translate by an instance.
fn put_nat(
    script: &mut Script,
    alloc: Global,
    body: &Phrases,
    number: u32,
    is_tagged: bool,
) -> Result<(), Memory> {
    let action = translating(alloc, number, is_tagged)?;
    script.put_all(action.as_slice(), body, b"")
}

/// Appends the rules that translate, whose colours are the numbers of instances with so many more, 0 for none.
fn put_translations(
    script: &mut Script,
    writer: &Writer,
    policy: &mut Policy,
    style: &mut Style,
    translated: &Translated,
    way: Way,
    more: u32,
) -> Result<(), Stop> {
    let mark = if way == Way::Coming {
        Mark::Translated
    } else {
        Mark::Check
    };
    for rule in &translated.rules {
        let body = writer.body(policy, style, &rule.region, way)?;
        if rule.colour == 0 {
            script.put_skips(mark, &body)?;
        } else {
            let number = rule.colour.saturating_add(more);
            put_nat(script, writer.alloc, &body, number, translated.is_tagged)?;
        }
    }
    Ok(())
}

/// What is asked of packets that come in, behind their translation: but of those from loopback, where these are asked as they leave.
fn coming_asked(
    policy: &mut Policy,
    behind: Diagram,
    passes_loopback: bool,
) -> Result<Diagram, Stop> {
    let mut region = policy.arrivals();
    if passes_loopback {
        let loopback = policy.space.range(ENTRY, 1, 1)?;
        let others = policy.space.minus(policy.arriving, loopback)?;
        region = region.with(ENTRY, others);
    }
    if !policy.forwarding {
        region = region.with(DST, policy.local);
    }
    let verdict = policy.verdict(behind)?;
    policy.space.keep(verdict, &region)
}

/// The list for packets that come in, by what is asked of them, where these rules drop packets as they leave.
fn coming_list(
    policy: &mut Policy,
    style: &mut Style,
    asked: Diagram,
    leaving: &[Rule],
) -> Result<List, Stop> {
    let diagram = unless_dropped_later(policy, asked, leaving)?;
    let mut task = verdict_task(policy.alloc, diagram, &[DROP, ACCEPT])?;
    task.hints = policy.coming_hints()?;
    solved(policy, style, &task)
}

/// The list for packets that come in, where those that pass are asked again as they leave by the host's own list.
fn coming_list_again(
    policy: &mut Policy,
    style: &mut Style,
    asked: Diagram,
    going: &Outgoing,
    own: &List,
) -> Result<List, Stop> {
    let again = asked_again(policy, asked, &going.translated, own)?;
    let diagram = unless_dropped_later(policy, again, &going.before)?;
    let all = colours(policy.alloc)?;
    let mut task = task_for(policy.alloc, diagram, all, &[DROP, ACCEPT])?;
    task.hints = policy.coming_hints()?;
    solved(policy, style, &task)
}

/// The list for the host's own packets behind translation; none where all of them pass.
fn own_list(policy: &mut Policy, style: &mut Style, seen: Diagram) -> Result<Option<List>, Stop> {
    let least = policy.space.least_mask(seen);
    if policy.space.has(least, ACCEPT) {
        return Ok(None);
    }
    // what no rule lets out is dropped behind them
    let mut task = verdict_task(policy.alloc, seen, &[DROP, ACCEPT])?;
    task.hints = policy.sending_hints()?;
    let list = solved(policy, style, &task)?;
    Ok(Some(list))
}

/// What is put for packets that come in, ahead of `check-state`.
fn coming_plan(
    policy: &mut Policy,
    style: &mut Style,
    established: Established,
) -> Result<Incoming, Stop> {
    let is_small = policy.space.size() < FEW_WORDS;
    let before = ahead(policy, established.ahead)?;
    let found = instances_of(policy)?;
    let translated = redirected(policy, style, &found)?;
    Ok(Incoming {
        before,
        found,
        translated,
        single: None,
        is_small,
    })
}

/// What is put for packets that come in, ahead of `check-state`, where one instance translates all. It gives up where that isn't right.
fn coming_plan_of_one(policy: &mut Policy, established: Established) -> Result<Incoming, Stop> {
    let is_small = policy.space.size() < FEW_WORDS;
    let before = ahead(policy, established.ahead)?;
    let found = instances_of(policy)?;
    let single = single_of(policy, &found)?;
    let mut rules = Vec::new(policy.alloc);
    rules.push(single.inward(policy))?;
    let translated = redirected_by(policy, &found, &rules)?;
    Ok(Incoming {
        before,
        found,
        translated,
        single: Some(single),
        is_small,
    })
}

/// What is asked of packets as they leave.
fn leaving(policy: &mut Policy, behind: Diagram) -> Result<Diagram, Stop> {
    let mut delivered = policy.arrivals();
    if policy.forwarding {
        delivered = delivered.with(DST, policy.local);
    }
    policy.space.paint(behind, &delivered)
}

/// What is dropped of packets that leave, ahead of `check-state`. It gives up where that depends on where they come from and the tag is put
/// on new packets alone.
fn going_before(
    policy: &mut Policy,
    style: &mut Style,
    established: Option<Diagram>,
    behind: Diagram,
    may_ask: bool,
) -> Result<Vec<Rule>, Stop> {
    let seen = leaving(policy, behind)?;
    let cut = leaving_ahead(policy, style, established, seen)?;
    if !may_ask && asks_host(policy, &cut.rules) {
        return Err(Stop::Late);
    }
    Ok(cut.rules)
}

/// What is asked of the host's own packets, and where that is meant of those from loopback as of these.
fn own_verdict(
    policy: &mut Policy,
    verdict: Diagram,
    with_loopback: bool,
) -> Result<Diagram, Stop> {
    let departures = policy.departures();
    let own = policy.space.keep(verdict, &departures)?;
    if !with_loopback {
        return Ok(own);
    }
    let foreign = policy.foreign()?;
    let loopback = policy.space.range(ENTRY, 1, 1)?;
    let passing = policy.everything().with(ENTRY, loopback).with(DST, foreign);
    let through = policy.space.keep(verdict, &passing)?;
    let both = policy.space.meet(own, through)?;
    let all = policy.space.project(both, ENTRY, Meeting::Both)?;
    policy.space.keep(all, &departures)
}

/// Whether packets from loopback pass as they come in and are asked where they leave, as the host's own are: where all pass that are
/// delivered, and not all that are forwarded.
fn may_pass_loopback(policy: &mut Policy, behind: Diagram) -> Result<bool, Stop> {
    let verdict = policy.verdict(behind)?;
    let loopback = policy.space.range(ENTRY, 1, 1)?;
    let all = policy.everything().with(ENTRY, loopback);
    let delivered = all.with(DST, policy.local);
    if !policy.forwarding
        || policy.space.is_allowed(verdict, &all, ACCEPT)?
        || !policy.space.is_allowed(verdict, &delivered, ACCEPT)?
    {
        return Ok(false);
    }
    let own = own_verdict(policy, verdict, true)?;
    Ok(!policy.fails(own)?)
}

/// How the sources of packets are translated: by one instance, where there is one for all.
fn going_translated(
    policy: &mut Policy,
    style: &mut Style,
    behind: Diagram,
    passes_loopback: bool,
    single: Option<Single>,
) -> Result<Translated, Stop> {
    let verdict = policy.verdict(behind)?;
    let own = own_verdict(policy, verdict, passes_loopback)?;
    let Some(single) = single else {
        return sent(policy, style, behind, own);
    };
    let translated = sent_by_one(policy, style, behind, own, single.map)?;
    if !single.meets_all(policy, &translated.rules)? {
        return Err(Stop::Late);
    }
    Ok(translated)
}

/// What is put for packets that leave, ahead of `check-state`.
fn going_plan(
    policy: &mut Policy,
    style: &mut Style,
    established: Established,
    coming: &Incoming,
    passes_loopback: bool,
    may_ask: bool,
) -> Result<Outgoing, Stop> {
    let behind = coming.translated.behind;
    let before = going_before(policy, style, established.behind, behind, may_ask)?;
    let translated = going_translated(policy, style, behind, passes_loopback, coming.single)?;
    let tags_all = may_ask && (asks_host(policy, &before) || asks_host(policy, &translated.rules));
    Ok(Outgoing {
        before,
        translated,
        tags_all,
    })
}

/// What is put behind `check-state`, where all packets are asked as the host's own are.
fn filters_again(
    policy: &mut Policy,
    inward: &mut Style,
    asked: Diagram,
    going: &Outgoing,
    own: &List,
    passes_loopback: bool,
) -> Result<Filters, Stop> {
    let list = coming_list_again(policy, inward, asked, going, own)?;
    Ok(Filters {
        inward: list,
        own: Some(List {
            rules: wherever(policy, &own.rules)?,
            default: own.default,
            cost: own.cost,
        }),
        passes_loopback,
        asks_again: true,
    })
}

/// The most words of diagrams of small tables.
const FEW_WORDS: usize = 20_000;

/// What the list for packets that come in costs with the rules for its tags.
fn cost_with_tags(filters: &Filters, has_tag: bool, has_replies: bool) -> u64 {
    let more: u64 = if filters.asks_again {
        if has_replies || tags(&filters.inward) {
            1000
        } else {
            0
        }
    } else if has_tag {
        1000
    } else {
        2000
    };
    filters.inward.cost.saturating_add(more)
}

/// The filters that cost less, where new packets have the tag or haven't in any case, and answers to redirected packets have one, if there
/// are some: those that are there, or those that may be found.
fn cheaper(
    filters: Filters,
    again: Result<Filters, Stop>,
    has_tag: bool,
    has_replies: bool,
) -> Result<Filters, Stop> {
    match again {
        Ok(again) => {
            let before = cost_with_tags(&filters, has_tag, has_replies);
            let cost = cost_with_tags(&again, has_tag, has_replies);
            Ok(if cost < before { again } else { filters })
        }
        Err(Stop::Late) => Ok(filters),
        Err(Stop::Memory) => Err(Stop::Memory),
    }
}

/// What is put behind `check-state`, where new packets have the tag or haven't in any case.
fn filters_of(
    policy: &mut Policy,
    inward: &mut Style,
    outward: &mut Style,
    behind: Diagram,
    going: &Outgoing,
    passes_loopback: bool,
    has_tag: bool,
    has_replies: bool,
    may_ask_again: bool,
) -> Result<Filters, Stop> {
    let asked = coming_asked(policy, behind, passes_loopback)?;
    let list = coming_list(policy, inward, asked, &going.before)?;
    let own = own_list(policy, outward, going.translated.behind)?;
    let again = match &own {
        Some(own) if may_ask_again => {
            filters_again(policy, inward, asked, going, own, passes_loopback)
        }
        _ => Err(Stop::Late),
    };
    let filters = Filters {
        inward: list,
        own,
        passes_loopback,
        asks_again: false,
    };
    cheaper(filters, again, has_tag, has_replies)
}

/// Appends the lines of instances, and gives how many there are with redirects.
fn put_all_instances(
    script: &mut Script,
    writer: &Writer,
    policy: &mut Policy,
    coming: &Incoming,
) -> Result<usize, Stop> {
    if let Some(single) = coming.single {
        single.put(script, policy, writer.site, &coming.found)?;
        return Ok(1);
    }
    put_instances(&mut script.instances, &coming.found)?;
    let redirecting = coming.found.configs.len();
    script.numbers = redirecting;
    put_sources(script, policy, writer.site, redirecting)?;
    Ok(redirecting)
}

/// Appends what stands ahead of `check-state` for packets that come in.
fn put_coming(
    script: &mut Script,
    writer: &Writer,
    policy: &mut Policy,
    style: &mut Style,
    coming: &Incoming,
    going: &Outgoing,
) -> Result<(), Stop> {
    let redirecting = put_all_instances(script, writer, policy, coming)?;
    if going.tags_all {
        script.put(TAGGING)?;
    }
    let before = &coming.before;
    put_ahead(
        script,
        writer,
        policy,
        style,
        before,
        Way::Coming,
        Mark::Listed,
    )?;
    // replies are translated back ahead of `check-state`
    script.end_list();
    let translated = &coming.translated;
    put_translations(script, writer, policy, style, translated, Way::Coming, 0)?;
    if coming.single.is_none() {
        let rules = &going.translated.rules;
        put_answers(script, writer, policy, rules, colour_of(redirecting))?;
    }
    script.end_translations();
    Ok(())
}

/// What is asked ahead of `check-state` for packets that leave.
#[derive(Clone, Copy)]
struct Asked {
    /// Whether some of it asks for the tag of packets that have come in.
    by_tag: bool,
    /// Whether answers to redirected packets are translated back, and get a tag.
    has_replies: bool,
}

/// The tag by which answers to redirected packets pass out, where not all passes: they have the written source then, of which nothing is
/// known at `check-state`.
fn tag_of_answers(filters: &Filters) -> Option<u64> {
    if filters.own.is_none() {
        None
    } else if filters.asks_again {
        Some(3)
    } else {
        Some(1)
    }
}

/// Whether all of the host's own packets pass.
fn passes_own(policy: &mut Policy, behind: Diagram) -> Result<bool, Stop> {
    let verdict = policy.verdict(behind)?;
    let own = own_verdict(policy, verdict, false)?;
    let least = policy.space.least_mask(own);
    Ok(policy.space.has(least, ACCEPT))
}

/// Appends what stands ahead of `check-state` for packets that leave.
fn put_going(
    script: &mut Script,
    writer: &Writer,
    policy: &mut Policy,
    style: &mut Style,
    coming: &Incoming,
    going: &Outgoing,
    filters: &Filters,
    may_answer: bool,
) -> Result<Asked, Stop> {
    let before = &going.before;
    put_ahead(
        script,
        writer,
        policy,
        style,
        before,
        Way::Leaving,
        Mark::Left,
    )?;
    script.end_leaving_list();
    let found = &coming.found;
    let tag = tag_of_answers(filters);
    let has_replies = may_answer && put_replies(script, writer, policy, found, tag)?;
    let translated = &going.translated;
    let more = if coming.single.is_some() {
        0
    } else {
        colour_of(found.maps.len())
    };
    put_translations(
        script,
        writer,
        policy,
        style,
        translated,
        Way::Leaving,
        more,
    )?;
    let asks = has_replies || asks_host(policy, &translated.rules);
    Ok(Asked {
        by_tag: !going.tags_all && asks,
        has_replies,
    })
}

/// Appends the rules for the host's own packets, and for those that have passed as they came in.
fn put_own(
    script: &mut Script,
    writer: &Writer,
    policy: &mut Policy,
    style: &mut Style,
    list: &List,
    asks_again: bool,
) -> Result<(), Stop> {
    if policy.forwarding && !asks_again {
        script.put(b"allow ip from any to any out tagged 1 keep-state")?;
    }
    put_list(script, writer, policy, style, list, Way::Leaving, 0)
}

/// Appends the rule that lets packets from loopback pass as they come in, ahead of a tag.
fn put_loopback(script: &mut Script, writer: &Writer) -> Result<(), Memory> {
    let mut passing = Text::of(writer.alloc, b"allow ip from any to any in ")?;
    writer.put_option(&mut passing, b"recv", 1)?;
    passing.put(b" keep-state")?;
    script.put(passing.as_slice())
}

/// The rule that tags what comes in.
const TAGGING: &[u8] = b"count tag 1 ip from any to any in";

/// Appends what stands behind `check-state`, where something asks for the tag or nothing does.
fn put_filters(
    script: &mut Script,
    writer: &Writer,
    policy: &mut Policy,
    inward: &mut Style,
    outward: &mut Style,
    filters: &Filters,
    asked: Asked,
    are_tagged: bool,
) -> Result<(), Stop> {
    script.put_check()?;
    if filters.passes_loopback {
        put_loopback(script, writer)?;
    }
    let by_tag = !filters.asks_again && (filters.passes_loopback || filters.own.is_some());
    if !are_tagged && (asked.by_tag || by_tag) {
        script.put(TAGGING)?;
    }
    let list = &filters.inward;
    if filters.asks_again {
        put_coming_list(script, writer, policy, inward, list, asked.has_replies)?;
    } else {
        put_list(script, writer, policy, inward, list, Way::Coming, 0)?;
    }
    match &filters.own {
        Some(own) => put_own(script, writer, policy, outward, own, filters.asks_again),
        None => {
            script.put(b"allow ip from any to any out keep-state")?;
            Ok(())
        }
    }
}

/// Appends all rules, by the ways to write both directions, where all packets that come in are translated so.
fn put_planned(
    script: &mut Script,
    writer: &Writer,
    policy: &mut Policy,
    inward: &mut Style,
    outward: &mut Style,
    established: Established,
    coming: &Incoming,
) -> Result<(), Stop> {
    let behind = coming.translated.behind;
    // answers from hosts to which packets are redirected are known by having no tag, but where one instance translates all and all passes
    let needs_none = coming.single.is_some() && passes_own(policy, behind)?;
    let has_replies = !needs_none && !coming.found.homes.is_empty();
    let may_ask = !has_replies;
    let mut passes = may_pass_loopback(policy, behind)?;
    let mut going = going_plan(policy, outward, established, coming, passes, may_ask)?;
    if passes && (going.tags_all || asks_host(policy, &going.translated.rules)) {
        // packets from loopback have no tag then
        passes = false;
        going = going_plan(policy, outward, established, coming, passes, may_ask)?;
    }
    let has_tag = going.tags_all || has_replies || asks_host(policy, &going.translated.rules);
    let filters = filters_of(
        policy,
        inward,
        outward,
        behind,
        &going,
        passes,
        has_tag,
        has_replies,
        policy.forwarding && coming.is_small,
    )?;
    put_coming(script, writer, policy, inward, coming, &going)?;
    let asked = put_going(
        script,
        writer,
        policy,
        outward,
        coming,
        &going,
        &filters,
        has_replies,
    )?;
    put_filters(
        script,
        writer,
        policy,
        inward,
        outward,
        &filters,
        asked,
        going.tags_all,
    )
}

/// Appends all rules, by the ways to write both directions, and by one instance for all where that is asked.
fn put_both(
    script: &mut Script,
    writer: &Writer,
    policy: &mut Policy,
    inward: &mut Style,
    outward: &mut Style,
    established: Established,
    by_one: bool,
) -> Result<(), Stop> {
    let coming = if by_one {
        coming_plan_of_one(policy, established)?
    } else {
        coming_plan(policy, inward, established)?
    };
    put_planned(
        script,
        writer,
        policy,
        inward,
        outward,
        established,
        &coming,
    )
}

/// Appends all rules, by the way to write what comes in.
fn put_inward(
    script: &mut Script,
    writer: &Writer,
    policy: &mut Policy,
    inward: &mut Style,
    established: Established,
    by_one: bool,
) -> Result<(), Stop> {
    let everywhere = policy.space.full(DST);
    let settings = Settings::ipfw().outward().with_exits();
    let mut outward = policy.style(settings, everywhere)?;
    put_both(
        script,
        writer,
        policy,
        inward,
        &mut outward,
        established,
        by_one,
    )
}

/// Appends translations ahead of `check-state`, and filters behind it, by what packets are behind the translations: by one instance
/// for all where that is asked.
pub(crate) fn put_working(
    script: &mut Script,
    policy: &mut Policy,
    site: &Site,
    established: Established,
    by_one: bool,
) -> Result<(), Stop> {
    if policy.sources.len() == 1 && policy.destinations.len() == 1 {
        // nothing is translated
        return Err(Stop::Late);
    }
    let everywhere = policy.space.full(DST);
    let mut inward = policy.style(Settings::ipfw(), everywhere)?;
    let writer = Writer::new(policy, site);
    put_inward(script, &writer, policy, &mut inward, established, by_one)
}
