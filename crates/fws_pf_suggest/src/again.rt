//! What is forwarded is asked where it leaves, too, by the rules for the host's own packets.
//!
//! So what these drop may pass in, and what they pass needs no tag. A rule that passes in what they would drop puts the tag by which
//! it passes out.

use crate::draft::{Filter, Found, TAGGED, Translations};
use crate::filter::{later_packets, leave_out, leaving_list, tagged_list};
use crate::free::Free;
use crate::sending::{by_tags, end_at, sent_as, solved_by};
use fws_num::Memory;
use fws_suggest::{
    ACCEPT, Colour, DROP, DST, Diagram, ENTRY, List, Marked, Mask, Meeting, Policy, Region, Rule,
    SRC, Settings, Stop, plain_colour, task_for,
};
use std::alloc::Global;

/// Rules that don't ask where packets come in.
fn wherever(policy: &Policy, rules: &[Rule]) -> Result<Vec<Rule>, Memory> {
    let mut wide = Vec::new(policy.alloc);
    for rule in rules {
        wide.push(Rule {
            region: rule.region.with(ENTRY, policy.space.full(ENTRY)),
            colour: rule.colour,
        })?;
    }
    Ok(wide)
}

/// What becomes of packets where they leave, by their fields there.
fn leaving_verdict(policy: &mut Policy, free: &Free, leaving: &Found) -> Result<Diagram, Stop> {
    let rules = wherever(policy, &leaving.list.rules)?;
    let mut verdict = policy.painted(&rules, leaving.list.default)?;
    if leaving.opens_only {
        if let Some(region) = later_packets(policy)? {
            let drop = policy.space.only(DROP)?;
            verdict = policy.space.put(verdict, &region, drop)?;
        }
    }
    let unasked = policy.everything().with(DST, free.exits);
    let accept = policy.space.only(ACCEPT)?;
    policy.space.put(verdict, &unasked, accept)
}

/// What becomes of packets over whose source the one of a colour is written: by their fields ahead of that.
fn behind_source(
    policy: &mut Policy,
    translations: &Translations,
    verdict: Diagram,
    colour: u32,
) -> Result<Diagram, Stop> {
    if translations.tags_sent {
        let accept = policy.space.only(ACCEPT)?;
        return Ok(policy.space.leaf(accept)?);
    }
    let Some(end) = end_at(&policy.sources, colour) else {
        return Ok(verdict);
    };
    if end.len < 32 {
        return Err(Stop::Late);
    }
    let side = policy.space.range(SRC, end.addr, end.addr)?;
    let region = policy.everything().with(SRC, side);
    let kept = policy.space.keep(verdict, &region)?;
    policy.space.project(kept, SRC, Meeting::Both)
}

/// What becomes of forwarded packets where they leave, by their fields ahead of the translation of sources.
fn later(
    policy: &mut Policy,
    translations: &Translations,
    free: &Free,
    leaving: &Found,
) -> Result<Diagram, Stop> {
    let verdict = leaving_verdict(policy, free, leaving)?;
    let painted = policy.painted(&translations.sent, 0)?;
    let mut whole = sent_as(policy, verdict, painted, 0)?;
    for place in 1..policy.sources.len() {
        let colour = u32::try_from(place).unwrap_or(u32::MAX);
        let behind = behind_source(policy, translations, verdict, colour)?;
        let placed = sent_as(policy, behind, painted, colour)?;
        whole = policy.space.meet(whole, placed)?;
    }
    Ok(whole)
}

/// A diagram of two colours with other masks, and one mask for packets that are delivered.
fn relabelled(
    policy: &mut Policy,
    diagram: Diagram,
    drop: Mask,
    accept: Mask,
    delivered: Mask,
) -> Result<Diagram, Stop> {
    let table = [drop, accept];
    let all = policy.translated(diagram, &table)?;
    let region = policy.everything().with(DST, policy.local);
    policy.space.put(all, &region, delivered)
}

/// What may become of packets as they come in: nothing changes for what is delivered. `passes` has the colours of passes, and
/// `surely` those of passes after which a packet isn't asked where it leaves.
fn allowed_by(
    policy: &mut Policy,
    coming: Diagram,
    later: Diagram,
    passes: Mask,
    surely: Mask,
) -> Result<Diagram, Stop> {
    let drop = policy.space.only(DROP)?;
    let accept = policy.space.only(ACCEPT)?;
    let kept = policy.translated(coming, &[drop, passes])?;
    let narrow = policy.space.either_mask(drop, surely)?;
    let limit = relabelled(policy, later, narrow, Mask::ALL, Mask::ALL)?;
    let decided = policy.space.meet(kept, limit)?;
    let dropped = policy.translated(coming, &[accept, Mask::NONE])?;
    let lost = relabelled(policy, later, accept, Mask::NONE, Mask::NONE)?;
    let more = policy.space.meet(dropped, lost)?;
    let wide = policy.space.met(decided, more, Meeting::Either)?;
    let unasked = policy.translated(coming, &[Mask::NONE, Mask::NONE])?;
    policy.space.met(wide, unasked, Meeting::Either)
}

/// The colours of rules for packets that come in.
fn colours(alloc: Global) -> Result<Vec<Colour>, Memory> {
    let mut colours = Vec::new(alloc);
    colours.push(plain_colour(ACCEPT))?;
    colours.push(Colour {
        number: TAGGED,
        penalty: 100,
        writes_ports: false,
    })?;
    colours.push(plain_colour(DROP))?;
    Ok(colours)
}

/// The source's rules for packets that come in: of those that pass each puts a tag, too, where it has to.
fn hints(policy: &Policy) -> Result<Vec<Rule>, Memory> {
    let coming = policy.coming_hints()?;
    let mut hints = Vec::new(policy.alloc);
    for rule in &coming {
        hints.push(*rule)?;
        if rule.colour == ACCEPT {
            hints.push(Rule {
                region: rule.region,
                colour: TAGGED,
            })?;
        }
    }
    Ok(hints)
}

/// The list for packets that come in, which puts a tag where that is needed.
fn plain_list(policy: &mut Policy, coming: Diagram, later: Diagram) -> Result<List, Stop> {
    let passes = policy.space.mask(&[ACCEPT, TAGGED])?;
    let surely = policy.space.only(TAGGED)?;
    let diagram = allowed_by(policy, coming, later, passes, surely)?;
    let all = colours(policy.alloc)?;
    let mut task = task_for(policy.alloc, diagram, all, &[DROP, ACCEPT, TAGGED])?;
    task.hints = hints(policy)?;
    let everywhere = policy.space.full(DST);
    solved_by(policy, Settings::pf(), everywhere, &task)
}

/// The list for packets that come in, where each pass puts the tag of its entries. It gives up where one more would be needed.
fn marked_list(
    policy: &mut Policy,
    coming: Diagram,
    later: Diagram,
    marks: &[Marked],
) -> Result<List, Stop> {
    let passes = policy.space.only(ACCEPT)?;
    let diagram = allowed_by(policy, coming, later, passes, Mask::NONE)?;
    if policy.fails(diagram)? {
        return Err(Stop::Late);
    }
    let tagged = by_tags(policy, diagram, marks)?;
    let everywhere = policy.space.full(DST);
    tagged_list(policy, everywhere, tagged, marks)
}

/// The packets that are asked as they come in.
fn asked(policy: &mut Policy, free: &Free) -> Result<Region, Memory> {
    let entries = free.others(policy)?;
    Ok(policy.everything().with(ENTRY, entries))
}

/// What is passed and blocked, where what is forwarded is asked again as it leaves. It gives up where nothing is asked there.
pub(crate) fn filtered_again(
    policy: &mut Policy,
    translations: &Translations,
    verdict: Diagram,
    leaving: Diagram,
    free: &Free,
) -> Result<Filter, Stop> {
    let least = policy.space.least_mask(leaving);
    if !policy.forwarding || policy.space.has(least, ACCEPT) {
        return Err(Stop::Late);
    }
    let out = leaving_list(policy, leaving)?;
    let later = later(policy, translations, free, &out)?;
    let region = asked(policy, free)?;
    let mut coming = policy.space.keep(verdict, &region)?;
    let opens_only = leave_out(policy, &mut coming)?;
    let list = if translations.marks.is_empty() {
        plain_list(policy, coming, later)?
    } else {
        marked_list(policy, coming, later, &translations.marks)?
    };
    Ok(Filter {
        is_one: false,
        coming: Found { list, opens_only },
        leaving: Some(out),
        asks_again: true,
    })
}
