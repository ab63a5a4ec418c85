//! Lists made shorter: rules that aren't needed are dropped, sides shrink, and rules are merged.

use crate::forms::cost_of;
use crate::rules::Rule;
use crate::running::keep_later;
use crate::style::Style;
use fws_diagram::{
    DPORT, DST, Diagram, ENTRY, FIELDS, ICMP, Lists, PROTO, Region, SPORT, SRC, Side, Space, Stop,
    word_at,
};
use fws_num::Memory;
use std::alloc::Global;

/// What all rules cost.
pub(crate) fn total(space: &mut Space, style: &mut Style, rules: &[Rule]) -> Result<u64, Stop> {
    let mut sum: u64 = 0;
    for rule in rules {
        let cost = cost_of(style, space, &rule.region)?;
        sum = sum.saturating_add(cost);
    }
    Ok(sum)
}

/// The diagram ahead of each rule, with everything painted that the rules before decide, until a step. Those ahead of the first
/// rules may be known.
fn prefixes(
    space: &mut Space,
    diagram: Diagram,
    rules: &[Rule],
    known: &[Diagram],
    end: u64,
) -> Result<Vec<Diagram>, Stop> {
    let mut all = Vec::from_slice(space.alloc, known)?;
    let mut now = diagram;
    let mut place: usize = 0;
    for rule in rules {
        place = place.saturating_add(1);
        if place < known.len() {
            continue;
        }
        if place == known.len() {
            now = last_of(known, diagram);
        } else {
            all.push(now)?;
        }
        if space.steps() > end {
            break;
        }
        now = space.paint(now, &rule.region)?;
    }
    Ok(all)
}

/// The last of some diagrams, or another one where there is none.
fn last_of(diagrams: &[Diagram], other: Diagram) -> Diagram {
    match diagrams.last() {
        Some(last) => *last,
        None => other,
    }
}

/// What is given behind each rule, from the last to the first; the default's colour behind the last one. Until a step.
fn suffixes(
    space: &mut Space,
    rules: &[Rule],
    default: u32,
    end: u64,
) -> Result<Vec<Diagram>, Stop> {
    let mut all = Vec::new(space.alloc);
    let mask = space.only(default)?;
    let mut now = space.leaf(mask)?;
    for rule in rules.iter().rev() {
        if space.steps() > end {
            break;
        }
        all.push(now)?;
        let mask = space.only(rule.colour)?;
        now = space.put(now, &rule.region, mask)?;
    }
    Ok(all)
}

/// The most pieces of a side of which each is tried alone.
const PIECES: usize = 64;

/// The region without the pieces at which what comes behind is right as well, where that is cheaper.
fn shrunk(
    space: &mut Space,
    style: &mut Style,
    ahead: Diagram,
    behind: Diagram,
    region: &Region,
) -> Result<Region, Stop> {
    let mut now = *region;
    for field in 0..FIELDS {
        if now.side(field) == space.full(field) {
            continue;
        }
        let pieces = style.pieces_of(space, field, now.side(field))?;
        if pieces.len() > 1 && pieces.len() <= PIECES {
            now = without_pieces(space, style, ahead, behind, &now, field, &pieces)?;
        }
    }
    Ok(now)
}

/// The region without those of the pieces of a side at which what comes behind is right as well, where that is cheaper.
fn without_pieces(
    space: &mut Space,
    style: &mut Style,
    ahead: Diagram,
    behind: Diagram,
    region: &Region,
    field: usize,
    pieces: &[Side],
) -> Result<Region, Stop> {
    let mut now = *region;
    let mut cost = cost_of(style, space, &now)?;
    for piece in pieces {
        let part = now.with(field, *piece);
        if space.conflicts(ahead, behind, &part)? {
            continue;
        }
        let rest = space.minus(now.side(field), *piece)?;
        if rest.is_empty() {
            continue;
        }
        let narrow = now.with(field, rest);
        let less = cost_of(style, space, &narrow)?;
        if less < cost {
            now = narrow;
            cost = less;
        }
    }
    Ok(now)
}

/// Drops rules that aren't needed, from the last to the first, and shrinks the others, until a step.
pub(crate) fn drop_from_last(
    space: &mut Space,
    style: &mut Style,
    diagram: Diagram,
    default: u32,
    known: &[Diagram],
    end: u64,
    rules: &mut Vec<Rule>,
) -> Result<(), Stop> {
    let ahead = prefixes(space, diagram, rules, known, end)?;
    if ahead.len() < rules.len() {
        return Ok(());
    }
    drop_behind(space, style, &ahead, default, end, rules)
}

/// Drops rules that aren't needed, from the last to the first, by the diagram ahead of each of them.
fn drop_behind(
    space: &mut Space,
    style: &mut Style,
    ahead: &[Diagram],
    default: u32,
    end: u64,
    rules: &mut Vec<Rule>,
) -> Result<(), Stop> {
    let mask = space.only(default)?;
    let mut behind = space.leaf(mask)?;
    let mut kept = rules.len();
    for at in (0..rules.len()).rev() {
        let Some(before) = ahead.get(at).copied() else {
            break;
        };
        let Some(mut rule) = rules.get(at).copied() else {
            break;
        };
        if space.steps() <= end {
            if !space.conflicts(before, behind, &rule.region)? {
                continue;
            }
            rule.region = shrunk(space, style, before, behind, &rule.region)?;
            let mask = space.only(rule.colour)?;
            behind = space.put(behind, &rule.region, mask)?;
        }
        kept = kept.saturating_sub(1);
        if let Some(slot) = rules.get_mut(kept) {
            *slot = rule;
        }
    }
    keep_later(rules, 0, kept);
    Ok(())
}

/// Drops rules that aren't needed, from the first to the last, until a step.
pub(crate) fn drop_from_first(
    space: &mut Space,
    diagram: Diagram,
    default: u32,
    end: u64,
    rules: &mut Vec<Rule>,
) -> Result<(), Stop> {
    let behind = suffixes(space, rules, default, end)?;
    if behind.len() < rules.len() {
        return Ok(());
    }
    drop_ahead(space, diagram, &behind, end, rules)
}

/// Drops rules that aren't needed, from the first to the last, by what is given behind each of them, the last one first.
fn drop_ahead(
    space: &mut Space,
    diagram: Diagram,
    behind: &[Diagram],
    end: u64,
    rules: &mut Vec<Rule>,
) -> Result<(), Stop> {
    let count = rules.len();
    let mut ahead = diagram;
    let mut kept: usize = 0;
    for at in 0..count {
        let from_end = count.saturating_sub(at).saturating_sub(1);
        let Some(after) = behind.get(from_end).copied() else {
            break;
        };
        let Some(rule) = rules.get(at).copied() else {
            break;
        };
        if space.steps() <= end {
            if !space.conflicts(ahead, after, &rule.region)? {
                continue;
            }
            ahead = space.paint(ahead, &rule.region)?;
        }
        if let Some(slot) = rules.get_mut(kept) {
            *slot = rule;
        }
        kept = kept.saturating_add(1);
    }
    rules.truncate(kept);
    Ok(())
}

/// The region that has what either of two has, where they differ in one side at most.
fn united(space: &mut Space, one: &Region, other: &Region) -> Result<Option<Region>, Stop> {
    let mut differing: usize = 0;
    for field in 0..FIELDS {
        if one.side(field) != other.side(field) {
            differing = differing.saturating_add(1);
        }
    }
    if differing > 1 {
        return Ok(None);
    }
    let mut both = *one;
    for field in 0..FIELDS {
        let side = space.either(one.side(field), other.side(field))?;
        both = both.with(field, side);
    }
    Ok(Some(both))
}

/// One rule in the place of two of one colour, at the place of the first of them, where it is allowed and cheaper.
fn merged(
    space: &mut Space,
    style: &mut Style,
    ahead: Diagram,
    one: &Rule,
    other: &Rule,
) -> Result<Option<Region>, Stop> {
    if one.colour != other.colour {
        return Ok(None);
    }
    let Some(both) = united(space, &one.region, &other.region)? else {
        return Ok(None);
    };
    let first = cost_of(style, space, &one.region)?;
    let second = cost_of(style, space, &other.region)?;
    let cost = cost_of(style, space, &both)?;
    if cost.saturating_add(10) >= first.saturating_add(second) {
        return Ok(None);
    }
    let is_allowed = space.is_allowed(ahead, &both, one.colour)?;
    Ok(if is_allowed { Some(both) } else { None })
}

/// Merges each rule with later ones.
pub(crate) fn merge_all(
    space: &mut Space,
    style: &mut Style,
    diagram: Diagram,
    rules: &mut Vec<Rule>,
) -> Result<(), Stop> {
    let mut ahead = diagram;
    for at in 0..rules.len() {
        let Some(rule) = rules.get(at).copied() else {
            break;
        };
        let region = merge_later(space, style, ahead, &rule, at, rules)?;
        if let Some(slot) = rules.get_mut(at) {
            *slot = Rule {
                region,
                colour: rule.colour,
            };
        }
        ahead = space.paint(ahead, &region)?;
    }
    Ok(())
}

/// Merges a rule, which stands at a place, with later ones, and gives the region that it has then.
fn merge_later(
    space: &mut Space,
    style: &mut Style,
    ahead: Diagram,
    rule: &Rule,
    at: usize,
    rules: &mut Vec<Rule>,
) -> Result<Region, Stop> {
    let mut rule = *rule;
    let mut other = at.saturating_add(1);
    for _ in 0..u32::MAX {
        let Some(later) = rules.get(other).copied() else {
            break;
        };
        match merged(space, style, ahead, &rule, &later)? {
            Some(both) => {
                rule.region = both;
                keep_later(rules, other, other.saturating_add(1));
                other = at.saturating_add(1);
            }
            None => other = other.saturating_add(1),
        }
    }
    Ok(rule.region)
}

/// The fields in which rules of large lists are merged, in this order.
const MERGED: [usize; 7] = [DPORT, SRC, DST, PROTO, ENTRY, SPORT, ICMP];

/// The number of what a rule has but for one side.
fn key_of(alloc: Global, keys: &mut Lists, rule: &Rule, field: usize) -> Result<u32, Stop> {
    let from = keys.begin();
    for other in 0..FIELDS {
        let side = if other == field {
            0
        } else {
            rule.region.side(other).number()
        };
        keys.put(side)?;
    }
    keys.put(rule.colour)?;
    keys.put((field % 16) as u32)?;
    let number = keys.end(alloc, from)?;
    Ok(number)
}

/// For each rule the place of the next one that differs from it in the side of a field alone, and one more; 0 where there is
/// none.
fn next_alike(
    space: &Space,
    keys: &mut Lists,
    rules: &[Rule],
    field: usize,
) -> Result<Vec<u32>, Stop> {
    let mut nexts = Vec::new(space.alloc);
    // By key: the place of the first rule so far that has it, from the end, and one more.
    let mut firsts = Vec::new(space.alloc);
    put_nexts(space.alloc, keys, rules, field, &mut nexts, &mut firsts)?;
    nexts.reverse();
    Ok(nexts)
}

/// Puts what `next_alike` gives, from the last rule to the first.
fn put_nexts(
    alloc: Global,
    keys: &mut Lists,
    rules: &[Rule],
    field: usize,
    nexts: &mut Vec<u32>,
    firsts: &mut Vec<u32>,
) -> Result<(), Stop> {
    let Ok(count) = u32::try_from(rules.len()) else {
        return Err(Stop::Memory);
    };
    let mut place = count;
    for rule in rules.iter().rev() {
        let key = key_of(alloc, keys, rule, field)? as usize;
        let next = put_first(firsts, key, place)?;
        nexts.push(next)?;
        place = place.saturating_sub(1);
    }
    Ok(())
}

/// Puts a place as the first one of a key, and gives the one before; 0 where there was none.
fn put_first(firsts: &mut Vec<u32>, key: usize, place: u32) -> Result<u32, Memory> {
    let count = firsts.len();
    for _ in count..key.saturating_add(1) {
        firsts.push(0)?;
    }
    match firsts.get_mut(key) {
        Some(first) => {
            let next = *first;
            *first = place;
            Ok(next)
        }
        None => Ok(0),
    }
}

/// How many rules are tried with one, where addresses can't stand beside each other in a line.
const TRIED: usize = 16;

/// Merges the rule at a place with later ones that differ from it in the side of a field alone, and marks these as gone.
fn merge_chain(
    space: &mut Space,
    style: &mut Style,
    ahead: Diagram,
    nexts: &[u32],
    at: usize,
    most: usize,
    rules: &mut Vec<Rule>,
    gone: &mut Vec<bool>,
) -> Result<(), Stop> {
    let Some(mut rule) = rules.get(at).copied() else {
        return Ok(());
    };
    let mut place = at;
    for _ in 0..most {
        let next = word_at(nexts, place);
        if next == 0 {
            break;
        }
        place = (next - 1) as usize;
        if is_gone(gone, place) {
            continue;
        }
        let Some(later) = rules.get(place).copied() else {
            break;
        };
        if let Some(both) = merged(space, style, ahead, &rule, &later)? {
            rule.region = both;
            if let Some(slot) = gone.get_mut(place) {
                *slot = true;
            }
        }
    }
    if let Some(slot) = rules.get_mut(at) {
        *slot = rule;
    }
    Ok(())
}

/// Merges rules of a large list that differ in one side, until a step.
pub(crate) fn merge_alike(
    space: &mut Space,
    style: &mut Style,
    diagram: Diagram,
    end: u64,
    rules: &mut Vec<Rule>,
) -> Result<(), Stop> {
    for field in MERGED {
        if space.steps() > end {
            break;
        }
        let most = if (field == SRC || field == DST) && !style.settings.lists_addresses {
            TRIED
        } else {
            usize::MAX
        };
        merge_field(space, style, diagram, field, most, end, rules)?;
    }
    Ok(())
}

/// Merges rules of a large list that differ in the side of a field, until a step.
fn merge_field(
    space: &mut Space,
    style: &mut Style,
    diagram: Diagram,
    field: usize,
    most: usize,
    end: u64,
    rules: &mut Vec<Rule>,
) -> Result<(), Stop> {
    let mut keys = Lists::new(space.alloc);
    let nexts = next_alike(space, &mut keys, rules, field)?;
    drop(keys);
    merge_chains(space, style, diagram, &nexts, most, end, rules)
}

/// Whether some rule has a next one that is like it.
fn has_next(nexts: &[u32]) -> bool {
    for next in nexts {
        if *next != 0 {
            return true;
        }
    }
    false
}

/// Whether the rule at a place is marked as gone, or isn't there.
fn is_gone(gone: &[bool], at: usize) -> bool {
    match gone.get(at) {
        Some(is_gone) => *is_gone,
        None => true,
    }
}

/// Merges rules of a large list with those that are next to them, until a step.
fn merge_chains(
    space: &mut Space,
    style: &mut Style,
    diagram: Diagram,
    nexts: &[u32],
    most: usize,
    end: u64,
    rules: &mut Vec<Rule>,
) -> Result<(), Stop> {
    if !has_next(nexts) {
        return Ok(());
    }
    let mut gone = Vec::new(space.alloc);
    for _ in 0..rules.len() {
        gone.push(false)?;
    }
    mark_merged(space, style, diagram, nexts, most, end, rules, &mut gone)?;
    drop_gone(rules, &gone);
    Ok(())
}

/// Merges rules of a large list with those that are next to them, and marks these as gone, until a step.
fn mark_merged(
    space: &mut Space,
    style: &mut Style,
    diagram: Diagram,
    nexts: &[u32],
    most: usize,
    end: u64,
    rules: &mut Vec<Rule>,
    gone: &mut Vec<bool>,
) -> Result<(), Stop> {
    let mut ahead = diagram;
    for at in 0..rules.len() {
        if is_gone(gone, at) {
            continue;
        }
        if word_at(nexts, at) != 0 && space.steps() <= end {
            merge_chain(space, style, ahead, nexts, at, most, rules, gone)?;
        }
        if let Some(rule) = rules.get(at).copied() {
            ahead = space.paint(ahead, &rule.region)?;
        }
    }
    Ok(())
}

/// Drops the rules that are marked as gone.
fn drop_gone(rules: &mut Vec<Rule>, gone: &[bool]) {
    let mut kept: usize = 0;
    for at in 0..rules.len() {
        if is_gone(gone, at) {
            continue;
        }
        if let Some(rule) = rules.get(at).copied() {
            if let Some(slot) = rules.get_mut(kept) {
                *slot = rule;
            }
        }
        kept = kept.saturating_add(1);
    }
    rules.truncate(kept);
}

/// The longest list of which each rule is tried with each other one.
const SHORT: usize = 120;

/// Makes a list shorter, in three rounds at most.
pub(crate) fn clean(
    space: &mut Space,
    style: &mut Style,
    diagram: Diagram,
    default: u32,
    rules: &mut Vec<Rule>,
) -> Result<u64, Stop> {
    let mut cost = u64::MAX;
    for _ in 0..3 {
        drop_from_last(space, style, diagram, default, &[], u64::MAX, rules)?;
        drop_from_first(space, diagram, default, u64::MAX, rules)?;
        if rules.len() <= SHORT {
            merge_all(space, style, diagram, rules)?;
        }
        let now = total(space, style, rules)?;
        if now >= cost {
            break;
        }
        cost = now;
    }
    Ok(cost)
}

/// Makes a large list shorter, until a step. The diagrams ahead of its first rules may be known.
pub(crate) fn clean_large(
    space: &mut Space,
    style: &mut Style,
    diagram: Diagram,
    default: u32,
    known: &[Diagram],
    end: u64,
    rules: &mut Vec<Rule>,
) -> Result<u64, Stop> {
    let before = total(space, style, rules)?;
    drop_from_last(space, style, diagram, default, known, end, rules)?;
    if space.steps() <= end && total(space, style, rules)? < before {
        drop_from_first(space, diagram, default, end, rules)?;
    }
    if space.steps() <= end {
        merge_alike(space, style, diagram, end, rules)?;
    }
    total(space, style, rules)
}
