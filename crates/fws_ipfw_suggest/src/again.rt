//! Packets that passed in are asked where they leave, too, by the rules for the host's own packets: so they need no tag by which they
//! pass out. A rule that lets in what these would drop puts one.
//!
//! Nothing is let in that is to be dropped: the state that it makes would let it out.

use crate::diagrams::{colour_of, parted};
use crate::script::Script;
use crate::translations::Translated;
use crate::writer::{Way, Writer};
use fws_num::Memory;
use fws_suggest::{
    ACCEPT, Colour, DROP, DST, Diagram, ENTRY, List, Mask, Meeting, Policy, Rule, SRC, Stop, Style,
    plain_colour,
};
use std::alloc::Global;

/// The colour of a rule that lets in with a tag.
pub(crate) const TAGGED: u32 = 2;

/// The rules, whether packets have come in or are the host's own.
pub(crate) fn wherever(policy: &Policy, rules: &[Rule]) -> Result<Vec<Rule>, Memory> {
    let mut wide = Vec::new(policy.alloc);
    for rule in rules {
        wide.push(Rule {
            region: rule.region.with(ENTRY, policy.space.full(ENTRY)),
            colour: rule.colour,
        })?;
    }
    Ok(wide)
}

/// What becomes of packets over whose source the one at a place is written, by their fields ahead of that.
fn behind_source(policy: &mut Policy, verdict: Diagram, place: usize) -> Result<Diagram, Stop> {
    let Some(Some(end)) = policy.sources.get(place).copied() else {
        return Ok(verdict);
    };
    let side = policy.space.range(SRC, end.addr, end.addr)?;
    let region = policy.everything().with(SRC, side);
    let kept = policy.space.keep(verdict, &region)?;
    policy.space.project(kept, SRC, Meeting::Both)
}

/// What becomes of packets where they leave, by their fields ahead of the translation of sources.
fn later(policy: &mut Policy, translated: &Translated, own: &List) -> Result<Diagram, Stop> {
    let rules = wherever(policy, &own.rules)?;
    let verdict = policy.painted(&rules, own.default)?;
    let painted = policy.painted(&translated.rules, 0)?;
    let mut whole = policy.space.anything()?;
    for place in 0..policy.sources.len() {
        let behind = behind_source(policy, verdict, place)?;
        let away = policy.where_it_is(painted, colour_of(place))?;
        let placed = policy.space.met(behind, away, Meeting::Either)?;
        whole = policy.space.meet(whole, placed)?;
    }
    Ok(whole)
}

/// What may become of packets as they come in, by what is asked of them there: what passes and would be dropped as it leaves passes
/// with a tag.
pub(crate) fn asked_again(
    policy: &mut Policy,
    coming: Diagram,
    translated: &Translated,
    own: &List,
) -> Result<Diagram, Stop> {
    let drop = policy.space.only(DROP)?;
    let passes = policy.space.mask(&[ACCEPT, TAGGED])?;
    let either = policy.translated(coming, &[drop, passes])?;
    let tagged = policy.space.mask(&[DROP, TAGGED])?;
    let later = later(policy, translated, own)?;
    let limit = parted(policy, later, tagged, Mask::ALL, 2)?;
    let delivered = policy.everything().with(DST, policy.local);
    let limit = policy.space.put(limit, &delivered, Mask::ALL)?;
    policy.space.meet(either, limit)
}

/// The colours of rules that let in.
pub(crate) fn colours(alloc: Global) -> Result<Vec<Colour>, Memory> {
    let mut colours = Vec::new(alloc);
    colours.push(plain_colour(ACCEPT))?;
    colours.push(Colour {
        number: TAGGED,
        penalty: 100,
        writes_ports: false,
    })?;
    colours.push(plain_colour(DROP))?;
    Ok(colours)
}

/// Whether some rule puts the tag.
pub(crate) fn tags(list: &List) -> bool {
    list.default == TAGGED || list.rules.iter().any(|rule| rule.colour == TAGGED)
}

/// Appends a rule for packets that come in.
fn put_rule(
    script: &mut Script,
    writer: &Writer,
    policy: &mut Policy,
    style: &mut Style,
    rule: &Rule,
) -> Result<(), Stop> {
    let body = writer.body(policy, style, &rule.region, Way::Coming)?;
    if rule.colour == DROP {
        script.put_all(b"deny", &body, b"")?;
    } else if rule.colour == TAGGED {
        script.put_all(b"allow tag 3", &body, b" keep-state")?;
    } else {
        script.put_all(b"allow", &body, b" keep-state")?;
    }
    Ok(())
}

/// Appends the rules for packets that come in, and the one by which those with the tag pass out, where others have it, too, or some
/// of these get it.
pub(crate) fn put_coming_list(
    script: &mut Script,
    writer: &Writer,
    policy: &mut Policy,
    style: &mut Style,
    list: &List,
    others_have: bool,
) -> Result<(), Stop> {
    for rule in &list.rules {
        put_rule(script, writer, policy, style, rule)?;
    }
    if list.default != DROP {
        let last = Rule {
            region: policy.everything(),
            colour: list.default,
        };
        put_rule(script, writer, policy, style, &last)?;
    }
    if others_have || tags(list) {
        script.put(b"allow ip from any to any out tagged 3 keep-state")?;
    }
    Ok(())
}
