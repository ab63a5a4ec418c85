//! What packets are behind the translation of destinations.

use crate::diagrams::{colour_of, parted};
use fws_net::{End, Outcome};
use fws_suggest::{DPORT, DST, Diagram, Mask, Meeting, Policy, Stop, TAG};

/// The place of what an outcome writes over the destination; none where it drops.
pub(crate) fn place_of(policy: &Policy, outcome: usize) -> Option<usize> {
    match policy.outcomes.get(outcome) {
        Some(Outcome::Accept(rewrite)) => {
            policy
                .destinations
                .iter()
                .position(|end| *end == rewrite.dst)
        }
        _ => None,
    }
}

/// New packets with the places of the destinations that are written over theirs: where they are dropped the mask that is given.
pub(crate) fn by_destination(policy: &mut Policy, dropped: Mask) -> Result<Diagram, Stop> {
    let mut masks = Vec::new(policy.alloc);
    for outcome in 0..policy.outcomes.len() {
        let mask = match place_of(policy, outcome) {
            Some(place) => policy.space.only(colour_of(place))?,
            None => dropped,
        };
        masks.push(mask)?;
    }
    let fresh = policy.fresh;
    policy.translated(fresh, &masks)
}

/// What is allowed of packets with a tag alone, 0 or 1.
fn with_tag(policy: &mut Policy, diagram: Diagram, tag: u32) -> Result<Diagram, Stop> {
    let side = policy.space.range(TAG, tag, tag)?;
    let region = policy.everything().with(TAG, side);
    policy.space.keep(diagram, &region)
}

/// What is allowed of packets that aren't redirected. Where rules tag what they translate, of which the diagram has 0 elsewhere, all
/// that they are met by has the tag.
fn kept(
    policy: &mut Policy,
    ends: Diagram,
    seen: Diagram,
    tagging: Option<Diagram>,
    rules: usize,
) -> Result<Diagram, Stop> {
    let stays = policy.where_it_is(ends, 0)?;
    let Some(tagging) = tagging else {
        return policy.space.met(seen, stays, Meeting::Either);
    };
    let plain = policy.where_it_is(tagging, 0)?;
    let untagged = policy.space.met(seen, plain, Meeting::Either)?;
    let met = parted(policy, tagging, Mask::ALL, Mask::NONE, rules)?;
    let both = policy.space.met(stays, met, Meeting::Either)?;
    let tagged = policy.space.met(seen, both, Meeting::Either)?;
    let untagged = with_tag(policy, untagged, 0)?;
    let tagged = with_tag(policy, tagged, 1)?;
    policy.space.meet(untagged, tagged)
}

/// What is seen of packets that an end is written over, whose places the first diagram has.
fn image_at(
    policy: &mut Policy,
    ends: Diagram,
    seen: Diagram,
    is_tagged: bool,
    place: usize,
    end: End,
) -> Result<Diagram, Stop> {
    let away = policy.where_it_is(ends, colour_of(place))?;
    let mut image = policy.space.met(seen, away, Meeting::Either)?;
    image = policy.space.project(image, DST, Meeting::Both)?;
    let side = policy.space.range(DST, end.addr, end.addr)?;
    let mut region = policy.everything().with(DST, side);
    if let Some(port) = end.port {
        image = policy.space.project(image, DPORT, Meeting::Both)?;
        let side = policy.space.range(DPORT, u32::from(port), u32::from(port))?;
        region = region.with(DPORT, side);
    }
    if is_tagged {
        let side = policy.space.range(TAG, 1, 1)?;
        region = region.with(TAG, side);
    }
    policy.space.keep(image, &region)
}

/// What is seen of packets behind the translation of destinations, whose places the first diagram has: the other one says what
/// is asked of packets as they arrive. Nothing is allowed where two that must fare differently have become one. Rules may tag what
/// they translate: a colour stands for each of so many, 0 for none.
pub(crate) fn images(
    policy: &mut Policy,
    ends: Diagram,
    seen: Diagram,
    tagging: Option<Diagram>,
    rules: usize,
) -> Result<Diagram, Stop> {
    let mut whole = kept(policy, ends, seen, tagging, rules)?;
    for place in 1..policy.destinations.len() {
        let Some(Some(end)) = policy.destinations.get(place).copied() else {
            continue;
        };
        if end.len < 32 {
            return Err(Stop::Late);
        }
        let placed = image_at(policy, ends, seen, tagging.is_some(), place, end)?;
        whole = policy.space.meet(whole, placed)?;
    }
    Ok(whole)
}
