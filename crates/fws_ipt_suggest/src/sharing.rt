//! What several rules have in common, or what takes several lines in one rule, stands in a chain of its own.
//!
//! Rules of one colour beside one another may stand in any order. So where some of them ask for the same sources, which take n
//! lines, these lines lead to a chain that asks for the rest: with k rules behind it that is n + k lines and not n times k. Where
//! all other sources take fewer lines these return from the chain first.

use fws_num::Memory;
use fws_suggest::{
    DPORT, DST, ENTRY, FIELDS, FLAGS, ICMP, PROTO, Policy, Region, Rule, SPORT, SRC, Space, Stop,
    Style,
};
use std::alloc::Global;

/// Of how many rules beside one another is asked what they have in common.
const MOST_RULES: usize = 200;

/// What may be asked in one chain and left out in the chain behind it.
#[derive(Clone, Copy, Debug, PartialEq, Eq)]
pub(crate) enum Part {
    /// Sources.
    Sources,
    /// Destinations.
    Destinations,
    /// Interfaces where packets come in.
    Interfaces,
    /// Protocols with their ports, flags and types.
    Services,
}

/// The parts.
const PARTS: [Part; 4] = [
    Part::Sources,
    Part::Destinations,
    Part::Interfaces,
    Part::Services,
];

impl Part {
    /// Whether a field belongs to the part.
    fn has(self, field: usize) -> bool {
        match self {
            Part::Sources => field == SRC,
            Part::Destinations => field == DST,
            Part::Interfaces => field == ENTRY,
            Part::Services => {
                field == PROTO
                    || field == SPORT
                    || field == DPORT
                    || field == FLAGS
                    || field == ICMP
            }
        }
    }

    /// The field of the part, if it is one alone.
    fn field(self) -> Option<usize> {
        match self {
            Part::Sources => Some(SRC),
            Part::Destinations => Some(DST),
            Part::Interfaces => Some(ENTRY),
            Part::Services => None,
        }
    }

    /// What a chain behind the part is called.
    pub(crate) fn name(self) -> &'static [u8] {
        match self {
            Part::Sources => b"FROM",
            Part::Destinations => b"TO",
            Part::Interfaces => b"BY",
            Part::Services => b"SERVICE",
        }
    }

    /// What a region asks for of this part.
    pub(crate) fn of(self, space: &Space, region: &Region) -> Region {
        let mut part = space.everything();
        for field in 0..FIELDS {
            if self.has(field) {
                part = part.with(field, region.side(field));
            }
        }
        part
    }

    /// What a region asks for besides.
    pub(crate) fn rest(self, space: &Space, region: &Region) -> Region {
        let mut rest = *region;
        for field in 0..FIELDS {
            if self.has(field) {
                rest = rest.with(field, space.full(field));
            }
        }
        rest
    }
}

/// What some rules have in common.
#[derive(Clone, Copy)]
pub(crate) struct Common {
    /// Of which part it is.
    pub(crate) part: Part,
    /// What is asked.
    pub(crate) region: Region,
    /// All else, where that is left out behind it instead.
    pub(crate) others: Option<Region>,
    /// How many lines it saves.
    saves: u64,
}

/// How many lines a region takes.
fn lines_of(space: &mut Space, style: &mut Style, region: &Region) -> Result<u64, Stop> {
    let mut lines: u64 = 1;
    for field in 0..FIELDS {
        let side = region.side(field);
        if side != space.full(field) {
            lines = lines.saturating_mul(style.measure(space, field, side)?.lines);
        }
    }
    Ok(lines)
}

/// How many lines the rests of those rules take that ask for this of a part.
fn lines_of_rests(
    space: &mut Space,
    style: &mut Style,
    part: Part,
    region: &Region,
    rules: &[Rule],
) -> Result<u64, Stop> {
    let mut lines: u64 = 0;
    for rule in rules {
        if part.of(space, &rule.region) == *region {
            let rest = part.rest(space, &rule.region);
            lines = lines.saturating_add(lines_of(space, style, &rest)?);
        }
    }
    Ok(lines)
}

/// What isn't asked of a part, where it takes fewer lines to leave that out.
fn others_of(
    policy: &mut Policy,
    style: &mut Style,
    part: Part,
    region: &Region,
    lines: u64,
) -> Result<Option<(Region, u64)>, Stop> {
    let Some(field) = part.field() else {
        return Ok(None);
    };
    let side = policy.space.others(field, region.side(field))?;
    if side.is_empty() {
        return Ok(None);
    }
    let others = policy.everything().with(field, side);
    let count = lines_of(&mut policy.space, style, &others)?.saturating_add(1);
    Ok(if count < lines {
        Some((others, count))
    } else {
        None
    })
}

/// What it saves to ask for what a rule asks of a part once alone; none where that saves nothing.
fn saving(
    policy: &mut Policy,
    style: &mut Style,
    part: Part,
    rule: &Rule,
    rules: &[Rule],
) -> Result<Option<Common>, Stop> {
    let region = part.of(&policy.space, &rule.region);
    let lines = lines_of(&mut policy.space, style, &region)?;
    if lines < 2 {
        return Ok(None);
    }
    let rests = lines_of_rests(&mut policy.space, style, part, &region, rules)?;
    let left_out = others_of(policy, style, part, &region, lines)?;
    let (others, ahead) = match left_out {
        Some((others, count)) => (Some(others), count),
        None => (None, lines),
    };
    let before = lines.saturating_mul(rests);
    let saves = before.saturating_sub(ahead.saturating_add(rests));
    Ok(if saves == 0 {
        None
    } else {
        Some(Common {
            part,
            region,
            others,
            saves,
        })
    })
}

/// The one of two that saves more, the first where both save the same.
fn better(one: Option<Common>, other: Option<Common>) -> Option<Common> {
    match (one, other) {
        (Some(first), Some(second)) => Some(if second.saves > first.saves {
            second
        } else {
            first
        }),
        (None, second) => second,
        (first, None) => first,
    }
}

/// What saves most of what a rule has in common with others, or takes several lines for.
fn best_of(
    policy: &mut Policy,
    style: &mut Style,
    rule: &Rule,
    rules: &[Rule],
) -> Result<Option<Common>, Stop> {
    let mut best = None;
    for part in PARTS {
        let found = saving(policy, style, part, rule, rules)?;
        best = better(best, found);
    }
    Ok(best)
}

/// What saves most lines of all that rules of one colour beside one another have in common.
pub(crate) fn common_part(
    policy: &mut Policy,
    style: &mut Style,
    rules: &[Rule],
) -> Result<Option<Common>, Stop> {
    let mut best = None;
    if rules.len() > MOST_RULES {
        return Ok(best);
    }
    for rule in rules {
        let found = best_of(policy, style, rule, rules)?;
        best = better(best, found);
    }
    Ok(best)
}

/// The rules that ask for what is common, without it, and all others.
#[derive(Drop)]
pub(crate) struct Split {
    /// The rules behind what is common.
    pub(crate) behind: Vec<Rule>,
    /// All others.
    pub(crate) left: Vec<Rule>,
}

/// Splits rules by what some of them have in common.
pub(crate) fn split_by(
    alloc: Global,
    space: &Space,
    common: &Common,
    rules: &[Rule],
) -> Result<Split, Memory> {
    let mut behind = Vec::new(alloc);
    let mut left = Vec::new(alloc);
    for rule in rules {
        if common.part.of(space, &rule.region) == common.region {
            behind.push(Rule {
                region: common.part.rest(space, &rule.region),
                colour: rule.colour,
            })?;
        } else {
            left.push(*rule)?;
        }
    }
    Ok(Split { behind, left })
}
