//! Marks that stand for the entries of packets.

use crate::problems::Policy;
use crate::rules::Rule;
use fws_diagram::{ENTRY, Side, Stop};

/// The mark that stands for a class of entries.
#[derive(Clone, Copy, Debug)]
pub struct Marked {
    /// The entries.
    pub entries: Side,
    /// Their mark: 0 where they get none.
    pub mark: u32,
}

/// Rules in which each entry side is a class.
pub fn split_by_class(
    policy: &mut Policy,
    rules: &[Rule],
    classes: &[Side],
) -> Result<Vec<Rule>, Stop> {
    let mut split = Vec::new(policy.alloc);
    for rule in rules {
        let side = rule.region.side(ENTRY);
        if side == policy.space.full(ENTRY) {
            split.push(*rule)?;
            continue;
        }
        for class in classes {
            if policy.space.meets(*class, side)? {
                if !policy.space.is_within(*class, side)? {
                    return Err(Stop::Late);
                }
                split.push(Rule {
                    region: rule.region.with(ENTRY, *class),
                    colour: rule.colour,
                })?;
            }
        }
    }
    Ok(split)
}

/// The marks of the classes that rules name; of the host's class it is 0, and then all others have one. Where all entries are
/// to be marked the others have 0, and it gives up where rules name the host's class.
pub fn marks_of(
    policy: &mut Policy,
    rules: &[Rule],
    classes: &[Side],
    marks_all: bool,
) -> Result<Vec<Marked>, Stop> {
    let mut marks = Vec::new(policy.alloc);
    let mut next = 1u32;
    let mut others = Side::EMPTY;
    let mut has_own = false;
    for class in classes {
        let is_used = rules.iter().any(|rule| rule.region.side(ENTRY) == *class);
        if !is_used {
            others = policy.space.either(others, *class)?;
            continue;
        }
        let host = policy.host;
        let is_own = policy.space.meets(*class, host)?;
        if is_own && marks_all {
            return Err(Stop::Late);
        }
        let mark = if is_own { 0 } else { next };
        has_own = has_own || is_own;
        if !is_own {
            next = next.saturating_add(1);
        }
        marks.push(Marked {
            entries: *class,
            mark,
        })?;
    }
    if (has_own || marks_all) && !others.is_empty() {
        let mark = if marks_all { 0 } else { next };
        marks.push(Marked {
            entries: others,
            mark,
        })?;
    }
    Ok(marks)
}
