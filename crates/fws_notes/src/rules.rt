//! For which rule an instruction stands.

use fws_flat::Flat;
use fws_ifcl::{Place, Spot};
use fws_num::{Memory, Text};
use std::alloc::Global;
use std::collections::HashMap;

/// The number of no rule.
pub(crate) const NONE: u32 = u32::MAX;

/// The rules of a configuration, and code that tells of them.
#[derive(Clone, Copy)]
pub struct Told<'a> {
    /// The code.
    pub code: &'a Flat,
    /// For which place of a diagram an instruction stands, if it does.
    pub from: &'a [Option<Place>],
    /// Where in the diagram the rules stand.
    pub spots: &'a [Spot],
    /// What the rules are called, by their numbers.
    pub labels: &'a [Text],
}

/// A place as a key.
#[derive(Clone, Copy, PartialEq, Eq, Hash)]
struct Key {
    chain: u32,
    rule: u32,
}

/// The key of a place.
fn key_of(place: Place) -> Key {
    Key {
        chain: place.chain,
        rule: place.rule,
    }
}

/// The rules by their places.
fn rules_by_place(alloc: Global, spots: &[Spot]) -> Result<HashMap<Key, u32>, Memory> {
    let mut rules = HashMap::new(alloc);
    for spot in spots {
        rules.insert(key_of(spot.at), spot.rule)?;
    }
    Ok(rules)
}

/// The rule that stands at a place: NONE where none does.
fn rule_at(rules: &HashMap<Key, u32>, place: Option<Place>) -> u32 {
    match place {
        Some(place) => match rules.get(&key_of(place)) {
            Some(rule) => *rule,
            None => NONE,
        },
        None => NONE,
    }
}

impl Told<'_> {
    /// The number of the rule for which each instruction stands, NONE where it stands for none.
    pub(crate) fn numbers(&self, alloc: Global) -> Result<Vec<u32>, Memory> {
        let rules = rules_by_place(alloc, self.spots)?;
        let mut numbers = Vec::new(alloc);
        for place in self.from {
            numbers.push(rule_at(&rules, *place))?;
        }
        Ok(numbers)
    }
}
