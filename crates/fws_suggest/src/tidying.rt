//! Rules in an order in which a reader would look for them.

use crate::rules::Rule;
use fws_diagram::{ENTRY, FIELDS, STATE, Space};
use fws_num::Memory;
use std::alloc::Global;

/// By what a rule is ordered among its neighbours of the same colour.
#[derive(Clone, Copy)]
struct Order {
    /// Rules of established packets come first.
    is_fresh: bool,
    /// Then those with one test.
    has_more: bool,
    /// Then by the interface.
    entry: u32,
}

/// By what a rule is ordered.
fn order_of(space: &Space, rule: &Rule) -> Order {
    let state = rule.region.side(STATE);
    let is_established = state != space.full(STATE) && !space.covers(state, 0, 1);
    let mut tests = 0u32;
    for field in 0..FIELDS {
        if rule.region.side(field) != space.full(field) {
            tests = tests.saturating_add(1);
        }
    }
    let entry = rule.region.side(ENTRY);
    let first = if entry == space.full(ENTRY) {
        0
    } else {
        match space.bounds(entry).first() {
            Some(from) => from.saturating_add(1),
            None => 0,
        }
    };
    Order {
        is_fresh: !is_established,
        has_more: tests > 1,
        entry: first,
    }
}

/// Whether a rule stands behind another one.
fn stands_behind(space: &Space, rule: &Rule, other: &Rule) -> bool {
    let one = order_of(space, rule);
    let two = order_of(space, other);
    if one.is_fresh != two.is_fresh {
        return one.is_fresh;
    }
    if one.has_more != two.has_more {
        return one.has_more;
    }
    one.entry > two.entry
}

/// The rules in such an order. Only neighbours of one colour change their places, so that the rules mean the same.
pub fn tidied(alloc: Global, space: &Space, rules: &[Rule]) -> Result<Vec<Rule>, Memory> {
    let mut tidy: Vec<Rule> = Vec::new(alloc);
    let mut begin: usize = 0;
    for rule in rules {
        if is_other(&tidy, rule) {
            begin = tidy.len();
        }
        let place = place_for(space, &tidy, begin, rule);
        if place <= tidy.len() {
            tidy.insert(place, *rule)?;
        }
    }
    Ok(tidy)
}

/// Whether a rule has another colour than the last one of a list.
fn is_other(rules: &[Rule], rule: &Rule) -> bool {
    match rules.last() {
        Some(last) => last.colour != rule.colour,
        None => false,
    }
}

/// Where a rule stands among those of its colour, which begin at a place.
fn place_for(space: &Space, rules: &[Rule], begin: usize, rule: &Rule) -> usize {
    let mut place = rules.len();
    for _ in begin..rules.len() {
        match rules.get(place.saturating_sub(1)) {
            Some(before) => {
                if !stands_behind(space, before, rule) {
                    break;
                }
            }
            None => break,
        }
        place = place.saturating_sub(1);
    }
    place
}
