//! How large tables are, and how many steps searches may take for that: so many that with everything a translation takes a few times
//! what both tables take. Steps are counted and not time, so that two runs give one text.

use crate::problems::Policy;
use crate::solving::Budget;
use fws_tree::{Node, Tables};

/// How many steps may be taken whatever the size.
const LEAST: u64 = 8_000_000;

/// How many of these may be taken for shorter lists, once there is one.
const LEAST_ENOUGH: u64 = 400_000;

/// How many steps may be taken for each node of the tables and each interval of its parts.
const EACH: u64 = 3000;

/// How many steps may be taken at most.
const MOST: u64 = 150_000_000;

/// Of how many of the others one is taken for shorter lists.
const SHARE: u64 = 5;

/// Steps that are lent: what was the last one, and the first of those that are lent.
#[derive(Clone, Copy)]
pub struct Lent {
    last: u64,
    first: u64,
}

/// How many nodes there are, and intervals of their parts.
fn size_of(nodes: &[Node]) -> u64 {
    let mut size: u64 = 0;
    for node in nodes {
        size = size.saturating_add(1);
        if let Node::Cut(_, kids) = node {
            for kid in kids.as_slice() {
                size = size.saturating_add(kid.set.parts().len() as u64);
            }
        }
    }
    size
}

/// How many steps may be taken for tables of a size.
fn steps_for(size: u64) -> u64 {
    size.saturating_mul(EACH).saturating_add(LEAST).min(MOST)
}

impl Policy {
    /// Lets searches take as many steps as the size of the tables allows.
    pub(crate) fn limit_steps(&mut self, tables: &Tables) {
        let fresh = size_of(tables.fresh.shared().nodes);
        let est = size_of(tables.est.shared().nodes);
        self.steps = steps_for(fresh.saturating_add(est));
        self.space.set_limit(self.steps);
    }

    /// How many steps the search for the next list may take.
    pub(crate) fn steps_for_list(&self) -> Budget {
        let left = self.space.last_step().saturating_sub(self.space.steps());
        let more = self.steps.saturating_sub(LEAST) / SHARE;
        Budget {
            most: (left / 4).saturating_mul(3),
            enough: more.saturating_add(LEAST_ENOUGH),
        }
    }

    /// Holds one of so many parts of the steps that are left back, until `let_go` is called with what this gives.
    pub fn hold_back(&mut self, parts: u64) -> u64 {
        let before = self.space.last_step();
        let left = before.saturating_sub(self.space.steps());
        let kept = left.checked_div(parts).unwrap_or(0);
        self.space.set_limit(before.saturating_sub(kept));
        before
    }

    /// Lets searches take the steps that were held back.
    pub fn let_go(&mut self, before: u64) {
        self.space.set_limit(before);
    }

    /// Lets searches take one of so many parts of all steps, whatever is left, until `give_back` is called with what this gives.
    pub fn lend(&mut self, parts: u64) -> Lent {
        let last = self.space.last_step();
        let first = self.space.steps();
        let more = self.steps.checked_div(parts).unwrap_or(0);
        self.space.set_limit(first.saturating_add(more));
        Lent { last, first }
    }

    /// Leaves searches what was left before steps were lent.
    pub fn give_back(&mut self, lent: Lent) {
        let taken = self.space.steps().saturating_sub(lent.first);
        self.space.set_limit(lent.last.saturating_add(taken));
    }
}
