//! The list that is being made, and the cheapest one so far.

use crate::rules::{List, Rule};
use fws_diagram::Diagram;
use std::alloc::Global;
use std::mem;

/// The list that is being made, and the cheapest one that was found so far.
#[derive(Drop)]
pub(crate) struct Offers {
    /// The rules of the list that is being made.
    pub(crate) rules: Vec<Rule>,
    /// The diagrams ahead of the first of them, as far as they are known.
    pub(crate) ahead: Vec<Diagram>,
    /// The rules of the cheapest list.
    pub(crate) best: Vec<Rule>,
    /// Its colour of what no rule decides.
    pub(crate) default: u32,
    /// What it costs, if one was found.
    pub(crate) cost: Option<u64>,
}

impl Offers {
    /// No list.
    pub(crate) fn none(alloc: Global) -> Offers {
        Offers {
            rules: Vec::new(alloc),
            ahead: Vec::new(alloc),
            best: Vec::new(alloc),
            default: 0,
            cost: None,
        }
    }

    /// Begins another list.
    pub(crate) fn begin(&mut self) {
        self.rules.truncate(0);
        self.ahead.truncate(0);
    }

    /// The cheapest list, if one was found.
    pub(crate) fn cheapest(self) -> Option<List> {
        let Offers {
            rules,
            ahead,
            best,
            default,
            cost,
        } = self;
        drop(rules);
        drop(ahead);
        match cost {
            Some(cost) => Some(List {
                rules: best,
                default,
                cost,
            }),
            None => None,
        }
    }

    /// Takes the list that was made where it is cheaper than the cheapest so far.
    pub(crate) fn offer(&mut self, default: u32, cost: u64) {
        let is_cheaper = match self.cost {
            Some(before) => cost < before,
            None => true,
        };
        if is_cheaper {
            mem::swap(&mut self.best, &mut self.rules);
            self.default = default;
            self.cost = Some(cost);
        }
    }
}
