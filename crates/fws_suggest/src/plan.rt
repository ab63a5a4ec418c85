//! How a search goes: orders of fields, and steps after which it goes on otherwise.

use crate::solving::Task;
use fws_diagram::{DPORT, DST, ENTRY, FLAGS, ICMP, PROTO, SPORT, SRC, STATE, TAG};

/// The orders in which the sides of a rule are widened.
pub(crate) const ORDERS: [[usize; 10]; 4] = [
    [
        TAG, ICMP, FLAGS, SPORT, STATE, ENTRY, SRC, DPORT, DST, PROTO,
    ],
    [
        TAG, ICMP, FLAGS, SPORT, STATE, SRC, DST, DPORT, PROTO, ENTRY,
    ],
    [
        TAG, ICMP, FLAGS, SPORT, DPORT, PROTO, DST, STATE, ENTRY, SRC,
    ],
    [
        TAG, ICMP, FLAGS, SPORT, DST, ENTRY, DPORT, SRC, PROTO, STATE,
    ],
];

/// A cost that no list reaches.
pub(crate) const DEAR: u64 = 1_000_000_000_000;

/// How a search goes.
#[derive(Clone, Copy)]
pub(crate) struct Plan {
    /// How many orders of fields are tried.
    pub(crate) orders: usize,
    /// From which step on one order is tried, and no wider rules with exceptions in front.
    pub(crate) plain_from: u64,
    /// From which step on the search gives up.
    pub(crate) end: u64,
    /// From which step on nothing is tried once a list is there.
    pub(crate) enough: u64,
    /// Whether parts of a rule that takes several lines are tried.
    pub(crate) parts: bool,
}

impl Plan {
    /// A search of all orders that ends at a step once a list is there.
    pub(crate) fn thorough(enough: u64) -> Plan {
        Plan {
            orders: 4,
            plain_from: u64::MAX,
            end: u64::MAX,
            enough,
            parts: false,
        }
    }

    /// The same search that tries parts of rules that take several lines.
    pub(crate) fn with_parts(self) -> Plan {
        let mut plan = self;
        plan.parts = true;
        plan
    }
}

/// What a search is for, and how it goes.
#[derive(Clone, Copy)]
pub(crate) struct Errand<'a> {
    /// What it is for.
    pub(crate) task: &'a Task,
    /// How it goes.
    pub(crate) plan: Plan,
}

/// Where a search is made.
#[derive(Clone, Copy)]
pub(crate) struct Place {
    /// The colour of what no rule decides.
    pub(crate) default: u32,
    /// What a list may cost.
    pub(crate) budget: u64,
    /// How many searches within searches may be made.
    pub(crate) left: u32,
}

/// How many searches within searches are made.
pub(crate) const NESTED: u32 = 2;

/// By how much a rule counts as cheaper that decides so many paths, in thousandths of a line: 0.12 times the square root.
const BONUS: [u64; 31] = [
    0, 120, 170, 208, 240, 268, 294, 317, 339, 360, 379, 398, 416, 433, 449, 465, 480, 495, 509,
    523, 537, 550, 563, 576, 588, 600, 612, 624, 635, 646, 657,
];

/// By how much a rule counts as cheaper that decides so many paths.
pub(crate) fn bonus(paths: u32) -> u64 {
    match BONUS.get(paths.min(30) as usize) {
        Some(bonus) => *bonus,
        None => 0,
    }
}
