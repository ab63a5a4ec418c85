//! What stands in the chains of a suggestion.

use fws_num::Memory;
use fws_suggest::{Diagram, List, Marked, Rule};
use std::alloc::Global;

/// What is dropped ahead of translations.
#[derive(Drop)]
pub(crate) struct Ahead {
    /// The rules of the chain PREROUTING of the table mangle, whose colours are DROP and ACCEPT.
    pub(crate) rules: Vec<Rule>,
}

/// How destinations are translated.
#[derive(Drop)]
pub(crate) struct Redirected {
    /// The rules for arriving packets, whose colours are places of destinations.
    pub(crate) arriving: Vec<Rule>,
    /// Those for the host's own packets.
    pub(crate) own: Vec<Rule>,
    /// Whether packets whose destination is written get a mark.
    pub(crate) is_tagged: bool,
    /// What packets are behind it.
    pub(crate) behind: Diagram,
}

/// How sources are translated.
#[derive(Drop)]
pub(crate) struct Sent {
    /// The rules for packets that leave. Their colours are places of sources, and one behind these for the address of the
    /// interface.
    pub(crate) leaving: Vec<Rule>,
    /// The rules for packets that are delivered.
    pub(crate) delivered: Vec<Rule>,
    /// The marks that stand for entries.
    pub(crate) marks: Vec<Marked>,
}

/// A chain of the table filter.
#[derive(Drop)]
pub(crate) struct Filtered {
    /// Whether a rule for established packets stands first.
    pub(crate) has_established: bool,
    /// The rules, and the policy as the default.
    pub(crate) list: List,
}

impl Filtered {
    /// The same chain.
    pub(crate) fn copy(&self, alloc: Global) -> Result<Filtered, Memory> {
        Ok(Filtered {
            has_established: self.has_established,
            list: List {
                rules: Vec::from_slice(alloc, &self.list.rules)?,
                default: self.list.default,
                cost: self.list.cost,
            },
        })
    }
}

/// How addresses are translated.
#[derive(Drop)]
pub(crate) struct Translations {
    /// What is dropped ahead of it.
    pub(crate) before: Ahead,
    /// How destinations are translated.
    pub(crate) redirected: Redirected,
    /// How sources are translated.
    pub(crate) sent: Sent,
}

/// Where the rules for what the host itself sends stand.
#[derive(Clone, Copy, Debug, PartialEq, Eq)]
pub(crate) enum Own {
    /// In OUTPUT.
    Apart,
    /// In a chain that FORWARD calls first, for what comes from loopback.
    ForLoopback,
    /// In a chain to which rules lead for what arrives.
    ForPassing,
}

/// The chains of the table filter.
#[derive(Drop)]
pub(crate) struct Filters {
    /// The rules that INPUT and FORWARD ask first, both in one chain; none where there is no such chain.
    pub(crate) common: Vec<Rule>,
    /// Whether a rule for established packets stands first in that chain.
    pub(crate) has_established: bool,
    /// Where the rules of OUTPUT stand.
    pub(crate) own: Own,
    /// INPUT.
    pub(crate) input: Filtered,
    /// FORWARD.
    pub(crate) forward: Filtered,
    /// OUTPUT.
    pub(crate) output: Filtered,
}
