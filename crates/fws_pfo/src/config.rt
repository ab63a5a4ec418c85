//! What a text says: skipped interfaces, rules and the names of tags (pf.conf(5) of OpenBSD).

use fws_iv::Ivs;
use fws_net::{Cond, End};
use fws_num::{Items, Text};
use fws_pf::Way;

/// What a rule is for.
#[derive(Clone, Copy, Debug, PartialEq, Eq)]
pub enum PfoKind {
    /// It passes packets, and holds its end, or none, for them. `pass`
    Pass,
    /// It blocks packets. `block`
    Block,
    /// It leaves the verdict as it is, and writes its end at once. `match`
    Match,
}

/// A rule.
#[derive(Drop)]
pub struct PfoRule {
    /// What it is for.
    pub kind: PfoKind,
    /// On which passes it is met.
    pub way: Way,
    /// Whether the pass ends where it matches.
    pub quick: bool,
    /// Where it matches.
    pub cond: Cond,
    /// The tag that it puts, by its place among the names.
    pub tag: Option<u32>,
    /// Whether it passes packets and keeps state.
    pub keep: bool,
    /// The end that it has: over the destination of packets that come in by `rdr-to`, over the source of those that go out
    /// by `nat-to`.
    pub to: Option<End>,
}

/// What a text says.
#[derive(Drop)]
pub struct PfoConfig {
    /// The entry numbers of the interfaces that are skipped.
    pub skip: Ivs,
    /// The rules in their order.
    pub rules: Items<PfoRule>,
    /// The names of the tags, in the order in which the text first has them. Rules name them by their places, counted from
    /// 0.
    pub tags: Items<Text>,
}
