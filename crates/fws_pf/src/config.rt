//! What a text says: skipped interfaces, translations, filter rules and the names of tags (pf.conf(5)).

use fws_iv::Ivs;
use fws_net::{Cond, End};
use fws_num::{Items, Text};

/// On which passes a filter rule is met.
#[derive(Clone, Copy, Debug, PartialEq, Eq)]
pub enum Way {
    /// On both.
    Both,
    /// As packets come in. `in`
    Inward,
    /// As packets go out. `out`
    Outward,
}

/// A filter rule.
#[derive(Drop)]
pub struct PfRule {
    /// Whether it passes packets; else it blocks them.
    pub pass: bool,
    /// On which passes it is met.
    pub way: Way,
    /// Whether the pass ends where it matches.
    pub quick: bool,
    /// Where it matches.
    pub cond: Cond,
    /// The tag that it puts, by its place among the names.
    pub tag: Option<u32>,
    /// Whether it passes packets and keeps state.
    pub keep: bool,
}

/// A translation rule.
#[derive(Drop)]
pub struct PfNat {
    /// Where it matches.
    pub cond: Cond,
    /// The end that it writes: over the destination by `rdr`, over the source by `nat`. Without one it is a `no` rule.
    pub to: Option<End>,
    /// Whether the pass ends accepted where it matches. `pass`
    pub past: bool,
    /// The tag that it puts, by its place among the names.
    pub tag: Option<u32>,
}

/// What a text says.
#[derive(Drop)]
pub struct PfConfig {
    /// The entry numbers of the interfaces that are skipped.
    pub skip: Ivs,
    /// The translations of packets that come in, in their order.
    pub rdr: Items<PfNat>,
    /// The translations of packets that go out, in their order.
    pub nat: Items<PfNat>,
    /// The filter rules in their order.
    pub filter: Items<PfRule>,
    /// The names of the tags, in the order in which the text first has them. Rules name them by their places, counted from
    /// 0.
    pub tags: Items<Text>,
}
