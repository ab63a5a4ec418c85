//! What was read so far of a rule (pf.conf(5) of OpenBSD).

use crate::config::PfoKind;
use fws_pf::RuleDraft;

/// What the next word of a rule is taken for.
#[derive(Clone, Copy, Debug, PartialEq, Eq)]
pub enum PfoExpects {
    /// What the shared draft says. There the words behind `nat-to` and `rdr-to` are taken for what a translation of FreeBSD writes.
    Shared,
    /// The parenthesis behind `scrub`.
    Scrub,
    /// A word in parentheses behind `scrub`, or the parenthesis behind these.
    Scrubbed,
}

/// What was read so far of a rule.
#[derive(Drop)]
pub struct PfoRuleDraft {
    /// What it is for.
    pub kind: PfoKind,
    /// What its next word is taken for.
    pub expects: PfoExpects,
    /// Whether `scrub` stands there.
    pub has_scrub: bool,
    /// What it says in words that both dialects have, and the end that it has. A `match` rule stands here as one that blocks, since
    /// neither keeps state or implies flags.
    pub shared: RuleDraft,
}
