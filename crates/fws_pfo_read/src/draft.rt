//! What was read so far of a rule.

ghost use Rattle.std.specs.Prelude.{◌≡◌, IfOk};
ghost use Rattle.fws_pfo.specs.Drafts.{is_block, is_inward, is_match, is_outward, is_pass};
ghost use Rattle.fws_pfo.specs.RuleText.{first_expects, fresh_rule, verb_of};
ghost use Rattle.fws_pfo_read.specs.Views.{draft_of};

use fws_num::Memory;
use fws_pf::{Expects, Verb, Way};
use fws_pf_read::{Rule, dismiss_rule, fresh_rule as fresh_shared};
use fws_pf_words::Tags;
use fws_pfo::{PfoExpects, PfoKind};
use std::alloc::Global;

/// What was read so far of a rule: a `PfoRuleDraft`, of which what both dialects have stands on the heap.
#[derive(Drop)]
pub(crate) struct Draft {
    /// What it is for.
    pub(crate) kind: PfoKind,
    /// What its next word is taken for.
    pub(crate) expects: PfoExpects,
    /// Whether `scrub` stands there.
    pub(crate) has_scrub: bool,
    /// What it says in words that both dialects have, and the end that it has.
    pub(crate) shared: Rule,
}

/// Drops what was read so far of a rule.
pub(crate) fn dismiss_draft(d: Draft) {
    dismiss_rule(d.shared);
}

/// Whether it is `pass`.
pub(crate) fn is_pass(kind: PfoKind) -> bool
    ensures { result ≡ is_pass kind }
{
    matches!(kind, PfoKind::Pass)
}

/// Whether it is `block`.
pub(crate) fn is_block(kind: PfoKind) -> bool
    ensures { result ≡ is_block kind }
{
    matches!(kind, PfoKind::Block)
}

/// Whether it is `match`.
pub(crate) fn is_match(kind: PfoKind) -> bool
    ensures { result ≡ is_match kind }
{
    matches!(kind, PfoKind::Match)
}

/// Whether it is `in`.
pub(crate) fn is_inward(way: Way) -> bool
    ensures { result ≡ is_inward way }
{
    matches!(way, Way::Inward)
}

/// Whether it is `out`.
pub(crate) fn is_outward(way: Way) -> bool
    ensures { result ≡ is_outward way }
{
    matches!(way, Way::Outward)
}

/// What both dialects have of a rule of this kind: `match` is read as `block`.
fn verb_of(kind: PfoKind) -> Verb
    ensures { result ≡ verb_of kind }
{
    match kind {
        PfoKind::Pass => Verb::Pass,
        PfoKind::Block | PfoKind::Match => Verb::Block,
    }
}

/// What the word behind the first one is taken for.
fn first_expects(kind: PfoKind) -> Expects
    ensures { result ≡ first_expects kind }
{
    match kind {
        PfoKind::Block => Expects::Answer,
        PfoKind::Pass | PfoKind::Match => Expects::Way,
    }
}

/// A rule before its words, in a text that has had these tags. Fails if memory runs out.
pub(crate) fn fresh_draft(alloc: Global, kind: PfoKind, tags: Tags) -> Result<Draft, Memory>
    ensures { IfOk result (λ d. draft_of d ≡ fresh_rule kind tags) }
{
    let shared = fresh_shared(alloc, verb_of(kind), false, first_expects(kind), tags)?;
    Ok(Draft {
        kind,
        expects: PfoExpects::Shared,
        has_scrub: false,
        shared,
    })
}
