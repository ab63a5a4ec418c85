//! Whether a configuration keeps state where it accepts.

ghost use Rattle.std.specs.Prelude.{◌≡◌};
ghost use Rattle.std.specs.List.{list_all, list_any};
ghost use Rattle.fws_pfo.specs.Soundness.{decides_nothing, passes};
ghost use Rattle.fws_pfo.specs.Tracks.{asks_nothing, catches_all, is_both, keeps_state, skips_none, tracks};

use crate::config::{PfoConfig, PfoKind, PfoRule};
use fws_iv::Iv;
use fws_net::{Lit, Site};
use fws_pf::Way;

/// Whether it passes packets.
fn passes(kind: PfoKind) -> bool
    ensures { result ≡ passes kind }
{
    match kind {
        PfoKind::Pass => true,
        PfoKind::Block => false,
        PfoKind::Match => false,
    }
}

/// Whether it decides nothing.
fn decides_nothing(kind: PfoKind) -> bool
    ensures { result ≡ decides_nothing kind }
{
    match kind {
        PfoKind::Pass => false,
        PfoKind::Block => false,
        PfoKind::Match => true,
    }
}

/// Whether no interface is skipped.
fn skips_none(parts: &[Iv]) -> bool
    ensures { result ≡ skips_none parts.now }
{
    match parts {
        [] => true,
        [_, ..] => false,
    }
}

/// Whether the condition has no literal.
fn asks_nothing(lits: &[Lit]) -> bool
    ensures { result ≡ asks_nothing lits.now }
{
    match lits {
        [] => true,
        [_, ..] => false,
    }
}

/// Whether a rule is met on both passes.
fn is_both(way: Way) -> bool
    ensures { result ≡ is_both way }
{
    match way {
        Way::Both => true,
        Way::Inward => false,
        Way::Outward => false,
    }
}

/// Whether the rule decides for every packet, on both passes.
fn catches_all(rule: &PfoRule) -> bool
    ensures { result ≡ catches_all rule.now }
{
    !decides_nothing(rule.kind) && is_both(rule.way) && asks_nothing(rule.cond.lits())
}

/// Whether the rule keeps state if it passes packets.
fn keeps_state(rule: &PfoRule) -> bool
    ensures { result ≡ keeps_state rule.now }
{
    !passes(rule.kind) || rule.keep
}

/// Whether some rule decides for every packet, on both passes.
fn some_catches_all(rules: &[PfoRule]) -> bool
    ensures { result ≡ list_any catches_all rules.now }
{
    rules.iter().any(|rule| catches_all(rule))
}

/// Whether each rule that passes packets keeps state.
fn all_keep_state(rules: &[PfoRule]) -> bool
    ensures { result ≡ list_all keeps_state rules.now }
{
    rules.iter().all(|rule| keeps_state(rule))
}

/// Whether the configuration keeps state: no interface is skipped, each rule that passes packets keeps state, and some rule
/// decides for every packet on both passes, so that none passes without a match.
pub fn tracks(c: &PfoConfig, _site: &Site) -> bool
    ensures { result ≡ tracks _site.now c.now }
{
    skips_none(c.skip.parts())
        && all_keep_state(c.rules.as_slice())
        && some_catches_all(c.rules.as_slice())
}
