//! What a rule says at each of its conditions (pf.conf(5) of OpenBSD).

ghost use Rattle.std.specs.Prelude.{◌≡◌, option_map};
ghost use Rattle.fws_pf.specs.Drawn.{target_end};
ghost use Rattle.fws_pfo.specs.Drawn.{held_end, rule_of};
ghost use Rattle.fws_pfo_read.specs.Views.{draft_of};

use crate::draft::{Draft, is_match, is_pass};
use fws_net::{Cond, End};
use fws_pf::Target;
use fws_pf_read::target_end;
use fws_pfo::PfoRule;

/// The end that is written, where one is.
fn written_end(target: Option<Target>) -> Option<End>
    ensures { result ≡ option_map target_end target }
{
    match target {
        Some(target) => Some(target_end(target)),
        None => None,
    }
}

/// The end that is held for the packets that a rule passes.
pub(crate) fn held_end(d: &Draft) -> Option<End>
    ensures { result ≡ held_end (draft_of d.now) }
{
    if !is_pass(d.kind) {
        return None;
    }
    written_end(d.shared.target())
}

/// The rule with this condition.
pub(crate) fn rule_of(d: &Draft, cond: Cond) -> PfoRule
    ensures { result ≡ rule_of (draft_of d.now) cond }
{
    PfoRule {
        kind: d.kind,
        way: d.shared.way(),
        quick: !is_match(d.kind) && d.shared.is_quick(),
        cond,
        tag: d.shared.tag(),
        keep: is_pass(d.kind) && !d.shared.is_stateless(),
        to: written_end(d.shared.target()),
    }
}
