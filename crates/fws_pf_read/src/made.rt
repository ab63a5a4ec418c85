//! What a rule says at each of its conditions (pf.conf(5)).

ghost use Rattle.std.specs.Prelude.{◌≡◌, option_map};
ghost use Rattle.fws_pf.specs.Drawn.{filter_rule, target_end, translation};
ghost use Rattle.fws_pf_read.specs.Views.{draft_of};

use crate::draft::{Draft, passes};
use fws_net::{Cond, End};
use fws_pf::{PfNat, PfRule, Target};
use fws_rules::net_end;

/// A filter rule with this condition.
pub(crate) fn filter_rule(d: &Draft, cond: Cond) -> PfRule
    ensures { result ≡ filter_rule (draft_of d.now) cond }
{
    PfRule {
        pass: passes(d.verb),
        way: d.way,
        quick: d.quick,
        cond,
        tag: d.tag,
        keep: passes(d.verb) && !d.stateless,
    }
}

/// The end that is written.
pub fn target_end(target: Target) -> End
    ensures { result ≡ target_end target }
{
    if target.is_mapped {
        net_end(target.net)
    } else {
        End::host(target.net.addr, target.port)
    }
}

/// The end that is written, where one is.
fn written_end(target: Option<Target>) -> Option<End>
    ensures { result ≡ option_map target_end target }
{
    match target {
        Some(target) => Some(target_end(target)),
        None => None,
    }
}

/// A translation with this condition.
pub(crate) fn translation(d: &Draft, cond: Cond) -> PfNat
    ensures { result ≡ translation (draft_of d.now) cond }
{
    PfNat {
        cond,
        to: written_end(d.target),
        past: d.past,
        tag: d.tag,
    }
}
