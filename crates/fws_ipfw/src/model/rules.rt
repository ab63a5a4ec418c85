//! A pass through the rules (ipfw(8)).

ghost use Rattle.std.specs.Prelude.{◌≡◌, ℕ, List, ◌∷◌, IfOk};
ghost use Rattle.fws_net.specs.Routes.{IsSound};
ghost use Rattle.fws_ipfw.specs.declared.config.IpfwRule.{IpfwRule as AnyRule};
ghost use Rattle.fws_ipfw.specs.Walk.{pass_walk, rules_walk, stepped};

use crate::config::IpfwRule;
use crate::model::acting::{Scene, ended, rule_holds, step_of, tagged};
use crate::pass::{Pass, Step};
use fws_net::Transit;
use fws_num::Memory;
use std::alloc::Global;

/// How the pass goes on behind the rule, whether its condition holds or not. One with a number below `to` is passed over.
fn rule_step(
    alloc: Global,
    scene: &Scene,
    rule: &IpfwRule,
    to: u32,
    m: Pass,
) -> Result<Step, Memory>
    requires { IsSound scene.now.site.now }
    ensures { IfOk result (λ step. (rest : List AnyRule) → stepped (rules_walk scene.now.config.now scene.now.site.now scene.now.packet.now scene.now.kind.now scene.now.outward rest) step ≡ rules_walk scene.now.config.now scene.now.site.now scene.now.packet.now scene.now.kind.now scene.now.outward (rule.now ∷ rest) to m) }
{
    if rule.number < to {
        return Ok(Step::Onwards(to, m));
    }
    if scene.kind.is_est() && rule.keep {
        return Ok(Step::Accepted(ended(scene.kind, scene.outward, m)));
    }
    if !rule_holds(alloc, scene, rule, &m.transit)? {
        return Ok(Step::Onwards(0, m));
    }
    let transit = tagged(alloc, rule.tag, m.transit)?;
    let m = Pass {
        transit,
        translated: m.translated,
    };
    Ok(step_of(scene, rule.act, m))
}

/// The packet behind its pass through all rules; none where it is dropped.
pub(crate) fn pass_walk(alloc: Global, scene: &Scene, t: Transit) -> Result<Option<Transit>, Memory>
    requires { IsSound scene.now.site.now }
    ensures { IfOk result (λ o. o ≡ pass_walk scene.now.config.now scene.now.site.now scene.now.packet.now scene.now.kind.now scene.now.outward t) }
{
    let mut now = Pass {
        transit: t,
        translated: false,
    };
    let mut to = 0;
    for rule in scene.config.rules.as_slice() {
        match rule_step(alloc, scene, rule, to, now)? {
            Step::Accepted(t) => return Ok(Some(t)),
            Step::Dropped => return Ok(None),
            Step::Onwards(next, m) => {
                to = next;
                now = m;
            }
        }
    }
    Ok(None)
}
