//! What rules see of a packet, and what they do to one for which their condition holds (pf.conf(5)).

ghost use Rattle.std.specs.Prelude.{◌≡◌, IfOk};
ghost use Rattle.fws_net.specs.Routes.{IsSound};
ghost use Rattle.fws_pf.specs.Walk.{acted, is_met, matches, tagged, view_on};

use crate::config::{PfConfig, PfRule, Way};
use fws_net::{Packet, Site, Transit, View, holds};
use fws_num::Memory;
use std::alloc::Global;

/// Where rules are walked, and for which packet.
#[derive(Clone, Copy)]
pub(crate) struct Scene<'a> {
    /// The configuration.
    pub config: &'a PfConfig,
    /// The site.
    pub site: &'a Site,
    /// The packet as it entered.
    pub packet: &'a Packet,
    /// Whether it goes out on this pass.
    pub outward: bool,
}

/// What a rule sees of a new packet on its way.
pub(crate) fn view_on(alloc: Global, scene: &Scene, t: &Transit) -> Result<View, Memory>
    requires { IsSound scene.now.site.now }
    ensures { IfOk result (λ v. v ≡ view_on scene.now.site.now scene.now.outward t.now) }
{
    let out = scene.outward;
    Ok(t.seen(alloc, scene.site, true, out, out, false)?)
}

/// The packet with the tag as its only one, where a rule puts one.
pub(crate) fn tagged(alloc: Global, tag: Option<u32>, t: Transit) -> Result<Transit, Memory>
    ensures { IfOk result (λ u. u ≡ tagged tag t) }
{
    match tag {
        Some(tag) => t.with_only_tag(alloc, tag),
        None => Ok(t),
    }
}

/// Whether a rule is met on the pass.
fn is_met(way: Way, outward: bool) -> bool
    ensures { result ≡ is_met way outward }
{
    match way {
        Way::Both => true,
        Way::Inward => !outward,
        Way::Outward => outward,
    }
}

/// Whether the rule is met on the pass and its condition holds for the packet on its way.
pub(crate) fn matches(
    alloc: Global,
    scene: &Scene,
    rule: &PfRule,
    t: &Transit,
) -> Result<bool, Memory>
    requires { IsSound scene.now.site.now }
    ensures { IfOk result (λ b. b ≡ matches scene.now.site.now scene.now.outward rule.now t.now) }
{
    let view = view_on(alloc, scene, t)?;
    Ok(is_met(rule.way, scene.outward) && holds(&rule.cond, &view))
}

/// The packet behind a rule that matches.
pub(crate) fn acted(alloc: Global, rule: &PfRule, t: Transit) -> Result<Transit, Memory>
    ensures { IfOk result (λ u. u ≡ acted rule.now t) }
{
    Ok(tagged(alloc, rule.tag, t)?.with_verdict(rule.pass))
}
