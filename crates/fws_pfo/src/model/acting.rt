//! What rules see of a packet, and what they do to one for which their condition holds (pf.conf(5) of OpenBSD).

ghost use Rattle.std.specs.Prelude.{◌≡◌, IfOk};
ghost use Rattle.fws_net.specs.Routes.{IsSound};
ghost use Rattle.fws_pf.specs.Walk.{is_met, tagged, view_on, written};
ghost use Rattle.fws_pfo.specs.Walk.{acted, acted_by, held_behind, matches, moved};

use crate::config::{PfoConfig, PfoKind, PfoRule};
use fws_net::{End, Packet, Site, Transit, View, holds};
use fws_num::Memory;
use fws_pf::Way;
use std::alloc::Global;

/// Where rules are walked, and for which packet.
#[derive(Clone, Copy)]
pub(crate) struct Scene<'a> {
    /// The configuration.
    pub config: &'a PfoConfig,
    /// The site.
    pub site: &'a Site,
    /// The packet as it entered.
    pub packet: &'a Packet,
    /// Whether it goes out on this pass.
    pub outward: bool,
}

/// What a rule sees of a new packet on its way.
fn view_on(alloc: Global, scene: &Scene, t: &Transit) -> Result<View, Memory>
    requires { IsSound scene.now.site.now }
    ensures { IfOk result (λ v. v ≡ view_on scene.now.site.now scene.now.outward t.now) }
{
    let out = scene.outward;
    Ok(t.seen(alloc, scene.site, true, out, out, false)?)
}

/// The packet with the tag as its only one, where a rule puts one.
fn tagged(alloc: Global, tag: Option<u32>, t: Transit) -> Result<Transit, Memory>
    ensures { IfOk result (λ u. u ≡ tagged tag t) }
{
    match tag {
        Some(tag) => t.with_only_tag(alloc, tag),
        None => Ok(t),
    }
}

/// Whether a rule is met on the pass.
fn is_met(way: Way, outward: bool) -> bool
    ensures { result ≡ is_met way outward }
{
    match way {
        Way::Both => true,
        Way::Inward => !outward,
        Way::Outward => outward,
    }
}

/// Whether the rule is met on the pass and its condition holds for the packet on its way.
pub(crate) fn matches(
    alloc: Global,
    scene: &Scene,
    rule: &PfoRule,
    t: &Transit,
) -> Result<bool, Memory>
    requires { IsSound scene.now.site.now }
    ensures { IfOk result (λ b. b ≡ matches scene.now.site.now scene.now.outward rule.now t.now) }
{
    let view = view_on(alloc, scene, t)?;
    Ok(is_met(rule.way, scene.outward) && holds(&rule.cond, &view))
}

/// The packet that entered as `p`, with the end over its source as it goes out, or over its
/// destination as it comes in.
fn written(p: &Packet, outward: bool, end: End, t: Transit) -> Transit
    ensures { result ≡ written p.now outward end t }
{
    if outward {
        t.with_src(p, end)
    } else {
        t.with_dst(p, end)
    }
}

/// The packet that entered as `p`, with the end over its source or its destination, if there is one.
pub(crate) fn moved(p: &Packet, outward: bool, to: Option<End>, t: Transit) -> Transit
    ensures { result ≡ moved p.now outward to t }
{
    match to {
        Some(end) => written(p, outward, end, t),
        None => t,
    }
}

/// The packet behind what a rule of the kind does at once.
fn acted_by(p: &Packet, outward: bool, to: Option<End>, kind: PfoKind, t: Transit) -> Transit
    ensures { result ≡ acted_by p.now outward to kind t }
{
    match kind {
        PfoKind::Pass => t.with_verdict(true),
        PfoKind::Block => t.with_verdict(false),
        PfoKind::Match => moved(p, outward, to, t),
    }
}

/// The packet behind a rule that matches.
pub(crate) fn acted(
    alloc: Global,
    scene: &Scene,
    rule: &PfoRule,
    t: Transit,
) -> Result<Transit, Memory>
    ensures { IfOk result (λ u. u ≡ acted scene.now.packet.now scene.now.outward rule.now t) }
{
    let t = tagged(alloc, rule.tag, t)?;
    Ok(acted_by(scene.packet, scene.outward, rule.to, rule.kind, t))
}

/// The end that is held behind a rule that matches.
pub(crate) fn held_behind(rule: &PfoRule, held: Option<End>) -> Option<End>
    ensures { result ≡ held_behind rule.now held }
{
    match rule.kind {
        PfoKind::Pass => rule.to,
        PfoKind::Block => rule.to,
        PfoKind::Match => held,
    }
}
