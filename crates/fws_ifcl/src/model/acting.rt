//! What a rule sees of a packet, and what it does to one for which its condition holds.

ghost use Rattle.std.specs.Prelude.{◌≡◌, IfOk};
ghost use Rattle.fws_net.specs.Conditions.{holds};
ghost use Rattle.fws_net.specs.Routes.{IsSound};
ghost use Rattle.fws_ifcl.specs.Walk.{sees, step_of};

use crate::diagram::{Act, Chain, Rule, Stage};
use crate::step::{ChainEnd, Step};
use fws_net::{Kind, Packet, Site, Transit, holds};
use fws_num::Memory;
use std::alloc::Global;

/// Where rules are walked, and for which packet.
#[derive(Clone, Copy)]
pub(crate) struct Scene<'a> {
    /// All chains.
    pub chains: &'a [Chain],
    /// The site.
    pub site: &'a Site,
    /// The packet as it entered.
    pub packet: &'a Packet,
    /// Its class.
    pub kind: &'a Kind,
    /// The stage.
    pub stage: Stage,
}

/// Whether the condition of the rule holds for the packet on its way.
pub(crate) fn rule_holds(
    alloc: Global,
    scene: &Scene,
    rule: &Rule,
    t: &Transit,
) -> Result<bool, Memory>
    requires { IsSound scene.now.site.now }
    ensures { IfOk result (λ b. b ≡ holds rule.now.cond (sees scene.now.site.now scene.now.kind.now scene.now.stage t.now)) }
{
    let stage = scene.stage;
    let view = t.seen(
        alloc,
        scene.site,
        stage.shows_recv,
        stage.shows_xmit,
        stage.outward,
        scene.kind.is_est(),
    )?;
    Ok(holds(&rule.cond, &view))
}

/// What a rule does that acts like this, with a packet of this class that entered as `p`.
pub(crate) fn step_of(
    alloc: Global,
    p: &Packet,
    k: &Kind,
    act: Act,
    t: Transit,
) -> Result<Step, Memory>
    ensures { IfOk result (λ step. step ≡ step_of p.now k.now act t) }
{
    Ok(match act {
        Act::Accept => Step::Leave(ChainEnd::Accepted(t)),
        Act::Drop => Step::Leave(ChainEnd::Dropped),
        Act::Hold(accepts) => Step::Onwards(0, t.with_verdict(accepts)),
        Act::Call(c) => Step::Enter(c, t),
        Act::Goto(c) => Step::Switch(c, t),
        Act::Return => Step::Leave(ChainEnd::Through(t)),
        Act::Skip(to) => Step::Onwards(to, t),
        Act::Src(end) => Step::Onwards(0, t.with_src(p, end)),
        Act::Dst(end) => Step::Onwards(0, t.with_dst(p, end)),
        Act::RecSrc => Step::Onwards(0, t.with_tracked_src(k)),
        Act::RecDst => Step::Onwards(0, t.with_tracked_dst(k)),
        Act::AddTag(tag) => Step::Onwards(0, t.with_tag(tag)?),
        Act::OnlyTag(tag) => Step::Onwards(0, t.with_only_tag(alloc, tag)?),
        Act::DelTag(tag) => Step::Onwards(0, t.without_tag(alloc, tag)?),
    })
}
