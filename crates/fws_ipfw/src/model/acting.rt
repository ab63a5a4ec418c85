//! What a rule sees of a packet, and what it does to one for which its condition holds (ipfw(8)).

ghost use Rattle.std.specs.Prelude.{◌≡◌, IfOk};
ghost use Rattle.fws_net.specs.Conditions.{holds};
ghost use Rattle.fws_net.specs.Routes.{IsSound};
ghost use Rattle.fws_ipfw.specs.Walk.{checked, ended, behind, step_of, tagged, view_on};

use crate::config::{IpfwAct, IpfwConfig, IpfwRule, IpfwTag};
use crate::model::translating::{tracked_on, translated};
use crate::pass::{Pass, Step};
use fws_net::{Kind, Packet, Site, Transit, holds};
use fws_num::Memory;
use std::alloc::Global;

/// Where rules are walked, and for which packet.
#[derive(Clone, Copy)]
pub(crate) struct Scene<'a> {
    /// The configuration.
    pub config: &'a IpfwConfig,
    /// The site.
    pub site: &'a Site,
    /// The packet as it entered.
    pub packet: &'a Packet,
    /// Its class.
    pub kind: &'a Kind,
    /// Whether it goes out on this pass.
    pub outward: bool,
}

/// Whether the condition of the rule holds for the packet on its way.
pub(crate) fn rule_holds(
    alloc: Global,
    scene: &Scene,
    rule: &IpfwRule,
    t: &Transit,
) -> Result<bool, Memory>
    requires { IsSound scene.now.site.now }
    ensures { IfOk result (λ b. b ≡ holds rule.now.cond (view_on scene.now.site.now scene.now.kind.now scene.now.outward t.now)) }
{
    let out = scene.outward;
    let view = t.seen(alloc, scene.site, true, out, out, scene.kind.is_est())?;
    Ok(holds(&rule.cond, &view))
}

/// The packet where its pass ends accepted.
pub(crate) fn ended(k: &Kind, outward: bool, m: Pass) -> Transit
    ensures { result ≡ ended k.now outward m }
{
    if m.translated {
        m.transit
    } else {
        tracked_on(k, outward, m.transit)
    }
}

/// The packet with the rule's tag, or without it.
pub(crate) fn tagged(alloc: Global, tag: IpfwTag, t: Transit) -> Result<Transit, Memory>
    ensures { IfOk result (λ u. u ≡ tagged tag t) }
{
    match tag {
        IpfwTag::Nothing => Ok(t),
        IpfwTag::Add(tag) => t.with_tag(tag),
        IpfwTag::Remove(tag) => t.without_tag(alloc, tag),
    }
}

/// How the pass goes on behind a check-state rule.
fn checked(k: &Kind, outward: bool, m: Pass) -> Step
    ensures { result ≡ checked k.now outward m }
{
    match k {
        Kind::New => Step::Onwards(0, m),
        Kind::Est(_) => Step::Accepted(ended(k, outward, m)),
    }
}

/// How the pass goes on behind a translation.
fn behind(ends: bool, m: Pass) -> Step
    ensures { result ≡ behind ends m }
{
    if ends {
        Step::Accepted(m.transit)
    } else {
        Step::Onwards(0, m)
    }
}

/// What a rule does that acts like this.
pub(crate) fn step_of(scene: &Scene, act: IpfwAct, m: Pass) -> Step
    ensures { result ≡ step_of scene.now.config.now scene.now.site.now scene.now.packet.now scene.now.kind.now scene.now.outward act m }
{
    let kind = scene.kind;
    let out = scene.outward;
    match act {
        IpfwAct::Allow => Step::Accepted(ended(kind, out, m)),
        IpfwAct::Deny => Step::Dropped,
        IpfwAct::Count => Step::Onwards(0, m),
        IpfwAct::Skip(to) => Step::Onwards(to, m),
        IpfwAct::Check => checked(kind, out, m),
        IpfwAct::Nat(number) => {
            let nats = scene.config.nats.as_slice();
            let m = translated(nats, scene.packet, kind, out, number, m);
            behind(scene.site.one_pass, m)
        }
    }
}
