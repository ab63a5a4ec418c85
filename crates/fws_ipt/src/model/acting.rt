//! What a rule does to a packet for which its condition holds (iptables(8), iptables-extensions(8)).

ghost use Rattle.std.specs.Prelude.{◌≡◌, ℕ, List, ◌∷◌, IfOk, if◌then◌else◌};
ghost use Rattle.fws_net.specs.Routes.{IsSound};
ghost use Rattle.fws_ipt.specs.declared.passage.Passage.{Passage};
ghost use Rattle.fws_ipt.specs.declared.passage.ChainEnd.{ChainEnd};
ghost use Rattle.fws_ipt.specs.declared.passage.ChainEnd.TheVariants.{Accepted};
ghost use Rattle.fws_ipt.specs.declared.config.IptRule.{IptRule};
ghost use Rattle.fws_ipt.specs.declared.config.IptGo.TheVariants.{Masquerade};
ghost use Rattle.fws_ipt.specs.Walk.{act, rules_walk, with_dst, with_src, writes_dst_at, writes_src_at};
ghost use Rattle.fws_ipt.specs.Steps.{stepped};

use crate::config::{IptChain, IptGo, IptRule};
use crate::hook::Hook;
use crate::model::seeing::view_at;
use crate::model::writing::{masqueraded, redirect_addr, with_dst, with_mark, with_src};
use crate::passage::{ChainEnd, Passage};
use fws_net::{End, Packet, Site, holds, sending_entry};
use fws_num::Memory;
use fws_rules::net_end;
use std::alloc::Global;

/// Where rules are walked, and for which packet.
#[derive(Clone, Copy)]
pub(crate) struct Scene<'a> {
    /// All chains.
    pub chains: &'a [IptChain],
    /// The site.
    pub site: &'a Site,
    /// The packet as it entered.
    pub entered: Packet,
    /// Whether it belongs to a tracked connection.
    pub is_est: bool,
    /// The place of the built-in chain.
    pub hook: Hook,
}

/// How the walk goes on behind a rule whose condition holds.
#[derive(Clone, Copy)]
pub(crate) enum Step {
    /// The chain is left.
    Leave(ChainEnd),
    /// At the next rule.
    Onwards(Passage),
    /// In another chain, and then at the next rule.
    Call(u32, Passage),
    /// In another chain, for good.
    Switch(u32, Passage),
}

/// Accepts what was written, where the rule acts; else the walk goes on.
fn accepted_where(acts: bool, written: Passage, m: Passage) -> Step
    ensures { (enter : ℕ → Passage → ChainEnd) (next : Passage → ChainEnd) → stepped enter next result ≡ if acts then Accepted written else next m }
{
    if acts {
        Step::Leave(ChainEnd::Accepted(written))
    } else {
        Step::Onwards(m)
    }
}

/// How the walk goes on behind `MASQUERADE`.
fn masquerade(scene: &Scene, m: Passage) -> Step
    requires { IsSound scene.now.site.now }
    ensures { (enter : ℕ → Passage → ChainEnd) (next : Passage → ChainEnd) → stepped enter next result ≡ act enter next scene.now.site.now scene.now.entered scene.now.hook Masquerade m }
{
    if !scene.hook.masquerades() {
        return Step::Onwards(m);
    }
    let xmit = sending_entry(scene.site, &m.packet);
    match masqueraded(scene.site, &scene.entered, xmit, &m) {
        ChainEnd::Through(m) => Step::Onwards(m),
        end => Step::Leave(end),
    }
}

/// How the walk goes on behind `NETMAP` with this end.
fn netmap(scene: &Scene, end: End, m: Passage) -> Step
    ensures { (enter : ℕ → Passage → ChainEnd) (next : Passage → ChainEnd) → stepped enter next result ≡
        if writes_dst_at scene.now.hook then Accepted (with_dst scene.now.entered end m)
        else if writes_src_at scene.now.hook then Accepted (with_src scene.now.entered end m) else next m }
{
    let p = &scene.entered;
    if scene.hook.writes_dst() {
        Step::Leave(ChainEnd::Accepted(with_dst(p, end, &m)))
    } else if scene.hook.writes_src() {
        Step::Leave(ChainEnd::Accepted(with_src(p, end, &m)))
    } else {
        Step::Onwards(m)
    }
}

/// What a rule does that acts like this.
fn step_of(scene: &Scene, go: IptGo, m: Passage) -> Step
    requires { IsSound scene.now.site.now }
    ensures { (enter : ℕ → Passage → ChainEnd) (next : Passage → ChainEnd) → stepped enter next result ≡ act enter next scene.now.site.now scene.now.entered scene.now.hook go m }
{
    let p = &scene.entered;
    match go {
        IptGo::Accept => Step::Leave(ChainEnd::Accepted(m)),
        IptGo::Drop => Step::Leave(ChainEnd::Dropped),
        IptGo::Return => Step::Leave(ChainEnd::Through(m)),
        IptGo::Next => Step::Onwards(m),
        IptGo::Jump(c) => Step::Call(c, m),
        IptGo::Goto(c) => Step::Switch(c, m),
        IptGo::Mark(mark) => Step::Onwards(with_mark(mark, &m)),
        IptGo::Source(end) => accepted_where(scene.hook.writes_src(), with_src(p, end, &m), m),
        IptGo::Masquerade => masquerade(scene, m),
        IptGo::Dest(end) => accepted_where(scene.hook.writes_dst(), with_dst(p, end, &m), m),
        IptGo::Redirect(port) => {
            let end = End::host(redirect_addr(scene.site, p), port);
            accepted_where(scene.hook.writes_dst(), with_dst(p, end, &m), m)
        }
        IptGo::Netmap(net) => netmap(scene, net_end(net), m),
    }
}

/// What a rule does, whether its condition holds or not.
pub(crate) fn rule_step(
    alloc: Global,
    scene: &Scene,
    rule: &IptRule,
    m: Passage,
) -> Result<Step, Memory>
    requires { IsSound scene.now.site.now }
    ensures { IfOk result (λ step. (enter : ℕ → Passage → ChainEnd) (rest : List IptRule) → stepped enter (rules_walk enter scene.now.site.now scene.now.entered scene.now.is_est scene.now.hook rest) step ≡ rules_walk enter scene.now.site.now scene.now.entered scene.now.is_est scene.now.hook (rule.now ∷ rest) m) }
{
    let view = view_at(alloc, scene.site, scene.is_est, scene.hook, &m)?;
    if holds(&rule.cond, &view) {
        Ok(step_of(scene, rule.go, m))
    } else {
        Ok(Step::Onwards(m))
    }
}
