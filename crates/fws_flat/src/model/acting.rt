//! What an instruction sees of a packet, and what it does to one for which its condition holds.

ghost use Rattle.std.specs.Prelude.{◌≡◌, IfOk};
ghost use Rattle.fws_net.specs.Conditions.{holds};
ghost use Rattle.fws_net.specs.Routes.{IsSound};
ghost use Rattle.fws_flat.specs.Walk.{sees, step_of};

use crate::code::{FlatAct, Ins, Part};
use crate::step::Step;
use fws_net::{Kind, Packet, Site, Transit, holds};
use fws_num::Memory;
use std::alloc::Global;

/// Where instructions are walked, and for which packet.
#[derive(Clone, Copy)]
pub(crate) struct Scene<'a> {
    /// The code.
    pub code: &'a [Ins],
    /// The site.
    pub site: &'a Site,
    /// The packet as it entered.
    pub packet: &'a Packet,
    /// Its class.
    pub kind: &'a Kind,
    /// The part.
    pub part: Part,
}

/// Whether the condition of the instruction holds for the packet on its way.
pub(crate) fn ins_holds(
    alloc: Global,
    scene: &Scene,
    ins: &Ins,
    t: &Transit,
) -> Result<bool, Memory>
    requires { IsSound scene.now.site.now }
    ensures { IfOk result (λ b. b ≡ holds ins.now.cond (sees scene.now.site.now scene.now.kind.now scene.now.part t.now)) }
{
    let part = scene.part;
    let view = t.seen(
        alloc,
        scene.site,
        part.shows_recv,
        part.shows_xmit,
        part.outward,
        scene.kind.is_est(),
    )?;
    Ok(holds(&ins.cond, &view))
}

/// What an instruction does that acts like this, with a packet of this class that entered as `p`.
pub(crate) fn step_of(
    alloc: Global,
    p: &Packet,
    k: &Kind,
    act: FlatAct,
    t: Transit,
) -> Result<Step, Memory>
    ensures { IfOk result (λ step. step ≡ step_of p.now k.now act t) }
{
    Ok(match act {
        FlatAct::Accept => Step::Leave(Some(t)),
        FlatAct::Drop => Step::Leave(None),
        FlatAct::Hold(accepts) => Step::Onwards(0, t.with_verdict(accepts)),
        FlatAct::Jump(to) => Step::Onwards(to, t),
        FlatAct::Src(end) => Step::Onwards(0, t.with_src(p, end)),
        FlatAct::Dst(end) => Step::Onwards(0, t.with_dst(p, end)),
        FlatAct::RecSrc => Step::Onwards(0, t.with_tracked_src(k)),
        FlatAct::RecDst => Step::Onwards(0, t.with_tracked_dst(k)),
        FlatAct::AddTag(tag) => Step::Onwards(0, t.with_tag(tag)?),
        FlatAct::OnlyTag(tag) => Step::Onwards(0, t.with_only_tag(alloc, tag)?),
        FlatAct::DelTag(tag) => Step::Onwards(0, t.without_tag(alloc, tag)?),
    })
}
