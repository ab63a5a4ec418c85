//! Walks that tell which rules decide. A rule sees the packet as it stands, and what it sees is made anew only behind an instruction
//! that changes something of it, so that most instructions cost a test alone.

ghost use Rattle.fws_net.specs.Routes.{IsSound};

use crate::deciders::{Deciders, Log};
use crate::points::Sight;
use crate::rules::{NONE, Told};
use fws_flat::{FlatAct, Part};
use fws_net::{Exit, Site, Transit, View, exit_of, holds};
use fws_num::Memory;
use std::alloc::Global;

/// What packets are walked through.
#[derive(Clone, Copy)]
pub(crate) struct Ground<'a> {
    pub(crate) alloc: Global,
    pub(crate) site: &'a Site,
    pub(crate) told: &'a Told<'a>,
    /// The rules for which the instructions stand.
    pub(crate) numbers: &'a [u32],
}

/// What a rule sees of a packet.
fn seen(ground: &Ground, part: &Part, sight: &Sight, t: &Transit) -> Result<View, Memory>
    requires { IsSound ground.now.site.now }
{
    t.seen(
        ground.alloc,
        ground.site,
        part.shows_recv,
        part.shows_xmit,
        part.outward,
        sight.kind.is_est(),
    )
}

/// The packet behind an instruction that goes on.
fn behind(ground: &Ground, sight: &Sight, act: FlatAct, t: Transit) -> Result<Transit, Memory> {
    let packet = &sight.packet;
    let kind = &sight.kind;
    Ok(match act {
        FlatAct::Accept | FlatAct::Drop | FlatAct::Jump(_) => t,
        FlatAct::Hold(accepts) => t.with_verdict(accepts),
        FlatAct::Src(end) => t.with_src(packet, end),
        FlatAct::Dst(end) => t.with_dst(packet, end),
        FlatAct::RecSrc => t.with_tracked_src(kind),
        FlatAct::RecDst => t.with_tracked_dst(kind),
        FlatAct::AddTag(tag) => t.with_tag(tag)?,
        FlatAct::OnlyTag(tag) => t.with_only_tag(ground.alloc, tag)?,
        FlatAct::DelTag(tag) => t.without_tag(ground.alloc, tag)?,
    })
}

/// The rule for which an instruction stands.
fn rule_at(numbers: &[u32], at: u32) -> u32 {
    match numbers.get(at as usize) {
        Some(rule) => *rule,
        None => NONE,
    }
}

/// The packet behind a part; none where it is dropped.
fn part_behind(
    ground: &Ground,
    part: &Part,
    sight: &Sight,
    t: Transit,
    log: &mut Log,
) -> Result<Option<Transit>, Memory>
    requires { IsSound ground.now.site.now }
{
    let mut now = t.with_verdict(part.end);
    let mut view = seen(ground, part, sight, &now)?;
    let mut to = part.first;
    for at in part.first..part.past {
        if at < to {
            continue;
        }
        let Some(ins) = ground.told.code.code.as_slice().get(at as usize) else {
            break;
        };
        if !holds(&ins.cond, &view) {
            continue;
        }
        log.note(rule_at(ground.numbers, at), ins.act)?;
        match ins.act {
            FlatAct::Accept => return Ok(Some(now)),
            FlatAct::Drop => return Ok(None),
            FlatAct::Jump(place) => to = place,
            act => {
                now = behind(ground, sight, act, now)?;
                view = seen(ground, part, sight, &now)?;
            }
        }
    }
    Ok(now.decided())
}

/// The packet behind these parts, in their order; none where one drops it.
fn parts_behind(
    ground: &Ground,
    parts: &[Part],
    sight: &Sight,
    t: Transit,
    log: &mut Log,
) -> Result<Option<Transit>, Memory>
    requires { IsSound ground.now.site.now }
{
    let mut now = t;
    for part in parts {
        log.begin();
        match part_behind(ground, part, sight, now, log)? {
            Some(t) => now = t,
            None => {
                log.dropped(ground.alloc)?;
                return Ok(None);
            }
        }
        log.accepted(ground.told.labels)?;
    }
    Ok(Some(now))
}

/// Walks a packet that arrives.
fn arrive(ground: &Ground, sight: &Sight, t: Transit, log: &mut Log) -> Result<(), Memory>
    requires { IsSound ground.now.site.now }
{
    let code = ground.told.code;
    let Some(routed) = parts_behind(ground, code.arrive.as_slice(), sight, t, log)? else {
        return Ok(());
    };
    let _end = match exit_of(ground.site, sight.packet.entry, routed.packet.dst) {
        Exit::Deliver => parts_behind(ground, code.deliver.as_slice(), sight, routed, log)?,
        Exit::Out(_) => parts_behind(ground, code.forward.as_slice(), sight, routed, log)?,
        Exit::Lost => None,
    };
    Ok(())
}

/// The rules that decide on a packet.
pub(crate) fn deciders(ground: &Ground, sight: &Sight) -> Result<Deciders, Memory>
    requires { IsSound ground.now.site.now }
{
    let mut log = Log::new(ground.alloc);
    let entered = Transit::entered(ground.alloc, &sight.packet);
    if sight.packet.entry == 0 {
        let parts = ground.told.code.send.as_slice();
        let _end = parts_behind(ground, parts, sight, entered, &mut log)?;
    } else {
        arrive(ground, sight, entered, &mut log)?;
    }
    Ok(log.found)
}
