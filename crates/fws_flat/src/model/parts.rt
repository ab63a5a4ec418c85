//! The walk through a part.

ghost use Rattle.std.specs.Prelude.{◌≡◌, ℕ, suc, ◌+◌, Option, List, ◌∷◌, ◌++◌, IfOk, OnOk};
ghost use Rattle.fws_net.specs.declared.transit.Transit.{Transit};
ghost use Rattle.fws_net.specs.Routes.{IsSound};
ghost use Rattle.fws_flat.specs.declared.code.Ins.{Ins};
ghost use Rattle.fws_flat.specs.Uses.{code_used, part_used, used_behind};
ghost use Rattle.fws_flat.specs.Walk.{code_walk, part_walk, stepped};

use crate::code::Ins;
use crate::model::acting::{Scene, ins_holds, step_of};
use crate::soundness::part_code;
use crate::step::Step;
use fws_net::Transit;
use fws_num::Memory;
use std::alloc::Global;

/// The place of an instruction, `k` behind the first of the part.
fn place_of(first: u32, k: usize) -> Result<u32, Memory>
    ensures { IfOk result (λ at. at ≡ first + k) }
{
    let k = u32::try_from(k).map_err(|_| Memory)?;
    match first.checked_add(k) {
        Some(at) => Ok(at),
        None => Err(Memory),
    }
}

/// What the instruction at the place does, whether its condition holds or not. Where it holds the place
/// is added to the log.
fn ins_step(
    alloc: Global,
    scene: &Scene,
    at: u32,
    ins: &Ins,
    t: Transit,
    log: &mut Vec<u32>,
) -> Result<Step, Memory>
    requires { IsSound scene.now.site.now }
    ensures walked { IfOk result (λ step. (rest : List Ins) → stepped (code_walk scene.now.site.now scene.now.packet.now scene.now.kind.now scene.now.part (suc at) rest) step ≡ code_walk scene.now.site.now scene.now.packet.now scene.now.kind.now scene.now.part at (ins.now ∷ rest) 0 t) }
    ensures logged { IfOk result (λ step. (rest : List Ins) → log.new.items ++ used_behind (code_used scene.now.site.now scene.now.packet.now scene.now.kind.now scene.now.part (suc at) rest) step ≡ log.old.items ++ code_used scene.now.site.now scene.now.packet.now scene.now.kind.now scene.now.part at (ins.now ∷ rest) 0 t) }
{
    if !ins_holds(alloc, scene, ins, &t)? {
        return Ok(Step::Onwards(0, t));
    }
    log.push(at)?;
    let step = step_of(alloc, scene.packet, scene.kind, ins.act, t)?;
    Ok(step)
}

/// Walks the instructions, of which the first has the place `first`, and adds the places of those that
/// are used to the log.
fn code_walk(
    alloc: Global,
    scene: &Scene,
    first: u32,
    code: &[Ins],
    t: Transit,
    log: &mut Vec<u32>,
) -> Result<Option<Transit>, Memory>
    requires { IsSound scene.now.site.now }
    ensures walked { IfOk result (λ o. o ≡ code_walk scene.now.site.now scene.now.packet.now scene.now.kind.now scene.now.part first code.now 0 t) }
    ensures logged { OnOk result (log.new.items ≡ log.old.items ++ code_used scene.now.site.now scene.now.packet.now scene.now.kind.now scene.now.part first code.now 0 t) }
{
    let mut now = t;
    let mut to = 0;
    for (k, ins) in code.iter().enumerate() {
        let at = place_of(first, k)?;
        if at < to {
            continue;
        }
        match ins_step(alloc, scene, at, ins, now, log)? {
            Step::Leave(end) => return Ok(end),
            Step::Onwards(place, t) => {
                to = place;
                now = t;
            }
        }
    }
    Ok(now.decided())
}

/// The packet behind the part; none where it is dropped. The places of the instructions that are used
/// are added to the log.
pub(crate) fn part_walk(
    alloc: Global,
    scene: &Scene,
    t: Transit,
    log: &mut Vec<u32>,
) -> Result<Option<Transit>, Memory>
    requires { IsSound scene.now.site.now }
    ensures walked { IfOk result (λ o. o ≡ part_walk scene.now.code.now scene.now.site.now scene.now.packet.now scene.now.kind.now scene.now.part t) }
    ensures logged { OnOk result (log.new.items ≡ log.old.items ++ part_used scene.now.code.now scene.now.site.now scene.now.packet.now scene.now.kind.now scene.now.part t) }
{
    let part = scene.part;
    let code = part_code(scene.code, &part);
    let begun = t.with_verdict(part.end);
    let end = code_walk(alloc, scene, part.first, code, begun, log)?;
    Ok(end)
}
