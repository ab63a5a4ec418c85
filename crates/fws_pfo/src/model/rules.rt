//! A pass of a new packet through the rules (pf.conf(5) of OpenBSD).

ghost use Rattle.std.specs.Prelude.{◌≡◌, None, IfOk};
ghost use Rattle.fws_net.specs.Conditions.{is_shown};
ghost use Rattle.fws_net.specs.Routes.{IsSound};
ghost use Rattle.fws_pf.specs.Walk.{interface_of};
ghost use Rattle.fws_pfo.specs.Walk.{ended, pass_walk, rules_walk};

use crate::model::acting::{Scene, acted, held_behind, matches, moved};
use fws_iv::Ivs;
use fws_net::{End, Transit, sending_entry};
use fws_num::Memory;
use std::alloc::Global;

/// The packet where the rules end, with the end that is held; none where they block it.
fn ended(scene: &Scene, held: Option<End>, t: Transit) -> Option<Transit>
    ensures { result ≡ ended scene.now.packet.now scene.now.outward held t }
{
    moved(scene.packet, scene.outward, held, t).decided()
}

/// The packet behind the rules; none where they block it.
fn rules_walk(alloc: Global, scene: &Scene, t: Transit) -> Result<Option<Transit>, Memory>
    requires { IsSound scene.now.site.now }
    ensures { IfOk result (λ o. o ≡ rules_walk scene.now.site.now scene.now.packet.now scene.now.outward scene.now.config.now.rules None t) }
{
    let mut now = t;
    let mut held = None;
    for rule in scene.config.rules.as_slice() {
        if !matches(alloc, scene, rule, &now)? {
            continue;
        }
        held = held_behind(rule, held);
        now = acted(alloc, scene, rule, now)?;
        if rule.quick {
            return Ok(ended(scene, held, now));
        }
    }
    Ok(ended(scene, held, now))
}

/// The entry number of the interface of the pass.
fn interface_of(scene: &Scene, t: &Transit) -> Option<u8>
    requires { IsSound scene.now.site.now }
    ensures { result ≡ interface_of scene.now.site.now scene.now.outward t.now }
{
    if scene.outward {
        sending_entry(scene.site, &t.packet)
    } else {
        t.packet.receiving()
    }
}

/// Whether the interface is shown and is a member.
fn is_shown(entry: Option<u8>, set: &Ivs) -> bool
    ensures { result ≡ is_shown entry set.now }
{
    match entry {
        Some(entry) => set.has(u32::from(entry)),
        None => false,
    }
}

/// The new packet behind its pass; none where it is blocked.
pub(crate) fn pass_walk(alloc: Global, scene: &Scene, t: Transit) -> Result<Option<Transit>, Memory>
    requires { IsSound scene.now.site.now }
    ensures { IfOk result (λ o. o ≡ pass_walk scene.now.config.now scene.now.site.now scene.now.packet.now scene.now.outward t) }
{
    if is_shown(interface_of(scene, &t), &scene.config.skip) {
        return Ok(Some(t));
    }
    rules_walk(alloc, scene, t.with_verdict(true))
}
