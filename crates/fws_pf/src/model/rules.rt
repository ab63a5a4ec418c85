//! A pass of a new packet through translations and filter rules (pf.conf(5)).

ghost use Rattle.std.specs.Prelude.{◌≡◌, Some, IfOk};
ghost use Rattle.fws_net.specs.Conditions.{is_shown};
ghost use Rattle.fws_net.specs.Routes.{IsSound};
ghost use Rattle.fws_pf.specs.Walk.{behind, interface_of, pass_walk, rules_walk};

use crate::config::PfNat;
use crate::model::acting::{Scene, acted, matches};
use crate::model::translating::{chosen, translated_by};
use fws_iv::Ivs;
use fws_net::{Transit, sending_entry};
use fws_num::Memory;
use std::alloc::Global;

/// The packet behind the filter rules; none where they block it.
fn rules_walk(alloc: Global, scene: &Scene, t: Transit) -> Result<Option<Transit>, Memory>
    requires { IsSound scene.now.site.now }
    ensures { IfOk result (λ o. o ≡ rules_walk scene.now.site.now scene.now.outward scene.now.config.now.filter t) }
{
    let mut now = t;
    for rule in scene.config.filter.as_slice() {
        if !matches(alloc, scene, rule, &now)? {
            continue;
        }
        now = acted(alloc, rule, now)?;
        if rule.quick {
            return Ok(now.decided());
        }
    }
    Ok(now.decided())
}

/// The entry number of the interface of the pass.
fn interface_of(scene: &Scene, t: &Transit) -> Option<u8>
    requires { IsSound scene.now.site.now }
    ensures { result ≡ interface_of scene.now.site.now scene.now.outward t.now }
{
    if scene.outward {
        sending_entry(scene.site, &t.packet)
    } else {
        t.packet.receiving()
    }
}

/// Whether the interface is shown and is a member.
fn is_shown(entry: Option<u8>, set: &Ivs) -> bool
    ensures { result ≡ is_shown entry set.now }
{
    match entry {
        Some(entry) => set.has(u32::from(entry)),
        None => false,
    }
}

/// The new packet behind a translation whose condition holds, and behind the filter unless the translation
/// passes it; none where it is blocked.
fn behind(alloc: Global, scene: &Scene, nat: &PfNat, t: Transit) -> Result<Option<Transit>, Memory>
    requires { IsSound scene.now.site.now }
    ensures { IfOk result (λ o. o ≡ behind scene.now.config.now scene.now.site.now scene.now.packet.now scene.now.outward (Some nat.now) t) }
{
    let t = translated_by(alloc, scene.packet, scene.outward, nat, t)?;
    if nat.past {
        Ok(Some(t))
    } else {
        rules_walk(alloc, scene, t)
    }
}

/// The new packet behind its pass; none where it is blocked.
pub(crate) fn pass_walk(alloc: Global, scene: &Scene, t: Transit) -> Result<Option<Transit>, Memory>
    requires { IsSound scene.now.site.now }
    ensures { IfOk result (λ o. o ≡ pass_walk scene.now.config.now scene.now.site.now scene.now.packet.now scene.now.outward t) }
{
    if is_shown(interface_of(scene, &t), &scene.config.skip) {
        return Ok(Some(t));
    }
    match chosen(alloc, scene, &t)? {
        Some(nat) => behind(alloc, scene, nat, t),
        None => rules_walk(alloc, scene, t),
    }
}
