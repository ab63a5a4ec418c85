//! What translations make of a packet (pf.conf(5)).

ghost use Rattle.std.specs.Prelude.{◌≡◌, None, Some, IfOk, MatchOption};
ghost use Rattle.std.specs.List.{find};
ghost use Rattle.fws_net.specs.Conditions.{holds};
ghost use Rattle.fws_net.specs.Routes.{IsSound};
ghost use Rattle.fws_pf.specs.Walk.{chosen, translated_by, translations, written};

use crate::config::PfNat;
use crate::model::acting::{Scene, tagged, view_on};
use fws_net::{End, Packet, Transit, View, holds};
use fws_num::Memory;
use std::alloc::Global;

/// The packet that entered as `p`, with the end over its source as it goes out, or over its
/// destination as it comes in.
fn written(p: &Packet, outward: bool, end: End, t: Transit) -> Transit
    ensures { result ≡ written p.now outward end t }
{
    if outward {
        t.with_src(p, end)
    } else {
        t.with_dst(p, end)
    }
}

/// The packet that entered as `p`, behind a translation.
pub(crate) fn translated_by(
    alloc: Global,
    p: &Packet,
    outward: bool,
    nat: &PfNat,
    t: Transit,
) -> Result<Transit, Memory>
    ensures { IfOk result (λ u. u ≡ translated_by p.now outward nat.now t) }
{
    match nat.to {
        Some(end) => tagged(alloc, nat.tag, written(p, outward, end, t)),
        None => tagged(alloc, nat.tag, t),
    }
}

/// The translations of a pass.
fn translations<'a>(scene: &Scene<'a>) -> &'a [PfNat]
    ensures { result.now ≡ translations scene.now.config.now scene.now.outward }
{
    if scene.outward {
        scene.config.nat.as_slice()
    } else {
        scene.config.rdr.as_slice()
    }
}

/// The first of the translations whose condition holds.
fn first_holding<'a>(nats: &'a [PfNat], view: &View) -> Option<&'a PfNat>
    ensures { MatchOption result (find (λ nat. holds nat.cond view.now) nats.now ≡ None) (λ nat. find (λ each. holds each.cond view.now) nats.now ≡ Some nat.now) }
{
    for nat in nats {
        if holds(&nat.cond, view) {
            return Some(nat);
        }
    }
    None
}

/// The first translation of the pass whose condition holds for the packet on its way.
pub(crate) fn chosen<'a>(
    alloc: Global,
    scene: &Scene<'a>,
    t: &Transit,
) -> Result<Option<&'a PfNat>, Memory>
    requires { IsSound scene.now.site.now }
    ensures { IfOk result (λ found. MatchOption found (chosen scene.now.site.now scene.now.outward (translations scene.now.config.now scene.now.outward) t.now ≡ None) (λ nat. chosen scene.now.site.now scene.now.outward (translations scene.now.config.now scene.now.outward) t.now ≡ Some nat.now)) }
{
    let view = view_on(alloc, scene, t)?;
    Ok(first_holding(translations(scene), &view))
}
