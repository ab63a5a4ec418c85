//! What access lists say of a packet (Cisco IOS).

ghost use Rattle.std.specs.Prelude.{◌≡◌, None, Some, IfOk, MatchOption};
ghost use Rattle.fws_net.specs.Routes.{IsSound};
ghost use Rattle.fws_ios.specs.Walk.{list_named, permits, says, view_on};

use crate::config::{IosConfig, IosEntry, IosList};
use fws_net::{Kind, Packet, Site, Transit, View, holds};
use fws_num::Memory;
use fws_rules::is;
use std::alloc::Global;

/// Where a packet is walked, and which one.
#[derive(Clone, Copy)]
pub(crate) struct Scene<'a> {
    /// The configuration.
    pub config: &'a IosConfig,
    /// The site.
    pub site: &'a Site,
    /// The packet as it entered.
    pub packet: &'a Packet,
    /// Its class.
    pub kind: &'a Kind,
}

/// What an entry sees of the packet on its way.
fn view_on(alloc: Global, scene: &Scene, outward: bool, t: &Transit) -> Result<View, Memory>
    requires { IsSound scene.now.site.now }
    ensures { IfOk result (λ v. v ≡ view_on scene.now.site.now scene.now.kind.now outward t.now) }
{
    let est = scene.kind.is_est();
    Ok(t.seen(alloc, scene.site, true, outward, outward, est)?)
}

/// Whether the entries permit the packet: the first one whose condition holds decides, and behind all
/// of them it is denied.
fn permits(
    alloc: Global,
    scene: &Scene,
    outward: bool,
    entries: &[IosEntry],
    t: &Transit,
) -> Result<bool, Memory>
    requires { IsSound scene.now.site.now }
    ensures { IfOk result (λ b. b ≡ permits scene.now.site.now scene.now.kind.now outward entries.now t.now) }
{
    let view = view_on(alloc, scene, outward, t)?;
    for entry in entries {
        if holds(&entry.cond, &view) {
            return Ok(entry.permit);
        }
    }
    Ok(false)
}

/// The list of this name.
fn list_named<'a>(name: &[u8], lists: &'a [IosList]) -> Option<&'a IosList>
    ensures { MatchOption result (list_named name.now lists.now ≡ None) (λ list. list_named name.now lists.now ≡ Some list.now) }
{
    for list in lists {
        if is(list.name.as_slice(), name) {
            return Some(list);
        }
    }
    None
}

/// What the list of this name says of the packet; where there is none, this.
pub(crate) fn says(
    alloc: Global,
    scene: &Scene,
    outward: bool,
    otherwise: bool,
    name: &[u8],
    t: &Transit,
) -> Result<bool, Memory>
    requires { IsSound scene.now.site.now }
    ensures { IfOk result (λ b. b ≡ says scene.now.config.now scene.now.site.now scene.now.kind.now outward otherwise name.now t.now) }
{
    match list_named(name, scene.config.lists.as_slice()) {
        Some(list) => permits(alloc, scene, outward, list.entries.as_slice(), t),
        None => Ok(otherwise),
    }
}
