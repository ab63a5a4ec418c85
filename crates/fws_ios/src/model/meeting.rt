//! Which lists a packet meets at interfaces (Cisco IOS).

ghost use Rattle.std.specs.Prelude.{◌≡◌, false, nat_eq, None, Some, IfOk, MatchOption};
ghost use Rattle.std.specs.Option.{option_map_or};
ghost use Rattle.fws_net.specs.Routes.{IsSound};
ghost use Rattle.fws_ios.specs.Walk.{group_at, interface_of, is_directed, met, passes};

use crate::config::IosGroup;
use crate::model::listing::{Scene, says};
use fws_net::{Site, Transit, sending_entry};
use fws_num::Memory;
use std::alloc::Global;

/// The entry number of the interface by which the packet goes out, or by which it comes in.
fn interface_of(site: &Site, outward: bool, t: &Transit) -> Option<u8>
    requires { IsSound site.now }
    ensures { result ≡ interface_of site.now outward t.now }
{
    if outward {
        sending_entry(site, &t.packet)
    } else {
        t.packet.receiving()
    }
}

/// Whether the list is applied in this direction.
fn is_directed(outward: bool, group: &IosGroup) -> bool
    ensures { result ≡ is_directed outward group.now }
{
    if outward {
        group.outward
    } else {
        !group.outward
    }
}

/// Whether the list is applied at this interface.
fn is_applied(face: Option<u8>, group: &IosGroup) -> bool
    ensures { result ≡ option_map_or (nat_eq group.now.face) face false }
{
    match face {
        Some(face) => group.face == face,
        None => false,
    }
}

/// The list that is applied at this interface, in this direction.
fn group_at(outward: bool, face: Option<u8>, groups: &[IosGroup]) -> Option<&IosGroup>
    ensures { MatchOption result (group_at outward face groups.now ≡ None) (λ group. group_at outward face groups.now ≡ Some group.now) }
{
    for group in groups {
        if is_directed(outward, group) && is_applied(face, group) {
            return Some(group);
        }
    }
    None
}

/// Whether the list at the packet's interface permits it. Without one, and where it isn't defined, every
/// packet passes.
fn passes(alloc: Global, scene: &Scene, outward: bool, t: &Transit) -> Result<bool, Memory>
    requires { IsSound scene.now.site.now }
    ensures { IfOk result (λ b. b ≡ passes scene.now.config.now scene.now.site.now scene.now.kind.now outward t.now) }
{
    let face = interface_of(scene.site, outward, t);
    match group_at(outward, face, scene.config.groups.as_slice()) {
        Some(group) => says(alloc, scene, outward, true, group.list.as_slice(), t),
        None => Ok(true),
    }
}

/// The packet behind the list at its interface; none where that denies it.
pub(crate) fn met(
    alloc: Global,
    scene: &Scene,
    outward: bool,
    t: Transit,
) -> Result<Option<Transit>, Memory>
    requires { IsSound scene.now.site.now }
    ensures { IfOk result (λ o. o ≡ met scene.now.config.now scene.now.site.now scene.now.kind.now outward t) }
{
    if passes(alloc, scene, outward, &t)? {
        Ok(Some(t))
    } else {
        Ok(None)
    }
}
