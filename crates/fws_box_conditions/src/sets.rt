//! Sets of values.

ghost use Rattle.std.specs.Prelude.{◌≡◌, ◌+◌, ◌<◌, ◌&&◌, ◌||◌, ◌^◌, not, ℕ, true, nat_eq, nat_lt, length, bit_and, IfOk, OnOk};
ghost use Rattle.fws_iv.specs.Ivs.{has};
ghost use Rattle.fws_net.specs.Fates.{has_ports};
ghost use Rattle.fws_net.specs.Routes.{route_of, IsSound};
ghost use Rattle.fws_box_conditions.specs.Ways.{AreWaysOf};

use crate::numbers::{TCP, UDP};
use crate::ways::Ways;
use fws_iv::{Ivs, one};
use fws_net::{Site, routes_are_entries};
use fws_num::Memory;
use std::alloc::Global;

const TOP_FLAGS: u8 = 63;

/// One value.
pub(crate) fn single(alloc: Global, value: u32) -> Result<Ivs, Memory>
    ensures { IfOk result (λ s. (v : ℕ) → has s v ≡ nat_eq v value) }
{
    one(alloc, value, value)
}

/// The protocols with ports.
pub(crate) fn port_protocols(alloc: Global) -> Result<Ivs, Memory>
    ensures { IfOk result (λ s. (v : ℕ) → has s v ≡ has_ports v) }
{
    let tcp = single(alloc, TCP)?;
    let udp = single(alloc, UDP)?;
    tcp.union(alloc, &udp)
}

/// Adds the value behind all others, where it is asked for.
fn add_if(values: &mut Ivs, value: u32, asked: bool) -> Result<(), Memory>
    requires { (v : ℕ) → has values.old v ≡ true → v < value }
    ensures { OnOk result ((v : ℕ) → has values.new v ≡ (has values.old v || (asked && nat_eq v value))) }
{
    if asked {
        values.extend(value, value)?;
    }
    Ok(())
}

/// The flags of which those in the mask are just the wanted ones.
pub(crate) fn flags_like(alloc: Global, mask: u8, want: u8) -> Result<Ivs, Memory>
    ensures { IfOk result (λ s. (v : ℕ) → has s v ≡ (nat_lt v 64 && nat_eq (bit_and v mask) want)) }
{
    let mut values = Ivs::none(alloc);
    for flags in 0..TOP_FLAGS + 1 {
        add_if(&mut values, u32::from(flags), flags & mask == want)?;
    }
    Ok(values)
}

/// The flags of which one in the mask is set.
pub(crate) fn flags_among(alloc: Global, mask: u8) -> Result<Ivs, Memory>
    ensures { IfOk result (λ s. (v : ℕ) → has s v ≡ (nat_lt v 64 && not (nat_eq (bit_and v mask) 0))) }
{
    let none = flags_like(alloc, mask, 0)?;
    one(alloc, 0, u32::from(TOP_FLAGS))?.minus(alloc, &none)
}

/// The addresses so far, and those sent by the interface with this entry number where they are asked for.
fn with_routes(
    alloc: Global,
    site: &Site,
    ways: &Ways,
    so_far: Ivs,
    entry: u8,
    asked: bool,
) -> Result<Ivs, Memory>
    requires ways { AreWaysOf site.now ways.now }
    requires entry { entry < length site.now.faces + 2 }
    ensures { IfOk result (λ s. (a : ℕ) → has s a ≡ (has so_far a || (asked && (nat_eq (route_of site.now a) entry && nat_lt a (2 ^ 32))))) }
{
    if asked {
        let routes = &ways.routed.as_slice()[usize::from(entry)];
        so_far.union(alloc, routes)
    } else {
        Ok(so_far)
    }
}

/// The addresses to which packets are sent by an interface of the set, as far as interfaces go.
pub(crate) fn routed_set(alloc: Global, site: &Site, ways: &Ways, set: &Ivs) -> Result<Ivs, Memory>
    requires sound { IsSound site.now }
    requires ways { AreWaysOf site.now ways.now }
    ensures { IfOk result (λ s. (a : ℕ) → has s a ≡ (has set.now (route_of site.now a) && nat_lt a (2 ^ 32))) }
{
    // each address is sent by an interface of the site
    routes_are_entries();
    let past = site.faces.as_slice().len() as u8 + 2;
    let mut routed = Ivs::none(alloc);
    for entry in 0..past {
        let asked = set.has(u32::from(entry));
        routed = with_routes(alloc, site, ways, routed, entry, asked)?;
    }
    Ok(routed)
}
