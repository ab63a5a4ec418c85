//! The interfaces on a side of translation, and the addresses behind them.

ghost use Rattle.std.specs.Prelude.{◌≡◌, ℕ, IfOk};
ghost use Rattle.fws_ios_put_sources.specs.Crossing.{is_outside_route, is_sent_outside};
ghost use Rattle.fws_ios_put_sources.specs.Sources.{is_on};
ghost use Rattle.fws_iv.specs.Ivs.{has};
ghost use Rattle.fws_net.specs.Routes.{IsSound};
ghost use Rattle.fws_place.specs.Rewritings.{side_of};

use fws_iv::Ivs;
use fws_net::{Side, Site, local_set, route_set};
use fws_num::Memory;
use std::alloc::Global;

// Whether the side is the outside, or the inside.
fn is_that(side: Side, outside: bool) -> bool
    ensures { result ≡ is_on outside side }
{
    match side {
        Side::Neither => false,
        Side::Inside => !outside,
        Side::Outside => outside,
    }
}

// Whether the interface with the entry number stands on the outside, or on the inside.
fn is_on(site: &Site, entry: u8, outside: bool) -> bool
    ensures { result ≡ is_on outside (side_of site.now entry) }
{
    if entry < 2 {
        return false;
    }
    match site.faces.as_slice().get((entry - 2) as usize) {
        Some(face) => is_that(face.side, outside),
        None => false,
    }
}

/// The entry numbers of the interfaces on the outside, or of those on the inside. Fails if memory runs out.
pub fn entries_on(alloc: Global, site: &Site, outside: bool) -> Result<Ivs, Memory>
    requires { IsSound site.now }
    ensures { IfOk result (λ set. (n : ℕ) → has set n ≡ is_on outside (side_of site.now n)) }
{
    let mut set = Ivs::none(alloc);
    let end = site.faces.len() as u8 + 2;
    for entry in 0..end {
        if is_on(site, entry, outside) {
            set.extend(entry as u32, entry as u32)?;
        }
    }
    Ok(set)
}

// The addresses for which packets are sent to an interface on the outside. Fails if memory runs out.
fn outside_routes(alloc: Global, site: &Site) -> Result<Ivs, Memory>
    requires { IsSound site.now }
    ensures { IfOk result (λ set. (a : ℕ) → has set a ≡ is_outside_route site.now a) }
{
    let mut set = Ivs::none(alloc);
    let end = site.faces.len() as u8 + 2;
    for entry in 0..end {
        if is_on(site, entry, true) {
            let there = route_set(alloc, site, entry)?;
            set = set.union(alloc, &there)?;
        }
    }
    Ok(set)
}

/// The addresses for which packets that arrive are forwarded to an interface on the outside. Fails if memory runs out.
pub(crate) fn sent_outside(alloc: Global, site: &Site) -> Result<Ivs, Memory>
    requires { IsSound site.now }
    ensures { IfOk result (λ set. (a : ℕ) → has set a ≡ is_sent_outside site.now a) }
{
    if !site.forwarding {
        return Ok(Ivs::none(alloc));
    }
    let routes = outside_routes(alloc, site)?;
    let local = local_set(alloc, site)?;
    Ok(routes.minus(alloc, &local)?)
}
