//! Where packets go that cross a translation: from interfaces on the inside, and to those on the outside.

ghost use Rattle.std.specs.Prelude.{◌≡◌, ℕ, ◌+◌, ◌<◌, ◌^◌, length, ◌&&◌, not, nat_lt, IfOk};
ghost use Rattle.fws_box.specs.declared.field.Field.TheVariants as fields;
ghost use Rattle.fws_iv.specs.Ivs.{has};
ghost use Rattle.fws_net.specs.Points.{tops_of};
ghost use Rattle.fws_net.specs.Routes.{IsSound, route_of};
ghost use Rattle.fws_place.specs.Crossing.{is_sent_outside};
ghost use Rattle.fws_place.specs.Rewritings.{is_inside, is_outside, side_of};
ghost use Rattle.fws_box.specs.Fields.{value_of};
ghost use Rattle.fws_place.specs.Kept.{HaveWhere};

use fws_box::{Field, whole_sides};
use fws_iv::{Ivs, one};
use fws_net::{Side, Site, local_set, route_set, tops};
use fws_num::Memory;
use std::alloc::Global;

// On which side the interface at the place stands.
fn side_at(site: &Site, n: usize) -> Side
    requires { n < length site.now.faces }
    ensures { result ≡ side_of site.now (n + 2) }
{
    site.faces.as_slice()[n].side
}

// Whether the side is the inside.
fn is_inside(side: Side) -> bool
    ensures { result ≡ is_inside side }
{
    match side {
        Side::Inside => true,
        Side::Neither => false,
        Side::Outside => false,
    }
}

// Whether it is the outside.
fn is_outside(side: Side) -> bool
    ensures { result ≡ is_outside side }
{
    match side {
        Side::Outside => true,
        Side::Neither => false,
        Side::Inside => false,
    }
}

/// The entries of the interfaces on the inside. Fails if memory runs out.
pub(crate) fn inside_entries(alloc: Global, site: &Site) -> Result<Ivs, Memory>
    requires { IsSound site.now }
    ensures { IfOk result (λ s. (e : ℕ) → has s e ≡ is_inside (side_of site.now e)) }
{
    let mut set = Ivs::none(alloc);
    for n in 0..site.faces.as_slice().len() {
        if !is_inside(side_at(site, n)) {
            continue;
        }
        let entry = n as u32 + 2;
        set.extend(entry, entry)?;
    }
    Ok(set)
}

/// The sides of what comes from the inside. Fails if memory runs out.
pub(crate) fn inside_sides(alloc: Global, site: &Site) -> Result<[Ivs; 12], Memory>
    requires { IsSound site.now }
    ensures { IfOk result (HaveWhere (tops_of site.now) (λ p. is_inside (side_of site.now (value_of p fields.Entry)))) }
{
    let tops = tops(site);
    let mut sides = whole_sides(alloc, &tops)?;
    sides[Field::Entry as usize] = inside_entries(alloc, site)?;
    Ok(sides)
}

// The addresses that are led to interfaces on the outside.
fn led_outside(alloc: Global, site: &Site) -> Result<Ivs, Memory>
    requires { IsSound site.now }
    ensures { IfOk result (λ s. (a : ℕ) → has s a ≡ (is_outside (side_of site.now (route_of site.now a)) && nat_lt a (2 ^ 32))) }
{
    let mut set = Ivs::none(alloc);
    for n in 0..site.faces.as_slice().len() {
        if !is_outside(side_at(site, n)) {
            continue;
        }
        let led = route_set(alloc, site, n as u8 + 2)?;
        set = set.union(alloc, &led)?;
    }
    Ok(set)
}

/// The addresses for which what arrives leaves by an interface on the outside. Fails if memory runs out.
pub(crate) fn outside_set(alloc: Global, site: &Site) -> Result<Ivs, Memory>
    requires { IsSound site.now }
    ensures { IfOk result (λ s. (a : ℕ) → has s a ≡ (is_sent_outside site.now a && nat_lt a (2 ^ 32))) }
{
    if !site.forwarding {
        return Ok(Ivs::none(alloc));
    }
    let local = local_set(alloc, site)?;
    led_outside(alloc, site)?.minus(alloc, &local)
}

/// The addresses for which what arrives doesn't leave by an interface on the outside. Fails if memory runs out.
pub(crate) fn not_outside(alloc: Global, site: &Site) -> Result<Ivs, Memory>
    requires { IsSound site.now }
    ensures { IfOk result (λ s. (a : ℕ) → has s a ≡ (not (is_sent_outside site.now a) && nat_lt a (2 ^ 32))) }
{
    let outside = outside_set(alloc, site)?;
    let rest = one(alloc, 0, u32::MAX)?.minus(alloc, &outside)?;
    Ok(rest)
}
