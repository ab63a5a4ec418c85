//! The places of a diagram whose rules packets use.

ghost use Rattle.std.specs.Prelude.{◌≡◌, ◌||◌, true, length, IfOk, OnOk};
ghost use Rattle.std.specs.HashSet.{contains};
ghost use Rattle.fws_flat.specs.Soundness.{flat_ok};
ghost use Rattle.fws_ifcl.specs.declared.diagram.Place.{Place as AnyPlace};
ghost use Rattle.fws_net.specs.Routes.{IsSound};
ghost use Rattle.fws_dead.specs.Used.{any_reached, key_eq, key_of, stands_at, AreAdded, AreUsed};

use fws_exec::reach;
use fws_flat::Flat;
use fws_ifcl::Place;
use fws_net::{Site, State};
use fws_num::Memory;
use fws_unfold::told_each;
use std::alloc::Global;
use std::collections::HashSet;

/// A place as the key of a set.
#[derive(Clone, Copy, PartialEq, Eq, Hash)]
pub(crate) struct PlaceKey {
    chain: u32,
    rule: u32,
}

/// The key of a place.
pub(crate) fn key_of(at: Place) -> PlaceKey
    ensures { result ≡ key_of at }
{
    PlaceKey {
        chain: at.chain,
        rule: at.rule,
    }
}

/// Adds the place for which an instruction stands, if it stands for one.
fn add_place(used: &mut HashSet<PlaceKey>, place: Option<Place>) -> Result<(), Memory>
    ensures { OnOk result ((at : AnyPlace) → contains key_eq used.new (key_of at) ≡ (contains key_eq used.old (key_of at) || stands_at place at)) }
{
    match place {
        Some(at) => {
            used.insert(key_of(at))?;
            Ok(())
        }
        None => Ok(()),
    }
}

/// Adds the places for which the instructions stand that are reached.
fn add_reached(
    used: &mut HashSet<PlaceKey>,
    reached: &[bool],
    places: &[Option<Place>],
) -> Result<(), Memory>
    requires { length places.now ≡ length reached.now }
    ensures { OnOk result ((at : AnyPlace) → contains key_eq used.new (key_of at) ≡ (contains key_eq used.old (key_of at) || any_reached reached.now places.now at)) }
{
    for (n, place) in places.iter().enumerate() {
        if reached[n] {
            add_place(used, *place)?;
        }
    }
    Ok(())
}

/// Adds the places whose rules packets of this kind use. Fails if memory runs out.
fn add_used(
    alloc: Global,
    used: &mut HashSet<PlaceKey>,
    f: &Flat,
    places: &[Option<Place>],
    site: &Site,
    state: State,
) -> Result<(), Memory>
    requires sound { IsSound site.now }
    requires ok { flat_ok f.now ≡ true }
    requires entries { length places.now ≡ length f.now.code }
    ensures { OnOk result (AreAdded f.now places.now site.now state (λ at. contains key_eq used.old (key_of at)) (λ at. contains key_eq used.new (key_of at))) }
{
    told_each();
    let reached = reach(alloc, f, site, state)?;
    add_reached(used, reached.as_slice(), places)?;
    Ok(())
}

/// The places whose rules packets of the site use, new or established ones, where the instructions of the code stand for the rules
/// at these places. Fails if memory runs out.
pub(crate) fn used_places(
    alloc: Global,
    f: &Flat,
    places: &[Option<Place>],
    site: &Site,
) -> Result<HashSet<PlaceKey>, Memory>
    requires sound { IsSound site.now }
    requires ok { flat_ok f.now ≡ true }
    requires entries { length places.now ≡ length f.now.code }
    ensures { IfOk result (λ used. AreUsed f.now places.now site.now (λ at. contains key_eq used (key_of at))) }
{
    let mut used = HashSet::new(alloc);
    add_used(alloc, &mut used, f, places, site, State::Fresh)?;
    add_used(alloc, &mut used, f, places, site, State::Est)?;
    Ok(used)
}
