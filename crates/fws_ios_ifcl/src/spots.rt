//! Where entries and translations have their places among the rules of a chain.

ghost use Rattle.std.specs.Prelude.{◌≡◌, ◌++◌, ◌∷◌, [], IfOk, OnOk};
ghost use Rattle.std.specs.Option.{option_map_or};
ghost use Rattle.fws_ios.specs.declared.config.IosList.{IosList as AnyList};
ghost use Rattle.fws_ios.specs.Walk.{list_named};
ghost use Rattle.fws_ios_ifcl.specs.Placed.{applied_spots, asking_spots, choosing_spots, first_entry, listing_spots, spot, static_spots};

use crate::applying::is_directed;
use crate::names::Counted;
use fws_ifcl::{Place, Spot};
use fws_ifcl_rules::sum;
use fws_ios::{IosEntry, IosGroup, IosNat};
use fws_num::{Memory, Text};

/// The number, where there is one. An error is want of numbers.
fn number(n: usize) -> Result<u32, Memory>
    ensures { IfOk result (λ m. m ≡ n) }
{
    u32::try_from(n).map_err(|_| Memory)
}

/// Puts the spot of the entry or translation with this number behind the others, at a place of a chain. Fails if memory or numbers
/// run out.
fn put_spot(spots: &mut Vec<Spot>, chain: u32, at: usize, rule: usize) -> Result<(), Memory>
    ensures { OnOk result (spots.new.items ≡ spots.old.items ++ spot chain at rule ∷ []) }
{
    let place = number(at)?;
    let rule = number(rule)?;
    spots.push(Spot {
        rule,
        at: Place { chain, rule: place },
    })?;
    Ok(())
}

/// Puts the spots of a list's entries behind the others, of which the first has this number and place. Fails if memory or numbers
/// run out.
fn put_listing_spots(
    spots: &mut Vec<Spot>,
    chain: u32,
    at: usize,
    rule: usize,
    entries: &[IosEntry],
) -> Result<(), Memory>
    ensures { OnOk result (spots.new.items ≡ spots.old.items ++ listing_spots chain at rule entries.now) }
{
    let mut place = at;
    let mut next = rule;
    for _entry in entries {
        put_spot(spots, chain, place, next)?;
        place = sum(place, 1)?;
        next = sum(next, 1)?;
    }
    Ok(())
}

/// Puts the spots of the entries of the list of this name behind the others, of which the first has the place. Fails if memory or
/// numbers run out.
fn put_named_spots(
    spots: &mut Vec<Spot>,
    chain: u32,
    at: usize,
    lists: &Counted,
    name: &Text,
) -> Result<(), Memory>
    ensures { OnOk result (spots.new.items ≡ spots.old.items ++ option_map_or (λ (l : AnyList). listing_spots chain at (first_entry 0 name.now lists.now) l.entries) (list_named name.now lists.now) []) }
{
    match lists.named(name) {
        Some(list) => {
            let first = lists.first(name);
            put_listing_spots(spots, chain, at, first, list.entries.as_slice())?;
            Ok(())
        }
        None => Ok(()),
    }
}

/// Puts the spots of a list's entries behind the others if it is applied in this direction; the first of its rules has the place.
/// Fails if memory or numbers run out.
pub(crate) fn put_applied_spots(
    spots: &mut Vec<Spot>,
    chain: u32,
    outward: bool,
    at: usize,
    lists: &Counted,
    group: &IosGroup,
) -> Result<(), Memory>
    ensures { OnOk result (spots.new.items ≡ spots.old.items ++ applied_spots chain outward at lists.now group.now) }
{
    if is_directed(outward, group) {
        put_named_spots(spots, chain, sum(at, 2)?, lists, &group.list)?;
        return Ok(());
    }
    Ok(())
}

/// Puts the spot of a translation with this number behind the others if it is a static; the first of its rules has the place. Fails
/// if memory or numbers run out.
pub(crate) fn put_static_spots(
    spots: &mut Vec<Spot>,
    chain: u32,
    at: usize,
    rule: usize,
    nat: &IosNat,
) -> Result<(), Memory>
    ensures { OnOk result (spots.new.items ≡ spots.old.items ++ static_spots chain at rule nat.now) }
{
    match nat {
        IosNat::Static { .. } => {
            put_spot(spots, chain, at, rule)?;
            Ok(())
        }
        IosNat::List { .. } => Ok(()),
    }
}

/// Puts the spots of a list's entries behind the others, of which the first has the number `first` and the place, and that of the
/// translation that asks it, with the number `rule`. Fails if memory or numbers run out.
fn put_choosing_spots(
    spots: &mut Vec<Spot>,
    chain: u32,
    at: usize,
    first: usize,
    rule: usize,
    entries: &[IosEntry],
) -> Result<(), Memory>
    ensures { OnOk result (spots.new.items ≡ spots.old.items ++ choosing_spots chain at first rule entries.now) }
{
    put_listing_spots(spots, chain, at, first, entries)?;
    let permitted = sum(at, sum(entries.len(), 1)?)?;
    put_spot(spots, chain, permitted, rule)?;
    Ok(())
}

/// Puts the spots of a translation with this number behind the others if it is by a list: that of the translation behind those of
/// the list's entries, of which the first has the place. Fails if memory or numbers run out.
pub(crate) fn put_asking_spots(
    spots: &mut Vec<Spot>,
    chain: u32,
    at: usize,
    lists: &Counted,
    rule: usize,
    nat: &IosNat,
) -> Result<(), Memory>
    ensures { OnOk result (spots.new.items ≡ spots.old.items ++ asking_spots chain at lists.now rule nat.now) }
{
    match nat {
        IosNat::Static { .. } => Ok(()),
        IosNat::List { list, .. } => {
            put_asked_spots(spots, chain, at, lists, rule, list)?;
            Ok(())
        }
    }
}

/// Puts the spots of a translation with this number by the list of this name behind the others. Fails if memory or numbers run out.
fn put_asked_spots(
    spots: &mut Vec<Spot>,
    chain: u32,
    at: usize,
    lists: &Counted,
    rule: usize,
    name: &Text,
) -> Result<(), Memory>
    ensures { OnOk result (spots.new.items ≡ spots.old.items ++ option_map_or (λ (l : AnyList). choosing_spots chain at (first_entry 0 name.now lists.now) rule l.entries) (list_named name.now lists.now) []) }
{
    match lists.named(name) {
        Some(list) => {
            let first = lists.first(name);
            put_choosing_spots(spots, chain, at, first, rule, list.entries.as_slice())?;
            Ok(())
        }
        None => Ok(()),
    }
}
