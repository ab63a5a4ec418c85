//! Tables that name one another in a circle: each is reached from each, so that all have the same addresses.
//!
//! From a table on, those are looked for that it reaches, and of these, the last one first, those that name it or one that
//! leads back to it. A way back that is found only in another order is missed, which costs time alone.

ghost use Rattle.std.specs.Prelude.{◌≡◌, ◌<◌, ℕ, List, length, true, nat_eq, IfOk, OnOk};
ghost use Rattle.indexmap.specs.IndexSet.{insert_key};
ghost use Rattle.fws_pf.specs.declared.tables.Table.{Table};
ghost use Rattle.fws_pf_words.specs.Circles.{AreSetsOf, HasNoSet, IsBack, IsSetAt, NamesOneOf};
ghost use Rattle.fws_pf_words.specs.Members.{names_of, with_name};
ghost use Rattle.fws_pf_words.specs.Reached.{IsClosure, IsFound, IsPlace};

use crate::members::KnownTable;
use crate::setting::TableList;
use crate::tables::{find, own_ranges, reached, table_at};
use fws_iv::{
    Ivs, many_ranges_add_members, ranges_add_members, ranges_are_regular, same_members_same_list,
};
use fws_num::{Memory, Text};
use fws_pf::{Item, Part};
use indexmap::IndexSet;
use std::alloc::Global;

// So many tables are looked at for each that there is: what this costs is in no proportion to the ways from table to table.
const MOST: usize = 8;

/// Whether the member is a table at one of the places.
fn is_at(tables: &TableList, back: &IndexSet<usize>, part: &Part) -> bool
    ensures { result ≡ true → (names : List (List ℕ)) → NamesOneOf tables.now back.now.keys (with_name part.now names) }
{
    match part {
        Part::Every => false,
        Part::Set(_) => false,
        Part::Table(name) => match tables.position(name) {
            Some(place) => back.contains(&place),
            None => false,
        },
    }
}

/// Whether one of the members is a table at one of the places.
fn is_any_at(tables: &TableList, back: &IndexSet<usize>, items: &[Item]) -> bool
    ensures { result ≡ true → NamesOneOf tables.now back.now.keys (names_of items.now) }
{
    for item in items {
        if is_at(tables, back, &item.part) {
            return true;
        }
    }
    false
}

/// Whether the table names one at one of the places.
fn names_any_at(tables: &TableList, back: &IndexSet<usize>, table: &KnownTable) -> bool
    ensures { result ≡ true → NamesOneOf tables.now back.now.keys table.now.named }
{
    is_any_at(tables, back, table.members())
}

/// Puts a place behind the others, unless it is among them.
fn put_place(places: &mut IndexSet<usize>, place: usize) -> Result<(), Memory>
    ensures { OnOk result (places.new.keys ≡ insert_key nat_eq places.old.keys place) }
{
    places.insert(place)?;
    Ok(())
}

/// Puts the place behind those that lead back, if its table names one of them.
fn put_leading(tables: &TableList, place: usize, back: &mut IndexSet<usize>) -> Result<(), Memory>
    requires { place < length tables.now }
    ensures { OnOk result ((name all : List ℕ) → IsPlace all place → IsBack tables.now name all back.old.keys → IsBack tables.now name all back.new.keys) }
{
    if names_any_at(tables, back, table_at(tables.as_slice(), place)) {
        put_place(back, place)?;
    }
    Ok(())
}

/// Those of the places that lead back to the table with this name, and its own.
fn leading_back(
    alloc: Global,
    tables: &TableList,
    name: &Text,
    places: &[usize],
) -> Result<IndexSet<usize>, Memory>
    requires below { (p : ℕ) → IsPlace places.now p → p < length tables.now }
    requires root { IsFound tables.now places.now name.now }
    ensures { IfOk result (λ back. IsBack tables.now name.now places.now back.keys) }
{
    let mut back = IndexSet::new(alloc);
    find(tables, name, &mut back)?;
    for i in (0..places.len()).rev() {
        put_leading(tables, places[i], &mut back)?;
    }
    Ok(back)
}

/// No addresses at any of so many places.
fn no_sets(alloc: Global, count: usize) -> Result<Vec<Option<Ivs>>, Memory>
    ensures { IfOk result (λ sets. HasNoSet sets.items) }
{
    let mut sets = Vec::new(alloc);
    for _place in 0..count {
        sets.push(None)?;
    }
    Ok(sets)
}

/// Whether there are addresses at the place.
fn is_there(sets: &[Option<Ivs>], place: usize) -> bool {
    match sets.get(place) {
        Some(set) => set.is_some(),
        None => false,
    }
}

/// Puts the addresses at the place.
fn put_at(alloc: Global, set: &Ivs, place: usize, sets: &mut Vec<Option<Ivs>>) -> Result<(), Memory>
    ensures { OnOk result ((tables : List Table) → IsSetAt tables set.now place → AreSetsOf tables sets.old.items → AreSetsOf tables sets.new.items) }
{
    if place < sets.len() {
        sets[place] = Some(set.copy(alloc)?);
    }
    Ok(())
}

/// Puts the addresses at the places.
fn put_each(
    alloc: Global,
    set: &Ivs,
    places: &[usize],
    sets: &mut Vec<Option<Ivs>>,
) -> Result<(), Memory>
    ensures { OnOk result ((tables : List Table) → ((p : ℕ) → IsPlace places.now p → IsSetAt tables set.now p) → AreSetsOf tables sets.old.items → AreSetsOf tables sets.new.items) }
{
    for place in places {
        put_at(alloc, set, *place, sets)?;
    }
    Ok(())
}

/// Puts the addresses of the table with this name, which reaches those at the places, at these others, which lead back to it.
fn share(
    alloc: Global,
    tables: &TableList,
    name: &Text,
    places: &[usize],
    back: &[usize],
    sets: &mut Vec<Option<Ivs>>,
) -> Result<(), Memory>
    requires closure { IsClosure tables.now name.now places.now }
    requires back { IsBack tables.now name.now places.now back.now }
    ensures { OnOk result (AreSetsOf tables.now sets.old.items → AreSetsOf tables.now sets.new.items) }
{
    same_members_same_list();
    ranges_are_regular();
    ranges_add_members();
    many_ranges_add_members();
    let ranges = own_ranges(alloc, tables.as_slice(), places)?;
    let set = Ivs::of_ranges(alloc, ranges.as_slice())?;
    put_each(alloc, &set, back, sets)?;
    Ok(())
}

/// Gathers the addresses of the table with this name and of those that lead back to it, if there are any, and says how many tables
/// were looked at.
fn gather(
    alloc: Global,
    tables: &TableList,
    name: &Text,
    sets: &mut Vec<Option<Ivs>>,
) -> Result<usize, Memory>
    ensures { OnOk result (AreSetsOf tables.now sets.old.items → AreSetsOf tables.now sets.new.items) }
{
    let places = reached(alloc, tables, name)?;
    let back = leading_back(alloc, tables, name, places.as_slice())?;
    if back.len() > 1 {
        share(
            alloc,
            tables,
            name,
            places.as_slice(),
            back.as_slice(),
            sets,
        )?;
    }
    Ok(places.len())
}

/// The same for the table at the place, unless it is known to name none or has its addresses, or so many tables were looked at.
fn gather_at(
    alloc: Global,
    tables: &TableList,
    place: usize,
    left: usize,
    sets: &mut Vec<Option<Ivs>>,
) -> Result<usize, Memory>
    requires { place < length tables.now }
    ensures { OnOk result (AreSetsOf tables.now sets.old.items → AreSetsOf tables.now sets.new.items) }
{
    let table = table_at(tables.as_slice(), place);
    if left == 0 || table.is_alone() || is_there(sets.as_slice(), place) {
        return Ok(left);
    }
    let seen = gather(alloc, tables, table.name(), sets)?;
    Ok(left.saturating_sub(seen))
}

/// At the places of tables that name one another in a circle, their addresses. Fails if memory runs out.
pub(crate) fn circle_sets(alloc: Global, tables: &TableList) -> Result<Vec<Option<Ivs>>, Memory>
    ensures { IfOk result (λ sets. AreSetsOf tables.now sets.items) }
{
    let count = tables.as_slice().len();
    let mut sets = no_sets(alloc, count)?;
    let mut left = count.saturating_mul(MOST);
    for place in 0..count {
        left = gather_at(alloc, tables, place, left, &mut sets)?;
    }
    Ok(sets)
}
