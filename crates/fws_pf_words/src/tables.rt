//! The addresses of tables, which may name one another.

ghost use Rattle.std.specs.Prelude.{◌≡◌, ◌<◌, ℕ, List, length, slice_index_or, IfOk, IfSome, OnOk};
ghost use Rattle.fws_pf.specs.Tables.{part_set, table_set};
ghost use Rattle.fws_pf_words.specs.Members.{names_of, with_name};
ghost use Rattle.fws_pf_words.specs.Reached.{AreRegularAt, IsClosure, IsPlace, own_ranges, table_at, with_place, with_places};

use crate::known::Tables;
use crate::members::KnownTable;
use crate::setting::TableList;
use fws_iv::{
    Iv, Ivs, many_ranges_add_members, ranges_add_members, ranges_are_regular,
    same_members_same_list,
};
use fws_num::{Memory, Text};
use fws_pf::{Item, Part};
use indexmap::IndexSet;
use std::alloc::Global;

/// Finds the table with this name, if there is one: its place is put behind the others, unless it is among them.
pub(crate) fn find(
    tables: &TableList,
    name: &Text,
    places: &mut IndexSet<usize>,
) -> Result<(), Memory>
    ensures { OnOk result (places.new.keys ≡ with_place tables.now places.old.keys name.now) }
{
    match tables.position(name) {
        Some(place) => {
            places.insert(place)?;
            Ok(())
        }
        None => Ok(()),
    }
}

/// Finds the table that a member names, if it names one.
fn find_named(tables: &TableList, part: &Part, places: &mut IndexSet<usize>) -> Result<(), Memory>
    ensures { OnOk result ((names : List (List ℕ)) → with_places tables.now places.new.keys names ≡ with_places tables.now places.old.keys (with_name part.now names)) }
{
    match part {
        Part::Every => Ok(()),
        Part::Set(_) => Ok(()),
        Part::Table(name) => {
            find(tables, name, places)?;
            Ok(())
        }
    }
}

/// Finds the tables that members name.
fn find_all(tables: &TableList, items: &[Item], places: &mut IndexSet<usize>) -> Result<(), Memory>
    ensures { OnOk result (places.new.keys ≡ with_places tables.now places.old.keys (names_of items.now)) }
{
    for item in items {
        find_named(tables, &item.part, places)?;
    }
    Ok(())
}

/// The table at a place.
pub(crate) fn table_at(tables: &[KnownTable], place: usize) -> &KnownTable
    requires { place < length tables.now }
    ensures { result.now ≡ table_at tables.now place }
{
    &tables[place]
}

/// The places of the tables that are reached from a name: its own, and of each table those of the tables that it names. Each is
/// met once.
pub(crate) fn reached(
    alloc: Global,
    tables: &TableList,
    name: &Text,
) -> Result<IndexSet<usize>, Memory>
    ensures { IfOk result (λ places. IsClosure tables.now name.now places.keys) }
{
    let mut places = IndexSet::new(alloc);
    find(tables, name, &mut places)?;
    let mut next = 0;
    while next < places.len() {
        let table = table_at(tables.as_slice(), places.as_slice()[next]);
        find_all(tables, table.named(), &mut places)?;
        next += 1;
    }
    Ok(places)
}

/// The addresses that stand in the tables at these places, as ranges in any order.
pub(crate) fn own_ranges(
    alloc: Global,
    tables: &[KnownTable],
    places: &[usize],
) -> Result<Vec<Iv>, Memory>
    requires { (p : ℕ) → IsPlace places.now p → p < length tables.now }
    ensures ranges { IfOk result (λ ranges. ranges.items ≡ own_ranges tables.now places.now) }
    ensures regular { OnOk result (AreRegularAt tables.now places.now) }
{
    let mut ranges = Vec::new(alloc);
    for place in places {
        ranges.extend_from_slice(table_at(tables, *place).own().parts())?;
    }
    Ok(ranges)
}

/// The addresses of the table with this name: those that stand in it and in the tables that it reaches, near-linear in what these
/// hold. There are none where no table has the name.
fn reached_set(alloc: Global, tables: &TableList, name: &Text) -> Result<Ivs, Memory>
    ensures { IfOk result (λ set. set ≡ table_set tables.now name.now) }
{
    same_members_same_list();
    ranges_are_regular();
    ranges_add_members();
    many_ranges_add_members();
    let places = reached(alloc, tables, name)?;
    let ranges = own_ranges(alloc, tables.as_slice(), places.as_slice())?;
    Ok(Ivs::of_ranges(alloc, ranges.as_slice())?)
}

/// The table with this name, if it is known to name no other.
fn lone_table<'a>(tables: &'a TableList, name: &Text) -> Option<&'a KnownTable>
    ensures { IfSome result (λ t. t.now.own ≡ table_set tables.now name.now) }
{
    match tables.position(name) {
        Some(place) => {
            let table = table_at(tables.as_slice(), place);
            if table.is_alone() { Some(table) } else { None }
        }
        None => None,
    }
}

/// The addresses of the table with this name. Those of a table that names no other are the ones that stand in it, which all uses share.
fn found_set(alloc: Global, tables: &TableList, name: &Text) -> Result<Ivs, Memory>
    ensures { IfOk result (λ set. set ≡ table_set tables.now name.now) }
{
    match lone_table(tables, name) {
        Some(table) => table.own().copy(alloc),
        None => reached_set(alloc, tables, name),
    }
}

/// The addresses of the table with this name, which all uses share where they were gathered ahead. Fails if memory runs out.
fn table_set(alloc: Global, tables: &Tables, name: &Text) -> Result<Ivs, Memory>
    ensures { IfOk result (λ set. set ≡ table_set tables.now name.now) }
{
    match tables.gathered(name) {
        Some(set) => set.copy(alloc),
        None => found_set(alloc, tables.list(), name),
    }
}

/// The numbers of a value; none where every one is among them. Fails if memory runs out.
pub fn part_set(alloc: Global, tables: &Tables, part: &Part) -> Result<Option<Ivs>, Memory>
    ensures { IfOk result (λ set. set ≡ part_set tables.now part.now) }
{
    match part {
        Part::Every => Ok(None),
        Part::Set(set) => Ok(Some(set.copy(alloc)?)),
        Part::Table(name) => Ok(Some(table_set(alloc, tables, name)?)),
    }
}
