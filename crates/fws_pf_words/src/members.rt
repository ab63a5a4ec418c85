//! What stands in tables.

ghost use Rattle.std.specs.Prelude.{◌≡◌, [], ◌++◌, Bool, List, ℕ, nat_le, true, IfOk, OnOk};
ghost use Rattle.std.specs.List.{list_all, list_any};
ghost use Rattle.fws_iv.specs.Ivs.{with_ranges};
ghost use Rattle.fws_pf.specs.declared.tables.Table.{Table};
ghost use Rattle.fws_pf.specs.Tables.{empty_table, with_members};
ghost use Rattle.fws_pf_words.specs.Members.{all_ranges, is_own, is_ranged, item_ranges, names_of, own_ranges};
ghost use Rattle.fws_pf_words.specs.Reached.{with_places};

use crate::lists::ItemList;
use fws_iv::{Iv, Ivs, ranges_add_members, ranges_are_regular, same_members_same_list};
use fws_num::{Memory, Text};
use fws_pf::{Item, Part};
use std::alloc::Global;
use std::marker::Model;

/// A table that is as long as its list is kept. Contracts see the table.
#[derive(Drop)]
pub struct KnownTable {
    name: Text,
    own: Ivs,
    members: ItemList,
    /// Whether it is known to name no other table.
    alone: bool,
}

impl Model for KnownTable {
    ghost use Rattle.fws_pf.specs.declared.tables.Table.{Table as Seen};
    ghost use Rattle.std.specs.Prelude.{◌≡◌, true, []};
    ghost use Rattle.fws_pf_words.specs.Members.{names_of};

    ghost Value = { Seen };

    ghost view = { λ t. record { name = t.name; own = t.own; named = names_of t.members } };

    ghost invariant = { λ t. t.alone ≡ true → names_of t.members ≡ [] };
}

impl KnownTable {
    /// Its name.
    pub fn name(&self) -> &Text
        ensures { result.now ≡ self.now.name }
    {
        &self.name
    }

    /// The addresses that stand in it.
    pub(crate) fn own(&self) -> &Ivs
        ensures { result.now ≡ self.now.own }
    {
        &self.own
    }

    /// Whether it is known to name no other table.
    pub(crate) fn is_alone(&self) -> bool
        ensures { result ≡ true → self.now.named ≡ [] }
    {
        self.alone
    }

    /// Members among which is each table that it names.
    pub(crate) fn named(&self) -> &[Item]
        ensures { (tables : List Table) (places : List ℕ) → with_places tables places (names_of result.now) ≡ with_places tables places self.now.named }
    {
        self.members.naming()
    }

    /// Members that name the tables that it names, and no others.
    pub(crate) fn members(&self) -> &[Item]
        ensures { (f : List ℕ → Bool) → list_any f (names_of result.now) ≡ list_any f self.now.named }
    {
        self.members.kept()
    }
}

/// The table of this name in which nothing stands.
pub fn empty_table(alloc: Global, name: Text) -> KnownTable
    ensures { result ≡ empty_table name }
{
    KnownTable {
        name,
        own: Ivs::none(alloc),
        members: ItemList::new(alloc),
        alone: true,
    }
}

/// Gathers the ranges of a member.
fn gather(part: &Part, ranges: &mut Vec<Iv>) -> Result<(), Memory>
    ensures { OnOk result (ranges.new.items ≡ ranges.old.items ++ own_ranges part.now) }
{
    match part {
        Part::Every => {
            ranges.push(Iv {
                lo: 0,
                hi: u32::MAX,
            })?;
            Ok(())
        }
        Part::Set(set) => {
            ranges.extend_from_slice(set.parts())?;
            Ok(())
        }
        Part::Table(_) => Ok(()),
    }
}

/// None of the ranges of a value is empty.
fn is_ranged(part: &Part)
    ensures { list_all (λ x. nat_le x.lo x.hi) (own_ranges part.now) ≡ true }
{
    match part {
        Part::Every => {}
        Part::Set(set) => {
            set.parts();
        }
        Part::Table(_) => {}
    }
}

/// The ranges of members, of which none is empty.
fn gathered(alloc: Global, items: &[Item]) -> Result<Vec<Iv>, Memory>
    ensures ranges { IfOk result (λ rs. rs.items ≡ all_ranges item_ranges items.now) }
    ensures ranged { OnOk result (list_all is_ranged items.now ≡ true) }
{
    let mut ranges = Vec::new(alloc);
    for item in items {
        is_ranged(&item.part);
        gather(&item.part, &mut ranges)?;
    }
    Ok(ranges)
}

/// The addresses of members.
fn own_of(alloc: Global, items: &[Item]) -> Result<Ivs, Memory>
    ensures own { IfOk result (λ s. s ≡ with_ranges [] (all_ranges item_ranges items.now)) }
    ensures ranged { OnOk result (list_all is_ranged items.now ≡ true) }
{
    let ranges = gathered(alloc, items)?;
    let own = Ivs::of_ranges(alloc, ranges.as_slice())?;
    Ok(own)
}

/// Whether the value names no table.
fn is_own(part: &Part) -> bool
    ensures { result ≡ is_own part.now }
{
    match part {
        Part::Every => true,
        Part::Set(_) => true,
        Part::Table(_) => false,
    }
}

/// Whether none of the values names a table.
fn are_own(items: &[Item]) -> bool
    ensures { result ≡ list_all (λ i. is_own i.part) items.now }
{
    items.iter().all(|item| is_own(&item.part))
}

/// Whether none of the values of a list names a table.
fn names_none(items: &ItemList) -> bool
    ensures { result ≡ true → names_of items.now ≡ [] }
{
    are_own(items.kept())
}

/// The table of this name with these members, one after another. Of n ranges the time is that of n log n steps; a stretch of the
/// list that comes again takes none. Fails if memory runs out.
pub fn with_members(alloc: Global, name: Text, items: ItemList) -> Result<KnownTable, Memory>
    ensures { IfOk result (λ t. t ≡ with_members items (empty_table name)) }
{
    ranges_are_regular();
    ranges_add_members();
    same_members_same_list();
    let own = own_of(alloc, items.kept())?;
    let alone = names_none(&items);
    Ok(KnownTable {
        name,
        own,
        members: items,
        alone,
    })
}
