//! Access lists by their names.

ghost use Rattle.std.specs.Prelude.{◌≡◌, ℕ, ◌<◌, List, length, map, sum, None, Some, IfOk, IfSome, MatchOption};
ghost use Rattle.std.specs.List.{position_from};
ghost use Rattle.std.specs.Map.{lookup};
ghost use Rattle.std.specs.Str.{bytes_eq};
ghost use Rattle.fws_ios.specs.declared.config.IosList.{IosList as AnyList};
ghost use Rattle.fws_ios.specs.Walk.{list_named};
ghost use Rattle.fws_ios_ifcl.specs.Placed.{first_entries, first_entry};

use fws_ifcl_rules::sum;
use fws_ios::IosList;
use fws_num::{Memory, Text};
use indexmap::IndexMap;
use std::alloc::Global;
use std::marker::Model;

/// Access lists, the first of which with a name is found by it. Contracts see the lists.
#[derive(Drop)]
pub(crate) struct Lists<'c> {
    lists: &'c [IosList],
    /// The place of the first list of each name.
    places: IndexMap<Text, usize>,
}

impl<'c> Model for Lists<'c> {
    ghost use Rattle.std.specs.Prelude.{◌≡◌, ℕ, List};
    ghost use Rattle.std.specs.List.{position_from};
    ghost use Rattle.std.specs.Map.{lookup};
    ghost use Rattle.std.specs.Str.{bytes_eq};
    ghost use Rattle.fws_ios.specs.declared.config.IosList.{IosList as AnyList};

    ghost Value = { List AnyList };

    ghost view = { λ l. l.lists.now };

    ghost invariant = { λ l. (name : List ℕ) → lookup (bytes_eq name) l.places.entries ≡ position_from (λ (list : AnyList). bytes_eq list.name name) 0 l.lists.now };
}

/// The place of the first list of each name: the last one's is put first, so that those ahead take its place. Fails if memory runs
/// out.
fn places_of(alloc: Global, lists: &[IosList]) -> Result<IndexMap<Text, usize>, Memory>
    ensures { IfOk result (λ places. (name : List ℕ) → lookup (bytes_eq name) places.entries ≡ position_from (λ (list : AnyList). bytes_eq list.name name) 0 lists.now) }
{
    let mut places = IndexMap::new(alloc);
    for place in (0..lists.len()).rev() {
        let name = lists[place].name.copy(alloc)?;
        places.insert(name, place)?;
    }
    Ok(places)
}

impl<'c> Lists<'c> {
    /// These lists. Fails if memory runs out.
    pub(crate) fn of(alloc: Global, lists: &'c [IosList]) -> Result<Lists<'c>, Memory>
        ensures { IfOk result (λ l. l ≡ lists.now) }
    {
        let places = places_of(alloc, lists)?;
        Ok(Lists { lists, places })
    }

    /// The place of the first list of this name.
    fn place(&self, name: &Text) -> Option<usize>
        ensures place { result ≡ position_from (λ (list : AnyList). bytes_eq list.name name.now) 0 self.now }
        ensures within { IfSome result (λ place. place < length self.now) }
    {
        self.places.get(name).copied()
    }

    /// The first list of this name.
    pub(crate) fn named(&self, name: &Text) -> Option<&IosList>
        ensures { MatchOption result (list_named name.now self.now ≡ None) (λ l. list_named name.now self.now ≡ Some l.now) }
    {
        match self.place(name) {
            Some(place) => Some(&self.lists[place]),
            None => None,
        }
    }
}

/// Access lists by their names, and the numbers of their entries, which are counted from 0 through all of them. Contracts see the
/// lists.
#[derive(Drop)]
pub(crate) struct Counted<'c> {
    lists: Lists<'c>,
    /// The number of the first entry of each list.
    firsts: Vec<usize>,
}

impl<'c> Model for Counted<'c> {
    ghost use Rattle.std.specs.Prelude.{◌≡◌, List};
    ghost use Rattle.fws_ios.specs.declared.config.IosList.{IosList as AnyList};
    ghost use Rattle.fws_ios_ifcl.specs.Placed.{first_entries};

    ghost Value = { List AnyList };

    ghost view = { λ l. l.lists };

    ghost invariant = { λ l. l.firsts.items ≡ first_entries 0 l.lists };
}

/// The number of the first entry of each list. Fails if memory or numbers run out.
fn first_entries(alloc: Global, lists: &[IosList]) -> Result<Vec<usize>, Memory>
    ensures { IfOk result (λ firsts. firsts.items ≡ first_entries 0 lists.now) }
{
    let mut firsts = Vec::new(alloc);
    let mut next = 0;
    for list in lists {
        firsts.push(next)?;
        next = sum(next, list.entries.as_slice().len())?;
    }
    Ok(firsts)
}

/// How many entries the lists have. An error is want of numbers.
pub(crate) fn entry_count(lists: &[IosList]) -> Result<usize, Memory>
    ensures { IfOk result (λ n. n ≡ sum (map (λ (l : AnyList). length l.entries) lists.now)) }
{
    let mut count = 0;
    for list in lists {
        count = sum(count, list.entries.as_slice().len())?;
    }
    Ok(count)
}

impl<'c> Counted<'c> {
    /// These lists. Fails if memory or numbers run out.
    pub(crate) fn of(alloc: Global, lists: &'c [IosList]) -> Result<Counted<'c>, Memory>
        ensures { IfOk result (λ l. l ≡ lists.now) }
    {
        let firsts = first_entries(alloc, lists)?;
        let lists = Lists::of(alloc, lists)?;
        Ok(Counted { lists, firsts })
    }

    /// The lists by their names.
    pub(crate) fn lists(&self) -> &Lists<'c>
        ensures { result.now ≡ self.now }
    {
        &self.lists
    }

    /// The first list of this name.
    pub(crate) fn named(&self, name: &Text) -> Option<&IosList>
        ensures { MatchOption result (list_named name.now self.now ≡ None) (λ l. list_named name.now self.now ≡ Some l.now) }
    {
        self.lists.named(name)
    }

    /// The number of the first entry of the first list of this name; 0 where there is none.
    pub(crate) fn first(&self, name: &Text) -> usize
        ensures { result ≡ first_entry 0 name.now self.now }
    {
        match self.lists.place(name) {
            Some(place) => self.firsts[place],
            None => 0,
        }
    }
}
