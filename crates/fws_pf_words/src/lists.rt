//! Long lists of values, in which a stretch that comes again is kept once.

ghost use Rattle.std.specs.Prelude.{◌≡◌, ℕ, ◌+◌, ◌≤◌, Bool, List, [], ◌∷◌, ◌++◌, length, take, drop, IfOk, IfSome, OnOk};
ghost use Rattle.std.specs.List.{list_all};
ghost use Rattle.fws_pf.specs.declared.value_draft.Item.{Item as AnyItem};
ghost use Rattle.fws_pf.specs.declared.tables.Table.{Table};
ghost use Rattle.fws_pf_words.specs.Members.{names_of};
ghost use Rattle.fws_pf_words.specs.Reached.{with_places};
ghost use Rattle.fws_pf_words.specs.Stretches.{with_mark, unfolded};

use fws_num::{Items, Memory};
use fws_pf::{Item, Part};
use std::alloc::Global;
use std::marker::Model;

/// What comes next in a list.
#[derive(Clone, Copy, Debug, PartialEq, Eq)]
pub(crate) enum Mark {
    /// An item that is kept.
    One,
    /// So many items of the list so far again, from this place on, counted from 0.
    Again(usize, usize),
}

/// A list of values. A stretch of it that comes again is kept once, so that it is as long as what was put into it. Contracts see
/// the list.
#[derive(Drop)]
pub struct ItemList {
    kept: Items<Item>,
    marks: Vec<Mark>,
    count: usize,
}

impl Model for ItemList {
    ghost use Rattle.std.specs.Prelude.{◌≡◌, List, [], length};
    ghost use Rattle.fws_pf.specs.declared.value_draft.Item.{Item as Seen};
    ghost use Rattle.fws_pf_words.specs.Stretches.{ones, unfolded};

    ghost Value = { List Seen };

    ghost view = { λ l. unfolded [] l.marks.items l.kept };

    ghost invariant = { λ l. record {
      kept : ones l.marks.items ≡ length l.kept;
      count : l.count ≡ length (unfolded [] l.marks.items l.kept);
    } };
}

/// Drops an item.
fn dismiss_item(_item: Item) {}

/// An equal value.
fn copied_part(alloc: Global, part: &Part) -> Result<Part, Memory>
    ensures { IfOk result (λ p. p ≡ part.now) }
{
    match part {
        Part::Every => Ok(Part::Every),
        Part::Set(set) => Ok(Part::Set(set.copy(alloc)?)),
        Part::Table(name) => Ok(Part::Table(name.copy(alloc)?)),
    }
}

/// An equal item.
fn copied_item(alloc: Global, item: &Item) -> Result<Item, Memory>
    ensures { IfOk result (λ i. i ≡ item.now) }
{
    Ok(Item {
        negated: item.negated,
        part: copied_part(alloc, &item.part)?,
    })
}

/// Equal items.
fn copied_items(alloc: Global, items: &[Item]) -> Result<Vec<Item>, Memory>
    ensures { IfOk result (λ copies. copies.items ≡ items.now) }
{
    let mut copies = Vec::new(alloc);
    for item in items {
        copies.push(copied_item(alloc, item)?)?;
    }
    Ok(copies)
}

/// So many of the items from a place on, or as many as there are.
fn stretch(items: &[Item], from: usize, count: usize) -> &[Item]
    ensures { result.now ≡ take count (drop from items.now) }
{
    let (_, behind) = items.split_at(from.min(items.len()));
    let (front, _) = behind.split_at(count.min(behind.len()));
    front
}

/// Puts copies of items behind others.
fn put_copies(alloc: Global, items: &[Item], all: &mut Items<Item>) -> Result<(), Memory>
    ensures { OnOk result (all.new ≡ all.old ++ items.now) }
{
    for item in items {
        all.put(copied_item(alloc, item)?)?;
    }
    Ok(())
}

/// Puts a stretch of a list behind it.
fn put_again(alloc: Global, from: usize, count: usize, all: &mut Items<Item>) -> Result<(), Memory>
    ensures { OnOk result (all.new ≡ all.old ++ take count (drop from all.old)) }
{
    let more = copied_items(alloc, stretch(all.as_slice(), from, count))?;
    put_copies(alloc, more.as_slice(), all)?;
    Ok(())
}

/// Puts what comes next behind a list, and gives the kept items that are left.
fn put_next<'a>(
    alloc: Global,
    mark: Mark,
    kept: &'a [Item],
    all: &mut Items<Item>,
) -> Result<&'a [Item], Memory>
    ensures { IfOk result (λ rest. with_mark mark kept.now all.old ≡ (all.new, rest.now)) }
{
    match mark {
        Mark::One => match kept {
            [] => Ok(kept),
            [item, rest @ ..] => {
                all.put(copied_item(alloc, item)?)?;
                Ok(rest)
            }
        },
        Mark::Again(from, count) => {
            put_again(alloc, from, count, all)?;
            Ok(kept)
        }
    }
}

/// The items that marks put one after another.
fn unfold(alloc: Global, marks: &[Mark], kept: &[Item]) -> Result<Items<Item>, Memory>
    ensures { IfOk result (λ items. items ≡ unfolded [] marks.now kept.now) }
{
    let mut all = Items::new(alloc);
    let mut rest = kept;
    for mark in marks {
        rest = put_next(alloc, *mark, rest, &mut all)?;
    }
    Ok(all)
}

impl ItemList {
    /// The empty list.
    pub fn new(alloc: Global) -> ItemList
        ensures { result ≡ [] }
    {
        ItemList {
            kept: Items::new(alloc),
            marks: Vec::new(alloc),
            count: 0,
        }
    }

    /// How many items there are.
    pub fn len(&self) -> usize
        ensures { result ≡ length self.now }
    {
        self.count
    }

    /// Puts an item behind the others, which are then so many.
    fn put_counted(&mut self, item: Item, count: usize) -> Result<(), Memory>
        requires { count ≡ length self.old + 1 }
        ensures { OnOk result (self.new ≡ self.old ++ item ∷ []) }
    {
        match self.marks.reserve(1) {
            Ok(()) => {
                self.kept.put(item)?;
                self.marks.push(Mark::One)?;
                self.count = count;
                Ok(())
            }
            Err(_) => {
                dismiss_item(item);
                Err(Memory)
            }
        }
    }

    /// Puts an item behind the others.
    pub fn put(&mut self, item: Item) -> Result<(), Memory>
        ensures { OnOk result (self.new ≡ self.old ++ item ∷ []) }
    {
        match self.count.checked_add(1) {
            Some(count) => self.put_counted(item, count),
            None => {
                dismiss_item(item);
                Err(Memory)
            }
        }
    }

    /// Puts items behind the others.
    pub fn put_all(&mut self, items: Items<Item>) -> Result<(), Memory>
        ensures { OnOk result (self.new ≡ self.old ++ items) }
    {
        for item in items.into_vec() {
            self.put(item)?;
        }
        Ok(())
    }

    /// Puts so many items of the list behind it again, from a place on. It takes no longer for more of them.
    pub fn put_again(&mut self, from: usize, count: usize) -> Result<(), Memory>
        requires { from + count ≤ length self.old }
        ensures { OnOk result (self.new ≡ self.old ++ take count (drop from self.old)) }
    {
        let all = self.count.checked_add(count).ok_or(Memory)?;
        self.marks.push(Mark::Again(from, count))?;
        self.count = all;
        Ok(())
    }

    /// The items one after another, if no stretch of them comes again.
    pub fn once(&self) -> Option<&[Item]>
        ensures { IfSome result (λ items. items.now ≡ self.now) }
    {
        if self.marks.len() == self.kept.len() {
            Some(self.kept.as_slice())
        } else {
            None
        }
    }

    /// Each item of the list at least once, and no other.
    pub fn kept(&self) -> &[Item]
        ensures { (test : AnyItem → Bool) → list_all test result.now ≡ list_all test self.now }
    {
        self.kept.as_slice()
    }

    /// Items that name the same tables, each of them first where the list does.
    pub(crate) fn naming(&self) -> &[Item]
        ensures { (tables : List Table) (places : List ℕ) → with_places tables places (names_of result.now) ≡ with_places tables places (names_of self.now) }
    {
        self.kept.as_slice()
    }

    /// The items one after another. Fails if memory runs out.
    pub fn to_items(&self, alloc: Global) -> Result<Items<Item>, Memory>
        ensures { IfOk result (λ items. items ≡ self.now) }
    {
        unfold(alloc, self.marks.as_slice(), self.kept.as_slice())
    }
}
