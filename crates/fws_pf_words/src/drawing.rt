//! The conditions of choices that are put one after another.

ghost use Rattle.std.specs.Prelude.{◌≡◌, ◌++◌, [], ◌∷◌, List, IfOk, OnOk};
ghost use Rattle.fws_pf.specs.declared.rule_draft.Choice.{Choice as AnyChoice};
ghost use Rattle.fws_pf.specs.Drawn.{conditions, value_choices};
ghost use Rattle.fws_pf.specs.RuleText.{only};
ghost use Rattle.fws_pf_words.specs.Drawings.{drawn};
ghost use Rattle.fws_pf_words.specs.Tests.{test_at};

use crate::choices::{choice_of, only, put_all, put_copies, put_item};
use crate::known::Tables;
use fws_net::Cond;
use fws_num::{Items, Memory};
use fws_pf::{Choice, Item, Place};
use std::alloc::Global;
use std::slice;

/// Choices that were put one after another. Those ahead of the first one with several conditions stand as one condition.
#[derive(Drop)]
pub struct Drawing {
    pub(crate) front: Cond,
    pub(crate) more: Items<Choice>,
}

impl Drawing {
    /// No choices.
    pub fn new(alloc: Global) -> Drawing
        ensures { (rest : List AnyChoice) → drawn result rest ≡ conditions rest }
    {
        Drawing {
            front: Cond::new(alloc),
            more: Items::new(alloc),
        }
    }

    /// Puts a choice behind the others. Fails if memory runs out.
    pub fn put(&mut self, choice: Choice) -> Result<(), Memory>
        ensures { OnOk result ((rest : List AnyChoice) → drawn self.new rest ≡ drawn self.old (choice ∷ rest)) }
    {
        self.more.put(choice)?;
        Ok(())
    }

    /// Puts a condition behind the others. Fails if memory runs out.
    pub fn put_cond(&mut self, alloc: Global, cond: &Cond) -> Result<(), Memory>
        ensures { OnOk result ((rest : List AnyChoice) → drawn self.new rest ≡ drawn self.old (only cond.now ∷ rest)) }
    {
        if self.more.is_empty() {
            put_copies(alloc, cond.lits(), &mut self.front)?;
            return Ok(());
        }
        self.put(only(alloc, cond.copy(alloc)?)?)
    }

    /// Puts a value at a place behind the others.
    fn put_value(
        &mut self,
        alloc: Global,
        tables: &Tables,
        place: Place,
        item: &Item,
    ) -> Result<(), Memory>
        ensures { OnOk result ((rest : List AnyChoice) → drawn self.new rest ≡ drawn self.old (value_choices tables.now (test_at place) (item.now ∷ []) ++ rest)) }
    {
        if self.more.is_empty() {
            put_item(alloc, tables, place, item, &mut self.front)?;
            return Ok(());
        }
        self.put(choice_of(alloc, tables, place, slice::from_ref(item))?)
    }

    /// Puts the values of a place behind the others, unless it has none. Fails if memory runs out.
    pub fn put_values(
        &mut self,
        alloc: Global,
        tables: &Tables,
        place: Place,
        items: &[Item],
    ) -> Result<(), Memory>
        ensures { OnOk result ((rest : List AnyChoice) → drawn self.new rest ≡ drawn self.old (value_choices tables.now (test_at place) items.now ++ rest)) }
    {
        match items {
            [] => Ok(()),
            [item] => self.put_value(alloc, tables, place, item),
            [_, _, ..] => self.put(choice_of(alloc, tables, place, items)?),
        }
    }

    /// A condition for each choice, the first choice varying slowest. Fails if memory runs out.
    pub fn into_conditions(self, alloc: Global) -> Result<Items<Cond>, Memory>
        ensures { IfOk result (λ cs. cs ≡ drawn self []) }
    {
        let Drawing { front, more } = self;
        let mut all = Items::new(alloc);
        put_all(alloc, front, more.as_slice(), &mut all)?;
        Ok(all)
    }
}
