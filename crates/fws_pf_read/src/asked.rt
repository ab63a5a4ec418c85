//! What the options of a rule ask for.

ghost use Rattle.std.specs.Prelude.{◌≡◌, List, [], ◌∷◌, ◌++◌, length, map, min, IfOk, OnOk};
ghost use Rattle.fws_net.specs.declared.condition.Test.TheVariants as tests;
ghost use Rattle.fws_pf.specs.declared.rule_draft.Choice.{Choice as AnyChoice};
ghost use Rattle.fws_pf.specs.Drawn.{condition_count};
ghost use Rattle.fws_pf.specs.RuleText.{choice_of, only};
ghost use Rattle.fws_pf_words.specs.Drawings.{drawn};
ghost use Rattle.fws_pf_read.specs.Asked.{asked_choice};

use fws_net::Cond;
use fws_num::{Items, Memory};
use fws_pf::{Choice, Item, Place};
use fws_pf_words::{Drawing, ItemList, Tables, choice_of, times};
use std::alloc::Global;
use std::marker::Model;

/// What an option asks for.
#[derive(Drop)]
pub(crate) enum Asked {
    /// This condition.
    One(Cond),
    /// One of these types of ICMP messages.
    Types(ItemList),
}

/// What the options of a rule ask for, in their order. Types of ICMP messages stay as compact as their list. Contracts see the
/// choices.
#[derive(Drop)]
pub(crate) struct OptionChoices {
    asked: Items<Asked>,
}

impl Model for OptionChoices {
    ghost use Rattle.std.specs.Prelude.{List, map};
    ghost use Rattle.fws_pf.specs.declared.rule_draft.Choice.{Choice as Seen};
    ghost use Rattle.fws_pf_read.specs.Asked.{asked_choice};

    ghost Value = { List Seen };

    ghost view = { λ o. map asked_choice o.asked };
}

/// The choice of these types of ICMP messages.
fn icmp_choice(alloc: Global, types: &[Item]) -> Result<Choice, Memory>
    ensures { IfOk result (λ c. c ≡ choice_of [] tests.Icmp types.now) }
{
    let tables = Tables::new(alloc);
    choice_of(alloc, &tables, Place::IcmpType, types)
}

/// The choice of the types of ICMP messages of a list.
fn types_choice(alloc: Global, types: &ItemList) -> Result<Choice, Memory>
    ensures { IfOk result (λ c. c ≡ choice_of [] tests.Icmp types.now) }
{
    let items = types.to_items(alloc)?;
    icmp_choice(alloc, items.as_slice())
}

/// Puts the choice for which an option asks behind others.
fn put_choice(alloc: Global, asked: &Asked, all: &mut Drawing) -> Result<(), Memory>
    ensures { OnOk result ((rest : List AnyChoice) → drawn all.new rest ≡ drawn all.old (asked_choice asked.now ∷ rest)) }
{
    match asked {
        Asked::One(cond) => all.put_cond(alloc, cond),
        Asked::Types(types) => all.put(types_choice(alloc, types)?),
    }
}

/// How many conditions an option gives.
fn asked_count(asked: &Asked) -> u64
    ensures { result ≡ length (asked_choice asked.now).conds }
{
    match asked {
        Asked::One(_) => 1,
        Asked::Types(items) => items.len() as u64,
    }
}

/// How many conditions these options give, where they are no more than 400,000, and else 400,000.
fn count_of(asked: &[Asked]) -> u64
    ensures { result ≡ min (condition_count (map asked_choice asked.now)) 400000 }
{
    match asked.split_first() {
        None => 1,
        Some((first, rest)) => times(asked_count(first), count_of(rest)),
    }
}

/// Puts the choices of options behind others.
fn put_asked(alloc: Global, asked: &[Asked], all: &mut Drawing) -> Result<(), Memory>
    ensures { OnOk result ((rest : List AnyChoice) → drawn all.new rest ≡ drawn all.old (map asked_choice asked.now ++ rest)) }
{
    for option in asked {
        put_choice(alloc, option, all)?;
    }
    Ok(())
}

impl OptionChoices {
    /// No choices.
    pub(crate) fn new(alloc: Global) -> OptionChoices
        ensures { result ≡ [] }
    {
        OptionChoices {
            asked: Items::new(alloc),
        }
    }

    /// Asks for one condition more.
    pub(crate) fn put(&mut self, cond: Cond) -> Result<(), Memory>
        ensures { OnOk result (self.new ≡ self.old ++ only cond ∷ []) }
    {
        self.asked.put(Asked::One(cond))?;
        Ok(())
    }

    /// Asks for one of these types of ICMP messages.
    pub(crate) fn put_types(&mut self, types: ItemList) -> Result<(), Memory>
        ensures { OnOk result (self.new ≡ self.old ++ choice_of [] tests.Icmp types ∷ []) }
    {
        self.asked.put(Asked::Types(types))?;
        Ok(())
    }

    /// How many conditions they give, where they are no more than 400,000, and else 400,000. It takes no longer for long lists.
    pub(crate) fn count(&self) -> u64
        ensures { result ≡ min (condition_count self.now) 400000 }
    {
        count_of(self.asked.as_slice())
    }

    /// Puts the choices behind others. Fails if memory runs out.
    pub(crate) fn put_to(&self, alloc: Global, all: &mut Drawing) -> Result<(), Memory>
        ensures { OnOk result ((rest : List AnyChoice) → drawn all.new rest ≡ drawn all.old (self.now ++ rest)) }
    {
        put_asked(alloc, self.asked.as_slice(), all)
    }
}
