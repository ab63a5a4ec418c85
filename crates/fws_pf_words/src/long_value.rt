//! Values and long lists of values, word by word.

ghost use Rattle.std.specs.Prelude.{◌≡◌, ◌+◌, ◌≤◌, true, Bool, Some, length, take, drop, ◌++◌, [], ◌∷◌, MatchBool, IfOk, OnOk};
ghost use Rattle.fws_net.specs.Routes.{IsSound};
ghost use Rattle.fws_pf.specs.Values.{ended_value, fresh_value, has_ended, value_step};
ghost use Rattle.fws_pf_words.specs.Fronts.{emptied, with_front, within, word_within};
ghost use Rattle.fws_pf_words.specs.Spots.{came_again, spot_of};
ghost use Rattle.fws_pf_words.specs.Taken.{TakenGiven};

use crate::lists::ItemList;
use crate::setting::Setting;
use crate::values::{ended_value, has_ended, value_step};
use fws_net::ReadFault;
use fws_num::{Items, Memory, Word};
use fws_pf::{ValueDraft, ValueExpects, ValueKind};
use std::alloc::Global;
use std::marker::Model;

/// Where a value is, whatever its values are.
#[derive(Clone, Copy, Debug, PartialEq, Eq)]
pub struct Spot {
    /// What it is.
    pub kind: ValueKind,
    /// What its next word is taken for.
    pub expects: ValueExpects,
    /// Whether it is a list.
    pub in_list: bool,
    /// Whether what is read now is negated.
    pub negated: bool,
}

/// What was read so far of a value, whose list may be long. Contracts see the draft.
#[derive(Drop)]
pub struct LongValue {
    spot: Spot,
    items: ItemList,
}

impl Model for LongValue {
    ghost use Rattle.fws_pf.specs.declared.value_draft.ValueDraft.{ValueDraft as Seen};
    ghost use Rattle.fws_pf_words.specs.Spots.{at_spot};

    ghost Value = { Seen };

    ghost view = { λ v. at_spot v.spot v.items };
}

/// Drops a value: in a function of its own, since each function that drops one has to walk through all that it owns.
fn dismiss(_d: ValueDraft) {}

impl LongValue {
    /// A value of this kind ahead of its first word.
    pub fn new(alloc: Global, kind: ValueKind) -> LongValue
        ensures { result ≡ fresh_value kind }
    {
        LongValue {
            spot: Spot {
                kind,
                expects: ValueExpects::Value,
                in_list: false,
                negated: false,
            },
            items: ItemList::new(alloc),
        }
    }

    /// What its next word is taken for.
    pub fn expects(&self) -> ValueExpects
        ensures { result ≡ self.now.expects }
    {
        self.spot.expects
    }

    /// Where it is.
    pub fn spot(&self) -> Spot
        ensures { result ≡ spot_of self.now }
    {
        self.spot
    }

    /// How many values it has.
    pub fn len(&self) -> usize
        ensures { result ≡ length self.now.items }
    {
        self.items.len()
    }

    /// Begins the list of a value.
    pub fn begin(&mut self)
        ensures { self.new ≡ record self.old { in_list = true; expects = ValueExpects.First } }
    {
        self.spot.in_list = true;
        self.spot.expects = ValueExpects::First;
    }

    /// The same place in a value that has no values yet.
    fn start(&self, alloc: Global) -> ValueDraft
        ensures { result ≡ emptied self.now }
    {
        ValueDraft {
            kind: self.spot.kind,
            expects: self.spot.expects,
            in_list: self.spot.in_list,
            negated: self.spot.negated,
            items: Items::new(alloc),
        }
    }

    /// Goes on with what became of a value at the same place.
    fn go_on(&mut self, next: ValueDraft) -> Result<(), Memory>
        ensures { OnOk result (self.new ≡ with_front self.old.items next) }
    {
        self.items.put_all(next.items)?;
        self.spot = Spot {
            kind: next.kind,
            expects: next.expects,
            in_list: next.in_list,
            negated: next.negated,
        };
        Ok(())
    }

    /// Takes a word of a value, and says so, or leaves the word behind one, which has ended then.
    pub fn step(&mut self, alloc: Global, setting: &Setting, w: &Word) -> Result<bool, ReadFault>
        requires { IsSound setting.now.site }
        ensures { TakenGiven result self.new (value_step setting.now w.now self.old) }
    {
        let mut next = self.start(alloc);
        match value_step(alloc, setting, w, &mut next) {
            Ok(took) => {
                self.go_on(next)?;
                Ok(took)
            }
            Err(fault) => {
                dismiss(next);
                Err(fault)
            }
        }
    }

    /// Takes a word that belongs to the value and doesn't end it, and tells whether it is one. Any other word changes nothing.
    fn word_within(&mut self, alloc: Global, setting: &Setting, w: &Word) -> Result<bool, Memory>
        requires { IsSound setting.now.site }
        ensures { IfOk result (λ b. MatchBool b (word_within setting.now w.now self.old ≡ Some self.new) (self.new ≡ self.old)) }
    {
        if !w.is_sound() {
            return Ok(false);
        }
        let mut next = self.start(alloc);
        match value_step(alloc, setting, w, &mut next) {
            Ok(took) => {
                if !took {
                    dismiss(next);
                    return Ok(false);
                }
                if has_ended(next.expects) {
                    dismiss(next);
                    return Ok(false);
                }
                self.go_on(next)?;
                Ok(true)
            }
            Err(ReadFault::Bad(_)) => {
                dismiss(next);
                Ok(false)
            }
            Err(ReadFault::Memory) => {
                dismiss(next);
                Err(Memory)
            }
        }
    }

    /// Takes words that belong to the value and don't end it, up to the first other word, and tells how many.
    pub fn words_within(
        &mut self,
        alloc: Global,
        setting: &Setting,
        words: &[Word],
    ) -> Result<usize, Memory>
        requires { IsSound setting.now.site }
        ensures few { IfOk result (λ n. n ≤ length words.now) }
        ensures taken { IfOk result (λ n. within setting.now (take n words.now) self.old ≡ Some self.new) }
    {
        for (n, w) in words.iter().enumerate() {
            if !self.word_within(alloc, setting, w)? {
                return Ok(n);
            }
        }
        Ok(words.len())
    }

    /// Goes on to a place, with so many values of the list again from one on.
    pub fn come_again(&mut self, from: usize, count: usize, spot: Spot) -> Result<(), Memory>
        requires { from + count ≤ length self.old.items }
        ensures { OnOk result (self.new ≡ came_again from count spot self.old) }
    {
        self.items.put_again(from, count)?;
        self.spot = spot;
        Ok(())
    }

    /// Its values.
    pub fn into_items(self) -> ItemList
        ensures { result ≡ self.items }
    {
        self.items
    }

    /// The value where the statement ends; none where a word lacks. Fails if memory runs out.
    pub fn ended(self, alloc: Global) -> Result<Option<LongValue>, Memory>
        ensures { IfOk result (λ o. o ≡ ended_value self.expects self) }
    {
        let mut whole = self;
        match ended_value(alloc, whole.start(alloc))? {
            Some(last) => {
                whole.go_on(last)?;
                Ok(Some(whole))
            }
            None => Ok(None),
        }
    }
}
