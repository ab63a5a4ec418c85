//! Tables and values that are read, on the heap: a statement is moved at no cost from word to word.

ghost use Rattle.std.specs.Prelude.{◌≡◌, IfOk};
ghost use Rattle.fws_net.specs.Reading.{StepGiven};
ghost use Rattle.fws_net.specs.Routes.{IsSound};
ghost use Rattle.fws_pf.specs.Values.{value_step};
ghost use Rattle.fws_pf_words.specs.TableSteps.{table_seen, table_step};
ghost use Rattle.fws_pf_words.specs.Taken.{TakenGiven};

use crate::draft::dismiss_value;
use fws_net::{Cause, ReadFault};
use fws_num::{Memory, Word};
use fws_pf::TableExpects;
use fws_pf_words::{LongTable, LongValue, Setting, table_step};
use std::alloc::Global;
use std::marker::Model;

/// A table that is read. Contracts see what was read of it.
#[derive(Drop)]
pub struct HeldTable {
    table: Box<LongTable>,
}

impl Model for HeldTable {
    ghost use Rattle.fws_pf_words.specs.declared.table_draft.LongTable.{LongTable as Seen};

    ghost Value = { Seen };

    ghost view = { λ t. t.table.value };
}

/// Drops a table: in a function of its own, since each function that drops one has to walk through all that it owns.
fn dismiss_table(_table: LongTable) {}

impl HeldTable {
    /// This table. Fails if memory runs out.
    pub fn new(alloc: Global, table: LongTable) -> Result<HeldTable, Memory>
        ensures { IfOk result (λ t. t ≡ table) }
    {
        match Box::new(alloc, table) {
            Ok(table) => Ok(HeldTable { table }),
            Err(failed) => {
                dismiss_table(failed.value);
                Err(Memory)
            }
        }
    }

    /// What its next word is taken for.
    pub fn expects(&self) -> TableExpects
        ensures { result ≡ self.now.expects }
    {
        self.table.expects
    }

    /// Whether the next word stands in its list.
    pub fn is_in_list(&self) -> bool {
        self.table.members.spot().in_list
    }

    /// Takes a word, which is refused for this cause where a keyword may stand.
    pub fn step(
        &mut self,
        alloc: Global,
        setting: &Setting,
        cause: Cause,
        w: &Word,
    ) -> Result<(), ReadFault>
        requires { IsSound setting.now.site }
        ensures { StepGiven result (table_seen self.new) (table_step cause setting.now w.now (table_seen self.old)) }
    {
        table_step(alloc, setting, cause, w, &mut *self.table)
    }

    /// What was read of it, taken out.
    pub fn into_table(self) -> LongTable
        ensures { result ≡ self }
    {
        Box::into_inner(self.table)
    }
}

/// A value that is read. Contracts see what was read of it.
#[derive(Drop)]
pub struct HeldValue {
    value: Box<LongValue>,
}

impl Model for HeldValue {
    ghost use Rattle.fws_pf.specs.declared.value_draft.ValueDraft.{ValueDraft as Seen};

    ghost Value = { Seen };

    ghost view = { λ v. v.value.value };
}

impl HeldValue {
    /// This value. Fails if memory runs out.
    pub fn new(alloc: Global, value: LongValue) -> Result<HeldValue, Memory>
        ensures { IfOk result (λ v. v ≡ value) }
    {
        match Box::new(alloc, value) {
            Ok(value) => Ok(HeldValue { value }),
            Err(failed) => {
                dismiss_value(failed.value);
                Err(Memory)
            }
        }
    }

    /// Whether the next word stands in its list.
    pub fn is_in_list(&self) -> bool {
        self.value.spot().in_list
    }

    /// Takes a word of the value, and says so, or leaves the word behind it.
    pub fn step(&mut self, alloc: Global, setting: &Setting, w: &Word) -> Result<bool, ReadFault>
        requires { IsSound setting.now.site }
        ensures { TakenGiven result self.new (value_step setting.now w.now self.old) }
    {
        self.value.step(alloc, setting, w)
    }

    /// What was read of it, taken out.
    pub fn into_value(self) -> LongValue
        ensures { result ≡ self }
    {
        Box::into_inner(self.value)
    }
}
