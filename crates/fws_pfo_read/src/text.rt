//! What the statements of a text say.

ghost use Rattle.std.specs.Prelude.{◌≡◌, ℕ, suc, Ok, List, [], ◌∷◌, ◌++◌, length, IfOk, OnOk};
ghost use Rattle.fws_net.specs.Causes.{first_cause};
ghost use Rattle.fws_net.specs.Reading.{StepGiven};
ghost use Rattle.fws_net.specs.Routes.{IsSound};
ghost use Rattle.fws_pf.specs.Drawn.{choices};
ghost use Rattle.fws_pf.specs.FileText.{with_skipped};
ghost use Rattle.fws_pfo.specs.declared.text_draft.PfoDraft.{PfoDraft};
ghost use Rattle.fws_pfo.specs.Drawn.{rule_checks};
ghost use Rattle.fws_pfo.specs.FileText.{definition_step, rule_put, statement_put, with_rule, words_step};
ghost use Rattle.fws_pfo_read.specs.Statements.{AreTags, seen};
ghost use Rattle.fws_pfo_read.specs.Texts.{plain_step, with_tags};
ghost use Rattle.fws_pfo_read.specs.Views.{draft_of};

use crate::checks::rule_checks;
use crate::draft::{Draft, dismiss_draft};
use crate::progress::Progress;
use crate::statement::Statement;
use crate::whole_statement::statement_read;
use fws_net::{Cause, End, ReadFault, Site};
use fws_num::{Memory, Text, Word};
use fws_pf_read::rule_conditions;
use fws_pf_words::{
    LongTable, LongValue, Tables, is_definition, name_defined, value_behind, value_defined,
    with_skipped,
};
use std::alloc::Global;

/// Takes a rule without a check that fails. The tags so far don't matter, since it has its own.
fn put_rule(alloc: Global, tables: &Tables, d: Draft, reader: &mut Progress) -> Result<(), Memory>
    ensures { (t : PfoDraft) (k : List (List ℕ)) → reader.old ≡ with_tags k t → OnOk result (reader.new ≡ with_rule (choices tables.now d.shared) (draft_of d) t) }
{
    match rule_conditions(alloc, tables, &d.shared) {
        Ok(conds) => {
            reader.put_rule(alloc, d, conds)?;
            Ok(())
        }
        Err(Memory) => {
            dismiss_draft(d);
            Err(Memory)
        }
    }
}

/// The cause by which a check of a whole rule fails, behind statements that made so many rules where they made more than one,
/// and `pass` rules with these ends.
fn failed_check(
    alloc: Global,
    tables: &Tables,
    expanded: u64,
    ends: &[End],
    d: &Draft,
) -> Result<Option<Cause>, Memory>
    ensures { IfOk result (λ o. o ≡ first_cause (rule_checks tables.now expanded ends.now (draft_of d.now))) }
{
    let checks = rule_checks(alloc, tables, expanded, ends, d)?;
    Ok(checks.first())
}

/// Takes a whole rule, unless a check of the statement fails.
fn rule_put(
    alloc: Global,
    tables: &Tables,
    d: Draft,
    reader: &mut Progress,
) -> Result<(), ReadFault>
    ensures { (t : PfoDraft) (k : List (List ℕ)) → reader.old ≡ with_tags k t → StepGiven result reader.new (rule_put tables.now (draft_of d) t) }
{
    match failed_check(alloc, tables, reader.expanded(), reader.ends(), &d) {
        Ok(None) => {
            put_rule(alloc, tables, d, reader)?;
            Ok(())
        }
        Ok(Some(cause)) => {
            dismiss_draft(d);
            Err(ReadFault::Bad(cause))
        }
        Err(Memory) => {
            dismiss_draft(d);
            Err(ReadFault::Memory)
        }
    }
}

/// Notes a table by its name.
fn put_table(alloc: Global, d: LongTable, reader: &mut Progress) -> Result<(), ReadFault>
    ensures { StepGiven result reader.new (Ok (record reader.old { tables = reader.old.tables ++ d.name ∷ [] })) }
{
    reader.put_table(alloc, d.name)?;
    Ok(())
}

/// Notes the interfaces that are skipped.
fn put_skip(
    alloc: Global,
    site: &Site,
    v: LongValue,
    reader: &mut Progress,
) -> Result<(), ReadFault>
    requires { IsSound site.now }
    ensures { StepGiven result reader.new (Ok (record reader.old { config = record reader.old.config { skip = with_skipped (suc (length site.now.faces)) reader.old.config.skip v.items } })) }
{
    let last = site.faces.len() as u32 + 1;
    let items = v.into_items();
    let skip = with_skipped(alloc, last, reader.skip(), &items)?;
    reader.put_skip(skip);
    Ok(())
}

/// Takes a whole statement. The tags so far are those of the text, unless a rule has them.
fn statement_put(
    alloc: Global,
    site: &Site,
    tables: &Tables,
    s: Statement,
    reader: &mut Progress,
) -> Result<(), ReadFault>
    requires { IsSound site.now }
    ensures { (t : PfoDraft) (k : List (List ℕ)) → AreTags t.config.tags s k → reader.old ≡ with_tags k t → StepGiven result reader.new (statement_put site.now tables.now (seen s) t) }
{
    match s {
        Statement::Begun => Ok(()),
        Statement::Rule(d) => rule_put(alloc, tables, d, reader),
        Statement::Table(d) => put_table(alloc, d.into_table(), reader),
        Statement::Set => Ok(()),
        Statement::Skip => Ok(()),
        Statement::SkipOn(v) => put_skip(alloc, site, v.into_value(), reader),
        Statement::Idle => Ok(()),
    }
}

/// Takes the definition of a macro.
fn definition_step(alloc: Global, words: &[Word], reader: &mut Progress) -> Result<(), ReadFault>
    ensures { StepGiven result reader.new (definition_step words.now reader.old) }
{
    let value = value_defined(alloc, reader.macros(), value_behind(words))?;
    reader.put_macro(Text::of(alloc, name_defined(words))?, value)?;
    Ok(())
}

/// Takes a statement that defines no macro.
fn plain_step(
    alloc: Global,
    site: &Site,
    tables: &Tables,
    words: &[Word],
    reader: &mut Progress,
) -> Result<(), ReadFault>
    requires { IsSound site.now }
    ensures { StepGiven result reader.new (plain_step site.now tables.now words.now reader.old) }
{
    let mut tags = reader.take_tags(alloc);
    let said = statement_read(
        alloc,
        &reader.setting(site, tables),
        reader.macros(),
        &mut tags,
        words,
    );
    reader.put_tags(tags);
    match said {
        Ok(s) => statement_put(alloc, site, tables, s, reader),
        Err(fault) => Err(fault),
    }
}

/// Takes the words of a statement.
pub(crate) fn words_step(
    alloc: Global,
    site: &Site,
    tables: &Tables,
    words: &[Word],
    reader: &mut Progress,
) -> Result<(), ReadFault>
    requires { IsSound site.now }
    ensures { StepGiven result reader.new (words_step site.now tables.now words.now reader.old) }
{
    if is_definition(words) {
        return definition_step(alloc, words, reader);
    }
    plain_step(alloc, site, tables, words, reader)
}
