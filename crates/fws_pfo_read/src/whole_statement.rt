//! Whole statements: their words, and what their ends say.

ghost use Rattle.std.specs.Prelude.{◌≡◌, ℕ, Ok, List, IfOk};
ghost use Rattle.fws_net.specs.Routes.{IsSound};
ghost use Rattle.fws_pf_words.specs.TableSteps.{table_seen};
ghost use Rattle.fws_pfo.specs.declared.statement.PfoStatement.TheVariants as any;
ghost use Rattle.fws_pfo.specs.StatementText.{raws_taken, statement_ended, statement_read, table_ended};
ghost use Rattle.fws_pfo_read.specs.Statements.{AreTags, StatementGiven, seen};
ghost use Rattle.fws_pfo_read.specs.Views.{draft_of};

use crate::draft::{Draft, dismiss_draft};
use crate::ended::draft_ended;
use crate::statement::Statement;
use fws_net::{Cause, ReadFault};
use fws_num::Word;
use fws_pf::TableExpects;
use fws_pf_read::{HeldTable, HeldValue, raws_taken};
use fws_pf_words::{LongTable, Macros, Setting, Tags};
use std::alloc::Global;

/// Takes all words of a statement.
fn all_taken(
    alloc: Global,
    setting: &Setting,
    macros: &Macros,
    tags: &mut Tags,
    words: &[Word],
) -> Result<Statement, ReadFault>
    requires { IsSound setting.now.site }
    ensures given { StatementGiven result (raws_taken setting.now macros.now tags.old words.now any.Begun) }
    ensures kept { IfOk result (λ s. AreTags tags.old s tags.new) }
{
    raws_taken(alloc, setting, macros, tags, words, Statement::Begun)
}

/// A table as a statement.
fn whole_table(alloc: Global, d: LongTable) -> Result<Statement, ReadFault>
    ensures { StatementGiven result (Ok (any.Table (table_seen d))) }
{
    Ok(Statement::Table(HeldTable::new(alloc, d)?))
}

/// The whole table.
fn table_ended(alloc: Global, d: HeldTable) -> Result<Statement, ReadFault>
    ensures given { StatementGiven result (table_ended d.expects (table_seen d)) }
{
    let LongTable {
        name,
        expects,
        members,
    } = d.into_table();
    match expects {
        TableExpects::Members => match members.ended(alloc)? {
            Some(members) => whole_table(
                alloc,
                LongTable {
                    name,
                    expects,
                    members,
                },
            ),
            None => Err(ReadFault::Bad(Cause::Syntax)),
        },
        _ => Err(ReadFault::Bad(Cause::Syntax)),
    }
}

/// All the interfaces that are skipped.
fn skip_on_ended(alloc: Global, v: HeldValue) -> Result<Statement, ReadFault>
    ensures { StatementGiven result (statement_ended (any.SkipOn v)) }
{
    match v.into_value().ended(alloc)? {
        Some(whole) => Ok(Statement::SkipOn(HeldValue::new(alloc, whole)?)),
        None => Err(ReadFault::Bad(Cause::Syntax)),
    }
}

/// The whole rule.
fn whole_rule(alloc: Global, mut d: Draft) -> Result<Statement, ReadFault>
    ensures given { StatementGiven result (statement_ended (any.Rule (draft_of d))) }
    ensures kept { IfOk result (λ s. (t k : List (List ℕ)) → AreTags t s k) }
{
    match draft_ended(alloc, &mut d) {
        Ok(()) => Ok(Statement::Rule(d)),
        Err(fault) => {
            dismiss_draft(d);
            Err(fault)
        }
    }
}

/// The whole statement; one that ends too early is refused.
fn statement_ended(alloc: Global, s: Statement) -> Result<Statement, ReadFault>
    ensures given { StatementGiven result (statement_ended (seen s)) }
    ensures kept { (t k : List (List ℕ)) → AreTags t s k → IfOk result (λ whole. AreTags t whole k) }
{
    match s {
        Statement::Begun => Ok(Statement::Begun),
        Statement::Rule(d) => whole_rule(alloc, d),
        Statement::Table(d) => table_ended(alloc, d),
        Statement::Set => Ok(Statement::Set),
        Statement::Skip => Err(ReadFault::Bad(Cause::Syntax)),
        Statement::SkipOn(v) => skip_on_ended(alloc, v),
        Statement::Idle => Ok(Statement::Idle),
    }
}

/// What a statement of these words says, before the checks of the whole. Its rule has the tags of the text; else they stay.
pub(crate) fn statement_read(
    alloc: Global,
    setting: &Setting,
    macros: &Macros,
    tags: &mut Tags,
    words: &[Word],
) -> Result<Statement, ReadFault>
    requires { IsSound setting.now.site }
    ensures given { StatementGiven result (statement_read setting.now macros.now tags.old words.now) }
    ensures kept { IfOk result (λ s. AreTags tags.old s tags.new) }
{
    let last = all_taken(alloc, setting, macros, tags, words)?;
    statement_ended(alloc, last)
}
