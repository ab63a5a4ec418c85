//! The tables that the statements of a text define, known ahead of the text.

ghost use Rattle.std.specs.Prelude.{◌≡◌, [], ◌∷◌, List, Ok, option_to_list, IfOk, OnOk};
ghost use Rattle.fws_num.specs.declared.lines.Line.{Line as AnyLine};
ghost use Rattle.fws_net.specs.Routes.{IsSound};
ghost use Rattle.fws_pf.specs.declared.statement.Statement.TheVariants as any;
ghost use Rattle.fws_pf.specs.FileText.{all_tables, table_of, tables_from, unknowing, with_read};
ghost use Rattle.fws_pf.specs.StatementText.{statement_read};
ghost use Rattle.fws_pf.specs.Tables.{empty_table};
ghost use Rattle.fws_pf_words.specs.TableSteps.{table_seen};
ghost use Rattle.fws_pf_read.specs.Statements.{StatementGiven, seen};

use crate::draft::dismiss_value;
use crate::rule::dismiss_rule;
use crate::statement::Statement;
use crate::whole_statement::statement_read;
use fws_net::{ReadFault, Site};
use fws_num::{Line, Memory, Text, Word};
use fws_pf_words::{
    KnownTable, LongTable, Macros, Names, Setting, TableList, Tables, Tags, define, empty_table,
    is_definition, table_defined, with_members,
};
use std::alloc::Global;

/// What the statement of a table puts into its table.
fn table_filled(alloc: Global, name: Text, d: LongTable) -> Result<KnownTable, Memory>
    ensures { IfOk result (λ t. t ≡ with_read (Ok (any.Table (table_seen d))) (empty_table name)) }
{
    with_members(alloc, name, d.members.into_items())
}

/// What a whole statement puts into its table.
fn table_said(alloc: Global, name: Text, s: Statement) -> Result<KnownTable, Memory>
    ensures { IfOk result (λ t. t ≡ with_read (Ok (seen s)) (empty_table name)) }
{
    match s {
        Statement::Begun => Ok(empty_table(alloc, name)),
        Statement::Negated => Ok(empty_table(alloc, name)),
        Statement::Rule(rule) => {
            dismiss_rule(rule);
            Ok(empty_table(alloc, name))
        }
        Statement::Table(d) => table_filled(alloc, name, d.into_table()),
        Statement::Set => Ok(empty_table(alloc, name)),
        Statement::Skip => Ok(empty_table(alloc, name)),
        Statement::SkipOn(v) => {
            dismiss_value(v.into_value());
            Ok(empty_table(alloc, name))
        }
        Statement::Idle => Ok(empty_table(alloc, name)),
    }
}

/// What a statement of these words says where no tag is known.
fn untagged_read(
    alloc: Global,
    setting: &Setting,
    macros: &Macros,
    words: &[Word],
) -> Result<Statement, ReadFault>
    requires { IsSound setting.now.site }
    ensures { StatementGiven result (statement_read setting.now macros.now [] words.now) }
{
    let mut tags = Tags::new(alloc);
    statement_read(alloc, setting, macros, &mut tags, words)
}

/// What a statement of these words says where no table and no tag is known.
fn unknowing_read(
    alloc: Global,
    site: &Site,
    macros: &Macros,
    words: &[Word],
) -> Result<Statement, ReadFault>
    requires { IsSound site.now }
    ensures { StatementGiven result (statement_read (unknowing site.now) macros.now [] words.now) }
{
    let taken = Names::new(alloc);
    let setting = Setting::new(site, None, &taken);
    untagged_read(alloc, &setting, macros, words)
}

/// The table of this name that a statement defines; nothing stands in it where the statement is refused.
fn table_read(
    alloc: Global,
    site: &Site,
    macros: &Macros,
    name: Text,
    words: &[Word],
) -> Result<KnownTable, Memory>
    requires { IsSound site.now }
    ensures { IfOk result (λ t. t ≡ with_read (statement_read (unknowing site.now) macros.now [] words.now) (empty_table name)) }
{
    match unknowing_read(alloc, site, macros, words) {
        Ok(s) => table_said(alloc, name, s),
        Err(ReadFault::Bad(_)) => Ok(empty_table(alloc, name)),
        Err(ReadFault::Memory) => Err(Memory),
    }
}

/// The table that a statement of these words defines, if it defines one.
fn table_of(
    alloc: Global,
    site: &Site,
    macros: &Macros,
    words: &[Word],
) -> Result<Option<KnownTable>, Memory>
    requires { IsSound site.now }
    ensures { IfOk result (λ t. option_to_list t ≡ table_of site.now macros.now words.now) }
{
    match table_defined(alloc, macros, words)? {
        Some(name) => Ok(Some(table_read(alloc, site, macros, name, words)?)),
        None => Ok(None),
    }
}

/// Notes what a statement defines.
fn note(
    alloc: Global,
    site: &Site,
    macros: &mut Macros,
    tables: &mut TableList,
    line: &Line,
) -> Result<(), Memory>
    requires { IsSound site.now }
    ensures { OnOk result ((lines : List AnyLine) → tables_from site.now macros.old tables.old (line.now ∷ lines) ≡ tables_from site.now macros.new tables.new lines) }
{
    let words = line.words.as_slice();
    if is_definition(words) {
        define(alloc, macros, words)?;
        return Ok(());
    }
    match table_of(alloc, site, macros, words)? {
        Some(table) => {
            tables.put(alloc, table)?;
            Ok(())
        }
        None => Ok(()),
    }
}

/// Notes what statements define, in their order.
fn note_all(
    alloc: Global,
    site: &Site,
    macros: &mut Macros,
    tables: &mut TableList,
    lines: &[Line],
) -> Result<(), Memory>
    requires { IsSound site.now }
    ensures { OnOk result (tables.new ≡ tables_from site.now macros.old tables.old lines.now) }
{
    for line in lines {
        note(alloc, site, macros, tables, line)?;
    }
    Ok(())
}

/// The tables that statements define, in their order, behind these macros.
fn tables_behind(
    alloc: Global,
    site: &Site,
    macros: &mut Macros,
    lines: &[Line],
) -> Result<Tables, Memory>
    requires { IsSound site.now }
    ensures { IfOk result (λ tables. tables ≡ tables_from site.now macros.old [] lines.now) }
{
    let mut tables = TableList::new(alloc);
    note_all(alloc, site, macros, &mut tables, lines)?;
    Tables::of(alloc, tables)
}

/// The tables that statements define, in their order, refused ones among them. Fails if memory runs out.
pub fn all_tables(alloc: Global, site: &Site, lines: &[Line]) -> Result<Tables, Memory>
    requires { IsSound site.now }
    ensures { IfOk result (λ tables. tables ≡ all_tables site.now lines.now) }
{
    let mut macros = Macros::new(alloc);
    tables_behind(alloc, site, &mut macros, lines)
}
