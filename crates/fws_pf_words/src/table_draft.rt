//! A table, word by word.

ghost use Rattle.std.specs.Prelude.{◌≡◌};
ghost use Rattle.fws_net.specs.Reading.{StepGiven};
ghost use Rattle.fws_net.specs.Routes.{IsSound};
ghost use Rattle.fws_pf.specs.StatementText.{fresh_table, list_begun, list_step, members_step, table_mark_step, table_name_step};
ghost use Rattle.fws_pf_words.specs.TableSteps.{const_step, persist_step, table_seen, table_step};

use crate::long_value::LongValue;
use crate::setting::Setting;
use crate::statements::is_mark;
use crate::values::is_any_mark;
use fws_net::{Cause, ReadFault};
use fws_num::{Text, Word};
use fws_pf::{TableExpects, ValueKind};
use fws_rules::is;
use std::alloc::Global;

/// What was read so far of a table: a `TableDraft`, whose list may be long.
#[derive(Drop)]
pub struct LongTable {
    /// Its name, once it was read.
    pub name: Text,
    /// What its next word is taken for.
    pub expects: TableExpects,
    /// What was read so far of its list.
    pub members: LongValue,
}

/// A table before its words.
pub fn fresh_table(alloc: Global) -> LongTable
    ensures { table_seen result ≡ fresh_table }
{
    LongTable {
        name: Text::new(alloc),
        expects: TableExpects::Open,
        members: LongValue::new(alloc, ValueKind::Member),
    }
}

/// Takes punctuation, which alone stands here.
fn table_mark_step(
    mark: &[u8],
    next: TableExpects,
    w: &Word,
    d: &mut LongTable,
) -> Result<(), ReadFault>
    ensures { StepGiven result (table_seen d.new) (table_mark_step mark.now next w.now (table_seen d.old)) }
{
    if !is_mark(w, mark) {
        return Err(ReadFault::Bad(Cause::Syntax));
    }
    d.expects = next;
    Ok(())
}

/// Takes a name that no table has ahead of this one.
fn table_name_step(
    alloc: Global,
    setting: &Setting,
    w: &Word,
    d: &mut LongTable,
) -> Result<(), ReadFault>
    ensures { StepGiven result (table_seen d.new) (table_name_step setting.now w.now (table_seen d.old)) }
{
    if is_any_mark(w) {
        return Err(ReadFault::Bad(Cause::Syntax));
    }
    if setting.is_taken(&w.text) {
        return Err(ReadFault::Bad(Cause::Syntax));
    }
    d.name = w.text.copy(alloc)?;
    d.expects = TableExpects::Close;
    Ok(())
}

/// Takes the brace before a list; any other word is refused for this cause.
fn list_begun(cause: Cause, w: &Word, d: &mut LongTable) -> Result<(), ReadFault>
    ensures { StepGiven result (table_seen d.new) (list_begun cause w.now (table_seen d.old)) }
{
    if !is_mark(w, b"{") {
        return Err(ReadFault::Bad(cause));
    }
    d.expects = TableExpects::Members;
    d.members.begin();
    Ok(())
}

/// Takes `const`, or what follows.
fn const_step(misplaced: Cause, w: &Word, d: &mut LongTable) -> Result<(), ReadFault>
    ensures { StepGiven result (table_seen d.new) (const_step misplaced w.now (table_seen d.old)) }
{
    if is(w.text.as_slice(), b"const") {
        d.expects = TableExpects::List;
        return Ok(());
    }
    list_begun(misplaced, w, d)
}

/// Takes `persist`, or what follows.
fn persist_step(misplaced: Cause, w: &Word, d: &mut LongTable) -> Result<(), ReadFault>
    ensures { StepGiven result (table_seen d.new) (persist_step misplaced w.now (table_seen d.old)) }
{
    if is(w.text.as_slice(), b"persist") {
        d.expects = TableExpects::Const;
        return Ok(());
    }
    const_step(misplaced, w, d)
}

/// Takes the brace before a list; a file of addresses is left out.
fn list_step(w: &Word, d: &mut LongTable) -> Result<(), ReadFault>
    ensures { StepGiven result (table_seen d.new) (list_step w.now (table_seen d.old)) }
{
    if is(w.text.as_slice(), b"file") {
        return list_begun(Cause::LeftOut, w, d);
    }
    list_begun(Cause::Syntax, w, d)
}

/// Takes an address, or a word of one; nothing stands behind the list.
fn members_step(
    alloc: Global,
    setting: &Setting,
    w: &Word,
    d: &mut LongTable,
) -> Result<(), ReadFault>
    requires { IsSound setting.now.site }
    ensures { StepGiven result (table_seen d.new) (members_step setting.now w.now (table_seen d.old)) }
{
    let took = d.members.step(alloc, setting, w)?;
    if !took {
        return Err(ReadFault::Bad(Cause::Syntax));
    }
    Ok(())
}

/// Takes a word of a table. Where a keyword may stand, any other word than those that may is refused for the given cause, which
/// goes by the keywords of the dialect.
pub fn table_step(
    alloc: Global,
    setting: &Setting,
    misplaced: Cause,
    w: &Word,
    d: &mut LongTable,
) -> Result<(), ReadFault>
    requires { IsSound setting.now.site }
    ensures { StepGiven result (table_seen d.new) (table_step misplaced setting.now w.now (table_seen d.old)) }
{
    match d.expects {
        TableExpects::Open => table_mark_step(b"<", TableExpects::Name, w, d),
        TableExpects::Name => table_name_step(alloc, setting, w, d),
        TableExpects::Close => table_mark_step(b">", TableExpects::Persist, w, d),
        TableExpects::Persist => persist_step(misplaced, w, d),
        TableExpects::Const => const_step(misplaced, w, d),
        TableExpects::List => list_step(w, d),
        TableExpects::Members => members_step(alloc, setting, w, d),
    }
}
