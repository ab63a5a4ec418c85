//! The lines of a text (iptables-save(8)).

ghost use Rattle.std.specs.Prelude.{◌≡◌};
ghost use Rattle.fws_net.specs.Reading.{CauseGiven, StepGiven};
ghost use Rattle.fws_net.specs.Routes.{IsSound};
ghost use Rattle.fws_ipt.specs.FileText.{opens, table_line, commit_line, rule_line, chain_of_rule, appended_in, appended_to, append_line, out_of_place, counted_line, counters_line, word_line, first_step, words_step};

use crate::counters::is_counters;
use crate::declarations::{alone, chain_line};
use crate::hooks::{builtin_hook, section_named};
use crate::keywords::read_keyword;
use crate::progress::Progress;
use crate::rule::read_rule;
use fws_ipt::{Hook, IptTable, Section};
use fws_net::{Cause, ReadFault, Site};
use fws_num::Word;
use fws_rules::is;
use std::alloc::Global;

/// Opens a table, which is done outside a table, and once.
fn open_table(reader: &mut Progress, section: Section, words: &[Word]) -> Result<(), ReadFault>
    ensures { StepGiven result reader.new (opens section words.now reader.old) }
{
    if reader.within().is_some() || reader.has_opened(section) {
        return Err(ReadFault::Bad(Cause::Syntax));
    }
    reader.open(section)?;
    alone(words)
}

/// Takes `*T`, of which this is the name. An unknown table is left out.
fn table_line(reader: &mut Progress, name: &[u8], words: &[Word]) -> Result<(), ReadFault>
    ensures { StepGiven result reader.new (table_line name.now words.now reader.old) }
{
    match section_named(name) {
        Some(section) => open_table(reader, section, words),
        None => Err(ReadFault::Bad(Cause::LeftOut)),
    }
}

/// Takes `COMMIT`, which closes the table.
fn commit_line(reader: &mut Progress, words: &[Word]) -> Result<(), ReadFault>
    ensures { StepGiven result reader.new (commit_line words.now reader.old) }
{
    if reader.within().is_none() {
        return Err(ReadFault::Bad(Cause::Syntax));
    }
    reader.close();
    alone(words)
}

/// Takes the words of a rule behind its chain, which has this number, and this hook if it is built in.
fn rule_line(
    alloc: Global,
    site: &Site,
    reader: &mut Progress,
    table: IptTable,
    hook: Option<Hook>,
    number: u32,
    words: &[Word],
) -> Result<(), ReadFault>
    requires { IsSound site.now }
    ensures { StepGiven result reader.new (rule_line site.now table hook number words.now reader.old) }
{
    let rule = read_rule(alloc, site, reader, table, hook, words)?;
    reader.append(alloc, number, rule)?;
    Ok(())
}

/// The number of a rule's chain, which was declared on an earlier line.
fn chain_of_rule(
    alloc: Global,
    reader: &Progress,
    table: IptTable,
    name: &[u8],
) -> Result<u32, ReadFault>
    ensures { CauseGiven result (chain_of_rule table name.now reader.now) }
{
    match reader.find(alloc, table, name)? {
        Some(number) => Ok(number),
        None => Err(ReadFault::Bad(Cause::NoName)),
    }
}

/// Takes what stands behind `-A` in a table whose chains packets meet.
fn appended_in(
    alloc: Global,
    site: &Site,
    reader: &mut Progress,
    table: IptTable,
    words: &[Word],
) -> Result<(), ReadFault>
    requires { IsSound site.now }
    ensures { StepGiven result reader.new (appended_in site.now table words.now reader.old) }
{
    let [word, rest @ ..] = words else {
        return Err(ReadFault::Bad(Cause::Syntax));
    };
    if !word.is_sound() {
        return Err(ReadFault::Bad(Cause::Syntax));
    }
    let name = word.text.as_slice();
    let number = chain_of_rule(alloc, reader, table, name)?;
    let hook = builtin_hook(Section::Met(table), name);
    rule_line(alloc, site, reader, table, hook, number, rest)
}

/// Takes what stands behind `-A` in the table that is open. Rules of raw and security are left out.
fn appended_to(
    alloc: Global,
    site: &Site,
    reader: &mut Progress,
    section: Section,
    words: &[Word],
) -> Result<(), ReadFault>
    requires { IsSound site.now }
    ensures { StepGiven result reader.new (appended_to site.now section words.now reader.old) }
{
    match section {
        Section::Met(table) => appended_in(alloc, site, reader, table, words),
        Section::Raw | Section::Security => Err(ReadFault::Bad(Cause::LeftOut)),
    }
}

/// Takes `-A`, within a table.
fn append_line(
    alloc: Global,
    site: &Site,
    reader: &mut Progress,
    words: &[Word],
) -> Result<(), ReadFault>
    requires { IsSound site.now }
    ensures { StepGiven result reader.new (append_line site.now words.now reader.old) }
{
    match reader.within() {
        Some(section) => appended_to(alloc, site, reader, section, words),
        None => Err(ReadFault::Bad(Cause::Syntax)),
    }
}

/// Why a word can't stand here: a keyword is Syntax, and any other word is left out.
fn out_of_place(text: &[u8]) -> Cause
    ensures { result ≡ out_of_place text.now }
{
    if read_keyword(text).is_some() {
        Cause::Syntax
    } else {
        Cause::LeftOut
    }
}

/// Takes what stands behind counters, which is a rule.
fn counted_line(
    alloc: Global,
    site: &Site,
    reader: &mut Progress,
    words: &[Word],
) -> Result<(), ReadFault>
    requires { IsSound site.now }
    ensures { StepGiven result reader.new (counted_line site.now words.now reader.old) }
{
    let [word, rest @ ..] = words else {
        return Err(ReadFault::Bad(Cause::Syntax));
    };
    if !word.is_sound() {
        return Err(ReadFault::Bad(Cause::Syntax));
    }
    if !word.is(b"-A") {
        return Err(ReadFault::Bad(out_of_place(word.text.as_slice())));
    }
    append_line(alloc, site, reader, rest)
}

/// Takes `[P:B]` before a rule, within a table.
fn counters_line(
    alloc: Global,
    site: &Site,
    reader: &mut Progress,
    text: &[u8],
    words: &[Word],
) -> Result<(), ReadFault>
    requires { IsSound site.now }
    ensures { StepGiven result reader.new (counters_line site.now text.now words.now reader.old) }
{
    if reader.within().is_none() || !is_counters(text) {
        return Err(ReadFault::Bad(Cause::Syntax));
    }
    counted_line(alloc, site, reader, words)
}

/// Takes a line that begins with a word or with counters.
fn word_line(
    alloc: Global,
    site: &Site,
    reader: &mut Progress,
    text: &[u8],
    words: &[Word],
) -> Result<(), ReadFault>
    requires { IsSound site.now }
    ensures { StepGiven result reader.new (word_line site.now text.now words.now reader.old) }
{
    if is(text, b"-A") {
        append_line(alloc, site, reader, words)
    } else if is(text, b"COMMIT") {
        commit_line(reader, words)
    } else if matches!(text, [b'[', ..]) {
        counters_line(alloc, site, reader, text, words)
    } else {
        Err(ReadFault::Bad(out_of_place(text)))
    }
}

/// Takes a line by its first word.
fn first_step(
    alloc: Global,
    site: &Site,
    reader: &mut Progress,
    text: &[u8],
    words: &[Word],
) -> Result<(), ReadFault>
    requires { IsSound site.now }
    ensures { StepGiven result reader.new (first_step site.now text.now words.now reader.old) }
{
    match text {
        [b'*', name @ ..] => table_line(reader, name, words),
        [b':', name @ ..] => chain_line(alloc, reader, name, words),
        _ => word_line(alloc, site, reader, text, words),
    }
}

/// Takes the words of a line.
pub(crate) fn words_step(
    alloc: Global,
    site: &Site,
    reader: &mut Progress,
    words: &[Word],
) -> Result<(), ReadFault>
    requires { IsSound site.now }
    ensures { StepGiven result reader.new (words_step site.now words.now reader.old) }
{
    let [word, rest @ ..] = words else {
        return Ok(());
    };
    if !word.is_sound() {
        return Err(ReadFault::Bad(Cause::Syntax));
    }
    first_step(alloc, site, reader, word.text.as_slice(), rest)
}
