//! What was read of a text.

ghost use Rattle.std.specs.Prelude.{◌≡◌, [], ◌∷◌, ◌++◌, length, map, IfOk, OnOk};
ghost use Rattle.fws_pf.specs.Drawn.{expanded_with};
ghost use Rattle.fws_pf.specs.Macros.{with_macro};
ghost use Rattle.fws_pfo.specs.Drawn.{ends_with, rule_of, with_end};
ghost use Rattle.fws_pfo.specs.FileText.{fresh_text, setting_at};
ghost use Rattle.fws_pfo_read.specs.Texts.{put, with_tags};
ghost use Rattle.fws_pfo_read.specs.Views.{draft_of};

use crate::checks::has_end;
use crate::draft::{Draft, dismiss_draft};
use crate::made::{held_end, rule_of};
use fws_iv::Ivs;
use fws_net::{Cond, End, Site};
use fws_num::{Items, Memory, Text, Word};
use fws_pf_words::{Macros, Names, Setting, Tables, Tags, expanded_with};
use fws_pfo::{PfoConfig, PfoRule};
use std::alloc::Global;
use std::marker::Model;
use std::mem;

/// What was read of a text. Contracts see the draft.
#[derive(Drop)]
pub(crate) struct Progress {
    macros: Macros,
    tables: Names,
    expanded: u64,
    ends: Items<End>,
    skip: Ivs,
    rules: Items<PfoRule>,
    tags: Tags,
}

impl Model for Progress {
    ghost use Rattle.fws_pfo.specs.declared.text_draft.PfoDraft.{PfoDraft};

    ghost Value = { PfoDraft };

    ghost view = { λ p. record {
      macros = p.macros;
      tables = p.tables;
      expanded = p.expanded;
      ends = p.ends;
      config = record { skip = p.skip; rules = p.rules; tags = p.tags };
    } };
}

/// Puts a rule for each condition behind the others.
fn put_rules(rules: &mut Items<PfoRule>, d: &Draft, conds: Items<Cond>) -> Result<(), Memory>
    ensures { OnOk result (rules.new ≡ rules.old ++ map (rule_of (draft_of d.now)) conds) }
{
    for cond in conds.into_vec() {
        rules.put(rule_of(d, cond))?;
    }
    Ok(())
}

/// Puts an end behind others, unless it is among them.
fn put_end(ends: &mut Items<End>, end: End) -> Result<(), Memory>
    ensures { OnOk result (ends.new ≡ with_end ends.old end) }
{
    if has_end(ends.as_slice(), end) {
        return Ok(());
    }
    ends.put(end)?;
    Ok(())
}

/// Puts the end that a rule holds behind others, unless it is among them.
fn put_held(ends: &mut Items<End>, d: &Draft) -> Result<(), Memory>
    ensures { OnOk result (ends.new ≡ ends_with ends.old (draft_of d.now)) }
{
    match held_end(d) {
        Some(end) => put_end(ends, end),
        None => Ok(()),
    }
}

impl Progress {
    /// What was read ahead of the first statement.
    pub(crate) fn new(alloc: Global) -> Progress
        ensures { result ≡ fresh_text }
    {
        Progress {
            macros: Macros::new(alloc),
            tables: Names::new(alloc),
            expanded: 0,
            ends: Items::new(alloc),
            skip: Ivs::none(alloc),
            rules: Items::new(alloc),
            tags: Tags::new(alloc),
        }
    }

    /// Where a statement is read: among the tables of the whole text, of which those so far have their names.
    pub(crate) fn setting<'a>(&'a self, site: &'a Site, tables: &'a Tables) -> Setting<'a>
        ensures { result ≡ setting_at site.now tables.now self.now }
    {
        Setting::new(site, Some(tables), &self.tables)
    }

    /// The macros so far.
    pub(crate) fn macros(&self) -> &Macros
        ensures { result.now ≡ self.now.macros }
    {
        &self.macros
    }

    /// The interfaces that are skipped so far.
    pub(crate) fn skip(&self) -> &Ivs
        ensures { result.now ≡ self.now.config.skip }
    {
        &self.skip
    }

    /// How many rules were made by statements that each make more than one.
    pub(crate) fn expanded(&self) -> u64
        ensures { result ≡ self.now.expanded }
    {
        self.expanded
    }

    /// The ends of `pass` rules so far, each once.
    pub(crate) fn ends(&self) -> &[End]
        ensures { result.now ≡ self.now.ends }
    {
        self.ends.as_slice()
    }

    /// Takes out the tags so far.
    pub(crate) fn take_tags(&mut self, alloc: Global) -> Tags
        ensures taken { result ≡ self.old.config.tags }
        ensures left { self.new ≡ with_tags [] self.old }
    {
        self.tags.take(alloc)
    }

    /// Puts tags in the place of those so far.
    pub(crate) fn put_tags(&mut self, tags: Tags)
        ensures { self.new ≡ with_tags tags self.old }
    {
        self.tags = tags;
    }

    /// Defines a macro.
    pub(crate) fn put_macro(&mut self, name: Text, words: Items<Word>) -> Result<(), Memory>
        ensures { OnOk result (self.new ≡ record self.old { macros = with_macro name words self.old.macros }) }
    {
        self.macros.put(name, words)?;
        Ok(())
    }

    /// Notes the name of a table.
    pub(crate) fn put_table(&mut self, alloc: Global, name: Text) -> Result<(), Memory>
        ensures { OnOk result (self.new ≡ record self.old { tables = self.old.tables ++ name ∷ [] }) }
    {
        self.tables.put(alloc, name)?;
        Ok(())
    }

    /// Puts others in the place of the interfaces that are skipped.
    pub(crate) fn put_skip(&mut self, skip: Ivs)
        ensures { self.new ≡ record self.old { config = record self.old.config { skip = skip } } }
    {
        self.skip = skip;
    }

    /// Counts the rules of a statement, and notes the end that they hold.
    fn count(&mut self, d: &Draft, count: usize) -> Result<(), Memory>
        ensures { OnOk result (self.new ≡ record self.old { expanded = expanded_with self.old.expanded count; ends = ends_with self.old.ends (draft_of d.now) }) }
    {
        self.expanded = expanded_with(self.expanded, count)?;
        put_held(&mut self.ends, d)?;
        Ok(())
    }

    /// Counts the rules of a statement and puts them behind the others, one for each condition.
    fn put_counted(&mut self, d: &Draft, conds: Items<Cond>) -> Result<(), Memory>
        ensures { OnOk result (self.new ≡ with_tags self.old.config.tags (put (draft_of d.now) conds self.old)) }
    {
        self.count(d, conds.len())?;
        put_rules(&mut self.rules, d, conds)?;
        Ok(())
    }

    /// Puts the rules of a statement behind the others, one for each condition, and its tags in the place of those so far.
    pub(crate) fn put_rule(
        &mut self,
        alloc: Global,
        d: Draft,
        conds: Items<Cond>,
    ) -> Result<(), Memory>
        ensures { OnOk result (self.new ≡ put (draft_of d) conds self.old) }
    {
        match self.put_counted(&d, conds) {
            Ok(()) => {
                self.put_tags(d.shared.into_tags(alloc));
                Ok(())
            }
            Err(Memory) => {
                dismiss_draft(d);
                Err(Memory)
            }
        }
    }

    /// The configuration with these tags, and with the rest that was read, which it takes along.
    fn config_with(&mut self, alloc: Global, tags: Items<Text>) -> PfoConfig
        ensures { result ≡ record self.old.config { tags = tags } }
    {
        PfoConfig {
            skip: mem::replace(&mut self.skip, Ivs::none(alloc)),
            rules: mem::replace(&mut self.rules, Items::new(alloc)),
            tags,
        }
    }

    /// The configuration of what was read, which it takes along. Fails if memory runs out.
    fn drawn(&mut self, alloc: Global) -> Result<PfoConfig, Memory>
        ensures { IfOk result (λ c. c ≡ self.old.config) }
    {
        let tags = self.take_tags(alloc).into_items(alloc)?;
        Ok(self.config_with(alloc, tags))
    }

    /// The configuration of what was read. Fails if memory runs out.
    pub(crate) fn into_config(self, alloc: Global) -> Result<PfoConfig, Memory>
        ensures { IfOk result (λ c. c ≡ self.config) }
    {
        let mut progress = self;
        progress.drawn(alloc)
    }
}
