//! What was read of a text.

ghost use Rattle.std.specs.Prelude.{◌≡◌, [], ◌∷◌, ◌++◌, length, map, IfOk, OnOk};
ghost use Rattle.fws_pf.specs.Drawn.{expanded_with, filter_rule, translation};
ghost use Rattle.fws_pf.specs.FileText.{fresh_text, setting_at, with_rules};
ghost use Rattle.fws_pf.specs.Macros.{with_macro};
ghost use Rattle.fws_pf_read.specs.Texts.{put, with_tags};

use crate::rule::{Rule, dismiss_rule};
use fws_iv::Ivs;
use fws_net::{Cond, Site};
use fws_num::{Items, Memory, Text, Word};
use fws_pf::{PfConfig, PfNat, PfRule, Verb};
use fws_pf_words::{Macros, Names, Setting, Tables, Tags, expanded_with};
use std::alloc::Global;
use std::marker::Model;
use std::mem;

/// What was read of a text. Contracts see the draft.
#[derive(Drop)]
pub(crate) struct Progress {
    macros: Macros,
    tables: Names,
    expanded: u64,
    skip: Ivs,
    rdr: Items<PfNat>,
    nat: Items<PfNat>,
    filter: Items<PfRule>,
    tags: Tags,
}

impl Model for Progress {
    ghost use Rattle.fws_pf.specs.declared.text_draft.PfDraft.{PfDraft};

    ghost Value = { PfDraft };

    ghost view = { λ p. record {
      macros = p.macros;
      tables = p.tables;
      expanded = p.expanded;
      config = record { skip = p.skip; rdr = p.rdr; nat = p.nat; filter = p.filter; tags = p.tags };
    } };
}

/// Puts a translation for each condition behind the others.
fn put_translations(rules: &mut Items<PfNat>, rule: &Rule, conds: Items<Cond>) -> Result<(), Memory>
    ensures { OnOk result (rules.new ≡ rules.old ++ map (translation rule.now) conds) }
{
    for cond in conds.into_vec() {
        rules.put(rule.translation(cond))?;
    }
    Ok(())
}

/// Puts a filter rule for each condition behind the others.
fn put_filters(rules: &mut Items<PfRule>, rule: &Rule, conds: Items<Cond>) -> Result<(), Memory>
    ensures { OnOk result (rules.new ≡ rules.old ++ map (filter_rule rule.now) conds) }
{
    for cond in conds.into_vec() {
        rules.put(rule.filter_rule(cond))?;
    }
    Ok(())
}

impl Progress {
    /// What was read ahead of the first statement.
    pub(crate) fn new(alloc: Global) -> Progress
        ensures { result ≡ fresh_text }
    {
        Progress {
            macros: Macros::new(alloc),
            tables: Names::new(alloc),
            expanded: 0,
            skip: Ivs::none(alloc),
            rdr: Items::new(alloc),
            nat: Items::new(alloc),
            filter: Items::new(alloc),
            tags: Tags::new(alloc),
        }
    }

    /// Where a statement is read: among the tables of the whole text, of which those so far have their names.
    pub(crate) fn setting<'a>(&'a self, site: &'a Site, tables: &'a Tables) -> Setting<'a>
        ensures { result ≡ setting_at site.now tables.now self.now }
    {
        Setting::new(site, Some(tables), &self.tables)
    }

    /// The macros so far.
    pub(crate) fn macros(&self) -> &Macros
        ensures { result.now ≡ self.now.macros }
    {
        &self.macros
    }

    /// The interfaces that are skipped so far.
    pub(crate) fn skip(&self) -> &Ivs
        ensures { result.now ≡ self.now.config.skip }
    {
        &self.skip
    }

    /// How many rules were made by statements that each make more than one.
    pub(crate) fn expanded(&self) -> u64
        ensures { result ≡ self.now.expanded }
    {
        self.expanded
    }

    /// Takes out the tags so far.
    pub(crate) fn take_tags(&mut self, alloc: Global) -> Tags
        ensures taken { result ≡ self.old.config.tags }
        ensures left { self.new ≡ with_tags [] self.old }
    {
        self.tags.take(alloc)
    }

    /// Puts tags in the place of those so far.
    pub(crate) fn put_tags(&mut self, tags: Tags)
        ensures { self.new ≡ with_tags tags self.old }
    {
        self.tags = tags;
    }

    /// Defines a macro.
    pub(crate) fn put_macro(&mut self, name: Text, words: Items<Word>) -> Result<(), Memory>
        ensures { OnOk result (self.new ≡ record self.old { macros = with_macro name words self.old.macros }) }
    {
        self.macros.put(name, words)?;
        Ok(())
    }

    /// Notes the name of a table.
    pub(crate) fn put_table(&mut self, alloc: Global, name: Text) -> Result<(), Memory>
        ensures { OnOk result (self.new ≡ record self.old { tables = self.old.tables ++ name ∷ [] }) }
    {
        self.tables.put(alloc, name)?;
        Ok(())
    }

    /// Puts others in the place of the interfaces that are skipped.
    pub(crate) fn put_skip(&mut self, skip: Ivs)
        ensures { self.new ≡ record self.old { config = record self.old.config { skip = skip } } }
    {
        self.skip = skip;
    }

    /// Puts a rule for each condition behind the others of its kind.
    fn put_by_verb(&mut self, rule: &Rule, conds: Items<Cond>) -> Result<(), Memory>
        ensures { OnOk result (self.new ≡ with_tags self.old.config.tags (record self.old { config = with_rules rule.now.verb rule.now conds self.old.config })) }
    {
        match rule.verb() {
            Verb::Rdr => put_translations(&mut self.rdr, rule, conds),
            Verb::Nat => put_translations(&mut self.nat, rule, conds),
            Verb::Block => put_filters(&mut self.filter, rule, conds),
            Verb::Pass => put_filters(&mut self.filter, rule, conds),
        }
    }

    /// Counts the rules of a statement.
    fn count(&mut self, count: usize) -> Result<(), Memory>
        ensures { OnOk result (self.new ≡ record self.old { expanded = expanded_with self.old.expanded count }) }
    {
        self.expanded = expanded_with(self.expanded, count)?;
        Ok(())
    }

    /// Counts the rules of a statement and puts them behind the others of its kind, one for each condition.
    fn put_counted(&mut self, rule: &Rule, conds: Items<Cond>) -> Result<(), Memory>
        ensures { OnOk result (self.new ≡ with_tags self.old.config.tags (put rule.now conds self.old)) }
    {
        self.count(conds.len())?;
        self.put_by_verb(rule, conds)?;
        Ok(())
    }

    /// Puts the rules of a statement behind the others of its kind, one for each condition, and its tags in the place of those so far.
    pub(crate) fn put_rule(
        &mut self,
        alloc: Global,
        rule: Rule,
        conds: Items<Cond>,
    ) -> Result<(), Memory>
        ensures { OnOk result (self.new ≡ put rule conds self.old) }
    {
        match self.put_counted(&rule, conds) {
            Ok(()) => {
                self.put_tags(rule.into_tags(alloc));
                Ok(())
            }
            Err(Memory) => {
                dismiss_rule(rule);
                Err(Memory)
            }
        }
    }

    /// The configuration with these tags, and with the rest that was read, which it takes along.
    fn config_with(&mut self, alloc: Global, tags: Items<Text>) -> PfConfig
        ensures { result ≡ record self.old.config { tags = tags } }
    {
        PfConfig {
            skip: mem::replace(&mut self.skip, Ivs::none(alloc)),
            rdr: mem::replace(&mut self.rdr, Items::new(alloc)),
            nat: mem::replace(&mut self.nat, Items::new(alloc)),
            filter: mem::replace(&mut self.filter, Items::new(alloc)),
            tags,
        }
    }

    /// The configuration of what was read, which it takes along. Fails if memory runs out.
    fn drawn(&mut self, alloc: Global) -> Result<PfConfig, Memory>
        ensures { IfOk result (λ c. c ≡ self.old.config) }
    {
        let tags = self.take_tags(alloc).into_items(alloc)?;
        Ok(self.config_with(alloc, tags))
    }

    /// The configuration of what was read. Fails if memory runs out.
    pub(crate) fn into_config(self, alloc: Global) -> Result<PfConfig, Memory>
        ensures { IfOk result (λ c. c ≡ self.config) }
    {
        let mut progress = self;
        progress.drawn(alloc)
    }
}
