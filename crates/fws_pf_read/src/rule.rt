//! A rule that is read: a filter rule or a translation behind its first word (pf.conf(5)).

ghost use Rattle.std.specs.Prelude.{◌≡◌, ℕ, ◌≤◌, nat_lt, Ok, Some, List, length, take, IfOk, OnOk, if◌then◌else◌};
ghost use Rattle.fws_net.specs.Reading.{CauseGiven, StepGiven};
ghost use Rattle.fws_net.specs.Routes.{IsSound};
ghost use Rattle.fws_pf.specs.Drafts.{expecting};
ghost use Rattle.fws_pf.specs.Drawn.{choices, condition_count, conditions, expanded_with, filter_rule, lacks_protocol, last_valued, maps_blocks, rule_checks, rule_ended, translation};
ghost use Rattle.fws_pf.specs.declared.macros.Macro.{Macro as AnyMacro};
ghost use Rattle.fws_pf.specs.declared.statement.Statement.TheVariants as any;
ghost use Rattle.fws_pf.specs.declared.tables.Table.{Table};
ghost use Rattle.fws_pf.specs.RuleText.{fresh_rule, rule_step, value_taken, valued};
ghost use Rattle.fws_pf.specs.StatementText.{words_taken};
ghost use Rattle.fws_pf.specs.TargetText.{bitmask_of, with_target};
ghost use Rattle.fws_pf.specs.Values.{value_step};
ghost use Rattle.fws_pf_words.specs.Fronts.{within};
ghost use Rattle.fws_pf_words.specs.Taken.{TakenGiven};
ghost use Rattle.fws_pf_words.specs.UsesKnown.{AreUses, ArePiece};
ghost use Rattle.fws_pf_read.specs.Views.{draft_of};

use crate::asked::OptionChoices;
use crate::checks::{draft_checks, is_expanded, lacks_protocol};
use crate::draft::{Draft, dismiss_draft};
use crate::drawn::draft_conditions;
use crate::ended::{draft_ended, last_valued};
use crate::made;
use crate::steps::{draft_step, draft_within, put_value, take_value};
use crate::target::{nat_bitmask, put_target, rdr_bitmask};
use fws_net::{Checks, Cond, ReadFault};
use fws_num::{Items, Memory, Text, Word};
use fws_pf::{Expects, PfNat, PfRule, Place, Target, ValueKind, Verb, Way};
use fws_pf_words::{ItemList, KnownUses, LongValue, Setting, Source, Tables, Tags, maps_blocks};
use std::alloc::Global;
use std::marker::Model;

/// A rule that is read: its draft stands on the heap, so that it is moved at no cost from word to word. Contracts see the draft, in
/// which the names of tags are a list.
#[derive(Drop)]
pub struct Rule {
    draft: Box<Draft>,
}

impl Model for Rule {
    ghost use Rattle.fws_pf.specs.declared.rule_draft.RuleDraft.{RuleDraft};

    ghost Value = { RuleDraft };

    ghost use Rattle.fws_pf_read.specs.Views.{draft_of};

    ghost view = { λ r. draft_of r.draft.value };
}

impl Rule {
    /// What it does.
    pub(crate) fn verb(&self) -> Verb
        ensures { result ≡ self.now.verb }
    {
        self.draft.verb
    }

    /// What its next word is taken for.
    pub fn expects(&self) -> Expects
        ensures { result ≡ self.now.expects }
    {
        self.draft.expects
    }

    /// On which passes it is met.
    pub fn way(&self) -> Way
        ensures { result ≡ self.now.way }
    {
        self.draft.way
    }

    /// Whether `quick` stands there.
    pub fn is_quick(&self) -> bool
        ensures { result ≡ self.now.quick }
    {
        self.draft.quick
    }

    /// Whether `no state` stands there.
    pub fn is_stateless(&self) -> bool
        ensures { result ≡ self.now.stateless }
    {
        self.draft.stateless
    }

    /// The tag that it puts.
    pub fn tag(&self) -> Option<u32>
        ensures { result ≡ self.now.tag }
    {
        self.draft.tag
    }

    /// What it writes.
    pub fn target(&self) -> Option<Target>
        ensures { result ≡ self.now.target }
    {
        self.draft.target
    }

    /// Takes the next word for this.
    pub fn expect(&mut self, next: Expects)
        ensures { self.new ≡ expecting next self.old }
    {
        self.draft.expects = next;
    }

    /// Takes what is written so far, and goes on.
    pub fn put_target(&mut self, target: Target, next: Expects)
        ensures { self.new ≡ with_target target next self.old }
    {
        put_target(&mut *self.draft, target, next);
    }

    /// Takes `bitmask` behind a network that is written over the source; `static-port` may stand before it.
    pub fn put_source_mask(&mut self, w: &Word, target: Target) -> Result<(), ReadFault>
        ensures { StepGiven result self.new (bitmask_of Verb.Nat w.now self.old target) }
    {
        nat_bitmask(w, target, &mut *self.draft)
    }

    /// Takes `bitmask` behind a network that is written over the destination.
    pub fn put_destination_mask(&mut self, w: &Word, target: Target) -> Result<(), ReadFault>
        ensures { StepGiven result self.new (bitmask_of Verb.Rdr w.now self.old target) }
    {
        rdr_bitmask(w, target, &mut *self.draft)
    }

    /// Takes a word of the value at which it is, and says so, or leaves the word behind it.
    pub fn step_value(
        &mut self,
        alloc: Global,
        setting: &Setting<'_>,
        w: &Word,
    ) -> Result<bool, ReadFault>
        requires { IsSound setting.now.site }
        ensures taken { TakenGiven result self.new.value (value_step setting.now w.now self.old.value) }
        ensures alone { self.new ≡ record self.old { value = self.new.value } }
    {
        self.draft.value.step(alloc, setting, w)
    }

    /// Takes words that belong to the value at which it is and don't end it, up to the first other word, and tells how many.
    pub fn take_within(
        &mut self,
        alloc: Global,
        setting: &Setting<'_>,
        uses: &mut KnownUses,
        source: Source,
        name: &Text,
        words: &[Word],
    ) -> Result<usize, Memory>
        requires { IsSound setting.now.site }
        ensures few { IfOk result (λ n. n ≤ length words.now) }
        ensures taken { (macros : List AnyMacro) → ArePiece macros source name.now words.now → AreUses setting.now macros self.old.value.items uses.old
            → IfOk result (λ n. within setting.now (take n words.now) self.old.value ≡ Some self.new.value) }
        ensures known { (macros : List AnyMacro) → ArePiece macros source name.now words.now → AreUses setting.now macros self.old.value.items uses.old
            → OnOk result (AreUses setting.now macros self.new.value.items uses.new) }
        ensures alone { self.new ≡ record self.old { value = self.new.value } }
    {
        let n = uses.take(alloc, setting, source, name, words, &mut self.draft.value)?;
        Ok(n)
    }

    /// Takes the value of a place that took a word, if it has ended.
    pub fn take_value(&mut self, alloc: Global, place: Place) -> Result<(), Memory>
        ensures { OnOk result (self.new ≡ value_taken place self.old.value self.old) }
    {
        take_value(alloc, place, &mut *self.draft)
    }

    /// Takes the value of a place that has ended.
    pub fn put_value(&mut self, alloc: Global, place: Place) -> Result<(), Memory>
        ensures { OnOk result (self.new ≡ valued place self.old.value self.old) }
    {
        put_value(alloc, place, &mut *self.draft)
    }

    /// Takes the value at which its words end, if they end at one.
    pub fn end_value(&mut self, alloc: Global) -> Result<(), ReadFault>
        ensures { StepGiven result self.new (last_valued self.old.expects self.old) }
    {
        last_valued(alloc, &mut *self.draft)
    }

    /// Whether the next word stands in a list.
    pub fn is_in_list(&self) -> bool {
        self.draft.value.spot().in_list
    }

    /// Whether it has a test of ports, flags or types without the protocol that has them.
    pub fn lacks_protocol(&self) -> bool
        ensures { result ≡ lacks_protocol self.now }
    {
        lacks_protocol(&*self.draft)
    }

    /// Whether statements that make more than one rule make too many with this one.
    pub fn is_expanded(&self, expanded: u64) -> bool
        ensures { (tables : List Table) → result ≡ nat_lt 200000 (expanded_with expanded (condition_count (choices tables self.now))) }
    {
        is_expanded(expanded, &*self.draft)
    }

    /// Whether the source, or else the destination, is named so for a network of this length.
    pub fn maps_blocks(
        &self,
        alloc: Global,
        tables: &Tables,
        over_source: bool,
        len: u8,
    ) -> Result<bool, Memory>
        ensures { IfOk result (λ b. b ≡ maps_blocks tables.now len (if over_source then self.now.sources else self.now.destinations)) }
    {
        if over_source {
            return maps_blocks(alloc, tables, len, &self.draft.sources);
        }
        maps_blocks(alloc, tables, len, &self.draft.destinations)
    }

    /// The names of all tags so far.
    pub fn into_tags(self, alloc: Global) -> Tags
        ensures { result ≡ self.tags }
    {
        let mut rule = self;
        let tags = rule.draft.tags.take(alloc);
        dismiss_rule(rule);
        tags
    }

    /// The filter rule with this condition.
    pub(crate) fn filter_rule(&self, cond: Cond) -> PfRule
        ensures { result ≡ filter_rule self.now cond }
    {
        made::filter_rule(&*self.draft, cond)
    }

    /// The translation with this condition.
    pub(crate) fn translation(&self, cond: Cond) -> PfNat
        ensures { result ≡ translation self.now cond }
    {
        made::translation(&*self.draft, cond)
    }
}

/// The draft of a rule before its words, in a text that has had these tags.
fn fresh_draft(alloc: Global, verb: Verb, negated: bool, expects: Expects, tags: Tags) -> Draft
    ensures { draft_of result ≡ fresh_rule verb negated expects tags }
{
    Draft {
        verb,
        negated,
        expects,
        value: LongValue::new(alloc, ValueKind::Interface),
        past: false,
        way: Way::Both,
        quick: false,
        faces: ItemList::new(alloc),
        protocols: ItemList::new(alloc),
        sources: ItemList::new(alloc),
        source_ports: ItemList::new(alloc),
        destinations: ItemList::new(alloc),
        destination_ports: ItemList::new(alloc),
        options: OptionChoices::new(alloc),
        has_flags: false,
        tests_flags: false,
        has_icmp_type: false,
        has_state: false,
        stateless: false,
        has_tag: false,
        has_tagged: false,
        has_label: false,
        tag: None,
        target: None,
        tags,
    }
}

/// A rule before its words, in a text that has had these tags. Fails if memory runs out.
pub fn fresh_rule(
    alloc: Global,
    verb: Verb,
    negated: bool,
    expects: Expects,
    tags: Tags,
) -> Result<Rule, Memory>
    ensures { IfOk result (λ r. r ≡ fresh_rule verb negated expects tags) }
{
    match Box::new(alloc, fresh_draft(alloc, verb, negated, expects, tags)) {
        Ok(draft) => Ok(Rule { draft }),
        Err(failed) => {
            dismiss_draft(failed.value);
            Err(Memory)
        }
    }
}

/// Takes a word of a rule.
pub fn rule_step(
    alloc: Global,
    setting: &Setting<'_>,
    w: &Word,
    rule: &mut Rule,
) -> Result<(), ReadFault>
    requires { IsSound setting.now.site }
    ensures { StepGiven result rule.new (rule_step setting.now w.now rule.old) }
{
    draft_step(alloc, setting, w, &mut *rule.draft)
}

/// Takes words that belong to the value at which the rule is and don't end it, up to the first other word, and tells how many.
pub(crate) fn rule_within(
    alloc: Global,
    setting: &Setting<'_>,
    uses: &mut KnownUses,
    source: Source,
    name: &Text,
    words: &[Word],
    rule: &mut Rule,
) -> Result<usize, Memory>
    requires { IsSound setting.now.site }
    ensures few { IfOk result (λ n. n ≤ length words.now) }
    ensures taken { (macros : List AnyMacro) → ArePiece macros source name.now words.now → AreUses setting.now macros rule.old.value.items uses.old
        → IfOk result (λ n. (tags : List (List ℕ)) → words_taken setting.now tags (take n words.now) (any.Rule rule.old) ≡ Ok (any.Rule rule.new)) }
    ensures known { (macros : List AnyMacro) → ArePiece macros source name.now words.now → AreUses setting.now macros rule.old.value.items uses.old
        → OnOk result (AreUses setting.now macros rule.new.value.items uses.new) }
{
    draft_within(alloc, setting, uses, source, name, words, &mut *rule.draft)
}

/// Drops a rule: in a function of its own, since each function that drops one has to walk through all that it owns.
pub fn dismiss_rule(rule: Rule) {
    dismiss_draft(Box::into_inner(rule.draft));
}

/// The rule of all its words. One that ends too early is refused.
pub(crate) fn rule_ended(alloc: Global, rule: Rule) -> Result<Rule, ReadFault>
    ensures { CauseGiven result (rule_ended rule) }
{
    let mut whole = rule;
    match draft_ended(alloc, &mut *whole.draft) {
        Ok(()) => Ok(whole),
        Err(fault) => {
            dismiss_rule(whole);
            Err(fault)
        }
    }
}

/// The conditions of the rules for which a rule stands. Fails if memory runs out.
pub fn rule_conditions(alloc: Global, tables: &Tables, rule: &Rule) -> Result<Items<Cond>, Memory>
    ensures { IfOk result (λ conds. conds ≡ conditions (choices tables.now rule.now)) }
{
    draft_conditions(alloc, tables, &*rule.draft)
}

/// The checks of a whole rule, behind statements that made so many rules where they made more than one. Fails if memory runs out.
pub(crate) fn rule_checks(
    alloc: Global,
    tables: &Tables,
    expanded: u64,
    rule: &Rule,
) -> Result<Checks, Memory>
    ensures { IfOk result (λ c. c ≡ rule_checks tables.now expanded rule.now) }
{
    draft_checks(alloc, tables, expanded, &*rule.draft)
}
