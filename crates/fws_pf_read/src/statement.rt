//! A statement, word by word.

ghost use Rattle.std.specs.Prelude.{◌≡◌, ℕ, ◌≤◌, Ok, List, length, take, IfOk};
ghost use Rattle.fws_net.specs.declared.answer.LineFault.TheVariants.{Bad};
ghost use Rattle.fws_net.specs.Reading.{StepGiven, and_then};
ghost use Rattle.fws_net.specs.Routes.{IsSound};
ghost use Rattle.fws_pf.specs.declared.macros.Macro.{Macro as AnyMacro};
ghost use Rattle.fws_pf.specs.declared.statement.Statement.TheVariants as any;
ghost use Rattle.fws_pf.specs.RuleText.{fresh_rule, rule_step};
ghost use Rattle.fws_pf.specs.StatementText.{begun, fault, negated, other_begun, rule_begun, set_step, skip_on_step, skip_step, statement_step, table_step, words_taken};
ghost use Rattle.fws_pf_words.specs.TableSteps.{table_seen};
ghost use Rattle.fws_pf_words.specs.UsesKnown.{AreUses, ArePiece};
ghost use Rattle.fws_pf_read.specs.Statements.{AreTags, StatementGiven, items_of, seen};

use crate::held::{HeldTable, HeldValue};
use crate::keywords::{action_word, misplaced};
use crate::rule::{Rule, dismiss_rule, fresh_rule, rule_step, rule_within};
use crate::takes_words::TakesWords;
use fws_net::{Cause, ReadFault};
use fws_num::{Memory, Text, Word};
use fws_pf::{ActionWord, Expects, Statement as AnyStatement, TableExpects, ValueKind, Verb};
use fws_pf_words::{KnownUses, LongValue, Setting, Source, Tags, fresh_table};
use fws_rules::is;
use std::alloc::Global;

/// What was read so far of a statement. A rule has the tags of the text, until the statement ends.
#[derive(Drop)]
pub(crate) enum Statement {
    /// Nothing.
    Begun,
    /// `no`, behind which a translation stands.
    Negated,
    /// A filter rule or a translation.
    Rule(Rule),
    /// A table.
    Table(HeldTable),
    /// `set`
    Set,
    /// `set skip`, behind which `on` stands.
    Skip,
    /// The interfaces that are skipped.
    SkipOn(HeldValue),
    /// A statement that has no effect.
    Idle,
}

/// Drops a table.
fn dismiss_table(_d: HeldTable) {}

/// Drops a value.
fn dismiss_skipped(_v: HeldValue) {}

/// Drops a statement: in a function of its own, since each function that drops one has to walk through all that it owns.
pub(crate) fn dismiss(s: Statement) {
    match s {
        Statement::Begun => {}
        Statement::Negated => {}
        Statement::Rule(rule) => dismiss_rule(rule),
        Statement::Table(d) => dismiss_table(d),
        Statement::Set => {}
        Statement::Skip => {}
        Statement::SkipOn(v) => dismiss_skipped(v),
        Statement::Idle => {}
    }
}

/// The statement of a rule before its words, which takes the tags. Fails if memory runs out.
fn fresh_statement(
    alloc: Global,
    tags: &mut Tags,
    verb: Verb,
    negated: bool,
    expects: Expects,
) -> Result<Statement, Memory>
    ensures given { IfOk result (λ s. seen s ≡ any.Rule (fresh_rule verb negated expects tags.old)) }
    ensures kept { IfOk result (λ s. AreTags tags.old s tags.new) }
{
    let rule = fresh_rule(alloc, verb, negated, expects, tags.take(alloc))?;
    Ok(Statement::Rule(rule))
}

/// The rule that a word begins, which takes the tags. Fails if memory runs out.
fn rule_begun(alloc: Global, tags: &mut Tags, action: ActionWord) -> Result<Statement, Memory>
    ensures given { IfOk result (λ s. seen s ≡ rule_begun tags.old action) }
    ensures kept { IfOk result (λ s. AreTags tags.old s tags.new) }
{
    match action {
        ActionWord::Block => fresh_statement(alloc, tags, Verb::Block, false, Expects::Answer),
        ActionWord::Pass => fresh_statement(alloc, tags, Verb::Pass, false, Expects::Way),
        ActionWord::Rdr => fresh_statement(alloc, tags, Verb::Rdr, false, Expects::Past),
        ActionWord::Nat => fresh_statement(alloc, tags, Verb::Nat, false, Expects::Past),
    }
}

/// A statement by a first word that begins no rule.
fn other_begun(alloc: Global, tags: &Tags, w: &Word) -> Result<Statement, ReadFault>
    ensures given { StatementGiven result (other_begun w.now) }
    ensures kept { IfOk result (λ s. AreTags tags.now s tags.now) }
{
    let text = w.text.as_slice();
    if is(text, b"no") {
        return Ok(Statement::Negated);
    }
    if is(text, b"table") {
        return Ok(Statement::Table(HeldTable::new(alloc, fresh_table(alloc))?));
    }
    if is(text, b"set") {
        return Ok(Statement::Set);
    }
    if is(text, b"scrub") {
        return Ok(Statement::Idle);
    }
    Err(ReadFault::Bad(misplaced(text)))
}

/// A statement by its first word.
fn begun(alloc: Global, tags: &mut Tags, w: &Word) -> Result<Statement, ReadFault>
    ensures given { StatementGiven result (begun tags.old w.now) }
    ensures kept { IfOk result (λ s. AreTags tags.old s tags.new) }
{
    match action_word(w.text.as_slice()) {
        Some(action) => Ok(rule_begun(alloc, tags, action)?),
        None => other_begun(alloc, tags, w),
    }
}

/// A translation behind `no`.
fn negated(alloc: Global, tags: &mut Tags, w: &Word) -> Result<Statement, ReadFault>
    ensures given { StatementGiven result (negated tags.old w.now) }
    ensures kept { IfOk result (λ s. AreTags tags.old s tags.new) }
{
    let text = w.text.as_slice();
    if is(text, b"rdr") {
        return Ok(fresh_statement(alloc, tags, Verb::Rdr, true, Expects::Past)?);
    }
    if is(text, b"nat") {
        return Ok(fresh_statement(alloc, tags, Verb::Nat, true, Expects::Past)?);
    }
    Err(ReadFault::Bad(misplaced(text)))
}

/// Takes a word of a rule.
fn rule_taken(
    alloc: Global,
    setting: &Setting,
    w: &Word,
    mut rule: Rule,
) -> Result<Statement, ReadFault>
    requires { IsSound setting.now.site }
    ensures given { StatementGiven result (and_then (rule_step setting.now w.now rule) (λ next. Ok (any.Rule next))) }
    ensures kept { IfOk result (λ s. (t k : List (List ℕ)) → AreTags t s k) }
{
    match rule_step(alloc, setting, w, &mut rule) {
        Ok(()) => Ok(Statement::Rule(rule)),
        Err(fault) => {
            dismiss_rule(rule);
            Err(fault)
        }
    }
}

/// Takes a word of a table.
fn table_step(
    alloc: Global,
    setting: &Setting,
    w: &Word,
    d: &mut HeldTable,
) -> Result<(), ReadFault>
    requires { IsSound setting.now.site }
    ensures { StepGiven result (table_seen d.new) (table_step setting.now w.now (table_seen d.old)) }
{
    d.step(alloc, setting, misplaced(w.text.as_slice()), w)
}

/// Takes a word of a table.
fn table_taken(
    alloc: Global,
    setting: &Setting,
    w: &Word,
    mut d: HeldTable,
) -> Result<Statement, ReadFault>
    requires { IsSound setting.now.site }
    ensures { StatementGiven result (and_then (table_step setting.now w.now (table_seen d)) (λ next. Ok (any.Table next))) }
{
    table_step(alloc, setting, w, &mut d)?;
    Ok(Statement::Table(d))
}

/// Takes the word behind `set`: `set skip` is the one setting that has an effect.
fn set_step(w: &Word) -> Result<Statement, ReadFault>
    ensures { StatementGiven result (set_step w.now) }
{
    if is(w.text.as_slice(), b"skip") {
        return Ok(Statement::Skip);
    }
    Ok(Statement::Idle)
}

/// Takes the word behind `set skip`.
fn skip_step(alloc: Global, w: &Word) -> Result<Statement, ReadFault>
    ensures { StatementGiven result (skip_step w.now) }
{
    let text = w.text.as_slice();
    if !is(text, b"on") {
        return Err(ReadFault::Bad(misplaced(text)));
    }
    let value = LongValue::new(alloc, ValueKind::Interface);
    Ok(Statement::SkipOn(HeldValue::new(alloc, value)?))
}

/// Takes a word of the interfaces that are skipped; nothing stands behind them.
fn skip_on_step(
    alloc: Global,
    setting: &Setting,
    w: &Word,
    mut v: HeldValue,
) -> Result<Statement, ReadFault>
    requires { IsSound setting.now.site }
    ensures { StatementGiven result (skip_on_step setting.now w.now v) }
{
    let took = v.step(alloc, setting, w)?;
    if !took {
        return Err(ReadFault::Bad(Cause::Syntax));
    }
    Ok(Statement::SkipOn(v))
}

/// Takes a word of a statement.
fn statement_step(
    alloc: Global,
    setting: &Setting,
    tags: &mut Tags,
    w: &Word,
    s: Statement,
) -> Result<Statement, ReadFault>
    requires { IsSound setting.now.site }
    ensures given { (t : List (List ℕ)) → AreTags t s tags.old → StatementGiven result (statement_step setting.now t w.now (seen s)) }
    ensures kept { (t : List (List ℕ)) → AreTags t s tags.old → IfOk result (λ next. AreTags t next tags.new) }
{
    match s {
        Statement::Begun => begun(alloc, tags, w),
        Statement::Negated => negated(alloc, tags, w),
        Statement::Rule(rule) => rule_taken(alloc, setting, w, rule),
        Statement::Table(d) => table_taken(alloc, setting, w, d),
        Statement::Set => set_step(w),
        Statement::Skip => skip_step(alloc, w),
        Statement::SkipOn(v) => skip_on_step(alloc, setting, w, v),
        Statement::Idle => Ok(Statement::Idle),
    }
}

/// Why a word is refused that can't be judged, or whose macro isn't there: behind a network that lacks `bitmask` the network is
/// refused ahead of it.
fn fault(s: &Statement, cause: Cause) -> Cause
    ensures { result ≡ fault (seen s.now) cause }
{
    match s {
        Statement::Rule(rule) => match rule.expects() {
            Expects::Bitmask => Cause::LeftOut,
            _ => cause,
        },
        _ => cause,
    }
}

/// Refuses a word that can't be judged, or whose macro isn't there, and with it the statement.
fn refused(s: Statement, cause: Cause) -> ReadFault
    ensures { result ≡ Bad (fault (seen s) cause) }
{
    let cause = fault(&s, cause);
    dismiss(s);
    ReadFault::Bad(cause)
}

/// Whether the statement is within a list, in which uses of macros may come again.
fn is_in_list(s: &Statement) -> bool {
    match s {
        Statement::Rule(rule) => rule.is_in_list(),
        Statement::Table(d) => d.is_in_list(),
        Statement::SkipOn(v) => v.is_in_list(),
        _ => false,
    }
}

/// Takes words that belong to the value at which a rule is and don't end it, up to the first other word, and tells how many.
fn rule_piece(
    alloc: Global,
    setting: &Setting,
    uses: &mut KnownUses,
    source: Source,
    name: &Text,
    words: &[Word],
    mut rule: Rule,
) -> Result<(Statement, usize), Memory>
    requires { IsSound setting.now.site }
    ensures few { IfOk result (λ r. r.1 ≤ length words.now) }
    ensures taken { (macros : List AnyMacro) → ArePiece macros source name.now words.now → AreUses setting.now macros rule.value.items uses.old
        → IfOk result (λ r. (t : List (List ℕ)) → words_taken setting.now t (take r.1 words.now) (any.Rule rule) ≡ Ok (seen r.0)) }
    ensures known { (macros : List AnyMacro) → ArePiece macros source name.now words.now → AreUses setting.now macros rule.value.items uses.old
        → IfOk result (λ r. AreUses setting.now macros (items_of (seen r.0)) uses.new) }
    ensures kept { IfOk result (λ r. (t k : List (List ℕ)) → AreTags t r.0 k) }
{
    match rule_within(alloc, setting, uses, source, name, words, &mut rule) {
        Ok(n) => Ok((Statement::Rule(rule), n)),
        Err(Memory) => {
            dismiss_rule(rule);
            Err(Memory)
        }
    }
}

/// Takes words that belong to the list of a table and don't end it, up to the first other word, and tells how many.
fn table_piece(
    alloc: Global,
    setting: &Setting,
    uses: &mut KnownUses,
    source: Source,
    name: &Text,
    words: &[Word],
    d: HeldTable,
) -> Result<(Statement, usize), Memory>
    requires { IsSound setting.now.site }
    ensures few { IfOk result (λ r. r.1 ≤ length words.now) }
    ensures taken { (macros : List AnyMacro) → ArePiece macros source name.now words.now → AreUses setting.now macros d.members.items uses.old
        → IfOk result (λ r. (t : List (List ℕ)) → words_taken setting.now t (take r.1 words.now) (any.Table (table_seen d)) ≡ Ok (seen r.0)) }
    ensures known { (macros : List AnyMacro) → ArePiece macros source name.now words.now → AreUses setting.now macros d.members.items uses.old
        → IfOk result (λ r. AreUses setting.now macros (items_of (seen r.0)) uses.new) }
    ensures kept { IfOk result (λ r. (t k : List (List ℕ)) → k ≡ t → AreTags t r.0 k) }
{
    match d.expects() {
        TableExpects::Members => {
            let mut table = d.into_table();
            let n = uses.take(alloc, setting, source, name, words, &mut table.members)?;
            Ok((Statement::Table(HeldTable::new(alloc, table)?), n))
        }
        _ => Ok((Statement::Table(d), 0)),
    }
}

/// Takes words that belong to the interfaces that are skipped and don't end them, up to the first other word, and tells how many.
fn skip_piece(
    alloc: Global,
    setting: &Setting,
    uses: &mut KnownUses,
    source: Source,
    name: &Text,
    words: &[Word],
    v: HeldValue,
) -> Result<(Statement, usize), Memory>
    requires { IsSound setting.now.site }
    ensures few { IfOk result (λ r. r.1 ≤ length words.now) }
    ensures taken { (macros : List AnyMacro) → ArePiece macros source name.now words.now → AreUses setting.now macros v.items uses.old
        → IfOk result (λ r. (t : List (List ℕ)) → words_taken setting.now t (take r.1 words.now) (any.SkipOn v) ≡ Ok (seen r.0)) }
    ensures known { (macros : List AnyMacro) → ArePiece macros source name.now words.now → AreUses setting.now macros v.items uses.old
        → IfOk result (λ r. AreUses setting.now macros (items_of (seen r.0)) uses.new) }
    ensures kept { IfOk result (λ r. (t k : List (List ℕ)) → k ≡ t → AreTags t r.0 k) }
{
    let mut value = v.into_value();
    let n = uses.take(alloc, setting, source, name, words, &mut value)?;
    Ok((Statement::SkipOn(HeldValue::new(alloc, value)?), n))
}

/// Takes words that belong to the value at which the statement is and don't end it, up to the first other word, and tells how
/// many.
fn statement_within(
    alloc: Global,
    setting: &Setting,
    uses: &mut KnownUses,
    source: Source,
    name: &Text,
    words: &[Word],
    s: Statement,
) -> Result<(Statement, usize), Memory>
    requires { IsSound setting.now.site }
    ensures few { IfOk result (λ r. r.1 ≤ length words.now) }
    ensures taken { (macros : List AnyMacro) → ArePiece macros source name.now words.now → AreUses setting.now macros (items_of (seen s)) uses.old
        → IfOk result (λ r. (t : List (List ℕ)) → words_taken setting.now t (take r.1 words.now) (seen s) ≡ Ok (seen r.0)) }
    ensures known { (macros : List AnyMacro) → ArePiece macros source name.now words.now → AreUses setting.now macros (items_of (seen s)) uses.old
        → IfOk result (λ r. AreUses setting.now macros (items_of (seen r.0)) uses.new) }
    ensures kept { IfOk result (λ r. (t k : List (List ℕ)) → AreTags t s k → AreTags t r.0 k) }
{
    match s {
        Statement::Rule(rule) => rule_piece(alloc, setting, uses, source, name, words, rule),
        Statement::Table(d) => table_piece(alloc, setting, uses, source, name, words, d),
        Statement::SkipOn(v) => skip_piece(alloc, setting, uses, source, name, words, v),
        other => Ok((other, 0)),
    }
}

impl TakesWords for Statement {
    type Said = AnyStatement;

    ghost use Rattle.fws_pf.specs.StatementText.{fault, statement_step};
    ghost use Rattle.fws_pf_read.specs.Statements.{AreTags, items_of, seen};

    ghost seen = { λ s. seen s };

    ghost step = { λ setting t w s. statement_step setting t w s };

    ghost fault = { λ s cause. fault s cause };

    ghost items = { λ s. items_of s };

    ghost tagged = { λ t s k. AreTags t s k };

    fn step(
        self,
        alloc: Global,
        setting: &Setting,
        tags: &mut Tags,
        w: &Word,
    ) -> Result<Statement, ReadFault> {
        statement_step(alloc, setting, tags, w, self)
    }

    fn take_within(
        self,
        alloc: Global,
        setting: &Setting,
        uses: &mut KnownUses,
        source: Source,
        name: &Text,
        words: &[Word],
    ) -> Result<(Statement, usize), Memory> {
        statement_within(alloc, setting, uses, source, name, words, self)
    }

    fn refused(self, cause: Cause) -> ReadFault {
        refused(self, cause)
    }

    fn is_idle(&self) -> bool {
        matches!(self, Statement::Idle)
    }

    fn is_in_list(&self) -> bool {
        is_in_list(self)
    }
}
