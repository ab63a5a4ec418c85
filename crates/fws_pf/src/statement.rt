//! What was read so far of a statement (pf.conf(5)).

use crate::rule_draft::RuleDraft;
use crate::value_draft::ValueDraft;
use fws_num::Text;

/// Where a reader of words and punctuation is.
#[derive(Clone, Copy, Debug, PartialEq, Eq)]
pub enum Mode {
    /// Between two words.
    Between,
    /// In a word without quotes.
    Plain,
    /// Within quotes.
    Quoted,
    /// Within quotes, behind a backslash.
    Escaped,
    /// Behind this byte, which is one word with the next one.
    Second(u8),
}

/// What the next word of a table is taken for.
#[derive(Clone, Copy, Debug, PartialEq, Eq)]
pub enum TableExpects {
    /// `<`
    Open,
    /// The name.
    Name,
    /// `>`
    Close,
    /// `persist`, or what follows.
    Persist,
    /// `const`, or what follows.
    Const,
    /// The brace before the addresses.
    List,
    /// The addresses.
    Members,
}

/// What was read so far of a table.
#[derive(Drop)]
pub struct TableDraft {
    /// The name.
    pub name: Text,
    /// What its next word is taken for.
    pub expects: TableExpects,
    /// What was read so far of its addresses.
    pub members: ValueDraft,
}

/// What was read so far of a statement.
#[derive(Drop)]
pub enum Statement {
    /// Nothing.
    Begun,
    /// `no`, behind which a translation stands.
    Negated,
    /// A filter rule or a translation.
    Rule(RuleDraft),
    /// A table.
    Table(TableDraft),
    /// `set`
    Set,
    /// `set skip`, behind which `on` stands.
    Skip,
    /// The interfaces that are skipped.
    SkipOn(ValueDraft),
    /// A statement that has no effect.
    Idle,
}
