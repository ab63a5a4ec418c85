//! What was read so far of a statement (pf.conf(5) of OpenBSD).

use crate::rule_draft::PfoRuleDraft;
use fws_pf::{TableDraft, ValueDraft};

/// What was read so far of a statement.
#[derive(Drop)]
pub enum PfoStatement {
    /// Nothing.
    Begun,
    /// A rule.
    Rule(PfoRuleDraft),
    /// A table.
    Table(TableDraft),
    /// `set`
    Set,
    /// `set skip`, behind which `on` stands.
    Skip,
    /// The interfaces that are skipped.
    SkipOn(ValueDraft),
    /// A setting that has no effect.
    Idle,
}
