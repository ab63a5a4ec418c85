//! What was read so far of a rule and of a text.

use crate::config::{IptChain, IptGo, IptTable};
use crate::hook::Hook;
use crate::words::{TargetOption, TargetWord, TestOption};
use fws_net::Cond;
use fws_num::{Items, Text};

/// What the next word of a rule is taken for.
#[derive(Clone, Copy, Debug, PartialEq, Eq)]
pub enum Expects {
    /// A keyword.
    Keyword,
    /// An option that the `!` before it negates.
    Negated,
    /// The value of an option, which maybe is negated.
    Value(TestOption, bool),
    /// The flags of `--tcp-flags` that are set, of those in the mask; maybe negated.
    Compared(u8, bool),
    /// The name of a module.
    Module,
    /// A value without effect.
    Unused,
    /// A target.
    Target,
    /// The chain of a goto.
    Chain,
    /// The value of a target's option.
    TargetValue(TargetOption),
}

/// What was read of a rule.
#[derive(Drop)]
pub struct RuleDraft {
    /// What the next word is taken for.
    pub expects: Expects,
    /// The options that were given and may not come again.
    pub given: Items<Text>,
    /// The literals so far.
    pub cond: Cond,
    /// The length of the prefix of `-s`, unless it is negated.
    pub source: Option<u8>,
    /// The length of the prefix of `-d`, unless it is negated.
    pub destination: Option<u8>,
    /// The protocol of `-p`, unless it is negated or every one.
    pub protocol: Option<u8>,
    /// A test or a target has a port.
    pub has_port: bool,
    /// A test has flags.
    pub has_flags: bool,
    /// A test has an ICMP type.
    pub has_icmp: bool,
    /// A rate is limited.
    pub is_limited: bool,
    /// The target, once it was named.
    pub target: Option<TargetWord>,
    /// What the target does, as far as it was read.
    pub go: IptGo,
    /// The options of the target may stand here.
    pub is_open: bool,
    /// The target still needs an option.
    pub owes: bool,
}

/// A table of a text.
#[derive(Clone, Copy, Debug, PartialEq, Eq)]
pub enum Section {
    /// A table whose chains packets meet.
    Met(IptTable),
    /// `raw`
    Raw,
    /// `security`
    Security,
}

/// A built-in chain of raw or security, which has no rules.
#[derive(Clone, Copy, Debug, PartialEq, Eq)]
pub struct OtherChain {
    /// Its table.
    pub section: Section,
    /// Its hook.
    pub hook: Hook,
}

/// What was read of a text.
#[derive(Drop)]
pub struct IptDraft {
    /// The tables that were opened.
    pub opened: Items<Section>,
    /// The table that is open.
    pub within: Option<Section>,
    /// The chains that were declared, with their rules so far.
    pub chains: Items<IptChain>,
    /// The chains of raw and security that were declared.
    pub others: Items<OtherChain>,
}
