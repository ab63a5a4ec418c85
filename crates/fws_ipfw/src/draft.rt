//! What was read so far of a rule, of an instance and of a text.

use crate::config::{IpfwAct, IpfwNat, IpfwRule, IpfwTag};
use crate::words::TestOption;
use fws_net::{Cond, End};
use fws_num::{Items, Text};

/// What the next word of a rule is taken for.
#[derive(Clone, Copy, Debug, PartialEq, Eq)]
pub enum Expects {
    /// An action.
    Action,
    /// The code of `unreach`.
    Code,
    /// The number behind `skipto`.
    SkipTo,
    /// The number of an instance.
    Instance,
    /// `:default` behind `check-state`, if anything.
    Flow,
    /// Nothing.
    Nothing,
    /// `log`, `tag`, `untag` or a protocol.
    Log,
    /// `logamount`, `tag`, `untag` or a protocol.
    Logged,
    /// The number behind `logamount`.
    LogAmount,
    /// `tag`, `untag` or a protocol.
    Tag,
    /// The number behind `tag`, or else behind `untag`.
    TagNumber(bool),
    /// A protocol.
    Protocol,
    /// `from`
    From,
    /// The source, which maybe is negated; else `not` may stand before it.
    Source(bool),
    /// The ports of the source, `not` before them, or `to`.
    SourcePorts,
    /// The negated ports of the source.
    NegatedSourcePorts,
    /// `to`
    To,
    /// The destination, which maybe is negated; else `not` may stand before it.
    Destination(bool),
    /// The ports of the destination, an option, or `not` before either.
    DestinationPorts,
    /// The negated ports of the destination, or a negated option.
    NegatedDestinationPorts,
    /// An option, or `not` before it.
    Option,
    /// An option that `not` before it negates.
    Negated,
    /// The value of an option, which maybe is negated.
    Value(TestOption, bool),
    /// `:default` behind `keep-state`, or an option.
    KeptFlow,
}

/// Flags that are set, and flags that are clear.
#[derive(Clone, Copy, Debug, PartialEq, Eq)]
pub struct Flags {
    /// The bits of those that are set.
    pub on: u8,
    /// The bits of those that are clear.
    pub off: u8,
}

/// What was read of a rule.
#[derive(Drop)]
pub struct RuleDraft {
    /// What the next word is taken for.
    pub expects: Expects,
    /// The options that were given and may not come again.
    pub given: Items<Text>,
    /// The literals so far.
    pub cond: Cond,
    /// The protocol, unless it is every one.
    pub protocol: Option<u8>,
    /// Ports stand behind an address.
    pub has_ports: bool,
    /// What the rule does.
    pub act: IpfwAct,
    /// What it does to tags.
    pub tag: IpfwTag,
    /// Whether it keeps state.
    pub keep: bool,
}

/// What the next word of an instance is taken for.
#[derive(Clone, Copy, Debug, PartialEq, Eq)]
pub enum NatExpects {
    /// An option.
    Option,
    /// The address behind `ip`.
    Address,
    /// The name behind `if`.
    Interface,
    /// The protocol behind `redirect_port`.
    Protocol,
    /// The inner end of a redirect of ports of this protocol.
    LocalEnd(u8),
    /// The outer end of a redirect of ports of this protocol to this inner end.
    PublicEnd(u8, End),
    /// The inner address of a redirect.
    LocalAddress,
    /// The outer address of a redirect to this inner end.
    PublicAddress(End),
}

/// A redirect whose outer address may be that of the instance, which isn't known yet.
#[derive(Clone, Copy, Debug, PartialEq, Eq)]
pub struct RedirectDraft {
    /// The protocol, where ports are redirected.
    pub proto: Option<u8>,
    /// The inner end.
    pub local: End,
    /// The outer address, unless it is that of the instance.
    pub public: Option<u32>,
    /// The outer port, where ports are redirected.
    pub port: Option<u16>,
}

/// What was read of an instance.
#[derive(Drop)]
pub struct NatDraft {
    /// What the next word is taken for.
    pub expects: NatExpects,
    /// The options that were given and may not come again.
    pub given: Items<Text>,
    /// The instance's address.
    pub alias: Option<u32>,
    /// The redirects so far.
    pub redirects: Items<RedirectDraft>,
}

/// An instance that some line of a text defines, whether that line is refused or not.
#[derive(Clone, Copy, Debug, PartialEq, Eq)]
pub struct Defined {
    /// Its number.
    pub number: u32,
    /// How many redirects it has; none where its line is refused.
    pub redirects: u32,
}

/// What was read of a text.
#[derive(Drop)]
pub struct IpfwDraft {
    /// A line other than `flush` was read.
    pub begun: bool,
    /// The greatest number of a rule so far, or 0.
    pub greatest: u32,
    /// The redirects of the instances that rules name so far, counted at each such rule.
    pub redirects: u64,
    /// The rules so far, in the order of their entry.
    pub rules: Items<IpfwRule>,
    /// The instances so far.
    pub nats: Items<IpfwNat>,
}
