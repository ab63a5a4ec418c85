//! The words of a rule: options and targets of iptables(8) and iptables-extensions(8).

/// An option that tests a packet, and that `!` may negate.
#[derive(Clone, Copy, Debug, PartialEq, Eq)]
pub enum TestOption {
    /// `-s`
    Source,
    /// `-d`
    Destination,
    /// `-i`
    InInterface,
    /// `-o`
    OutInterface,
    /// `-p`
    Protocol,
    /// `--sport`
    SourcePort,
    /// `--dport`
    DestinationPort,
    /// `--sports`
    SourcePorts,
    /// `--dports`
    DestinationPorts,
    /// `--tcp-flags`
    TcpFlags,
    /// `--syn`
    Syn,
    /// `--icmp-type`
    IcmpType,
    /// `--state`
    State,
    /// `--ctstate`
    ConnectionState,
    /// `--mark`
    Mark,
    /// `--src-range`
    SourceRange,
    /// `--dst-range`
    DestinationRange,
    /// `--src-type`
    SourceType,
    /// `--dst-type`
    DestinationType,
}

/// An option of a target.
#[derive(Clone, Copy, Debug, PartialEq, Eq)]
pub enum TargetOption {
    /// `--reject-with`
    RejectWith,
    /// `--log-prefix`
    LogPrefix,
    /// `--log-level`
    LogLevel,
    /// `--log-tcp-sequence`
    LogTcpSequence,
    /// `--log-tcp-options`
    LogTcpOptions,
    /// `--log-ip-options`
    LogIpOptions,
    /// `--log-uid`
    LogUid,
    /// `--nflog-group`
    NflogGroup,
    /// `--nflog-prefix`
    NflogPrefix,
    /// `--set-xmark`
    SetXmark,
    /// `--set-mark`
    SetMark,
    /// `--to-source`
    ToSource,
    /// `--to-destination`
    ToDestination,
    /// `--to-ports`
    ToPorts,
    /// `--to`
    ToNetwork,
}

/// A word that has a place of its own in a rule.
#[derive(Clone, Copy, Debug, PartialEq, Eq)]
pub enum Keyword {
    /// `!`
    Not,
    /// `-m`
    Match,
    /// `-j`
    Jump,
    /// `-g`
    Goto,
    /// `--comment`
    Comment,
    /// `--limit`, `--limit-burst`
    Limit,
    /// `-A`, `COMMIT`: they begin a line and stand nowhere else.
    Line,
    /// An option that tests a packet.
    Test(TestOption),
    /// An option of a target.
    Target(TargetOption),
}

/// A target.
#[derive(Clone, Copy, Debug, PartialEq, Eq)]
pub enum TargetWord {
    /// `ACCEPT`
    Accept,
    /// `DROP`
    Drop,
    /// `RETURN`
    Return,
    /// `REJECT`
    Reject,
    /// `LOG`
    Log,
    /// `NFLOG`
    Nflog,
    /// `MARK`
    Mark,
    /// `SNAT`
    Source,
    /// `DNAT`
    Destination,
    /// `MASQUERADE`
    Masquerade,
    /// `REDIRECT`
    Redirect,
    /// `NETMAP`
    Netmap,
    /// A chain of the user's.
    Chain,
}
