//! The words of rules and of instances (ipfw(8)).

/// What a rule does, by the word that says so.
#[derive(Clone, Copy, Debug, PartialEq, Eq)]
pub enum ActionWord {
    /// `allow`, `accept`, `pass`, `permit`
    Allow,
    /// `deny`, `drop`, `reject`, `reset`
    Deny,
    /// `unreach`
    Unreach,
    /// `count`
    Count,
    /// `skipto`
    SkipTo,
    /// `nat`
    Nat,
    /// `check-state`
    CheckState,
}

/// An option that tests a packet, and that `not` may negate.
#[derive(Clone, Copy, Debug, PartialEq, Eq)]
pub enum TestOption {
    /// `in`
    In,
    /// `out`
    Out,
    /// `recv`
    Recv,
    /// `xmit`
    Xmit,
    /// `via`
    Via,
    /// `setup`
    Setup,
    /// `established`
    Established,
    /// `tcpflags`
    TcpFlags,
    /// `icmptypes`
    IcmpTypes,
    /// `src-port`
    SourcePort,
    /// `dst-port`
    DestinationPort,
    /// `tagged`
    Tagged,
}

/// An option of an instance.
#[derive(Clone, Copy, Debug, PartialEq, Eq)]
pub enum NatWord {
    /// `ip`
    Address,
    /// `if`
    Interface,
    /// `log`, `same_ports`, `reset`
    Plain,
    /// `redirect_port`
    RedirectPort,
    /// `redirect_addr`
    RedirectAddress,
}
