//! Words that say what a rule does and which packets it is for (pf.conf(5)).

/// A word with which a filter rule or a translation begins.
#[derive(Clone, Copy, Debug, PartialEq, Eq)]
pub enum ActionWord {
    /// `block`
    Block,
    /// `pass`
    Pass,
    /// `rdr`
    Rdr,
    /// `nat`
    Nat,
}

/// An option of a filter rule.
#[derive(Clone, Copy, Debug, PartialEq, Eq)]
pub enum OptionWord {
    /// `flags`
    Flags,
    /// `icmp-type`
    IcmpType,
    /// `keep` and `modulate`, behind which `state` stands.
    Keep,
    /// `no`, behind which `state` stands.
    NoState,
    /// `tag`
    Tag,
    /// `tagged`
    Tagged,
    /// `label`
    Label,
}
