//! What was read so far of a filter rule or a translation (pf.conf(5)).

use crate::config::Way;
use crate::value_draft::{Item, ValueDraft};
use fws_net::Cond;
use fws_num::{Items, Prefix, Text};

/// What a rule does.
#[derive(Clone, Copy, Debug, PartialEq, Eq)]
pub enum Verb {
    /// It blocks packets.
    Block,
    /// It passes packets.
    Pass,
    /// It writes destinations of packets that come in.
    Rdr,
    /// It writes sources of packets that go out.
    Nat,
}

/// Where a value stands in a rule.
#[derive(Clone, Copy, Debug, PartialEq, Eq)]
pub enum Place {
    /// Behind `on`.
    On,
    /// Behind `proto`.
    Proto,
    /// Behind `from`.
    Source,
    /// Behind `port`, behind the source.
    SourcePort,
    /// Behind `to`.
    Destination,
    /// Behind `port`, behind the destination.
    DestinationPort,
    /// Behind `icmp-type`.
    IcmpType,
}

/// What the next word of a rule is taken for. Each of the words that may be left out may be followed by those behind it.
#[derive(Clone, Copy, Debug, PartialEq, Eq)]
pub enum Expects {
    /// What `block` answers, `in` or `out`, or what follows.
    Answer,
    /// `in` or `out`, or what follows.
    Way,
    /// `log`, or what follows.
    Log,
    /// The parenthesis behind `log`, `quick`, or what follows.
    Logged,
    /// `all` in parentheses behind `log`.
    LogAll,
    /// The parenthesis behind `all`.
    LogEnd,
    /// `quick`, or what follows.
    Quick,
    /// `pass` of a translation, or what follows.
    Past,
    /// `on`, or what follows.
    On,
    /// `inet`, or what follows.
    Inet,
    /// `proto`, or what follows.
    Proto,
    /// `all`, `from`, or what follows.
    Hosts,
    /// `port` behind the source, or what follows.
    SourcePorts,
    /// `to`, or what follows.
    To,
    /// `port` behind the destination, or what follows.
    DestinationPorts,
    /// An option of a filter rule; or `tag` of a translation, or what follows.
    Option,
    /// The value of this place.
    Value(Place),
    /// `state`, behind `keep` and `modulate`, or else behind `no`.
    State(bool),
    /// The flags of TCP.
    Flags,
    /// The name of a tag that is put.
    TagName,
    /// `tagged`, behind `!`.
    NotTagged,
    /// The name of a tag that is asked for, or else of one that may not be there.
    TaggedName(bool),
    /// A label.
    Label,
    /// `tagged` of a translation, or what follows.
    Tagged,
    /// The arrow of a translation.
    Arrow,
    /// What a translation writes.
    Target,
    /// The name of an interface in parentheses that a translation writes.
    TargetName,
    /// The parenthesis behind it.
    TargetEnd,
    /// `bitmask` behind a network that a translation writes; `static-port` may stand before it.
    Bitmask,
    /// `port`, `static-port` or `bitmask`, as the target may have them.
    Targeted,
    /// The port of a target.
    TargetPort,
    /// Nothing but words that are left out there.
    Ended,
}

/// What a translation writes.
#[derive(Clone, Copy, Debug, PartialEq, Eq)]
pub struct Target {
    /// The address or the network.
    pub net: Prefix,
    /// Whether it is the address of an interface that is named.
    pub is_face: bool,
    /// Whether `bitmask` stands behind it.
    pub is_mapped: bool,
    /// Whether `static-port` stands behind it.
    pub is_static: bool,
    /// The port.
    pub port: Option<u16>,
}

/// What a rule asks for at one place: a condition for each value that a list gives.
#[derive(Drop)]
pub struct Choice {
    /// The conditions, in the order of the values.
    pub conds: Items<Cond>,
}

/// What was read so far of a rule.
#[derive(Drop)]
pub struct RuleDraft {
    /// What it does.
    pub verb: Verb,
    /// Whether `no` stands before it.
    pub negated: bool,
    /// What its next word is taken for.
    pub expects: Expects,
    /// What was read so far of the value that its next word belongs to.
    pub value: ValueDraft,
    /// Whether `pass` of a translation stands there.
    pub past: bool,
    /// On which passes it is met.
    pub way: Way,
    /// Whether `quick` stands there.
    pub quick: bool,
    /// Its interfaces, as many as its list has; none where it names none. So with the following ones.
    pub faces: Items<Item>,
    /// Its protocols.
    pub protocols: Items<Item>,
    /// Its sources.
    pub sources: Items<Item>,
    /// The ports of its sources.
    pub source_ports: Items<Item>,
    /// Its destinations.
    pub destinations: Items<Item>,
    /// The ports of its destinations.
    pub destination_ports: Items<Item>,
    /// What its options ask for, in their order.
    pub options: Items<Choice>,
    /// Whether `flags` stands there.
    pub has_flags: bool,
    /// Whether it tests flags.
    pub tests_flags: bool,
    /// Whether `icmp-type` stands there.
    pub has_icmp_type: bool,
    /// Whether `keep state`, `modulate state` or `no state` stands there.
    pub has_state: bool,
    /// Whether it is `no state`.
    pub stateless: bool,
    /// Whether `tag` stands among its options.
    pub has_tag: bool,
    /// Whether `tagged` stands among its options.
    pub has_tagged: bool,
    /// Whether `label` stands there.
    pub has_label: bool,
    /// The tag that it puts.
    pub tag: Option<u32>,
    /// What it writes.
    pub target: Option<Target>,
    /// The names of all tags so far.
    pub tags: Items<Text>,
}
