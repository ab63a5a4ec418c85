//! What a control diagram says: chains of rules, and the stages on a packet's way.

use fws_net::{Cond, End};
use fws_num::{Items, Text};

/// What a rule does where its condition holds. Behind acts that don't say otherwise the walk goes on at
/// the next rule.
#[derive(Clone, Copy, Debug, PartialEq, Eq)]
pub enum Act {
    /// Ends the stage; the packet goes on to the next one.
    Accept,
    /// Drops the packet.
    Drop,
    /// Holds the verdict so far; true is accept.
    Hold(bool),
    /// Enters the chain with this number, and goes on here behind it.
    Call(u32),
    /// Enters the chain with this number, and goes on behind the last call.
    Goto(u32),
    /// Goes on behind the last call. Where there is none the verdict so far decides.
    Return,
    /// Goes on at the rule of this chain with this place, a later one, counted from 0.
    Skip(u32),
    /// Writes the end over the source. Ends of a connection that were put in place are gone then.
    Src(End),
    /// Writes the end over the destination. Ends of a connection that were put in place are gone then.
    Dst(End),
    /// Puts the source with which an established packet leaves in place.
    RecSrc,
    /// Puts the destination with which an established packet leaves in place.
    RecDst,
    /// Adds the tag.
    AddTag(u32),
    /// Makes the tag the only one.
    OnlyTag(u32),
    /// Takes the tag away.
    DelTag(u32),
}

/// A rule.
#[derive(Drop)]
pub struct Rule {
    /// Where it acts.
    pub cond: Cond,
    /// What it does there.
    pub act: Act,
}

/// A chain of rules.
#[derive(Drop)]
pub struct Chain {
    /// Its name.
    pub name: Text,
    /// Its rules in their order.
    pub rules: Items<Rule>,
}

/// A stage on a packet's way: a chain that it meets, and what the rules see there.
#[derive(Clone, Copy, Debug, PartialEq, Eq)]
pub struct Stage {
    /// The number of the chain.
    pub chain: u32,
    /// Whether the rules see the receiving interface.
    pub shows_recv: bool,
    /// Whether the rules see the sending interface.
    pub shows_xmit: bool,
    /// Whether the rules see the packet as one that leaves.
    pub outward: bool,
    /// The verdict with which the stage begins; true is accept.
    pub end: bool,
}

/// A control diagram.
#[derive(Drop)]
pub struct Ifcl {
    /// The chains. Rules and stages name them by their places, counted from 0.
    pub chains: Items<Chain>,
    /// What an arriving packet meets before it is routed.
    pub arrive: Items<Stage>,
    /// What a packet meets then that is delivered.
    pub deliver: Items<Stage>,
    /// What a packet meets then that is forwarded.
    pub forward: Items<Stage>,
    /// What a packet of the host itself meets.
    pub send: Items<Stage>,
}

/// Where a rule stands.
#[derive(Clone, Copy, Debug, PartialEq, Eq)]
pub struct Place {
    /// The number of its chain.
    pub chain: u32,
    /// Its place in the chain, counted from 0.
    pub rule: u32,
}

/// A rule of a configuration, and where one of the rules stands by which a diagram says what it does.
#[derive(Clone, Copy, Debug, PartialEq, Eq)]
pub struct Spot {
    /// The number of the rule, counted from 0 through the configuration.
    pub rule: u32,
    /// Where it stands.
    pub at: Place,
}
