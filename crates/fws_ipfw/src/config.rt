//! What a text says: rules in the order of their numbers, and instances of address translation (ipfw(8)).

use fws_net::{Cond, End};
use fws_num::Items;

/// What a rule does where its condition holds (ipfw(8)).
#[derive(Clone, Copy, Debug, PartialEq, Eq)]
pub enum IpfwAct {
    /// Ends the pass; the packet goes on. `allow`, `accept`, `pass`, `permit`
    Allow,
    /// Drops the packet. `deny`, `drop`, `reject`, `reset`, `unreach`
    Deny,
    /// Goes on at the next rule. `count`
    Count,
    /// Goes on at the first rule with this number or a greater one. `skipto`
    Skip(u32),
    /// Ends the pass for packets of tracked connections; others go on at the next rule. `check-state`
    Check,
    /// Translates the packet by the instance with this number. `nat`
    Nat(u32),
}

/// What a rule does to the tags of a packet for which its condition holds.
#[derive(Clone, Copy, Debug, PartialEq, Eq)]
pub enum IpfwTag {
    /// Leaves them.
    Nothing,
    /// Adds this one. `tag`
    Add(u32),
    /// Takes this one away. `untag`
    Remove(u32),
}

/// A rule.
#[derive(Drop)]
pub struct IpfwRule {
    /// Its number, from 1 to 65534.
    pub number: u32,
    /// Where it acts.
    pub cond: Cond,
    /// What it does there.
    pub act: IpfwAct,
    /// What it does to the packet's tags there.
    pub tag: IpfwTag,
    /// Whether it keeps state: packets of tracked connections pass at it, whether its condition holds or not.
    pub keep: bool,
}

/// What an instance does to packets of an inner host, or to one of its ports.
#[derive(Clone, Copy, Debug, PartialEq, Eq)]
pub struct Redirect {
    /// The protocol, where ports are redirected; none where an address is.
    pub proto: Option<u8>,
    /// The inner end; with a port where ports are redirected.
    pub local: End,
    /// The outer end; with a port where ports are redirected.
    pub public: End,
}

/// An instance of address translation.
#[derive(Drop)]
pub struct IpfwNat {
    /// Its number, from 1 to 65535.
    pub number: u32,
    /// The address that packets get as their source, where no redirect says another.
    pub alias: u32,
    /// Its redirects, in their order.
    pub redirects: Items<Redirect>,
}

/// A configuration.
#[derive(Drop)]
pub struct IpfwConfig {
    /// The rules by their numbers, those with equal ones in the order of their entry.
    pub rules: Items<IpfwRule>,
    /// The instances in the order of the text.
    pub nats: Items<IpfwNat>,
}
