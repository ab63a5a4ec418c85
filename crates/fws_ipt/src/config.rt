//! What a text says: chains of rules in three tables.

use fws_net::{Cond, End};
use fws_num::{Items, Prefix, Text};

/// A table whose chains packets meet.
#[derive(Clone, Copy, Debug, PartialEq, Eq, Hash)]
pub enum IptTable {
    /// `filter`
    Filter,
    /// `nat`
    Nat,
    /// `mangle`
    Mangle,
}

/// What a rule does where its condition holds (iptables(8), iptables-extensions(8)).
#[derive(Clone, Copy, Debug, PartialEq, Eq)]
pub enum IptGo {
    /// Ends the chain's table; the walk goes on. `ACCEPT`
    Accept,
    /// Drops the packet. `DROP`, `REJECT`
    Drop,
    /// Goes on behind the last jump. `RETURN`
    Return,
    /// Goes on at the next rule. `LOG`, `NFLOG`, no target
    Next,
    /// Enters the chain with this number, and goes on here behind it. `-j CHAIN`
    Jump(u32),
    /// Enters the chain with this number, and goes on behind the last jump. `-g CHAIN`
    Goto(u32),
    /// Replaces the mark and goes on. `MARK`
    Mark(u32),
    /// Writes the source and ends the table. `SNAT`
    Source(End),
    /// Writes the address of the sending interface as the source, and ends the table. `MASQUERADE`
    Masquerade,
    /// Writes the destination and ends the table. `DNAT`
    Dest(End),
    /// Writes the address of the receiving interface as the destination, with this port, and ends the
    /// table. `REDIRECT`
    Redirect(Option<u16>),
    /// Writes the first bits of this network over the destination, or over the source behind routing,
    /// and ends the table. `NETMAP`
    Netmap(Prefix),
}

/// A rule.
#[derive(Drop)]
pub struct IptRule {
    /// Where it acts.
    pub cond: Cond,
    /// What it does there.
    pub go: IptGo,
}

/// A chain.
#[derive(Drop)]
pub struct IptChain {
    /// Its table.
    pub table: IptTable,
    /// Its name.
    pub name: Text,
    /// Whether its end accepts, for a built-in chain; none for a user's chain.
    pub policy: Option<bool>,
    /// Its rules in their order.
    pub rules: Items<IptRule>,
}

/// A configuration: its chains in the order of their declarations.
#[derive(Drop)]
pub struct IptConfig {
    /// The chains. Rules name them by their places, counted from 0.
    pub chains: Items<IptChain>,
}
