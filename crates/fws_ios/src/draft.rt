//! What was read so far of an entry, of a pool, of a translation and of a text.

use crate::config::{IosGroup, IosList, IosNat};
use crate::words::PortWord;
use fws_net::{Cond, End};
use fws_num::{Items, Text};

/// Which end of a packet a word speaks of.
#[derive(Clone, Copy, Debug, PartialEq, Eq)]
pub enum Place {
    /// The source.
    Source,
    /// The destination.
    Destination,
}

/// What the next word of an entry is taken for.
#[derive(Clone, Copy, Debug, PartialEq, Eq)]
pub enum Expects {
    /// A number, or what an entry begins with.
    Sequence,
    /// `permit`, `deny` or `evaluate`.
    Action,
    /// The name behind `evaluate`.
    EvaluateName,
    /// A protocol.
    Protocol,
    /// An address, `any` or `host`.
    Address(Place),
    /// The address behind `host`.
    Host(Place),
    /// The wildcard behind this address.
    Wildcard(Place, u32),
    /// The wildcard behind this address, or what stands behind it.
    MaybeWildcard(u32),
    /// The comparison of a port, or what stands behind the ports of this end.
    Ports(Place),
    /// The port that is compared so.
    Port(Place, PortWord),
    /// The last port of a range that begins with this one.
    LastPort(Place, u16),
    /// A further port, which is left out, or what stands behind the ports of this end.
    FurtherPort(Place),
    /// An ICMP type, or what stands behind it.
    Type,
    /// A code, which is left out, or what stands behind it.
    Code,
    /// `reflect`, or what stands behind it.
    Reflect,
    /// The name behind `reflect`.
    ReflectName,
    /// `timeout`, or what stands behind it.
    Timeout,
    /// The number behind `timeout`.
    TimeoutValue,
    /// `log` or `log-input`.
    Log,
    /// Nothing.
    Nothing,
}

/// What was read of an entry.
#[derive(Drop)]
pub struct EntryDraft {
    /// What the next word is taken for.
    pub expects: Expects,
    /// It stands in an extended list.
    pub extended: bool,
    /// It stands in a list that `ip access-list` opened.
    pub opened: bool,
    /// Whether it permits.
    pub permit: bool,
    /// The literals so far.
    pub cond: Cond,
    /// The protocol, unless it is every one.
    pub protocol: Option<u8>,
    /// A wildcard isn't zeros followed by ones.
    pub scattered: bool,
    /// A port was compared.
    pub has_ports: bool,
    /// An ICMP type was given.
    pub has_type: bool,
    /// `established` was given.
    pub has_established: bool,
    /// Whether it keeps state.
    pub reflect: bool,
}

/// What the next word of a pool is taken for.
#[derive(Clone, Copy, Debug, PartialEq, Eq)]
pub enum PoolExpects {
    /// Its first address.
    First,
    /// Its last address, which is to be this first one.
    Last(u32),
    /// `netmask` or `prefix-length`.
    Length,
    /// The mask behind `netmask`.
    Netmask,
    /// The number behind `prefix-length`.
    PrefixLength,
    /// Nothing.
    Nothing,
}

/// A pool of one address.
#[derive(Drop)]
pub struct Pool {
    /// Its name.
    pub name: Text,
    /// Its address; 0 where its line is refused ahead of it.
    pub addr: u32,
}

/// What the next word of a translation is taken for.
#[derive(Clone, Copy, Debug, PartialEq, Eq)]
pub enum NatExpects {
    /// `list` or `static`.
    Kind,
    /// The name of a list.
    List,
    /// `interface` or `pool`.
    Source,
    /// The name behind `interface`.
    Interface,
    /// The name behind `pool`.
    Pool,
    /// `overload`.
    Overload,
    /// `tcp`, `udp` or the inner address.
    Static,
    /// The inner address of a port of this protocol.
    Local(u8),
    /// The port at this inner address.
    LocalPort(u8, u32),
    /// The outer address of a port, or `interface`.
    Global(Option<u8>, End),
    /// The name behind `interface`.
    GlobalInterface(Option<u8>, End),
    /// The port at this outer address.
    GlobalPort(u8, End, u32),
    /// `extendable`, if anything.
    Extendable,
    /// Nothing.
    Nothing,
}

/// What was read of a translation.
#[derive(Drop)]
pub struct NatDraft {
    /// What the next word is taken for.
    pub expects: NatExpects,
    /// The list whose packets are translated.
    pub list: Text,
    /// The translation, as soon as all of it is known.
    pub nat: Option<IosNat>,
}

/// What lines belong to that begin with a blank.
#[derive(Drop)]
pub enum Block {
    /// A line that doesn't care.
    Other,
    /// The interface with this entry number, or one that the site lacks.
    Interface(Option<u8>),
    /// The access list of this name, an extended one or not.
    List(Text, bool),
}

/// An interface on the inside or on the outside.
#[derive(Clone, Copy, Debug, PartialEq, Eq)]
pub struct Marked {
    /// The entry number of the interface.
    pub face: u8,
    /// Whether it is on the outside.
    pub outside: bool,
}

/// What was read of a text.
#[derive(Drop)]
pub struct IosDraft {
    /// What a line belongs to that begins with a blank.
    pub block: Block,
    /// The access lists so far.
    pub lists: Items<IosList>,
    /// The lists that are applied so far.
    pub groups: Items<IosGroup>,
    /// The interfaces on the inside and on the outside so far.
    pub marks: Items<Marked>,
    /// The names of the pools so far.
    pub pools: Items<Text>,
    /// The translations so far.
    pub nats: Items<IosNat>,
}
