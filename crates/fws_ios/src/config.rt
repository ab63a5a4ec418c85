//! What a running configuration says: access lists, where they are applied, and address translation (Cisco IOS).

use fws_iv::Ivs;
use fws_net::{Cond, End};
use fws_num::{Items, Text};

/// An entry of an access list.
#[derive(Drop)]
pub struct IosEntry {
    /// Whether packets pass for which its condition holds.
    pub permit: bool,
    /// Where it decides.
    pub cond: Cond,
    /// Whether it keeps state of the packets that it permits. `reflect`
    pub reflect: bool,
}

/// An access list.
#[derive(Drop)]
pub struct IosList {
    /// Its name; a number is its own name.
    pub name: Text,
    /// Its entries in the order of the text, one or more.
    pub entries: Items<IosEntry>,
}

/// An access list that is applied at an interface. `ip access-group`
#[derive(Drop)]
pub struct IosGroup {
    /// The entry number of the interface.
    pub face: u8,
    /// Whether it is met by packets that go out there; else by those that come in.
    pub outward: bool,
    /// The name of the list.
    pub list: Text,
}

/// An address translation. `ip nat inside source`
#[derive(Drop)]
pub enum IosNat {
    /// One end for another.
    Static {
        /// The protocol, where ports are translated; none where addresses are.
        proto: Option<u8>,
        /// The inner end; with a port where ports are translated.
        local: End,
        /// The outer end; with a port where ports are translated.
        global: End,
    },
    /// An address for the source of what a list permits.
    List {
        /// The name of the list.
        list: Text,
        /// The address.
        addr: u32,
    },
}

/// A configuration.
#[derive(Drop)]
pub struct IosConfig {
    /// The access lists, in the order of their first entries.
    pub lists: Items<IosList>,
    /// Which of them are applied, at most one at an interface in a direction.
    pub groups: Items<IosGroup>,
    /// The entry numbers of the interfaces on the inside. `ip nat inside`
    pub inside: Ivs,
    /// The entry numbers of those on the outside. `ip nat outside`
    pub outside: Ivs,
    /// The translations in the order of the text.
    pub nats: Items<IosNat>,
}
