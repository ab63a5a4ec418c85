//! The site: the interfaces of the firewall, their names in the four systems, and the routes.

use fws_num::{Items, Prefix, Text};

/// On which side of an address translation an interface stands (`ip nat inside` and `outside` of IOS).
#[derive(Clone, Copy, Debug, PartialEq, Eq)]
pub enum Side {
    /// On neither.
    Neither,
    /// Inside.
    Inside,
    /// Outside.
    Outside,
}

/// The names of an interface in the four systems.
#[derive(Drop)]
pub struct Names {
    /// In iptables.
    pub ipt: Text,
    /// In ipfw.
    pub ipfw: Text,
    /// In pf.
    pub pf: Text,
    /// In IOS.
    pub ios: Text,
}

/// An address of an interface, with the length of its network.
#[derive(Clone, Copy, Debug, PartialEq, Eq)]
pub struct Address {
    /// The address.
    pub addr: u32,
    /// The length of the network, 1 to 32.
    pub len: u8,
}

/// An interface.
#[derive(Drop)]
pub struct Iface {
    /// Its name in tables and queries.
    pub name: Text,
    /// Its addresses, one or more. Where one is meant, it is the first.
    pub addrs: Items<Address>,
    /// Its names in the four systems.
    pub names: Names,
    /// On which side of a translation it stands.
    pub side: Side,
}

/// A network and the interface by which its addresses are reached.
#[derive(Clone, Copy, Debug, PartialEq, Eq)]
pub struct RouteLine {
    /// The network, of a length from 0 to 32.
    pub net: Prefix,
    /// The entry number of the interface, 2 or more.
    pub face: u8,
}

/// The host that the firewall runs on.
#[derive(Drop)]
pub struct Site {
    /// The interfaces, 1 to 62. The first has entry number 2.
    pub faces: Items<Iface>,
    /// The routes, besides the networks of the interfaces' addresses.
    pub routes: Items<RouteLine>,
    /// The names of loopback, whose entry number is 1.
    pub lo: Names,
    /// The entry number of the default interface.
    pub fallback: u8,
    /// Whether packets for other hosts are forwarded.
    pub forwarding: bool,
    /// Whether a pass of ipfw ends at a translation.
    pub one_pass: bool,
}
