//! Packets.

/// A packet as it enters the firewall. Every combination of values is a packet.
#[derive(Clone, Copy, Debug, PartialEq, Eq, Hash)]
pub struct Packet {
    /// Where it comes from: 0 the host itself, 1 loopback, 2 and up the site's interfaces in their order.
    pub entry: u8,
    /// The IP protocol.
    pub proto: u8,
    /// The destination address.
    pub dst: u32,
    /// The destination port. It counts for TCP and UDP alone.
    pub dport: u16,
    /// The source address.
    pub src: u32,
    /// The source port. It counts for TCP and UDP alone.
    pub sport: u16,
    /// The TCP flags, 0 to 63: FIN 1, SYN 2, RST 4, PSH 8, ACK 16, URG 32. They count for TCP alone.
    pub flags: u8,
    /// The ICMP type. It counts for ICMP alone.
    pub icmp: u8,
}

/// A configuration language.
#[derive(Clone, Copy, Debug, PartialEq, Eq, Hash)]
pub enum Lang {
    /// iptables, as iptables-save(8) writes it.
    Iptables,
    /// ipfw(8).
    Ipfw,
    /// FreeBSD pf.conf(5).
    Pf,
    /// Cisco IOS access lists with NAT.
    Ios,
}

/// Which packets a table is about.
#[derive(Clone, Copy, Debug, PartialEq, Eq, Hash)]
pub enum State {
    /// Packets that belong to no tracked connection.
    Fresh,
    /// Packets of tracked connections.
    Est,
}
