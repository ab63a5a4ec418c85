//! The class of a packet, and its fate by class.

ghost use Rattle.std.specs.Prelude.{◌≡◌};
ghost use Rattle.fws_net.specs.Connections.{tuple_of, matches, inverse, class_of, is_est, est_port, est_sent, fate_in};

use crate::connection::{Conn, Kind, Rec, Tuple};
use crate::outcome::{Fate, Outcome};
use crate::packet::Packet;
use crate::sending::has_ports;

impl Packet {
    /// What tells its direction of a connection.
    pub fn tuple(&self) -> Tuple
        ensures { result ≡ tuple_of self.now }
    {
        Tuple {
            proto: self.proto,
            dst: self.dst,
            dport: self.dport,
            src: self.src,
            sport: self.sport,
        }
    }
}

impl Tuple {
    /// Whether two tuples match: in protocol and addresses and, for TCP and UDP, in ports.
    fn matches(&self, other: &Tuple) -> bool
        ensures { result ≡ matches self.now other.now }
    {
        self.proto == other.proto
            && self.dst == other.dst
            && self.src == other.src
            && (!has_ports(self.proto) || (self.dport == other.dport && self.sport == other.sport))
    }

    /// Source and destination exchanged.
    fn inverse(&self) -> Rec
        ensures { result ≡ inverse self.now }
    {
        Rec {
            rdst: self.src,
            rdport: self.sport,
            rsrc: self.dst,
            rsport: self.dport,
        }
    }
}

/// The class of a packet by its tuple.
fn class_of(conns: &[Conn], tuple: &Tuple) -> Kind
    ensures { result ≡ class_of conns.now tuple.now }
{
    for conn in conns {
        if conn.orig.matches(tuple) {
            return Kind::Est(conn.reply.inverse());
        }
        if conn.reply.matches(tuple) {
            return Kind::Est(conn.orig.inverse());
        }
    }
    Kind::New
}

/// The class of a packet as it enters: that of the first connection of which a tuple matches, the
/// original tried before the reply, else `New`.
pub fn class(conns: &[Conn], p: &Packet) -> Kind
    ensures { result ≡ class_of conns.now (tuple_of p.now) }
{
    class_of(conns, &p.tuple())
}

/// A port of an established packet as it leaves: another one for TCP and UDP alone.
fn est_port(proto: u8, port: u16, old: u16) -> u16
    ensures { result ≡ est_port proto port old }
{
    if has_ports(proto) { port } else { old }
}

impl Rec {
    /// The established packet as it is sent on: with these addresses and, for TCP and UDP, these ports.
    pub fn apply(&self, p: &Packet) -> Fate
        ensures { result ≡ est_sent self.now p.now }
    {
        Fate::Sent {
            dst: self.rdst,
            dport: est_port(p.proto, self.rdport, p.dport),
            src: self.rsrc,
            sport: est_port(p.proto, self.rsport, p.sport),
        }
    }
}

impl Outcome {
    /// What becomes of a packet of this class: an accepted new one is sent on with what the rules
    /// write, an established one with the ends of its connection.
    pub fn fate(&self, p: &Packet, kind: &Kind) -> Fate
        ensures { result ≡ fate_in self.now p.now kind.now }
    {
        match (self, kind) {
            (Outcome::Drop, _) => Fate::Dropped,
            (Outcome::Accept(rewrite), Kind::New) => rewrite.apply(p),
            (Outcome::Accept(_), Kind::Est(ends)) => ends.apply(p),
        }
    }
}

impl Kind {
    /// Whether packets of the class belong to a tracked connection.
    pub fn is_est(&self) -> bool
        ensures { result ≡ is_est self.now }
    {
        match self {
            Kind::New => false,
            Kind::Est(_) => true,
        }
    }
}
