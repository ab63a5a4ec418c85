//! Writing a rewriting over a packet.

ghost use Rattle.std.specs.Prelude.{◌≡◌};
ghost use Rattle.fws_net.specs.Fates.{has_ports, written_addr, written_port, sent_port, sent};

use crate::outcome::{End, Fate, Rewrite};
use crate::packet::Packet;

pub(crate) const TCP: u8 = 6;

const UDP: u8 = 17;

/// Whether packets of the protocol have ports.
pub(crate) fn has_ports(proto: u8) -> bool
    ensures { result ≡ has_ports proto }
{
    proto == TCP || proto == UDP
}

/// The address with the first bits of an end, if there is one, over it.
fn written_addr(end: Option<End>, a: u32) -> u32
    ensures { result ≡ written_addr end a }
{
    match end {
        Some(end) => end.over(a),
        None => a,
    }
}

/// The port that an end writes, else the port as it was.
fn written_port(end: Option<End>, port: u16) -> u16
    ensures { result ≡ written_port end port }
{
    match end {
        Some(end) => end.port.unwrap_or(port),
        None => port,
    }
}

/// The port that is sent: one is written for TCP and UDP alone.
fn sent_port(proto: u8, end: Option<End>, port: u16) -> u16
    ensures { result ≡ sent_port proto end port }
{
    if has_ports(proto) {
        written_port(end, port)
    } else {
        port
    }
}

impl Rewrite {
    /// The packet as it is sent on: what an end writes stands over its address and, for TCP and UDP,
    /// its port.
    pub fn apply(&self, p: &Packet) -> Fate
        ensures { result ≡ sent self.now p.now }
    {
        Fate::Sent {
            dst: written_addr(self.dst, p.dst),
            dport: sent_port(p.proto, self.dst, p.dport),
            src: written_addr(self.src, p.src),
            sport: sent_port(p.proto, self.src, p.sport),
        }
    }
}
