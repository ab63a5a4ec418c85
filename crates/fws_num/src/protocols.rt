//! IP protocols as they are spelled: numbers and names.

ghost use Rattle.std.specs.Prelude.{◌≡◌};
ghost use Rattle.fws_num.specs.Protocols.{ios_protocol_of, protocol_named, protocol_of};

use crate::named::value_named;
use crate::numbers::read_dec;

/// Protocols by their names in protocols(5), which has them from IANA's registry of protocol numbers.
const PROTOCOLS: [(&[u8], u8); 16] = [
    (b"icmp", 1),
    (b"igmp", 2),
    (b"ipencap", 4),
    (b"tcp", 6),
    (b"udp", 17),
    (b"dccp", 33),
    (b"ipv6", 41),
    (b"gre", 47),
    (b"esp", 50),
    (b"ah", 51),
    (b"eigrp", 88),
    (b"ospf", 89),
    (b"pim", 103),
    (b"vrrp", 112),
    (b"sctp", 132),
    (b"udplite", 136),
];

/// Further names of protocols in access lists of Cisco IOS, as its manuals have them.
const IOS_PROTOCOLS: [(&[u8], u8); 2] = [(b"ahp", 51), (b"ipinip", 4)];

/// The number of a protocol's name.
#[tactic(auto, unfolding(crate::specs::Protocols::protocol_named))]
fn protocol_named(name: &[u8]) -> Option<u8>
    ensures { result ≡ protocol_named name.now }
{
    value_named(&PROTOCOLS, name)
}

/// The protocol that a decimal 0 to 255 or a name spells. The names are 16 of protocols(5), which has
/// them from IANA's registry of protocol numbers.
pub fn read_protocol(text: &[u8]) -> Option<u8>
    ensures { result ≡ protocol_of text.now }
{
    match read_dec(text, 255) {
        Some(proto) => Some(proto as u8),
        None => protocol_named(text),
    }
}

/// The protocol that a decimal 0 to 255 or a name spells in access lists of Cisco IOS: `ahp`, `ipinip`
/// or a name that `read_protocol` reads.
pub fn read_ios_protocol(text: &[u8]) -> Option<u8>
    ensures { result ≡ ios_protocol_of text.now }
{
    read_protocol(text).or_else(|| value_named(&IOS_PROTOCOLS, text))
}
