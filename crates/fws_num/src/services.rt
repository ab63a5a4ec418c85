//! Ports as they are spelled: numbers and names of services.

ghost use Rattle.std.specs.Prelude.{◌≡◌};
ghost use Rattle.fws_num.specs.Services.{service_of, port_of, both_ports, ports_between};

use crate::named::value_named;
use crate::numbers::read_dec;

/// Ports by the names of their services in services(5), which has them from IANA's registry of service
/// names. `netbios-ss`, `lpd`, `rip` and `non500-isakmp` are the names that the manuals of Cisco IOS
/// have for the registry's `netbios-ssn`, `printer`, `router` and `ipsec-nat-t`.
const SERVICES: [(&[u8], u16); 31] = [
    (b"ftp-data", 20),
    (b"ftp", 21),
    (b"ssh", 22),
    (b"telnet", 23),
    (b"smtp", 25),
    (b"domain", 53),
    (b"bootps", 67),
    (b"bootpc", 68),
    (b"tftp", 69),
    (b"http", 80),
    (b"www", 80),
    (b"pop3", 110),
    (b"ident", 113),
    (b"nntp", 119),
    (b"ntp", 123),
    (b"netbios-ns", 137),
    (b"netbios-dgm", 138),
    (b"netbios-ss", 139),
    (b"imap", 143),
    (b"snmp", 161),
    (b"snmptrap", 162),
    (b"bgp", 179),
    (b"https", 443),
    (b"smtps", 465),
    (b"isakmp", 500),
    (b"syslog", 514),
    (b"lpd", 515),
    (b"rip", 520),
    (b"imaps", 993),
    (b"pop3s", 995),
    (b"non500-isakmp", 4500),
];

/// The port of a service.
#[tactic(auto, unfolding(crate::specs::Services::service_of))]
fn service(name: &[u8]) -> Option<u16>
    ensures { result ≡ service_of name.now }
{
    value_named(&SERVICES, name)
}

/// The port that a decimal 0 to 65535 or the name of a service spells. The names are 27 of services(5),
/// which has them from IANA's registry of service names, with `www` beside `http` and `ident` for port
/// 113, and `netbios-ss`, `lpd`, `rip` and `non500-isakmp` of Cisco IOS.
pub fn read_port(text: &[u8]) -> Option<u16>
    ensures { result ≡ port_of text.now }
{
    match read_dec(text, 65535) {
        Some(port) => Some(port as u16),
        None => service(text),
    }
}

/// Both ports, if both are spelled.
fn both_ports(lo: &[u8], hi: &[u8]) -> Option<(u16, u16)>
    ensures { result ≡ both_ports lo.now hi.now }
{
    let lo = read_port(lo)?;
    let hi = read_port(hi)?;
    Some((lo, hi))
}

/// Two ports with the divider between, at the first place where both sides are ports: it may be part
/// of a service's name too, as `-` is of `ftp-data`.
pub fn read_ports_between(divider: u8, text: &[u8]) -> Option<(u16, u16)>
    ensures { result ≡ ports_between divider text.now }
{
    for (i, c) in text.iter().enumerate() {
        if *c == divider {
            if let Some(ports) = both_ports(&text[..i], &text[i + 1..]) {
                return Some(ports);
            }
        }
    }
    None
}
