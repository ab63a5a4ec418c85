//! The clauses of placement conditions in words.

use crate::bytes::{field, is};

/// A clause: when it holds, what the packets that are named show, and what to change in the source. In a table it is the text
/// `NUMBER|SAYS|SHOWS|WRITE`.
#[derive(Clone, Copy)]
pub(crate) struct Clause {
    number: &'static [u8],
    pub(crate) says: &'static [u8],
    pub(crate) shows: &'static [u8],
    pub(crate) write: &'static [u8],
}

const CLAUSES: [&[u8]; 17] = [
    b"1|new packets may have at most 60,000 different outcomes there|This packet has the first outcome past the limit|Write fewer different addresses and ports: map a network as a whole in place of each of its addresses.",
    b"2|no source port can be written there|The source port of this packet is written|Write the source address alone, so that the port stays.",
    b"3|no destination can be written over the host's own packets there|This packet of the host gets another destination|Take the translation of the host's own packets out, and let programs on the host use the other address.",
    b"4|no source can be written over packets that are delivered to the host itself there|This packet is delivered to the host, with another source|Take the translation of such sources out.",
    b"5|an established packet that is dropped must be recognized as it enters, or by its destination behind translation: by one of the two alone|This packet of a connection is dropped by both|Drop by one of them, or accept packets of connections ahead of what drops them, and drop the new packets that open such connections.",
    b"6|accepted new packets may show at most 4,096 redirects there, each of one protocol, destination and port to one end, and none of 0.0.0.0|The redirect of this packet is one of 0.0.0.0, or the first past the limit|Redirect an address as a whole where many of its ports go to the same ports of one host, and name the destinations that are redirected.",
    b"7|a dropped packet of a connection must be one that can be dropped ahead of the look-up of connections|This packet of a connection is dropped, and others that look the same there are not|Accept packets of connections ahead of what drops them, and drop the new packets that open such connections.",
    b"8|no packet of a connection can be dropped there: pf shows them to no rule|This packet of a connection is dropped|Accept packets of connections ahead of what drops them, and drop the new packets that open such connections.",
    b"9|the destination that is written can not depend on TCP flags or ICMP types there|Both packets are accepted, differ in these alone, and get different destinations|Write the destination whatever the flags are, or drop the packets that are not to be sent on.",
    b"10|the source that is written over the host's own packets can not depend on TCP flags or ICMP types there|Both packets are accepted, differ in these alone, and get different sources|Write the source whatever the flags are.",
    b"11|the router's own packets pass as they are there: they meet no list, and are not translated|This packet of the host is dropped, or gets another source or destination|Let the host's own packets pass, and translate by the inner network, so that they are not meant.",
    b"12|no destination can be written there|This packet gets another destination|Take the redirect out, and publish the inner host by other means: a static of IOS would write the sources of its packets too.",
    b"13|a source can be written there only over packets that come in by an interface inside and leave by one outside|The source of this packet is written, though it does not cross so|Set the sides in the site file, nat=inside and nat=outside, and translate by the inner network.",
    b"14|of TCP flags a list can ask for established alone there, which is ACK or RST|These packets differ in TCP flags, and fare differently|Ask for ACK alone where SYN without ACK is meant, and treat packets of connections alike whatever their flags are.",
    b"15|the source that is written can not depend on TCP flags, or on the inside interface by which packets come in there|Both packets differ in these alone, and get different sources|Choose the source by the inner network.",
    b"16|an established packet that is dropped must be dropped in every connection, and as a new one too|This packet is dropped in this connection, and let through in another or as a new one|Accept packets of connections ahead of what drops them, and drop the new packets that open such connections.",
    b"17|no network can be mapped there: whole addresses are written|This packet is mapped from network to network|Map each address of the network by itself.",
];

/// What to write in a language of a source: `NUMBER|LANGUAGE|WORDS`.
const EXAMPLES: [&[u8]; 57] = [
    b"1|iptables|-d 198.51.100.0/24 -j NETMAP --to 10.0.0.0/24",
    b"1|pf|rdr on em1 from any to 198.51.100.0/24 -> 10.0.0.0/24 bitmask",
    b"1|openbsd|match in on em1 to 198.51.100.0/24 rdr-to 10.0.0.0/24 bitmask",
    b"1|ipfw|nat 1 config ip 203.0.113.2, one instance for all",
    b"1|ios|ip nat inside source list 7 interface GigabitEthernet0/1 overload, for all",
    b"2|iptables|--to-source 203.0.113.2 in place of --to-source 203.0.113.2:5000",
    b"2|ipfw|redirect_addr 10.0.0.5 203.0.113.5 in place of a redirect_port, which writes the port of what the inner host opens too",
    b"2|ios|ip nat inside source static 10.0.0.5 203.0.113.5 in place of a static with ports, which writes the port of what the inner host opens too",
    b"3|iptables|no DNAT and no REDIRECT in OUTPUT of nat",
    b"4|iptables|no SNAT in INPUT of nat",
    b"5|iptables|-A INPUT -m conntrack --ctstate ESTABLISHED -j ACCEPT as the first rule of each chain",
    b"5|ipfw|add 100 check-state as the first rule",
    b"5|ios|evaluate SEEN as the first entry of each list",
    b"6|iptables|-d 203.0.113.2 -j DNAT --to-destination 10.0.0.5, without ports",
    b"6|pf|rdr on em1 from any to 203.0.113.2 -> 10.0.0.5, without ports",
    b"6|openbsd|match in on em1 to 203.0.113.2 rdr-to 10.0.0.5, without ports",
    b"6|ipfw|redirect_addr 10.0.0.5 203.0.113.5",
    b"6|ios|ip nat inside source static 10.0.0.5 203.0.113.5",
    b"7|iptables|-A INPUT -m conntrack --ctstate ESTABLISHED -j ACCEPT as the first rule of each chain",
    b"7|ipfw|add 100 check-state as the first rule",
    b"7|ios|evaluate SEEN as the first entry of each list",
    b"8|iptables|-A INPUT -m conntrack --ctstate ESTABLISHED -j ACCEPT as the first rule of each chain",
    b"8|ipfw|add 100 check-state as the first rule",
    b"8|ios|evaluate SEEN as the first entry of each list",
    b"9|iptables|no --syn, --tcp-flags or --icmp-type in a rule with DNAT",
    b"9|ipfw|no setup, tcpflags or icmptypes in a nat rule",
    b"9|openbsd|flags any in a rule with rdr-to",
    b"10|iptables|no --syn, --tcp-flags or --icmp-type in a rule with SNAT or MASQUERADE",
    b"10|ipfw|no setup, tcpflags or icmptypes in a nat rule",
    b"10|openbsd|flags any in a rule with nat-to",
    b"11|iptables|:OUTPUT ACCEPT [0:0], and -A POSTROUTING -s 10.0.0.0/24 -o eth1 -j MASQUERADE",
    b"11|pf|pass out all flags any, and nat on em1 from em0:network to any -> (em1)",
    b"11|openbsd|pass out all flags any, and match out on em1 from em0:network nat-to (em1)",
    b"11|ipfw|add allow ip from me to any out keep-state, and add nat 1 ip from 10.0.0.0/24 to any out xmit em1",
    b"12|iptables|no DNAT, REDIRECT or NETMAP in PREROUTING",
    b"12|pf|no rdr",
    b"12|openbsd|no rdr-to",
    b"12|ipfw|no redirect_port or redirect_addr at an instance that a rule names for what comes in",
    b"12|ios|no static for what comes in by an outside interface",
    b"13|iptables|-A POSTROUTING -s 10.0.0.0/24 -o eth1 -j MASQUERADE",
    b"13|pf|nat on em1 from em0:network to any -> (em1)",
    b"13|openbsd|match out on em1 from em0:network nat-to (em1)",
    b"13|ipfw|add nat 1 ip from 10.0.0.0/24 to any out recv em0 xmit em1",
    b"14|iptables|--tcp-flags ACK NONE in place of --syn",
    b"14|pf|flags /A in place of flags S/SA",
    b"14|openbsd|flags /A in place of flags S/SA",
    b"14|ipfw|tcpflags !ack in place of setup",
    b"15|iptables|-s 10.0.0.0/24 in place of a mark or -i eth0",
    b"15|pf|from 10.0.0.0/24 in place of tagged LAN",
    b"15|openbsd|from 10.0.0.0/24 in place of tagged LAN",
    b"15|ipfw|from 10.0.0.0/24 in place of recv em0 or a tag",
    b"16|iptables|-A INPUT -m conntrack --ctstate ESTABLISHED -j ACCEPT as the first rule of each chain",
    b"16|ipfw|add 100 check-state as the first rule",
    b"16|ios|evaluate SEEN as the first entry of each list",
    b"17|iptables|-d 198.51.100.7 -j DNAT --to-destination 10.0.0.7 in place of NETMAP",
    b"17|pf|rdr on em1 from any to 198.51.100.7 -> 10.0.0.7 in place of bitmask",
    b"17|openbsd|match in on em1 to 198.51.100.7 rdr-to 10.0.0.7 in place of bitmask",
];

/// The clause of this number.
pub(crate) fn clause_of(number: &[u8]) -> Option<Clause> {
    for row in &CLAUSES {
        if is(field(*row, 0), number) {
            return Some(Clause {
                number: field(*row, 0),
                says: field(*row, 1),
                shows: field(*row, 2),
                write: field(*row, 3),
            });
        }
    }
    None
}

impl Clause {
    /// It is the clause on the number of redirects.
    pub(crate) fn is_of_redirects(&self) -> bool {
        is(self.number, b"6")
    }

    /// What to write in the language of the source, where there is an example.
    pub(crate) fn example_in(&self, lang: &[u8]) -> Option<&'static [u8]> {
        for row in &EXAMPLES {
            if is(field(*row, 0), self.number) && is(field(*row, 1), lang) {
                return Some(field(*row, 2));
            }
        }
        None
    }
}
