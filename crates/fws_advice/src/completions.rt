//! Words with which a line that ends too early may go on.

use crate::ground::Ground;
use crate::kinds::Kind;
use fws_net::Lang;
use fws_num::{Memory, Text};
use std::alloc::Global;

// In each `%` stands for the name of an interface.

const OF_IPTABLES: [&[u8]; 24] = [
    b" 10.0.0.1",
    b" 80",
    b" tcp",
    b" ACCEPT",
    b" INPUT",
    b" %",
    b" -",
    b" 8",
    b" NEW",
    b" SYN",
    b" SYN SYN",
    b" 0x1",
    b" LOCAL",
    b" 10.0.0.1-10.0.0.2",
    b" -s 10.0.0.1",
    b" -p tcp",
    b" --to-source 10.0.0.1",
    b" --to-destination 10.0.0.1",
    b" --to 10.0.0.0/24",
    b" 10.0.0.0/24",
    b" --set-xmark 0x1/0xffffffff",
    b" --dport 80",
    b" A INPUT",
    b" ACCEPT [0:0]",
];

const OF_IPFW: [&[u8]; 30] = [
    b" any",
    b" to any",
    b" any to any",
    b" from any to any",
    b" ip from any to any",
    b" 1 ip from any to any",
    b" host ip from any to any",
    b" allow ip from any to any",
    b" 100 allow ip from any to any",
    b" 65000 ip from any to any",
    b" 80",
    b" 80 to any",
    b" 10.0.0.1",
    b" 10.0.0.1 to any",
    b" %",
    b" 1",
    b" 8",
    b" syn",
    b" in",
    b" config ip 10.0.0.1",
    b" 1 config ip 10.0.0.1",
    b" ip 10.0.0.1",
    b" tcp 10.0.0.1:80 80",
    b" 10.0.0.1:80 80",
    b" 10.0.0.1 10.0.0.2",
    b" add allow ip from any to any",
    b" tcp from any to any",
    b" tag 1 ip from any to any",
    b" any 80",
    b" -q add allow ip from any to any",
];

const OF_PF: [&[u8]; 38] = [
    b" %",
    b" any",
    b" 80",
    b" tcp",
    b" }",
    b" % }",
    b" any }",
    b" 80 }",
    b" tcp }",
    b" 8 }",
    b" any -> 10.0.0.1",
    b" -> 10.0.0.1",
    b" 80 -> 10.0.0.1",
    b" tcp -> 10.0.0.1",
    b" % -> 10.0.0.1",
    b" } -> 10.0.0.1",
    b" any } -> 10.0.0.1",
    b" 10.0.0.1",
    b" { }",
    b" <t> { }",
    b" <zz> { }",
    b" zz> { }",
    b"> { }",
    b">",
    b" state",
    b" T",
    b" 8",
    b" S/SA",
    b" = 1",
    b" 1",
    b" skip on %",
    b" on %",
    b" network",
    b" all",
    b" bitmask",
    b")",
    b" all)",
    b" nat on % -> 10.0.0.1",
];

const OF_IOS: [&[u8]; 26] = [
    b" any",
    b" any any",
    b" ip any any",
    b" permit ip any any",
    b" permit any",
    b" 1 permit any",
    b" 101 permit ip any any",
    b" 80",
    b" 80 any",
    b" 80 90",
    b" 10.0.0.1",
    b" 10.0.0.1 any",
    b" 10.0.0.1 10.0.0.2",
    b" 0.0.0.0",
    b" 0.0.0.0 any",
    b" R",
    b" 5",
    b" in",
    b" 101 in",
    b" %",
    b" interface % overload",
    b" overload",
    b" 24",
    b" netmask 255.255.255.0",
    b" source static 10.0.0.1 10.0.0.2",
    b" standard L",
];

const OF_SITES: [&[u8]; 24] = [
    b" zz 192.0.2.1/32 ipt=zz ipfw=zz pf=zz ios=zz nat=none",
    b" 192.0.2.1/32 ipt=zz ipfw=zz pf=zz ios=zz nat=none",
    b" zz ipt=zz ipfw=zz pf=zz ios=zz nat=none",
    b" ipt=zz ipfw=zz pf=zz ios=zz nat=none",
    b" ipfw=zz pf=zz ios=zz nat=none",
    b" pf=zz ios=zz nat=none",
    b" ios=zz nat=none",
    b" nat=none",
    b" ipt=zz ipfw=zz pf=zz ios=zz",
    b" ipfw=zz pf=zz ios=zz",
    b" pf=zz ios=zz",
    b" ios=zz",
    b" zz 192.0.2.1/32",
    b" 192.0.2.1/32",
    b" 192.0.2.0/24 zz",
    b" zz",
    b" yes",
    b" 1",
    b" 2",
    b" site 1",
    b" default zz",
    b" forwarding yes",
    b" one_pass 1",
    b" interface zz 192.0.2.1/32 ipt=zz ipfw=zz pf=zz ios=zz nat=none",
];

const OF_PACKETS: [&[u8]; 8] = [
    b" 6 10.0.0.1 80 10.0.0.2 80 2 0",
    b" 10.0.0.1 80 10.0.0.2 80 2 0",
    b" 80 10.0.0.2 80 2 0",
    b" 10.0.0.2 80 2 0",
    b" 80 2 0",
    b" 2 0",
    b" 0",
    b" 0 10.0.0.2 0 0 0",
];

const OF_CONNS: [&[u8]; 8] = [
    b" 10.0.0.1 80 10.0.0.2 80 10.0.0.1 80 10.0.0.2 80",
    b" 80 10.0.0.2 80 10.0.0.1 80 10.0.0.2 80",
    b" 10.0.0.2 80 10.0.0.1 80 10.0.0.2 80",
    b" 80 10.0.0.1 80 10.0.0.2 80",
    b" 10.0.0.1 80 10.0.0.2 80",
    b" 80 10.0.0.2 80",
    b" 10.0.0.2 80",
    b" 80",
];

/// Words with which a line of a kind of text may go on. In each `%` stands for the name of an interface.
pub(crate) fn completions_of(kind: Kind) -> &'static [&'static [u8]] {
    match kind {
        Kind::Site => &OF_SITES,
        Kind::Iptables => &OF_IPTABLES,
        Kind::Ipfw => &OF_IPFW,
        Kind::Pf | Kind::Openbsd => &OF_PF,
        Kind::Ios => &OF_IOS,
        Kind::Conns => &OF_CONNS,
        Kind::Packets | Kind::Events => &OF_PACKETS,
    }
}

/// The system in which a kind of text names interfaces.
pub(crate) fn system_of(kind: Kind) -> Lang {
    match kind {
        Kind::Ipfw => Lang::Ipfw,
        Kind::Pf | Kind::Openbsd => Lang::Pf,
        Kind::Ios => Lang::Ios,
        _ => Lang::Iptables,
    }
}

/// The words of a completion, with the name of the first interface in the place of each `%`.
pub(crate) fn completed(
    alloc: Global,
    words: &[u8],
    kind: Kind,
    ground: Option<&Ground>,
) -> Result<Text, Memory> {
    let mut text = Text::new(alloc);
    for c in words {
        if *c != b'%' {
            text.put(&[*c])?;
        } else if let Some(ground) = ground {
            text.put(ground.first_name(system_of(kind)))?;
        }
    }
    Ok(text)
}
