//! What an answer doesn't show of a configuration: that it has no rule, that it contradicts the site, that a line which looks like a
//! filter is passed over.

use crate::bytes::{begins, behind, is};
use crate::completions::system_of;
use crate::ground::{Ground, name_in};
use crate::kinds::Kind;
use crate::report::Report;
use crate::scanning::Worded;
use fws_net::{Iface, Lang, Site};
use fws_num::{Memory, read_quad};

/// How many warnings of one kind are said.
const SAID: u32 = 10;

/// The line says what is done with packets.
fn is_rule(kind: Kind, line: &Worded) -> bool {
    let first = line.word(0);
    match kind {
        Kind::Iptables => begins(first, b"*"),
        Kind::Ipfw => !line.has(b"flush") && !line.has(b"config"),
        Kind::Pf => {
            is(first, b"pass") || is(first, b"block") || is(first, b"nat") || is(first, b"rdr")
        }
        Kind::Openbsd => is(first, b"pass") || is(first, b"block") || is(first, b"match"),
        Kind::Ios => line.begins(&[b"ip", b"access-group"])
            || line.begins(&[b"ip", b"nat", b"inside", b"source"]),
        _ => true,
    }
}

/// What becomes of all packets where a configuration has no rule.
fn without_rules(kind: Kind) -> &'static [u8] {
    match kind {
        Kind::Iptables => {
            b": the file has no table, so that every packet is accepted.\n    On a host with nftables iptables-save prints nothing; iptables-nft-save prints what its iptables commands made, and rules of nft are not read.\n"
        }
        Kind::Ipfw => {
            b": the file has no rule, so that every packet is dropped.\n    ipfw list prints the rules of a host; in a script lines behind variables are not read.\n"
        }
        Kind::Ios => {
            b": the file applies no list and translates nothing, so that every packet passes.\n    show running-config prints access groups and translations; lists alone do nothing.\n"
        }
        _ =>
            b": the file has no rule, so that every packet passes.\n    pfctl -sr and pfctl -sn print the rules of a host.\n",
    }
}

/// Says that a configuration has no rule.
fn say_empty(out: &mut Report, kind: Kind, name: &[u8], lines: &[Worded]) -> Result<(), Memory> {
    for line in lines {
        if is_rule(kind, line) {
            return Ok(());
        }
    }
    out.show(name)?;
    out.say(without_rules(kind))
}

/// Says where a warning stands.
fn say_place(out: &mut Report, name: &[u8], line: &Worded) -> Result<(), Memory> {
    out.show(name)?;
    out.say(b":")?;
    out.say_number(u64::from(line.number))?;
    out.say(b": ")
}

/// The interface of the site with a name in IOS.
fn face_named<'a>(site: &'a Site, name: &[u8]) -> Option<&'a Iface> {
    for face in site.faces.as_slice() {
        if is(face.names.ios.as_slice(), name) {
            return Some(face);
        }
    }
    None
}

/// The interface has the address.
fn has_address(face: &Iface, address: u32) -> bool {
    for own in face.addrs.as_slice() {
        if own.addr == address {
            return true;
        }
    }
    false
}

/// Says that an interface has another address in the site.
fn say_address(out: &mut Report, face: &Iface, name: &[u8], line: &Worded) -> Result<(), Memory> {
    let Some(address) = read_quad(line.word(2)) else {
        return Ok(());
    };
    if has_address(face, address) {
        return Ok(());
    }
    say_place(out, name, line)?;
    out.say_with(b"the address % is none of the interface ", line.word(2))?;
    out.show(face.name.as_slice())?;
    out.say(b" in the site file, which has")?;
    for own in face.addrs.as_slice() {
        out.say(b" ")?;
        out.say_address(own.addr)?;
        out.say(b"/")?;
        out.say_number(u64::from(own.len))?;
    }
    out.say(b"\n    Correct the site file: the answer is for its addresses.\n")
}

/// Says which addresses of a running configuration contradict the site.
fn say_addresses(
    out: &mut Report,
    ground: &Ground,
    name: &[u8],
    lines: &[Worded],
) -> Result<(), Memory> {
    let mut face = None;
    for line in lines {
        if !line.is_indented() {
            face = if is(line.word(0), b"interface") {
                face_named(&ground.site, line.word(1))
            } else {
                None
            };
        } else if line.begins(&[b"ip", b"address"]) {
            if let Some(face) = face {
                say_address(out, face, name, line)?;
            }
        }
    }
    Ok(())
}

/// Some interface of the site has a name that begins so.
fn is_beginning(ground: &Ground, system: Lang, front: &[u8]) -> bool {
    for face in ground.site.faces.as_slice() {
        if begins(name_in(&face.names, system), front) {
            return true;
        }
    }
    begins(name_in(&ground.site.lo, system), front)
}

/// What stands ahead of the sign that stands for any end of a name.
fn front_of(kind: Kind, name: &[u8]) -> Option<&[u8]> {
    match (kind, name) {
        (Kind::Iptables, [front @ .., b'+']) => Some(front),
        (Kind::Ipfw, [front @ .., b'*']) => Some(front),
        _ => None,
    }
}

/// The words behind which names of interfaces stand.
const NAMING: [&[u8]; 5] = [b"-i", b"-o", b"recv", b"xmit", b"via"];

/// Says that a name with a sign for any end is that of no interface.
fn say_names(
    out: &mut Report,
    kind: Kind,
    ground: &Ground,
    name: &[u8],
    lines: &[Worded],
) -> Result<(), Memory> {
    let mut count = 0u32;
    for line in lines {
        for option in &NAMING {
            let Some(word) = line.behind(option) else {
                continue;
            };
            let Some(front) = front_of(kind, word) else {
                continue;
            };
            if !is_beginning(ground, system_of(kind), front) && count < SAID {
                count = count.saturating_add(1);
                say_place(out, name, line)?;
                out.say_with(
                    b"no interface of the site has a name that begins as in %, so that the rule is for none\n",
                    word,
                )?;
            }
        }
    }
    Ok(())
}

/// What a line of a running configuration filters that is passed over, if it looks like one that does.
fn passed_over(line: &Worded) -> Option<&'static [u8]> {
    if is(line.word(0), b"access-class") {
        Some(b"access-class filters logins to the router")
    } else if line.begins(&[b"ip", b"http", b"access-class"]) {
        Some(b"this filters requests to the router's own web server")
    } else if line.begins(&[b"ntp", b"access-group"]) {
        Some(b"this filters packets of NTP to the router")
    } else if is(line.word(0), b"service-policy") {
        Some(b"a service policy may drop packets")
    } else if line.begins(&[b"ipv6", b"traffic-filter"]) {
        Some(b"this filters packets of IPv6")
    } else if is(line.word(0), b"rate-limit") {
        Some(b"this drops packets past a rate")
    } else if line.begins(&[b"snmp-server", b"community"])
        && behind(line.word(4), b"").is_some()
        && line.spans.len() > 4
    {
        Some(b"a list behind a community filters requests of SNMP to the router")
    } else {
        None
    }
}

/// Says which lines that look like filters are passed over.
fn say_passed_over(out: &mut Report, name: &[u8], lines: &[Worded]) -> Result<(), Memory> {
    let mut count = 0u32;
    for line in lines {
        if let Some(what) = passed_over(line) {
            if count < SAID {
                count = count.saturating_add(1);
                say_place(out, name, line)?;
                out.say(what)?;
                out.say(b", and is no part of the answer\n")?;
            }
        }
    }
    Ok(())
}

/// Says what an answer doesn't show of a configuration.
pub(crate) fn say_warnings(
    out: &mut Report,
    kind: Kind,
    ground: &Ground,
    name: &[u8],
    lines: &[Worded],
) -> Result<(), Memory> {
    say_empty(out, kind, name, lines)?;
    match kind {
        Kind::Ios => {
            say_addresses(out, ground, name, lines)?;
            say_passed_over(out, name, lines)
        }
        Kind::Iptables | Kind::Ipfw => say_names(out, kind, ground, name, lines),
        _ => Ok(()),
    }
}
