//! When a condition holds.

ghost use Rattle.std.specs.Prelude.{◌≡◌, nat_eq};
ghost use Rattle.std.specs.List.{list_any};
ghost use Rattle.fws_net.specs.Conditions.{is_shown, test_holds, lit_holds, holds};

use crate::condition::{Cond, Lit, Test};
use crate::sending::{TCP, has_ports};
use crate::view::View;
use fws_iv::Ivs;

const ICMP: u8 = 1;

/// Whether the interface is shown and is a member.
fn is_shown(entry: Option<u8>, set: &Ivs) -> bool
    ensures { result ≡ is_shown entry set.now }
{
    match entry {
        Some(entry) => set.has(u32::from(entry)),
        None => false,
    }
}

/// Whether the tag is among these.
fn has_tag(tags: &[u32], tag: u32) -> bool
    ensures { result ≡ list_any (nat_eq tag) tags.now }
{
    tags.iter().any(|seen| tag == *seen)
}

impl Test {
    /// Whether the test holds at what a rule sees. One of ports holds for TCP and UDP alone, one of
    /// flags for TCP alone, one of types for ICMP alone, and one of an interface where it is shown.
    pub fn holds(&self, v: &View) -> bool
        ensures { result ≡ test_holds v.now self.now }
    {
        let p = &v.packet;
        match self {
            Test::Src(set) => set.has(p.src),
            Test::Dst(set) => set.has(p.dst),
            Test::Sport(set) => has_ports(p.proto) && set.has(u32::from(p.sport)),
            Test::Dport(set) => has_ports(p.proto) && set.has(u32::from(p.dport)),
            Test::Proto(set) => set.has(u32::from(p.proto)),
            Test::Icmp(set) => p.proto == ICMP && set.has(u32::from(p.icmp)),
            Test::Flags { mask, want } => p.proto == TCP && p.flags & *mask == *want,
            Test::AnyFlag(mask) => p.proto == TCP && p.flags & *mask != 0,
            Test::Recv(set) => is_shown(v.recv, set),
            Test::Xmit(set) => is_shown(v.xmit, set),
            Test::Via(set) => is_shown(if v.outward { v.xmit } else { v.recv }, set),
            Test::Outward => v.outward,
            Test::Est => v.est,
            Test::Tag(tag) => has_tag(v.tags.as_slice(), *tag),
            Test::Never => false,
        }
    }
}

impl Lit {
    /// Whether the literal holds: a negated one exactly where its test doesn't.
    pub fn holds(&self, v: &View) -> bool
        ensures { result ≡ lit_holds v.now self.now }
    {
        if self.not {
            !self.test.holds(v)
        } else {
            self.test.holds(v)
        }
    }
}

/// Whether all literals of the condition hold at what a rule sees.
pub fn holds(c: &Cond, v: &View) -> bool
    ensures { result ≡ holds c.now v.now }
{
    for lit in c.lits() {
        if !lit.holds(v) {
            return false;
        }
    }
    true
}
