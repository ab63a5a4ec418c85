//! Conditions that entries spell.

ghost use Rattle.std.specs.Prelude.{◌≡◌};
ghost use Rattle.std.specs.List.{list_all};
ghost use Rattle.fws_print.specs.Sets.{is_network, is_number, is_range};
ghost use Rattle.fws_ios_print.specs.Printable.{ascend, is_block, is_port_protocol, is_prefix, is_printed_cond, is_printed_literal, is_printed_test};

use crate::conditions::{place_of, protocol_tested};
use fws_iv::{Iv, Ivs};
use fws_net::{Lit, Test};
use fws_print::{is_network, is_number, is_range};

/// Whether the addresses agree in their first 1 to 32 bits, and are all that do.
#[tactic(auto, unfolding(crate::specs::Printable::is_prefix))]
fn is_prefix(iv: Iv) -> bool
    ensures { result ≡ is_prefix iv }
{
    for n in 1..33 {
        if is_network(n, iv) {
            return true;
        }
    }
    false
}

/// Whether each range is that of a prefix.
fn are_prefixes(set: &[Iv]) -> bool
    ensures { result ≡ list_all is_prefix set.now }
{
    set.iter().all(|iv| is_prefix(*iv))
}

/// Whether it has the addresses of one prefix, which isn't that of all addresses.
fn is_block(set: &Ivs) -> bool
    ensures { result ≡ is_block set.now }
{
    is_range(4294967295, set) && are_prefixes(set.parts())
}

/// Whether it is a protocol with ports.
fn is_port_protocol(protocol: u32) -> bool
    ensures { result ≡ is_port_protocol protocol }
{
    protocol == 6 || protocol == 17
}

/// Whether the test is printed where a protocol is asked for: of one protocol, one prefix, one range of
/// ports under TCP or UDP, one ICMP type under ICMP, and of ACK or RST under TCP.
fn is_printed_test(protocol: u32, test: &Test) -> bool
    ensures { result ≡ is_printed_test protocol test.now }
{
    match test {
        Test::Proto(set) => is_number(255, set),
        Test::Src(set) => is_block(set),
        Test::Dst(set) => is_block(set),
        Test::Sport(set) => is_port_protocol(protocol) && is_range(65535, set),
        Test::Dport(set) => is_port_protocol(protocol) && is_range(65535, set),
        Test::Icmp(set) => protocol == 1 && is_number(255, set),
        Test::AnyFlag(mask) => protocol == 6 && *mask == 20,
        Test::Flags { .. }
        | Test::Via(_)
        | Test::Recv(_)
        | Test::Xmit(_)
        | Test::Outward
        | Test::Est
        | Test::Tag(_)
        | Test::Never => false,
    }
}

/// Whether the literal is printed, which isn't negated then.
fn is_printed_literal(protocol: u32, lit: &Lit) -> bool
    ensures { result ≡ is_printed_literal protocol lit.now }
{
    !lit.not && is_printed_test(protocol, &lit.test)
}

/// Whether all literals are printed.
fn are_printed_literals(protocol: u32, cond: &[Lit]) -> bool
    ensures { result ≡ list_all (is_printed_literal protocol) cond.now }
{
    cond.iter().all(|lit| is_printed_literal(protocol, lit))
}

/// Whether the tests stand in their order, none of them twice.
fn ascend(cond: &[Lit]) -> bool
    ensures { result ≡ ascend 0 cond.now }
{
    let mut least = 0u16;
    for lit in cond {
        let place = u16::from(place_of(&lit.test));
        if place < least {
            return false;
        }
        least = place + 1;
    }
    true
}

/// Whether the condition is printed.
pub fn is_printed_cond(cond: &[Lit]) -> bool
    ensures { result ≡ is_printed_cond cond.now }
{
    ascend(cond) && are_printed_literals(protocol_tested(cond), cond)
}
