//! Conditions that rules spell.

ghost use Rattle.std.specs.Prelude.{◌≡◌, ◌≤◌, not};
ghost use Rattle.std.specs.List.{list_all};
ghost use Rattle.fws_pf.specs.Drawn.{is_port_protocol};
ghost use Rattle.fws_print.specs.Sets.{are_flags, is_interface, is_number, is_range};
ghost use Rattle.fws_pf_print.specs.Printable.{ascend, is_block, is_printed_cond, is_printed_literal, is_printed_test, is_translation_test};

use crate::conditions::{place_of, protocol_tested};
use fws_iv::Iv;
use fws_net::{Lit, Site, Test};
use fws_print::{are_flags, is_interface, is_number, is_range};

/// Whether it is one range of addresses that agree in their first `n` bits.
pub fn is_block(n: u8, set: &[Iv]) -> bool
    requires { n ≤ 32 }
    ensures { result ≡ is_block n set.now }
{
    match set {
        [iv] => {
            let size = 2u64.pow(u32::from(32 - n));
            u64::from(iv.lo) / size == u64::from(iv.hi) / size
        }
        _ => false,
    }
}

/// Whether it is a protocol with ports.
pub fn is_port_protocol(protocol: u32) -> bool
    ensures { result ≡ is_port_protocol protocol }
{
    protocol == 6 || protocol == 17
}

/// Whether the test is printed where a protocol is asked for: of one interface, one protocol, one range of
/// addresses, one range of ports under TCP or UDP, of flags under TCP, of one ICMP type under ICMP, and of
/// a tag.
fn is_printed_test(site: &Site, protocol: u32, test: &Test) -> bool
    ensures { result ≡ is_printed_test site.now protocol test.now }
{
    match test {
        Test::Via(set) => is_interface(site, set),
        Test::Proto(set) => is_number(255, set),
        Test::Src(set) => is_range(4294967295, set),
        Test::Dst(set) => is_range(4294967295, set),
        Test::Sport(set) => is_port_protocol(protocol) && is_range(65535, set),
        Test::Dport(set) => is_port_protocol(protocol) && is_range(65535, set),
        Test::Flags { mask, want } => protocol == 6 && are_flags(*mask, *want),
        Test::Icmp(set) => protocol == 1 && is_number(255, set),
        Test::Tag(_) => true,
        Test::Recv(_)
        | Test::Xmit(_)
        | Test::Outward
        | Test::Est
        | Test::AnyFlag(_)
        | Test::Never => false,
    }
}

/// Whether the literal is printed, which isn't negated then.
fn is_printed_literal(site: &Site, protocol: u32, lit: &Lit) -> bool
    ensures { result ≡ is_printed_literal site.now protocol lit.now }
{
    !lit.not && is_printed_test(site, protocol, &lit.test)
}

/// Whether all literals are printed.
fn are_printed_literals(site: &Site, protocol: u32, cond: &[Lit]) -> bool
    ensures { result ≡ list_all (is_printed_literal site.now protocol) cond.now }
{
    cond.iter()
        .all(|lit| is_printed_literal(site, protocol, lit))
}

/// Whether the tests stand in their order, none of them twice.
fn ascend(cond: &[Lit]) -> bool
    ensures { result ≡ ascend 0 cond.now }
{
    let mut least = 0u16;
    for lit in cond {
        let place = u16::from(place_of(&lit.test));
        if place < least {
            return false;
        }
        least = place + 1;
    }
    true
}

/// Whether the condition is printed.
pub fn is_printed_cond(site: &Site, cond: &[Lit]) -> bool
    ensures { result ≡ is_printed_cond site.now cond.now }
{
    ascend(cond) && are_printed_literals(site, protocol_tested(cond), cond)
}

/// Whether the test may stand in a translation: neither flags nor ICMP types do.
fn is_translation_test(test: &Test) -> bool
    ensures { result ≡ is_translation_test test.now }
{
    let place = place_of(test);
    place < 6 || place == 8
}

/// Whether all tests may stand in a translation.
pub fn are_translation_tests(cond: &[Lit]) -> bool
    ensures { result ≡ list_all (λ lit. is_translation_test lit.test) cond.now }
{
    cond.iter().all(|lit| is_translation_test(&lit.test))
}
