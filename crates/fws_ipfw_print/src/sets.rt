//! Sets and conditions that rules spell.

ghost use Rattle.std.specs.Prelude.{◌≡◌, ◌+◌, ◌&&◌, length, not, nat_le};
ghost use Rattle.std.specs.List.{list_all};
ghost use Rattle.fws_print.specs.Sets.{are_flags, are_ranges, is_interface, is_number};
ghost use Rattle.fws_ipfw_print.specs.Printable.{ascend, is_every_interface, is_printed_cond, is_printed_literal, is_printed_negation, is_printed_test, place_of};

use crate::tests::place_of;
use fws_iv::Ivs;
use fws_net::{Lit, Site, Test};
use fws_print::{are_flags, are_ranges, is_interface, is_number};

/// Whether there are at most so many ranges.
fn are_few(most: usize, set: &Ivs) -> bool
    ensures { result ≡ nat_le (length set.now) most }
{
    set.parts().len() <= most
}

/// Whether it is every interface.
fn is_every_interface(site: &Site, set: &Ivs) -> bool
    ensures { result ≡ is_every_interface site.now set.now }
{
    match set.parts() {
        [iv] => iv.lo == 1 && u128::from(iv.hi) == site.faces.len() as u128 + 1,
        _ => false,
    }
}

/// Whether the test is printed: of one protocol, of addresses, of ports in at most thirty ranges, of flags,
/// of ICMP types, of one interface, of the direction, and of a tag.
fn is_printed_test(site: &Site, test: &Test) -> bool
    ensures { result ≡ is_printed_test site.now test.now }
{
    match test {
        Test::Proto(set) => is_number(255, set),
        Test::Src(set) => are_ranges(4294967295, set),
        Test::Dst(set) => are_ranges(4294967295, set),
        Test::Sport(set) => are_ranges(65535, set) && are_few(30, set),
        Test::Dport(set) => are_ranges(65535, set) && are_few(30, set),
        Test::Flags { mask, want } => are_flags(*mask, *want),
        Test::Icmp(set) => are_ranges(255, set),
        Test::Recv(set) => is_interface(site, set),
        Test::Outward => true,
        Test::Tag(n) => 0 < *n && *n <= 65534,
        Test::Est | Test::AnyFlag(_) | Test::Xmit(_) | Test::Via(_) | Test::Never => false,
    }
}

/// Whether the negated test is printed: `in`, and that no interface received the packet.
fn is_printed_negation(site: &Site, test: &Test) -> bool
    ensures { result ≡ is_printed_negation site.now test.now }
{
    match test {
        Test::Outward => true,
        Test::Recv(set) => is_every_interface(site, set),
        Test::Proto(_)
        | Test::Src(_)
        | Test::Dst(_)
        | Test::Sport(_)
        | Test::Dport(_)
        | Test::Flags { .. }
        | Test::Icmp(_)
        | Test::Tag(_)
        | Test::Est
        | Test::AnyFlag(_)
        | Test::Xmit(_)
        | Test::Via(_)
        | Test::Never => false,
    }
}

/// Whether the literal is printed.
fn is_printed_literal(site: &Site, lit: &Lit) -> bool
    ensures { result ≡ is_printed_literal site.now lit.now }
{
    if lit.not {
        is_printed_negation(site, &lit.test)
    } else {
        is_printed_test(site, &lit.test)
    }
}

/// Whether all literals are printed.
fn are_printed_literals(site: &Site, cond: &[Lit]) -> bool
    ensures { result ≡ list_all (is_printed_literal site.now) cond.now }
{
    cond.iter().all(|lit| is_printed_literal(site, lit))
}

/// Whether the tests stand in their order, none of them twice.
fn ascend(cond: &[Lit]) -> bool
    ensures { result ≡ ascend 0 cond.now }
{
    let mut least = 0u16;
    for lit in cond {
        let place = u16::from(place_of(&lit.test));
        if place < least {
            return false;
        }
        least = place + 1;
    }
    true
}

/// Whether the condition is printed.
pub fn is_printed_cond(site: &Site, cond: &[Lit]) -> bool
    ensures { result ≡ is_printed_cond site.now cond.now }
{
    ascend(cond) && are_printed_literals(site, cond)
}
