//! What conditions ask for.

ghost use Rattle.std.specs.Prelude.{◌≡◌};
ghost use Rattle.fws_print.specs.Sets.{first_number};
ghost use Rattle.fws_pf_print.specs.Printable.{place_of, protocol_tested, test_set, tested};
ghost use Rattle.fws_pf_print.specs.PrintedText.{is_host_place, tests_flags, tests_hosts};

use fws_iv::Iv;
use fws_net::{Lit, Test};
use fws_print::first_number;

/// The place of a test in a rule.
pub fn place_of(test: &Test) -> u8
    ensures { result ≡ place_of test.now }
{
    match test {
        Test::Via(_) => 0,
        Test::Proto(_) => 1,
        Test::Src(_) => 2,
        Test::Sport(_) => 3,
        Test::Dst(_) => 4,
        Test::Dport(_) => 5,
        Test::Flags { .. } => 6,
        Test::Icmp(_) => 7,
        Test::Tag(_) => 8,
        Test::Recv(_)
        | Test::Xmit(_)
        | Test::Outward
        | Test::Est
        | Test::AnyFlag(_)
        | Test::Never => 9,
    }
}

/// The numbers that a test asks for, if it does.
fn test_set(test: &Test) -> &[Iv]
    ensures { result.now ≡ test_set test.now }
{
    match test {
        Test::Via(set)
        | Test::Proto(set)
        | Test::Src(set)
        | Test::Sport(set)
        | Test::Dst(set)
        | Test::Dport(set)
        | Test::Icmp(set) => set.parts(),
        Test::Flags { .. }
        | Test::Tag(_)
        | Test::Recv(_)
        | Test::Xmit(_)
        | Test::Outward
        | Test::Est
        | Test::AnyFlag(_)
        | Test::Never => &[],
    }
}

/// The numbers that a condition asks for at a place; none where it doesn't.
pub fn tested(cond: &[Lit], place: u8) -> &[Iv]
    ensures { result.now ≡ tested place cond.now }
{
    let mut left = cond;
    while let [lit, rest @ ..] = left {
        if place_of(&lit.test) == place {
            return test_set(&lit.test);
        }
        left = rest;
    }
    &[]
}

/// The protocol that a condition asks for; 0 where it asks for none.
pub fn protocol_tested(cond: &[Lit]) -> u32
    ensures { result ≡ protocol_tested cond.now }
{
    first_number(tested(cond, 1))
}

/// Whether addresses or ports are tested at this place.
fn is_host_place(place: u8) -> bool
    ensures { result ≡ is_host_place place }
{
    2 <= place && place <= 5
}

/// Whether the condition asks for addresses or ports.
pub fn tests_hosts(cond: &[Lit]) -> bool
    ensures { result ≡ tests_hosts cond.now }
{
    cond.iter().any(|lit| is_host_place(place_of(&lit.test)))
}

/// Whether the condition asks for flags.
pub fn tests_flags(cond: &[Lit]) -> bool
    ensures { result ≡ tests_flags cond.now }
{
    cond.iter().any(|lit| place_of(&lit.test) == 6)
}
