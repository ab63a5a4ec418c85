//! What conditions ask for.

ghost use Rattle.std.specs.Prelude.{◌≡◌};
ghost use Rattle.fws_print.specs.Sets.{first_number};
ghost use Rattle.fws_ios_print.specs.Printable.{is_class, is_state, place_of, protocol_tested, test_set, tested};

use fws_iv::Iv;
use fws_net::{Lit, Test};
use fws_print::first_number;

/// The place of a test in an entry.
pub fn place_of(test: &Test) -> u8
    ensures { result ≡ place_of test.now }
{
    match test {
        Test::Proto(_) => 0,
        Test::Src(_) => 1,
        Test::Sport(_) => 2,
        Test::Dst(_) => 3,
        Test::Dport(_) => 4,
        Test::Icmp(_) => 5,
        Test::AnyFlag(_) => 6,
        Test::Flags { .. }
        | Test::Via(_)
        | Test::Recv(_)
        | Test::Xmit(_)
        | Test::Outward
        | Test::Est
        | Test::Tag(_)
        | Test::Never => 7,
    }
}

/// The numbers that a test asks for, if it does.
fn test_set(test: &Test) -> &[Iv]
    ensures { result.now ≡ test_set test.now }
{
    match test {
        Test::Proto(set)
        | Test::Src(set)
        | Test::Sport(set)
        | Test::Dst(set)
        | Test::Dport(set)
        | Test::Icmp(set) => set.parts(),
        Test::AnyFlag(_)
        | Test::Flags { .. }
        | Test::Via(_)
        | Test::Recv(_)
        | Test::Xmit(_)
        | Test::Outward
        | Test::Est
        | Test::Tag(_)
        | Test::Never => &[],
    }
}

/// The numbers that a condition asks for at a place; none where it doesn't.
pub fn tested(cond: &[Lit], place: u8) -> &[Iv]
    ensures { result.now ≡ tested place cond.now }
{
    let mut left = cond;
    while let [lit, rest @ ..] = left {
        if place_of(&lit.test) == place {
            return test_set(&lit.test);
        }
        left = rest;
    }
    &[]
}

/// The protocol that a condition asks for; 0 where it asks for none.
pub fn protocol_tested(cond: &[Lit]) -> u32
    ensures { result ≡ protocol_tested cond.now }
{
    first_number(tested(cond, 0))
}

/// Whether the test is that of packets of connections.
fn is_class(test: &Test) -> bool
    ensures { result ≡ is_class test.now }
{
    match test {
        Test::Est => true,
        Test::Proto(_)
        | Test::Src(_)
        | Test::Sport(_)
        | Test::Dst(_)
        | Test::Dport(_)
        | Test::Icmp(_)
        | Test::AnyFlag(_)
        | Test::Flags { .. }
        | Test::Via(_)
        | Test::Recv(_)
        | Test::Xmit(_)
        | Test::Outward
        | Test::Tag(_)
        | Test::Never => false,
    }
}

/// Whether the condition asks whether a packet is of a connection, and for nothing else.
pub fn is_state(cond: &[Lit]) -> bool
    ensures { result ≡ is_state cond.now }
{
    match cond {
        [lit] => !lit.not && is_class(&lit.test),
        _ => false,
    }
}
