//! Equal tests and literals. False tells nothing.

ghost use Rattle.std.specs.Prelude.{◌≡◌, ◌≤◌, true, length, take};

use fws_iv::Ivs;
use fws_net::{Lit, Test};

/// Whether the sets are equal.
fn same_set(a: &Ivs, b: &Ivs) -> bool
    ensures { result ≡ true → a.now ≡ b.now }
{
    a.parts() == b.parts()
}

/// Whether the tests are equal.
fn same_test(a: &Test, b: &Test) -> bool
    ensures { result ≡ true → a.now ≡ b.now }
{
    match (a, b) {
        (Test::Src(one), Test::Src(other)) => same_set(one, other),
        (Test::Dst(one), Test::Dst(other)) => same_set(one, other),
        (Test::Sport(one), Test::Sport(other)) => same_set(one, other),
        (Test::Dport(one), Test::Dport(other)) => same_set(one, other),
        (Test::Proto(one), Test::Proto(other)) => same_set(one, other),
        (Test::Icmp(one), Test::Icmp(other)) => same_set(one, other),
        (
            Test::Flags { mask, want },
            Test::Flags {
                mask: other,
                want: wanted,
            },
        ) => *mask == *other && *want == *wanted,
        (Test::AnyFlag(one), Test::AnyFlag(other)) => *one == *other,
        (Test::Recv(one), Test::Recv(other)) => same_set(one, other),
        (Test::Xmit(one), Test::Xmit(other)) => same_set(one, other),
        (Test::Via(one), Test::Via(other)) => same_set(one, other),
        (Test::Outward, Test::Outward) => true,
        (Test::Est, Test::Est) => true,
        (Test::Tag(one), Test::Tag(other)) => *one == *other,
        (Test::Never, Test::Never) => true,
        _ => false,
    }
}

/// Whether the literals are equal.
fn same_lit(a: &Lit, b: &Lit) -> bool
    ensures { result ≡ true → a.now ≡ b.now }
{
    a.not == b.not && same_test(&a.test, &b.test)
}

/// How many of the first literals are equal.
fn equal_front(a: &[Lit], b: &[Lit]) -> usize
    ensures same { take result a.now ≡ take result b.now }
    ensures first { result ≤ length a.now }
    ensures second { result ≤ length b.now }
{
    let mut count = 0;
    while count < a.len() && count < b.len() {
        if !same_lit(&a[count], &b[count]) {
            return count;
        }
        count += 1;
    }
    count
}

/// Whether the lists of literals are equal.
pub(crate) fn same_lits(a: &[Lit], b: &[Lit]) -> bool
    ensures { result ≡ true → a.now ≡ b.now }
{
    if a.len() != b.len() {
        return false;
    }
    equal_front(a, b) == a.len()
}
