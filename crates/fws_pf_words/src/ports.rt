//! Ports as words say them (pf.conf(5)).

ghost use Rattle.std.specs.Prelude.{◌≡◌, ◌+◌, ◌++◌, ◌≤◌, option_and_then, IfOk, IfSome};
ghost use Rattle.fws_net.specs.Ports.{in_order};
ghost use Rattle.fws_num.specs.Services.{ports_between};
ghost use Rattle.fws_net.specs.Reading.{CauseGiven};
ghost use Rattle.fws_pf.specs.Values.{compared_ports, from_below, operator_named, operator_of, port_range_part, ports_by_ends, ports_outside};

use fws_iv::{Ivs, one};
use fws_net::{Cause, ReadFault};
use fws_num::{Memory, Word, read_ports_between, value_named};
use fws_pf::{Operator, Part};
use std::alloc::Global;

/// Operators by the punctuation that stands for them.
const OPERATORS: [(&[u8], Operator); 6] = [
    (b"=", Operator::Equal),
    (b"!=", Operator::Unequal),
    (b"<", Operator::Less),
    (b"<=", Operator::AtMost),
    (b">", Operator::Greater),
    (b">=", Operator::AtLeast),
];

/// The numbers from `lo` on and below the end.
fn from_below(alloc: Global, lo: u32, end: u32) -> Result<Ivs, Memory>
    ensures { IfOk result (λ s. s ≡ from_below lo end) }
{
    if lo < end {
        one(alloc, lo, end - 1)
    } else {
        Ok(Ivs::none(alloc))
    }
}

/// The ports less than the first one or greater than the second.
#[tactic(auto, using(crate::proofs::Outside::outside_both, crate::proofs::Outside::outside_below))]
fn outside(alloc: Global, a: u16, b: u16) -> Result<Ivs, Memory>
    requires { a ≤ b }
    ensures { IfOk result (λ s. s ≡ from_below 0 a ++ from_below (b + 1) 65536) }
{
    let below = from_below(alloc, 0, u32::from(a))?;
    if b == 65535 {
        return Ok(below);
    }
    let set = below.with_range(alloc, u32::from(b) + 1, 65535)?;
    Ok(set)
}

/// The ports that an operator compares so with `n`.
pub(crate) fn compared_ports(alloc: Global, operator: Operator, n: u16) -> Result<Ivs, Memory>
    ensures { IfOk result (λ s. s ≡ compared_ports operator n) }
{
    match operator {
        Operator::Equal => one(alloc, u32::from(n), u32::from(n)),
        Operator::Unequal => outside(alloc, n, n),
        Operator::Less => from_below(alloc, 0, u32::from(n)),
        Operator::AtMost => from_below(alloc, 0, u32::from(n) + 1),
        Operator::Greater => from_below(alloc, u32::from(n) + 1, 65536),
        Operator::AtLeast => from_below(alloc, u32::from(n), 65536),
    }
}

/// The ports less than `a` or greater than `b`, of which each may be the greater one.
fn ports_outside(alloc: Global, a: u16, b: u16) -> Result<Ivs, Memory>
    ensures { IfOk result (λ s. s ≡ ports_outside a b) }
{
    if a <= b {
        outside(alloc, a, b)
    } else {
        one(alloc, 0, 65535)
    }
}

/// The ports greater than `a` and less than `b`, or else outside of these.
pub(crate) fn ports_by_ends(alloc: Global, is_outside: bool, a: u16, b: u16) -> Result<Ivs, Memory>
    ensures { IfOk result (λ s. s ≡ ports_by_ends is_outside a b) }
{
    if is_outside {
        ports_outside(alloc, a, b)
    } else {
        from_below(alloc, u32::from(a) + 1, u32::from(b))
    }
}

/// The operator of this name.
#[tactic(auto, unfolding(fws_pf::specs::Values::operator_named))]
fn operator_named(text: &[u8]) -> Option<Operator>
    ensures { result ≡ operator_named text.now }
{
    value_named(&OPERATORS, text)
}

/// The operator that punctuation stands for.
pub(crate) fn operator_of(w: &Word) -> Option<Operator>
    ensures { result ≡ operator_of w.now }
{
    if w.quoted {
        None
    } else {
        operator_named(w.text.as_slice())
    }
}

/// Two ports with a colon between, the first no greater.
fn read_range(text: &[u8]) -> Option<(u16, u16)>
    ensures value { result ≡ option_and_then in_order (ports_between 58 text.now) }
    ensures in_order { IfSome result (λ r. r.0 ≤ r.1) }
{
    let (lo, hi) = read_ports_between(b':', text)?;
    if lo <= hi { Some((lo, hi)) } else { None }
}

/// The ports of a range.
pub(crate) fn port_range_part(alloc: Global, text: &[u8]) -> Result<Part, ReadFault>
    ensures { CauseGiven result (port_range_part text.now) }
{
    match read_range(text) {
        Some((lo, hi)) => Ok(Part::Set(one(alloc, u32::from(lo), u32::from(hi))?)),
        None => Err(ReadFault::Bad(Cause::Syntax)),
    }
}
