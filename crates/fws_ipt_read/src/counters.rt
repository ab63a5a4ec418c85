//! Counters of packets and bytes, as iptables-save(8) writes them.

ghost use Rattle.std.specs.Prelude.{◌≡◌};
ghost use Rattle.fws_ipt.specs.FileText.{is_count, closes_counter, are_counters, is_counters};

use fws_num::{read_dec, split_once};

/// Whether it is a number of 64 bits.
fn is_count(text: &[u8]) -> bool
    ensures { result ≡ is_count text.now }
{
    read_dec(text, u64::MAX).is_some()
}

/// Whether it is a number with a closing bracket and nothing more.
fn closes_counter(text: &[u8]) -> bool
    ensures { result ≡ closes_counter text.now }
{
    match split_once(text, b']') {
        Some((count, rest)) => is_count(count) && rest.is_empty(),
        None => false,
    }
}

/// Whether it is two numbers with a colon between, up to the closing bracket.
fn are_counters(text: &[u8]) -> bool
    ensures { result ≡ are_counters text.now }
{
    match split_once(text, b':') {
        Some((packets, bytes)) => is_count(packets) && closes_counter(bytes),
        None => false,
    }
}

/// Whether it is two numbers in brackets, as in `[12:720]`.
pub(crate) fn is_counters(text: &[u8]) -> bool
    ensures { result ≡ is_counters text.now }
{
    match text {
        [b'[', rest @ ..] => are_counters(rest),
        _ => false,
    }
}
