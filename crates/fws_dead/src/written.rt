//! Where two writings over numbers differ.

ghost use Rattle.std.specs.Prelude.{◌≡◌, ◌≢◌, ℕ, ◌≤◌, ◌<◌, ◌^◌, true, unwrap_or, MatchOption};
ghost use Rattle.fws_dead.specs.Laid.{laid_over, next_block};
ghost use Rattle.fws_iv.specs.Ivs.{has};
ghost use Rattle.fws_net.specs.Fates.{written_addr, written_port};

use crate::laid::Laid;
use fws_iv::Ivs;
use fws_net::End;

/// What an end writes over addresses.
pub(crate) fn laid_addr(end: Option<End>) -> Laid
    ensures { (x : ℕ) → x < 2 ^ 32 → written_addr end x ≡ laid_over result x }
{
    match end {
        Some(end) => Laid {
            value: end.addr,
            kept: 32 - u32::from(end.len),
        },
        None => Laid { value: 0, kept: 32 },
    }
}

/// What a port, if there is one, writes over ports.
fn laid_number(port: Option<u16>) -> Laid
    ensures { (x : ℕ) → x < 2 ^ 16 → unwrap_or port x ≡ laid_over result x }
{
    match port {
        Some(port) => Laid {
            value: u32::from(port),
            kept: 0,
        },
        None => Laid { value: 0, kept: 16 },
    }
}

/// What an end writes over ports.
pub(crate) fn laid_port(end: Option<End>) -> Laid
    ensures { (x : ℕ) → x < 2 ^ 16 → written_port end x ≡ laid_over result x }
{
    match end {
        Some(end) => laid_number(end.port),
        None => laid_number(None),
    }
}

/// The number with the value over it.
fn laid_over(laid: Laid, x: u64) -> u64
    requires { x < 2 ^ 32 }
    ensures { result ≡ laid_over laid x }
{
    u64::from(laid.value) + x % 2u64.pow(laid.kept)
}

/// The first number behind `x` of which the bits but for the last ones are others.
fn next_block(x: u32, kept: u32) -> u64
    requires { kept ≤ 32 }
    ensures { result ≡ next_block x kept }
{
    let block = 2u64.pow(kept);
    u64::from(x) - u64::from(x) % block + block
}

/// A number from `lo` to `hi` over which the two write different values, if there is one. Where they write the same over
/// `lo`, they do so over all numbers that agree with it in the bits that one of them writes; and if they don't write
/// equally many bits, they differ over the numbers that follow on these.
fn apart_between(lo: u32, hi: u32, a: Laid, b: Laid) -> Option<u32>
    requires { lo ≤ hi }
    ensures { MatchOption result ((x : ℕ) → lo ≤ x → x ≤ hi → laid_over a x ≡ laid_over b x) (λ x. (lo ≤ x) × (x ≤ hi) × (laid_over a x ≢ laid_over b x)) }
{
    let first = u64::from(lo);
    if laid_over(a, first) != laid_over(b, first) {
        return Some(lo);
    }
    let next = next_block(lo, a.kept.min(b.kept));
    if next > u64::from(hi) {
        return None;
    }
    if laid_over(a, next) != laid_over(b, next) {
        return Some(next as u32);
    }
    None
}

/// A member of the set over which the two write different values, if there is one. The time is linear in the number of
/// intervals.
pub(crate) fn first_apart(set: &Ivs, a: Laid, b: Laid) -> Option<u32>
    ensures { MatchOption result ((x : ℕ) → has set.now x ≡ true → laid_over a x ≡ laid_over b x) (λ x. (has set.now x ≡ true) × (laid_over a x ≢ laid_over b x)) }
{
    for part in set.parts() {
        let found = apart_between(part.lo, part.hi, a, b);
        if found.is_some() {
            return found;
        }
    }
    None
}
