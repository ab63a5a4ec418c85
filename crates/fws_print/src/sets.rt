//! Sets that one option of a rule can name.

ghost use Rattle.std.specs.Prelude.{◌≡◌, ◌≤◌, ◌+◌, ◌&&◌, not, nat_eq, nat_le};
ghost use Rattle.std.specs.List.{list_all};
ghost use Rattle.fws_print.specs.Sets.{are_flags, are_ranges, ascend_from, first_number, is_interface, is_network, is_number, is_range};

use fws_iv::{Iv, Ivs};
use fws_net::Site;

/// Whether it is one number, up to a greatest one.
pub fn is_number(most: u128, set: &Ivs) -> bool
    ensures { result ≡ is_number most set.now }
{
    match set.parts() {
        [iv] => iv.lo == iv.hi && u128::from(iv.hi) <= most,
        _ => false,
    }
}

/// Whether it is one range of numbers, up to a greatest one.
pub fn is_range(most: u32, set: &Ivs) -> bool
    ensures { result ≡ is_range most set.now }
{
    match set.parts() {
        [iv] => iv.lo <= iv.hi && iv.hi <= most,
        _ => false,
    }
}

// Whether the range begins at a number or later, and ends by a greatest one.
fn follows(most: u32, from: u64, iv: Iv) -> bool
    ensures { result ≡ (nat_le from iv.lo && nat_le iv.lo iv.hi && nat_le iv.hi most) }
{
    from <= u64::from(iv.lo) && iv.lo <= iv.hi && iv.hi <= most
}

// Whether the ranges ascend up to a greatest number and don't touch.
fn ranges_ascend(most: u32, parts: &[Iv]) -> bool
    ensures { result ≡ ascend_from most 0 parts.now }
{
    let mut from = 0u64;
    for iv in parts {
        if !follows(most, from, *iv) {
            return false;
        }
        from = u64::from(iv.hi) + 2;
    }
    true
}

/// Whether there is at least one range, and all ascend up to a greatest number and don't touch.
pub fn are_ranges(most: u32, set: &Ivs) -> bool
    ensures { result ≡ are_ranges most set.now }
{
    let parts = set.parts();
    match parts {
        [] => false,
        [_, ..] => ranges_ascend(most, parts),
    }
}

// Whether no range begins at 0.
fn begin_behind_none(set: &Ivs) -> bool
    ensures { result ≡ list_all (λ iv. not (nat_eq iv.lo 0)) set.now }
{
    set.parts().iter().all(|iv| iv.lo != 0)
}

/// Whether it is the entry of loopback or of an interface of the site.
pub fn is_interface(site: &Site, set: &Ivs) -> bool
    ensures { result ≡ is_interface site.now set.now }
{
    is_number(site.faces.len() as u128 + 1, set) && begin_behind_none(set)
}

/// Whether the range has just the addresses that agree in their first `n` bits.
pub fn is_network(n: u8, iv: Iv) -> bool
    requires { n ≤ 32 }
    ensures { result ≡ is_network n iv }
{
    let size = 2u64.pow(u32::from(32 - n));
    u64::from(iv.lo) % size == 0 && u64::from(iv.hi) + 1 == u64::from(iv.lo) + size
}

/// Whether TCP flags are tested, and only such as are looked at are wanted.
pub fn are_flags(mask: u8, want: u8) -> bool
    ensures { result ≡ are_flags mask want }
{
    0 < mask && mask <= 63 && mask & want == want
}

/// The least number of the first range of a set; 0 where there is none.
pub fn first_number(set: &[Iv]) -> u32
    ensures { result ≡ first_number set.now }
{
    match set {
        [iv, ..] => iv.lo,
        [] => 0,
    }
}
