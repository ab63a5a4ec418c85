//! Sets that one option spells.

ghost use Rattle.std.specs.Prelude.{◌≡◌, ◌≤◌, ◌&&◌, nat_eq, nat_le};
ghost use Rattle.std.specs.List.{list_any};
ghost use Rattle.fws_ipt.specs.Spelled.{is_block, is_prefix_set};
ghost use Rattle.fws_ipt_print.specs.Printable.{all_places, are_ports, places_of};

use fws_iv::{Iv, Ivs};
use fws_print::are_ranges;

/// Whether 0 is the least number of a range.
pub fn begins_at_none(set: &Ivs) -> bool
    ensures { result ≡ list_any (λ iv. nat_eq iv.lo 0) set.now }
{
    set.parts().iter().any(|iv| iv.lo == 0)
}

/// The places that a range takes in a list of ports: one for a single port, and else two.
fn places_of(iv: Iv) -> u64
    ensures { result ≡ places_of iv }
{
    if iv.lo == iv.hi { 1 } else { 2 }
}

/// Whether the ranges take at most fifteen places.
fn has_few_places(parts: &[Iv]) -> bool
    ensures { result ≡ nat_le (all_places parts.now) 15 }
{
    let mut places = 0u64;
    for iv in parts {
        places += places_of(*iv);
        if places > 15 {
            return false;
        }
    }
    true
}

/// Whether one list holds the ports: at least one range, and at most fifteen places.
pub fn are_ports(set: &Ivs) -> bool
    ensures { result ≡ are_ports set.now }
{
    are_ranges(65535, set) && has_few_places(set.parts())
}

/// Whether they are the addresses that agree with one in their first bits.
fn is_block(len: u8, set: &Ivs) -> bool
    requires { len ≤ 32 }
    ensures { result ≡ is_block len set.now }
{
    let size = 2u64.pow(u32::from(32 - len));
    match set.parts() {
        [iv] => {
            u64::from(iv.lo) % size == 0 && u64::from(iv.hi) == u64::from(iv.lo) + (size - 1)
        }
        _ => false,
    }
}

/// Whether they are the addresses of a prefix of this length, or of a longer one.
pub fn is_prefix_set(len: u8, set: &Ivs) -> bool
    ensures { result ≡ is_prefix_set len set.now }
{
    for n in len..33 {
        if is_block(n, set) {
            return true;
        }
    }
    false
}
