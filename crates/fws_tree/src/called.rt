//! Values that are called, by their numbers.

ghost use Rattle.std.specs.Prelude.{◌≡◌, ◌≢◌, ℕ, true, nat_eq, IfOk, bit_and};
ghost use Rattle.std.specs.HashSet.{contains};
ghost use Rattle.fws_tree.specs.Bits.{bits_in};
ghost use Rattle.fws_tree.specs.Touched.{is_called};

use crate::values::Values;
use fws_num::Memory;
use std::alloc::Global;
use std::collections::HashSet;

/// The numbers as a set.
pub(crate) fn called_of(alloc: Global, numbers: &[u32]) -> Result<HashSet<u32>, Memory>
    ensures { IfOk result (λ called. (n : ℕ) → contains nat_eq called n ≡ is_called numbers.now n) }
{
    let mut called = HashSet::new(alloc);
    for number in numbers {
        called.insert(*number)?;
    }
    Ok(called)
}

/// The bits of the values with these numbers.
pub(crate) fn bits_of(values: &Values, numbers: &[u32]) -> u64 {
    let mut bits = 0;
    for number in numbers {
        bits |= values.bits_of(*number);
    }
    bits
}

/// Whether each of the values with these numbers has one of the bits.
pub(crate) fn have_bits(values: &Values, numbers: &[u32], bits: u64) -> bool
    ensures { result ≡ true → (n : ℕ) → is_called numbers.now n ≡ true → bit_and (bits_in values.now n) bits ≢ 0 }
{
    for number in numbers {
        if values.bits_of(*number) & bits == 0 {
            return false;
        }
    }
    true
}
