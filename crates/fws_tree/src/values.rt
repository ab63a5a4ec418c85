//! The bits of values, by number.

ghost use Rattle.std.specs.Prelude.{◌≡◌, ◌<◌, ◌^◌, ◌++◌, ◌∷◌, [], take, length, IfOk, OnOk, OnErr, All};
ghost use Rattle.fws_tree.specs.Bits.{bits_in};
ghost use Rattle.fws_tree.specs.Building.{Extends};

use fws_num::Memory;
use std::alloc::Global;
use std::marker::Model;

/// The bits of values. A value's number is its place.
#[derive(Drop)]
pub struct Values {
    bits: Vec<u64>,
}

impl Model for Values {
    ghost use Rattle.std.specs.Prelude.{ℕ, List, All, ◌<◌, ◌^◌};

    ghost Value = { List ℕ };

    ghost view = { λ v. v.bits.items };

    ghost invariant = { λ v. All (λ b. b < 2 ^ 64) v.bits.items };
}

impl Values {
    /// No value.
    pub fn new(alloc: Global) -> Values
        ensures { result ≡ [] }
    {
        Values {
            bits: Vec::new(alloc),
        }
    }

    /// Adds a value with these bits, and gives its number. Fails if memory runs out, and so is a number past 2^32 - 1; after it the
    /// values are as before.
    pub fn add(&mut self, bits: u64) -> Result<u32, Memory>
        ensures number { IfOk result (λ n. n ≡ length self.old) }
        ensures added { OnOk result (self.new ≡ self.old ++ bits ∷ []) }
        ensures unchanged { OnErr result (self.new ≡ self.old) }
        ensures extends { Extends self.old self.new }
        ensures bounded { All (λ b. b < 2 ^ 64) self.new }
    {
        let Ok(number) = u32::try_from(self.bits.len()) else {
            return Err(Memory);
        };
        self.bits.push(bits)?;
        Ok(number)
    }

    /// The bits of a value; all 64 of them for a number that no value has.
    pub fn bits_of(&self, value: u32) -> u64
        ensures { result ≡ bits_in self.now value }
    {
        self.bits.get(value as usize).copied().unwrap_or(u64::MAX)
    }

    /// Takes away the values behind the first so many.
    pub(crate) fn keep_first(&mut self, count: usize)
        ensures { self.new ≡ take count self.old }
    {
        self.bits.truncate(count);
    }

    /// How many values there are.
    pub fn len(&self) -> usize
        ensures { result ≡ length self.now }
    {
        self.bits.len()
    }

    // What holds of the bits of all values.
    pub(crate) fn told(&self) -> &[u64]
        ensures value { result.now ≡ self.now }
        ensures bounded { All (λ b. b < 2 ^ 64) self.now }
    {
        self.bits.as_slice()
    }
}
