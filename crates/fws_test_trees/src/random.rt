//! Numbers that look random, the same ones in each run.

ghost use Rattle.std.specs.Prelude.{◌<◌};

/// A generator of numbers: xorshift over 64 bits.
#[derive(Drop)]
pub struct Random {
    state: u64,
}

impl Random {
    /// The generator of a seed.
    pub fn new(seed: u64) -> Random {
        Random {
            state: seed.wrapping_mul(0x9e37_79b9_7f4a_7c15) | 1,
        }
    }

    /// The next number; each from 0 up to `end`, without it, is about equally likely.
    pub fn below(&mut self, end: u32) -> u32
        requires { 0 < end }
        ensures { result < end }
    {
        self.state ^= self.state << 13;
        self.state ^= self.state >> 7;
        self.state ^= self.state << 17;
        ((self.state >> 32) % u64::from(end)) as u32
    }

    /// A seed for another generator.
    pub fn seed(&mut self) -> u64 {
        u64::from(self.below(u32::MAX))
    }

    /// Whether a chance of one in `end` came.
    pub fn one_in(&mut self, end: u32) -> bool
        requires { 0 < end }
    {
        self.below(end) == 0
    }
}
