//! What is written over numbers.

ghost use Rattle.std.specs.Prelude.{◌≤◌};

/// What is written over a number: a value over all its bits but the last ones, which are kept.
#[derive(Clone, Copy)]
pub(crate) struct Laid {
    /// The value. Its bits that are kept are 0.
    pub(crate) value: u32,
    /// How many of the last bits are kept.
    pub(crate) kept: u32,
    pub ghost short: { kept ≤ 32 },
}
