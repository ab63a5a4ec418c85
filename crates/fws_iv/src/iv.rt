//! One interval.

/// The numbers from `lo` to `hi`, both among them.
#[derive(Clone, Copy, Debug, Default, PartialEq, Eq, PartialOrd, Ord, Hash)]
pub struct Iv {
    /// The least number.
    pub lo: u32,
    /// The greatest number.
    pub hi: u32,
}
