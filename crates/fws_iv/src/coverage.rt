//! How a range of numbers lies to a set.

/// How much of a range lies in a set.
#[derive(Clone, Copy, Debug, PartialEq, Eq)]
pub enum Overlap {
    /// None of it.
    Apart,
    /// All of it.
    Whole,
    /// Some of it, and some not.
    Part,
}
