//! Sixteen leaves.

/// A leaf: one of sixteen, by the bits of its number.
pub type Tag = ((bool, bool), (bool, bool));

/// The leaf with this number, of which the lowest four bits count.
pub fn tag(number: u32) -> Tag {
    (
        (number & 1 != 0, number & 2 != 0),
        (number & 4 != 0, number & 8 != 0),
    )
}
