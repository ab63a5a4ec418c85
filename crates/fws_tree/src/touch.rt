//! Labels that occur, each with a point.

/// A label that occurs, and a point at which it does.
#[derive(Clone, Copy, Debug)]
pub struct Touch {
    /// The label, at least 1.
    pub label: u32,
    /// The point.
    pub point: [u32; 12],
}
