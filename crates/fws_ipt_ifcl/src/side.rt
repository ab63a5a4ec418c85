//! Where rules ask for the side of routing.

/// Where a block of rules that write ends asks for the side of routing on which it is met.
#[derive(Clone, Copy)]
pub(crate) enum SideTest {
    /// In its first rule, with the condition.
    First,
    /// In each rule that writes or accepts, so that the first rule acts wherever the condition holds.
    Each,
}
