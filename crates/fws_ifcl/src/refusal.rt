//! Why diagrams can't be unfolded.

/// Why the calls of a diagram can't be unfolded, with the number of the chain that shows it.
#[derive(Clone, Copy, Debug, PartialEq, Eq)]
pub enum UnfoldRefusal {
    /// The chain reaches itself.
    Loop(u32),
    /// A path of more than 64 chains begins at the chain.
    Deep(u32),
    /// With the chain the unfolded rules pass 1,000,000.
    Long(u32),
}
