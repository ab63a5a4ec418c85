//! What entries do.

/// What an entry does.
#[derive(Clone, Copy, Debug, PartialEq, Eq)]
pub struct Act {
    /// Whether packets on its path pass.
    pub permit: bool,
    /// Whether it keeps state of the packets that it permits.
    pub reflect: bool,
    /// Whether it decides on packets with ACK or RST alone.
    pub established: bool,
}
