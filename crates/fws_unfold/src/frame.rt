//! Chains whose code is being put together from its end.

use fws_num::Items;

/// A chain whose code is being put: its rules from some place on are.
#[derive(Drop)]
pub(crate) struct Frame {
    /// The chain.
    pub(crate) chain: u32,
    /// How many instructions stand where the walk goes on behind the end of the chain.
    pub(crate) back: usize,
    /// How many of its first rules aren't put yet.
    pub(crate) left: usize,
    /// Where the rules that are put begin, the last first.
    pub(crate) starts: Items<usize>,
    /// Where its next rule enters a chain that is being put: how many instructions stood ahead of that.
    pub(crate) next: usize,
}

/// What the next rule of a frame, from the end, comes to.
#[derive(Drop)]
pub(crate) enum Stepped {
    /// There is none: the whole chain is put.
    Whole,
    /// The rule is put.
    Onwards(Frame),
    /// The rule enters a chain, that of the second frame, for which the first one waits.
    Entered(Frame, Frame),
}
