//! Drafts of instructions, put together from the end of the code.

use fws_flat::FlatAct;
use fws_ifcl::Place;
use fws_net::Cond;

/// What a draft does where its condition holds.
#[derive(Clone, Copy)]
pub(crate) enum DraftAct {
    /// An act that isn't a jump.
    Do(FlatAct),
    /// Goes on where this many instructions stand to the end of the code.
    Go(usize),
}

/// A draft of an instruction.
#[derive(Drop)]
pub(crate) struct Draft {
    /// Where it acts.
    pub(crate) cond: Cond,
    /// What it does there.
    pub(crate) act: DraftAct,
    /// The rule that it stands for, if it does.
    pub(crate) rule: Option<Place>,
}
