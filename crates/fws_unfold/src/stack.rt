//! The call stack: chains that wait for one that a rule of theirs enters.

ghost use Rattle.std.specs.Prelude.{◌≡◌, [], ◌∷◌, ◌++◌, None, OnOk, IfSome};
ghost use Rattle.fws_unfold.specs.Stacks.{frame_of, frames_of, IsEven};

use crate::frame::Frame;
use fws_num::{Items, Memory};
use smallvec::SmallVec;
use std::alloc::Global;

/// A frame without its starts.
#[derive(Clone, Copy, Default)]
pub(crate) struct Call {
    /// The chain.
    pub(crate) chain: u32,
    /// How many instructions stand where the walk goes on behind the end of the chain.
    pub(crate) back: usize,
    /// How many of its first rules aren't put yet.
    pub(crate) left: usize,
    /// How many instructions stood ahead of the chain that its next rule enters.
    pub(crate) next: usize,
}

/// The frames that wait, the first one first. A path has at most 64 chains.
#[derive(Drop)]
pub(crate) struct Stack {
    /// The frames.
    calls: SmallVec<Call, 64, Global>,
    /// Their starts.
    starts: Vec<Items<usize>>,
}

impl Call {
    /// The frame with these starts.
    fn with_starts(self, starts: Items<usize>) -> Frame
        ensures { result ≡ frame_of self starts }
    {
        Frame {
            chain: self.chain,
            back: self.back,
            left: self.left,
            starts,
            next: self.next,
        }
    }
}

impl Stack {
    /// No frame waits.
    pub(crate) fn new(alloc: Global) -> Stack
        ensures even { IsEven result }
        ensures none { frames_of result ≡ [] }
    {
        Stack {
            calls: SmallVec::new(alloc),
            starts: Vec::new(alloc),
        }
    }

    /// Puts a frame behind the others. If memory runs out the stack is of no use.
    pub(crate) fn push(&mut self, frame: Frame) -> Result<(), Memory>
        requires { IsEven self.old }
        ensures even { OnOk result (IsEven self.new) }
        ensures frames { OnOk result (frames_of self.new ≡ frames_of self.old ++ frame ∷ []) }
    {
        self.calls.push(Call {
            chain: frame.chain,
            back: frame.back,
            left: frame.left,
            next: frame.next,
        })?;
        self.starts.push(frame.starts)?;
        Ok(())
    }

    /// Takes the last frame; none where there is none.
    pub(crate) fn pop(&mut self) -> Option<Frame>
        requires { IsEven self.old }
        ensures even { IsEven self.new }
        ensures none { result ≡ None → frames_of self.old ≡ [] }
        ensures last { IfSome result (λ frame. frames_of self.old ≡ frames_of self.new ++ frame ∷ []) }
    {
        match (self.calls.pop(), self.starts.pop()) {
            (Some(call), Some(starts)) => Some(call.with_starts(starts)),
            _ => None,
        }
    }
}
