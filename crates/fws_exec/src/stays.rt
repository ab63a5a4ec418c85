//! Which classes an instruction leaves as they are.

ghost use Rattle.std.specs.Prelude.{◌≡◌, ℕ, true, slice_get, Some, IfOk};
ghost use Rattle.fws_exec.specs.declared.spot.Class.{Class as AnyClass};
ghost use Rattle.fws_exec.specs.Goings.{Goes};
ghost use Rattle.fws_exec.specs.Sheets.{among};

use crate::going::Going;
use crate::progress::Progress;
use crate::roll::Roll;
use crate::spot::Spot;
use fws_flat::FlatAct;
use fws_net::State;
use fws_num::Memory;
use std::alloc::Global;

impl Progress {
    /// Whether the act may leave the packets to which rules did this as they are. Nothing hangs on it but time.
    fn may_stay(&self, state: State, act: FlatAct) -> bool {
        match act {
            FlatAct::Accept => false,
            FlatAct::Drop => false,
            FlatAct::Jump(_) => false,
            FlatAct::Hold(accepts) => self.verdict == accepts,
            FlatAct::Src(end) => self.wrote.src == Some(end),
            FlatAct::Dst(end) => self.wrote.dst == Some(end),
            FlatAct::RecSrc => state == State::Fresh || self.src_tracked,
            FlatAct::RecDst => state == State::Fresh || self.dst_tracked,
            FlatAct::AddTag(tag) => self.has_tag(tag),
            FlatAct::OnlyTag(tag) => self.has_tag(tag) && self.tags.len() == 1,
            FlatAct::DelTag(tag) => !self.has_tag(tag),
        }
    }
}

impl Going {
    /// Whether packets to which rules did this may be at the next place what they were, once they went. Nothing hangs on it
    /// but time.
    fn may_stay(self, progress: &Progress) -> bool {
        match self {
            Going::Behind(state, _, _, act) => progress.may_stay(state, act),
            _ => false,
        }
    }
}

impl Roll {
    /// Whether the packets of the class with this number that go at label 1 stand at the spot then, and rules did the same to them
    /// as before. False tells nothing. Fails if memory runs out, or at a class that isn't used.
    fn stays(&self, alloc: Global, number: u32, going: Going, spot: Spot) -> Result<bool, Memory>
        ensures { IfOk result (λ stays. stays ≡ true → (c : AnyClass) → slice_get self.now.classes.items number ≡ Some c → Goes going 1 c.progress (record { spot = spot; progress = c.progress })) }
    {
        let class = self.used(number)?;
        if !going.may_stay(&class.progress) {
            return Ok(false);
        }
        let gone = going.class(alloc, &class.progress, 1)?;
        Ok(gone.is(spot, &class.progress))
    }

    /// Those of the numbers whose classes stand at the spot, as they are, when they go at label 1. Fails if memory runs out, or at
    /// a class that isn't used.
    pub(crate) fn stayers(
        &self,
        alloc: Global,
        numbers: &[u32],
        going: Going,
        spot: Spot,
    ) -> Result<Vec<u32>, Memory>
        ensures inside { IfOk result (λ stayers. (n : ℕ) → among stayers.items n ≡ true → among numbers.now n ≡ true) }
        ensures stay { IfOk result (λ stayers. (n : ℕ) (c : AnyClass) → among stayers.items n ≡ true → slice_get self.now.classes.items n ≡ Some c → Goes going 1 c.progress (record { spot = spot; progress = c.progress })) }
    {
        let mut stayers = Vec::new(alloc);
        for number in numbers {
            let stays = self.stays(alloc, *number, going, spot)?;
            if !stays {
                continue;
            }
            stayers.push(*number)?;
        }
        Ok(stayers)
    }
}
