//! What an instruction makes of a class.

ghost use Rattle.std.specs.Prelude.{◌≡◌, ◌<◌, ◌+◌, ◌^◌, ℕ, List, false, IfOk};
ghost use Rattle.fws_net.specs.declared.outcome.Outcome.{Outcome};
ghost use Rattle.fws_net.specs.declared.transit.Transit.{Transit};
ghost use Rattle.fws_net.specs.Points.{packet_of};
ghost use Rattle.fws_flat.specs.declared.code.FlatAct.TheVariants as acts;
ghost use Rattle.fws_flat.specs.Walk.{step_of};
ghost use Rattle.fws_exec.specs.declared.spot.Stage.{Stage as AnyStage};
ghost use Rattle.fws_exec.specs.Goings.{act_spot};
ghost use Rattle.fws_exec.specs.Classes.{kind_of, transit_of, meant, meant_behind, is_before, is_unused};

use crate::progress::Progress;
use crate::spot::{Class, Spot, Stage};
use fws_flat::FlatAct;
use fws_net::State;
use fws_num::Memory;
use std::alloc::Global;

impl Progress {
    /// The class of packets to which rules did this, at a spot.
    pub(crate) fn standing(self, spot: Spot) -> Class
        ensures { result ≡ record { spot = spot; progress = self } }
    {
        Class {
            spot,
            progress: self,
        }
    }

    /// The class of the packets behind the instruction at this place of the stage, which acts like this on
    /// them.
    pub(crate) fn behind(
        self,
        alloc: Global,
        state: State,
        stage: Stage,
        place: u32,
        act: FlatAct,
    ) -> Result<Class, Memory>
        requires room { place + 1 < 2 ^ 32 }
        requires forward { (to : ℕ) → act ≡ acts.Jump to → place < to }
        ensures meant { IfOk result (λ c. (at : ℕ → Transit → Outcome) (next : AnyStage → Transit → Outcome) (p : List ℕ) → meant at next c.spot (transit_of c.progress p) ≡ meant_behind at next stage place (step_of (packet_of p) (kind_of state p) act (transit_of self p))) }
        ensures spot { IfOk result (λ c. c.spot ≡ act_spot stage place act) }
        ensures behind { IfOk result (λ c. is_before (place + 1) c.spot ≡ false) }
        ensures used { IfOk result (λ c. is_unused c.spot ≡ false) }
    {
        let spot = Spot::At(place + 1);
        match act {
            FlatAct::Accept => Ok(self.standing(Spot::Before(stage))),
            FlatAct::Drop => Ok(self.standing(Spot::Dropped)),
            FlatAct::Hold(accepts) => Ok(self.with_verdict(accepts).standing(spot)),
            FlatAct::Jump(to) => Ok(self.standing(Spot::At(to))),
            FlatAct::Src(end) => Ok(self.with_src(end).standing(spot)),
            FlatAct::Dst(end) => Ok(self.with_dst(end).standing(spot)),
            FlatAct::RecSrc => Ok(self.with_tracked_src(state).standing(spot)),
            FlatAct::RecDst => Ok(self.with_tracked_dst(state).standing(spot)),
            FlatAct::AddTag(tag) => Ok(self.with_tag(tag)?.standing(spot)),
            FlatAct::OnlyTag(tag) => Ok(self.with_only_tag(alloc, tag)?.standing(spot)),
            FlatAct::DelTag(tag) => Ok(self.without_tag(alloc, tag)?.standing(spot)),
        }
    }
}
