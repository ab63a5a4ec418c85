//! Where packets go, and what becomes of their class there.

ghost use Rattle.std.specs.Prelude.{◌≡◌, ◌<◌, ◌≤◌, ◌+◌, ◌-◌, ◌^◌, ℕ, List, true, IfOk};
ghost use Rattle.fws_flat.specs.declared.code.FlatAct.TheVariants as acts;
ghost use Rattle.fws_net.specs.declared.outcome.Outcome.{Outcome};
ghost use Rattle.fws_net.specs.declared.transit.Transit.{Transit};
ghost use Rattle.fws_exec.specs.declared.spot.Stage.{Stage as AnyStage};
ghost use Rattle.fws_exec.specs.Classes.{transit_of, meant};
ghost use Rattle.fws_exec.specs.Goings.{label_of, spot_of, Goes};

use crate::progress::Progress;
use crate::spot::{Class, Spot, Stage};
use fws_flat::FlatAct;
use fws_net::State;
use fws_num::Memory;
use std::alloc::Global;

/// Where packets go.
#[derive(Clone, Copy)]
pub(crate) enum Going {
    /// To the spot.
    To(Spot),
    /// Behind the instruction at this place of the stage, which acts like this.
    Behind(State, Stage, u32, FlatAct),
    /// Where an instruction of a run from this place on sends them: label 1 is accept, 2 is drop, and others tell how far a
    /// jump goes.
    Leaving(Stage, u32),
}

/// The label of an act in a run that begins at the place. Fails if memory runs out, and a jump that goes further than labels can
/// tell.
pub(crate) fn label_of(place: u32, act: FlatAct) -> Result<u32, Memory>
    ensures told { IfOk result (λ label. label ≡ label_of place act) }
    ensures some { IfOk result (λ label. 1 ≤ label) }
{
    match act {
        FlatAct::Accept => Ok(1),
        FlatAct::Jump(to) => label_to(place, to),
        _ => Ok(2),
    }
}

/// The label of a jump in a run that begins at the place.
fn label_to(place: u32, to: u32) -> Result<u32, Memory>
    ensures told { IfOk result (λ label. label ≡ (to - place) + 2) }
    ensures some { IfOk result (λ label. 1 ≤ label) }
{
    match to.saturating_sub(place).checked_add(2) {
        Some(label) => Ok(label),
        None => Err(Memory),
    }
}

/// The spot to which the label sends packets in a run that begins at the place. Fails if memory runs out, and a place that can't
/// be.
fn spot_of(stage: Stage, place: u32, label: u32) -> Result<Spot, Memory>
    ensures { IfOk result (λ spot. spot ≡ spot_of stage place label) }
{
    if label == 1 {
        return Ok(Spot::Before(stage));
    }
    if label <= 2 {
        return Ok(Spot::Dropped);
    }
    match place.checked_add(label - 2) {
        Some(to) => Ok(Spot::At(to)),
        None => Err(Memory),
    }
}

/// The class; one that is dropped has nothing behind it.
fn settled(alloc: Global, class: Class) -> Class
    ensures spot { result.spot ≡ class.spot }
    ensures meant { (at : ℕ → Transit → Outcome) (next : AnyStage → Transit → Outcome) (p : List ℕ) → meant at next result.spot (transit_of result.progress p) ≡ meant at next class.spot (transit_of class.progress p) }
{
    match class.spot {
        Spot::Dropped => Progress::entered(alloc).standing(Spot::Dropped),
        _ => class,
    }
}

/// Whether the act of an instruction at this place goes forward, and there may be a place behind it.
fn goes_forward(place: u32, act: FlatAct) -> bool
    ensures room { result ≡ true → place + 1 < 2 ^ 32 }
    ensures forward { result ≡ true → (to : ℕ) → act ≡ acts.Jump to → place < to }
{
    if place == u32::MAX {
        return false;
    }
    match act {
        FlatAct::Jump(to) => place < to,
        _ => true,
    }
}

impl Going {
    /// The class of packets that go, to which rules did this.
    fn place_class(self, alloc: Global, progress: Progress, label: u32) -> Result<Class, Memory>
        ensures { IfOk result (λ class. Goes self label progress class) }
    {
        match self {
            Going::To(spot) => Ok(progress.standing(spot)),
            Going::Behind(state, stage, place, act) => {
                if !goes_forward(place, act) {
                    return Err(Memory);
                }
                let class = progress.behind(alloc, state, stage, place, act)?;
                Ok(class)
            }
            Going::Leaving(stage, place) => {
                let spot = spot_of(stage, place, label)?;
                Ok(progress.standing(spot))
            }
        }
    }

    /// The class of packets that go, to which rules did this. One that is dropped has nothing behind it.
    pub(crate) fn class(
        self,
        alloc: Global,
        progress: &Progress,
        label: u32,
    ) -> Result<Class, Memory>
        ensures { IfOk result (λ class. Goes self label progress.now class) }
    {
        let copy = progress.copy(alloc)?;
        let class = self.place_class(alloc, copy, label)?;
        Ok(settled(alloc, class))
    }
}
