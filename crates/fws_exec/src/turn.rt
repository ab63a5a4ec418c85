//! How classes enter parts and leave them.

ghost use Rattle.std.specs.Prelude.{◌≡◌, ℕ, slice_get, option_map};
ghost use Rattle.fws_exec.specs.Sheets.{IsSheet};
ghost use Rattle.fws_exec.specs.Stages.{turned};

use crate::progress::Progress;
use crate::sheet::Sheet;
use crate::spot::{Class, Spot, Stage};
use fws_flat::Part;
use std::alloc::Global;

/// Where all classes enter a part or leave it.
#[derive(Clone, Copy)]
pub(crate) enum Turn {
    /// Classes before the stage come to the first instruction of the part, with its verdict.
    Enter(Part, Stage),
    /// Classes behind the last instruction go on before the stage, or are dropped.
    Leave(Stage),
}

impl Class {
    /// Comes to the first instruction of the part, if it stands before the stage.
    fn enter(&mut self, part: Part, stage: Stage)
        ensures { self.new ≡ turned (Turn.Enter part stage) self.old }
    {
        if self.spot.is_at_stage(stage) {
            self.spot = Spot::At(part.first);
            self.progress.verdict = part.end;
        }
    }

    /// Goes on before the stage or is dropped, if it stands at an instruction. Of what rules did to packets that are dropped nothing
    /// is kept, so that they are alike.
    fn leave(&mut self, alloc: Global, stage: Stage)
        ensures { self.new ≡ turned (Turn.Leave stage) self.old }
    {
        if let Spot::At(_) = self.spot {
            if self.progress.verdict {
                self.spot = Spot::Before(stage);
            } else {
                *self = Progress::entered(alloc).standing(Spot::Dropped);
            }
        }
    }

    /// Enters or leaves.
    fn turn(&mut self, alloc: Global, turn: Turn)
        ensures { self.new ≡ turned turn self.old }
    {
        match turn {
            Turn::Enter(part, stage) => self.enter(part, stage),
            Turn::Leave(stage) => self.leave(alloc, stage),
        }
    }
}

impl Sheet {
    /// Each class enters or leaves.
    pub(crate) fn turn(&mut self, alloc: Global, turn: Turn)
        requires { IsSheet self.old }
        ensures sheet { IsSheet self.new }
        ensures turned { (n : ℕ) → slice_get self.new.roll.classes.items n ≡ option_map (turned turn) (slice_get self.old.roll.classes.items n) }
        ensures same { self.new.canvas ≡ self.old.canvas }
        ensures reached { self.new.reached ≡ self.old.reached }
    {
        for number in 0..self.roll.classes.len() {
            self.roll.classes[number].turn(alloc, turn);
        }
    }
}
