//! Decisions that are put one after another, and joined on the way.

ghost use Rattle.std.specs.Prelude.{◌≡◌, ◌++◌, ◌∷◌, [], true, IfOk, OnOk};
ghost use Rattle.fws_join.specs.Deciding.{StandsFor};

use crate::decision::Decision;
use crate::lists::joined;
use fws_net::Cond;
use fws_num::Memory;
use std::alloc::Global;
use std::marker::Model;
use std::mem;

// So many are put before they are joined for the first time, and then as many again as there are.
const FEW: usize = 1024;

/// Decisions that stand for those that were put, one after another: fewer ones, where neighbours can be joined. Contracts see the list.
#[derive(Drop)]
pub struct Joining {
    decisions: Vec<Decision>,
    most: usize,
}

impl Model for Joining {
    ghost use Rattle.std.specs.Prelude.{List};
    ghost use Rattle.fws_join.specs.declared.decision.Decision.{Decision as Seen};

    ghost Value = { List Seen };

    ghost view = { λ j. j.decisions.items };
}

impl Joining {
    /// None.
    pub fn new(alloc: Global) -> Joining
        ensures { result ≡ [] }
    {
        Joining {
            decisions: Vec::new(alloc),
            most: FEW,
        }
    }

    /// Joins those that are there.
    fn join(&mut self, alloc: Global) -> Result<(), Memory>
        ensures { OnOk result (StandsFor self.new self.old) }
    {
        let all = mem::replace(&mut self.decisions, Vec::new(alloc));
        let fewer = joined(alloc, all)?;
        self.most = fewer.len().saturating_mul(2).saturating_add(FEW);
        self.decisions = fewer;
        Ok(())
    }

    /// Joins those that are there, if they are many.
    fn make_room(&mut self, alloc: Global) -> Result<(), Memory>
        ensures { OnOk result (StandsFor self.new self.old) }
    {
        if self.decisions.len() >= self.most {
            self.join(alloc)?;
        }
        Ok(())
    }

    /// Puts a decision behind the others. Fails if memory runs out.
    pub fn put(&mut self, alloc: Global, cond: Cond, passes: bool) -> Result<(), Memory>
        ensures { OnOk result (StandsFor self.new (self.old ++ record { cond = cond; passes = passes } ∷ [])) }
    {
        self.make_room(alloc)?;
        self.decisions.push(Decision { cond, passes })?;
        Ok(())
    }

    /// Decisions that stand for those. Fails if memory runs out.
    pub fn into_decisions(self, alloc: Global) -> Result<Vec<Decision>, Memory>
        ensures { IfOk result (λ all. StandsFor all.items self) }
    {
        joined(alloc, self.decisions)
    }
}
