//! Rulings that are put one after another. What comes in a row with one end, and what drops packets beside it, is joined on the way.

ghost use Rattle.std.specs.Prelude.{◌≡◌, [], ◌∷◌, ◌++◌, map, true, false, None, IfOk, OnOk};
ghost use Rattle.fws_pfo_ifcl.specs.Rulings.{StandFor, ruling_of, rulings_of};

use crate::ends::is_same_end;
use crate::ruling::Ruling;
use fws_join::{Decision, Joining};
use fws_net::{Cond, End};
use fws_num::{Items, Memory};
use std::alloc::Global;
use std::mem;

/// Rulings that stand for those that were put: fewer ones, where neighbours can be joined.
#[derive(Drop)]
pub(crate) struct Rulings {
    /// Those ahead of the decisions.
    pub finished: Items<Ruling>,
    /// The end of what the decisions pass, if there is one.
    pub to: Option<End>,
    /// What is decided behind them.
    pub decisions: Joining,
}

/// Whether the ends are equal. False tells nothing.
fn are_same(a: End, b: End) -> bool
    ensures { result ≡ true → a ≡ b }
{
    is_same_end(a, b)
}

/// Whether both are equal ends, or none. False tells nothing.
fn is_same(a: Option<End>, b: Option<End>) -> bool
    ensures { result ≡ true → a ≡ b }
{
    match (a, b) {
        (Some(one), Some(other)) => are_same(one, other),
        (None, None) => true,
        _ => false,
    }
}

/// Puts the ruling of a decision behind the others. Fails if memory runs out.
fn put_finished(finished: &mut Items<Ruling>, to: Option<End>, one: Decision) -> Result<(), Memory>
    ensures { OnOk result (finished.new ≡ finished.old ++ ruling_of to one ∷ []) }
{
    let Decision { cond, passes } = one;
    finished.put(Ruling { cond, passes, to })?;
    Ok(())
}

/// Puts the rulings of decisions behind the others. Fails if memory runs out.
fn put_all(finished: &mut Items<Ruling>, to: Option<End>, all: Vec<Decision>) -> Result<(), Memory>
    ensures { OnOk result (finished.new ≡ finished.old ++ map (ruling_of to) all.items) }
{
    for one in all {
        put_finished(finished, to, one)?;
    }
    Ok(())
}

/// Puts rulings behind the others that stand for those of decisions. Fails if memory runs out.
fn put_joined(
    alloc: Global,
    finished: &mut Items<Ruling>,
    to: Option<End>,
    decisions: Joining,
) -> Result<(), Memory>
    ensures { OnOk result (StandFor finished.new (finished.old ++ map (ruling_of to) decisions)) }
{
    let fewer = decisions.into_decisions(alloc)?;
    put_all(finished, to, fewer)?;
    Ok(())
}

impl Rulings {
    /// None.
    pub fn new(alloc: Global) -> Rulings
        ensures { rulings_of result ≡ [] }
    {
        Rulings {
            finished: Items::new(alloc),
            to: None,
            decisions: Joining::new(alloc),
        }
    }

    /// Begins anew behind what is there, with another end. Fails if memory runs out.
    fn begin(&mut self, alloc: Global, to: Option<End>) -> Result<(), Memory>
        ensures stand { OnOk result (StandFor (rulings_of self.new) (rulings_of self.old)) }
        ensures to { OnOk result (self.new.to ≡ to) }
    {
        let decisions = mem::replace(&mut self.decisions, Joining::new(alloc));
        put_joined(alloc, &mut self.finished, self.to, decisions)?;
        self.to = to;
        Ok(())
    }

    /// Goes on with this end. Fails if memory runs out.
    fn turn_to(&mut self, alloc: Global, to: Option<End>) -> Result<(), Memory>
        ensures stand { OnOk result (StandFor (rulings_of self.new) (rulings_of self.old)) }
        ensures to { OnOk result (self.new.to ≡ to) }
    {
        if is_same(self.to, to) {
            return Ok(());
        }
        self.begin(alloc, to)
    }

    /// Puts a decision behind the others. Fails if memory runs out.
    fn decide(&mut self, alloc: Global, cond: Cond, passes: bool) -> Result<(), Memory>
        ensures { OnOk result (StandFor (rulings_of self.new) (rulings_of self.old ++ record { cond = cond; passes = passes; to = self.old.to } ∷ [])) }
    {
        self.decisions.put(alloc, cond, passes)?;
        Ok(())
    }

    /// Puts a ruling behind the others by which packets pass, with the end if there is one. Fails if memory runs out.
    pub fn put_passing(&mut self, alloc: Global, cond: Cond, to: Option<End>) -> Result<(), Memory>
        ensures { OnOk result (StandFor (rulings_of self.new) (rulings_of self.old ++ record { cond = cond; passes = true; to = to } ∷ [])) }
    {
        self.turn_to(alloc, to)?;
        self.decide(alloc, cond, true)?;
        Ok(())
    }

    /// Puts a ruling behind the others by which packets are dropped. Fails if memory runs out.
    pub fn put_dropping(&mut self, alloc: Global, cond: Cond) -> Result<(), Memory>
        ensures { OnOk result (StandFor (rulings_of self.new) (rulings_of self.old ++ record { cond = cond; passes = false; to = None } ∷ [])) }
    {
        self.decide(alloc, cond, false)?;
        Ok(())
    }

    /// Rulings that stand for those. Fails if memory runs out.
    pub fn into_rulings(self, alloc: Global) -> Result<Items<Ruling>, Memory>
        ensures { IfOk result (λ all. StandFor all (rulings_of self)) }
    {
        let Rulings {
            mut finished,
            to,
            decisions,
        } = self;
        put_joined(alloc, &mut finished, to, decisions)?;
        Ok(finished)
    }
}
