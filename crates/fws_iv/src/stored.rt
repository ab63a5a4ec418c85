//! Where the intervals of a set are kept.

ghost use Rattle.std.specs.Prelude.{◌≡◌, ◌≤◌, ◌||◌, ℕ, [], ◌∷◌, Some, IfOk, OnOk, OnErr, unwrap_or};
ghost use Rattle.fws_iv.specs.Ivs.{has, in_part, IsRegular, last_start, least};
ghost use Rattle.fws_iv.specs.Stored.{intervals_of};

use crate::iv::Iv;
use crate::joined::join_last;
use fws_num::Memory;
use std::alloc::Global;
use std::marker::Model;
use std::rc::Rc;

// A list of more intervals than this is worth a count of its owners.
const FEW: usize = 8;

/// A list of intervals with one owner, or with several.
enum Kept {
    /// A list of one set alone.
    Own(Vec<Iv>),
    /// A list that several sets may have.
    Shared(Rc<Vec<Iv>>),
}

// Written out, so that whoever lets a set go has one call there and no choice of two.
impl Drop for Kept {
    fn drop(self) {
        match self {
            Kept::Own(list) => drop(list),
            Kept::Shared(list) => drop(list),
        }
    }
}

/// The same intervals in a list of their own. Fails if memory runs out.
fn own_list(from: &Kept) -> Result<Vec<Iv>, Memory>
    ensures { IfOk result (λ own. own.items ≡ intervals_of from.now) }
{
    match from {
        Kept::Own(list) => Ok(Vec::from_slice(*list.allocator(), list.as_slice())?),
        Kept::Shared(list) => {
            let list = list.as_ref();
            Ok(Vec::from_slice(*list.allocator(), list.as_slice())?)
        }
    }
}

/// A list of intervals. Where it is long, equal sets share it. Contracts see the list.
#[derive(Drop)]
pub(crate) struct Stored {
    kept: Kept,
}

impl Model for Stored {
    ghost use Rattle.std.specs.Prelude.{List};
    ghost use Rattle.fws_iv.specs.declared.iv.Iv.{Iv as Seen};
    ghost use Rattle.fws_iv.specs.Stored.{intervals_of};

    ghost Value = { List Seen };

    ghost view = { λ s. intervals_of s.kept };
}

impl Stored {
    /// No interval.
    pub(crate) fn none(alloc: Global) -> Stored
        ensures { result ≡ [] }
    {
        Stored {
            kept: Kept::Own(Vec::new(alloc)),
        }
    }

    /// These intervals. Fails if memory runs out.
    pub(crate) fn of(alloc: Global, parts: Vec<Iv>) -> Result<Stored, Memory>
        ensures { IfOk result (λ s. s ≡ parts.items) }
    {
        if parts.len() <= FEW {
            let kept = Kept::Own(parts);
            return Ok(Stored { kept });
        }
        match Rc::new(alloc, parts) {
            Ok(list) => Ok(Stored {
                kept: Kept::Shared(list),
            }),
            Err(_) => Err(Memory),
        }
    }

    /// The intervals.
    pub(crate) fn as_slice(&self) -> &[Iv]
        ensures { result.now ≡ self.now }
    {
        match &self.kept {
            Kept::Own(list) => list.as_slice(),
            Kept::Shared(list) => list.as_ref().as_slice(),
        }
    }

    /// The same intervals. What is shared already costs a step, and what isn't the time of its length. Fails if memory runs out.
    pub(crate) fn copy(&self, alloc: Global) -> Result<Stored, Memory>
        ensures { IfOk result (λ s. s ≡ self.now) }
    {
        match &self.kept {
            Kept::Own(list) => Stored::of(alloc, Vec::from_slice(alloc, list.as_slice())?),
            Kept::Shared(list) => Ok(Stored {
                kept: Kept::Shared(list.clone()?),
            }),
        }
    }

    /// Adds the numbers from `lo` to `hi` to intervals of which none begins past `lo`: the last one grows where they meet or touch
    /// it. A shared list is left to its other owners. If memory runs out the intervals are as before.
    pub(crate) fn join_last(&mut self, lo: u32, hi: u32) -> Result<(), Memory>
        requires order { lo ≤ hi }
        requires regular { IsRegular self.old }
        requires begun { last_start 0 self.old ≤ lo }
        ensures regular { IsRegular self.new }
        ensures members { OnOk result ((v : ℕ) → has self.new v ≡ (has self.old v || in_part (record { lo = lo; hi = hi }) v)) }
        ensures first { OnOk result (least self.new ≡ Some (unwrap_or (least self.old) lo)) }
        ensures alone { OnOk result (self.old ≡ [] → self.new ≡ record { lo = lo; hi = hi } ∷ []) }
        ensures err { OnErr result (self.new ≡ self.old) }
    {
        if let Kept::Own(list) = &mut self.kept {
            return join_last(list, lo, hi);
        }
        let mut own = own_list(&self.kept)?;
        join_last(&mut own, lo, hi)?;
        self.kept = Kept::Own(own);
        Ok(())
    }
}
