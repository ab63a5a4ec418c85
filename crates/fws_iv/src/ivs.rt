//! Interval lists: sorted, disjoint, not touching.

ghost use Rattle.std.specs.Prelude.{◌≡◌, ◌<◌, ◌≤◌, ◌↔◌, ◌&&◌, ◌||◌, not, ℕ, nat_le, true, [], ◌∷◌, IsTrue, Some, unwrap_or, IfOk, OnOk, OnErr};
ghost use Rattle.fws_iv.specs.Ivs.{has, AreRanges, IsRegular, least, with_range, with_ranges};

use crate::find::has_number;
use crate::inter::inter_into;
use crate::iv::Iv;
use crate::minus::minus_into;
use crate::ranges::parts_of_ranges;
use crate::stored::Stored;
use crate::union::union_into;
use fws_num::Memory;
use std::alloc::Global;
use std::marker::Model;

/// A set of numbers, as the list of its intervals in ascending order, of which no two touch.
pub struct Ivs {
    parts: Stored,
}

// Written out, so that letting a set go is one call, of which a proof need not know how sets are kept.
impl Drop for Ivs {
    fn drop(self) {
        let Ivs { parts } = self;
        drop(parts);
    }
}

impl Model for Ivs {
    ghost use Rattle.std.specs.Prelude.{List};
    ghost use Rattle.fws_iv.specs.declared.iv.Iv.{Iv};

    ghost Value = { List Iv };

    ghost use Rattle.fws_iv.specs.Ivs.{IsRegular};

    ghost view = { λ s. s.parts };

    ghost invariant = { λ s. IsRegular s.parts };
}

impl Ivs {
    /// The set without a member.
    pub fn none(alloc: Global) -> Ivs
        ensures { result ≡ [] }
    {
        Ivs {
            parts: Stored::none(alloc),
        }
    }

    /// The numbers of all the ranges, which may overlap and stand in any order; in none is `lo` greater than `hi`. Of n ranges the
    /// time is that of n log n steps. Fails if memory runs out.
    #[tactic(auto, using(crate::proofs::WithRange::same_with_ranges))]
    pub fn of_ranges(alloc: Global, ranges: &[Iv]) -> Result<Ivs, Memory>
        requires { AreRanges ranges.now }
        ensures value { IfOk result (λ s. s ≡ with_ranges [] ranges.now) }
        ensures members { IfOk result (λ s. (v : ℕ) → has s v ≡ has ranges.now v) }
    {
        let parts = parts_of_ranges(alloc, ranges)?;
        Ivs::kept(alloc, parts)
    }

    /// The set of these intervals, which ascend and of which no two touch. Fails if memory runs out.
    pub fn of_parts(alloc: Global, parts: &[Iv]) -> Result<Ivs, Memory>
        requires { IsRegular parts.now }
        ensures { IfOk result (λ s. s ≡ parts.now) }
    {
        Ivs::kept(alloc, Vec::from_slice(alloc, parts)?)
    }

    /// The set of these intervals, kept as it is. Fails if memory runs out.
    fn kept(alloc: Global, parts: Vec<Iv>) -> Result<Ivs, Memory>
        requires { IsRegular parts.items }
        ensures { IfOk result (λ s. s ≡ parts.items) }
    {
        Ok(Ivs {
            parts: Stored::of(alloc, parts)?,
        })
    }

    /// The intervals, in ascending order.
    pub fn parts(&self) -> &[Iv]
        ensures value { result.now ≡ self.now }
        ensures regular { IsRegular self.now }
    {
        self.parts.as_slice()
    }

    /// Whether there is no member.
    pub fn is_empty(&self) -> bool
        ensures { IsTrue result ↔ (self.now ≡ []) }
    {
        self.parts().is_empty()
    }

    /// Whether `v` is a member. The time is logarithmic in the number of intervals.
    pub fn has(&self, v: u32) -> bool
        ensures { result ≡ has self.now v }
    {
        has_number(self.parts.as_slice(), v)
    }

    /// An equal set, which shares its intervals with this one where they are many. Fails if memory runs out.
    pub fn copy(&self, alloc: Global) -> Result<Ivs, Memory>
        ensures { IfOk result (λ s. s ≡ self.now) }
    {
        Ok(Ivs {
            parts: self.parts.copy(alloc)?,
        })
    }

    /// Adds the numbers from `lo` to `hi`, all past those that are there; they join the last interval where they touch it. Fails if
    /// memory runs out, and then the set is as before.
    pub fn extend(&mut self, lo: u32, hi: u32) -> Result<(), Memory>
        requires order { lo ≤ hi }
        requires behind { (v : ℕ) → has self.old v ≡ true → v < lo }
        ensures ok { OnOk result ((v : ℕ) → has self.new v ≡ (has self.old v || (nat_le lo v && nat_le v hi))) }
        ensures first { OnOk result (least self.new ≡ Some (unwrap_or (least self.old) lo)) }
        ensures alone { OnOk result (self.old ≡ [] → self.new ≡ record { lo = lo; hi = hi } ∷ []) }
        ensures regular { IsRegular self.new }
        ensures err { OnErr result (self.new ≡ self.old) }
    {
        self.parts.join_last(lo, hi)
    }

    /// The members of either set. The time is linear in the number of intervals. Fails if memory runs out.
    pub fn union(&self, alloc: Global, other: &Ivs) -> Result<Ivs, Memory>
        ensures { IfOk result (λ s. (v : ℕ) → has s v ≡ (has self.now v || has other.now v)) }
    {
        let mut parts = Vec::new(alloc);
        union_into(&mut parts, self.parts(), other.parts())?;
        Ivs::kept(alloc, parts)
    }

    /// The members, and the numbers from `lo` to `hi`, of which `lo` is no greater. The time is linear in the number of intervals.
    /// Fails if memory runs out.
    #[tactic(auto, using(crate::proofs::WithRange::same_with_range))]
    pub fn with_range(&self, alloc: Global, lo: u32, hi: u32) -> Result<Ivs, Memory>
        requires { lo ≤ hi }
        ensures value { IfOk result (λ s. s ≡ with_range lo hi self.now) }
        ensures members { IfOk result (λ s. (v : ℕ) → has s v ≡ (has self.now v || (nat_le lo v && nat_le v hi))) }
    {
        let mut parts = Vec::new(alloc);
        union_into(&mut parts, self.parts(), &[Iv { lo, hi }])?;
        Ivs::kept(alloc, parts)
    }

    /// The members that the sets share. The time is linear in the number of intervals. Fails if memory runs out.
    pub fn inter(&self, alloc: Global, other: &Ivs) -> Result<Ivs, Memory>
        ensures { IfOk result (λ s. (v : ℕ) → has s v ≡ (has self.now v && has other.now v)) }
    {
        let mut parts = Vec::new(alloc);
        inter_into(&mut parts, self.parts(), other.parts())?;
        Ivs::kept(alloc, parts)
    }

    /// The members that `other` has not. The time is linear in the number of intervals. Fails if memory runs out.
    pub fn minus(&self, alloc: Global, other: &Ivs) -> Result<Ivs, Memory>
        ensures { IfOk result (λ s. (v : ℕ) → has s v ≡ (has self.now v && not (has other.now v))) }
    {
        let mut parts = Vec::new(alloc);
        minus_into(&mut parts, self.parts(), other.parts())?;
        Ivs::kept(alloc, parts)
    }
}

/// The numbers from `lo` to `hi`, of which `lo` is no greater. Fails if memory runs out.
pub fn one(alloc: Global, lo: u32, hi: u32) -> Result<Ivs, Memory>
    requires { lo ≤ hi }
    ensures { IfOk result (λ s. s ≡ record { lo = lo; hi = hi } ∷ []) }
{
    let mut parts = Vec::new(alloc);
    parts.push(Iv { lo, hi })?;
    Ivs::kept(alloc, parts)
}
