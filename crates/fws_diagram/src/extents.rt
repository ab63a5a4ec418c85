//! Where sides begin and end, and which atoms they have.

use crate::sides::Side;
use crate::space::Space;
use crate::words::word_at;
use fws_iv::Iv;
use fws_num::Memory;

impl Space {
    /// The bounds of a side: `from`, `until`, `from`, `until` and so on, rising, without the atoms `until`.
    pub fn bounds(&self, side: Side) -> &[u32] {
        self.sides.bounds(side)
    }

    /// The least value of a side that isn't empty.
    pub fn lowest(&self, field: usize, side: Side) -> u32 {
        self.least(field, word_at(self.bounds(side), 0))
    }

    /// The greatest value of a side that isn't empty.
    pub fn highest(&self, field: usize, side: Side) -> u32 {
        let bounds = self.bounds(side);
        let last = word_at(bounds, bounds.len().saturating_sub(1));
        self.greatest(field, last.saturating_sub(1))
    }

    /// How many ranges of atoms a side has.
    pub fn runs(&self, side: Side) -> usize {
        self.sides.count_of_bounds(side) / 2
    }

    /// The atoms from one up to another at a place among the ranges of atoms of a side.
    pub fn run(&self, side: Side, place: usize) -> (u32, u32) {
        let bounds = self.bounds(side);
        let at = place.wrapping_mul(2);
        (word_at(bounds, at), word_at(bounds, at.wrapping_add(1)))
    }

    /// How many atoms a side has.
    pub fn count_atoms(&self, side: Side) -> u32 {
        self.sides.count(side)
    }

    /// Whether a side has one of the atoms from one up to another.
    pub fn hits(&self, side: Side, from: u32, until: u32) -> bool {
        self.sides.hits(side, from, until)
    }

    /// Whether a side has all atoms from one up to another.
    pub fn covers(&self, side: Side, from: u32, until: u32) -> bool {
        self.sides.covers(side, from, until)
    }

    /// The atoms of a side from one up to another.
    pub fn part_between(&mut self, side: Side, from: u32, until: u32) -> Result<Side, Memory> {
        self.sides.cut(self.alloc, side, from, until)
    }

    /// The first of the atoms that lie wholly within an interval of values, and the one behind the last of them.
    pub fn atoms_inside(&self, field: usize, part: Iv) -> (u32, u32) {
        let mut from = self.atom(field, part.lo);
        if self.least(field, from) < part.lo {
            from = from.saturating_add(1);
        }
        let last = self.atom(field, part.hi);
        let until = if self.greatest(field, last) > part.hi {
            last
        } else {
            last.saturating_add(1)
        };
        (from, until)
    }

    /// Begins a side: it ends where `end_side` is called with what this gives.
    pub fn begin_side(&self) -> usize {
        self.sides.begin()
    }

    /// Puts atoms into the side that was begun at `place`, behind those that it has.
    pub fn put_atoms(&mut self, place: usize, from: u32, until: u32) -> Result<(), Memory> {
        self.sides.put(place, from, until)
    }

    /// Ends the side that was begun at `place`.
    pub fn end_side(&mut self, place: usize) -> Result<Side, Memory> {
        self.sides.end(self.alloc, place)
    }
}
