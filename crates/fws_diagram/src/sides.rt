//! Sides: sets of a field's atoms, as sorted lists of bounds.

use crate::words::{Lists, word_at};
use fws_num::Memory;
use std::alloc::Global;

/// A set of atoms of a field, by its number. The sets of one space are equal where their numbers are.
#[derive(Clone, Copy, Debug, PartialEq, Eq)]
pub struct Side(pub(crate) u32);

impl Side {
    /// The set without atoms.
    pub const EMPTY: Side = Side(0);

    /// Its number, which is another one for another set of atoms.
    pub fn number(self) -> u32 {
        self.0
    }

    /// Whether there are no atoms in it.
    pub fn is_empty(self) -> bool {
        self.0 == 0
    }
}

/// How two sides become one.
#[derive(Clone, Copy, Debug, PartialEq, Eq)]
pub(crate) enum Joint {
    /// What both have.
    And,
    /// What either has.
    Or,
    /// What the first has and the second doesn't.
    Minus,
}

impl Joint {
    fn number(self) -> u32 {
        match self {
            Joint::And => 1,
            Joint::Or => 2,
            Joint::Minus => 3,
        }
    }

    fn of(self, first: bool, second: bool) -> bool {
        match self {
            Joint::And => first && second,
            Joint::Or => first || second,
            Joint::Minus => first && !second,
        }
    }
}

/// An answer that may be asked for again.
#[derive(Clone, Copy)]
struct Known {
    first: u32,
    second: u32,
    joint: u32,
    side: u32,
}

/// All sides of a space.
#[derive(Drop)]
pub(crate) struct Sides {
    // A side's list has the bounds `from`, `until`, `from`, `until` and so on, rising, without the atoms `until`.
    lists: Lists,
    known: Vec<Known>,
    // How many bounds were gone through since this was asked last.
    work: u64,
}

/// How many answers are kept.
const KEPT: usize = 65536;

/// How many of the bounds are at most this number.
pub(crate) fn bounds_up_to(bounds: &[u32], number: u32) -> usize {
    let mut low = 0;
    let mut high = bounds.len();
    for _ in 0..64 {
        if low >= high {
            break;
        }
        let middle = low.wrapping_add(high) / 2;
        if word_at(bounds, middle) <= number {
            low = middle.saturating_add(1);
        } else {
            high = middle;
        }
    }
    low
}

impl Sides {
    /// No sides.
    pub(crate) fn new(alloc: Global) -> Sides {
        Sides {
            lists: Lists::new(alloc),
            known: Vec::new(alloc),
            work: 0,
        }
    }

    /// Adds the empty side ahead of all others, and room for answers.
    pub(crate) fn prepare(&mut self, alloc: Global) -> Result<(), Memory> {
        let from = self.lists.begin();
        let _empty = self.lists.end(alloc, from)?;
        for _ in 0..KEPT {
            self.known.push(Known {
                first: 0,
                second: 0,
                joint: 0,
                side: 0,
            })?;
        }
        Ok(())
    }

    /// How many bounds were gone through since this was asked last.
    pub(crate) fn take_work(&mut self) -> u64 {
        let work = self.work;
        self.work = 0;
        work
    }

    /// How many words all sides have.
    pub(crate) fn size(&self) -> usize {
        self.lists.size()
    }

    /// The bounds of a side.
    pub(crate) fn bounds(&self, side: Side) -> &[u32] {
        self.lists.list(side.0)
    }

    /// Where the bounds of a side begin among all words.
    pub(crate) fn place(&self, side: Side) -> usize {
        self.lists.place(side.0)
    }

    /// The word at a place among all words.
    pub(crate) fn word(&self, at: usize) -> u32 {
        self.lists.word(at)
    }

    /// How many bounds a side has.
    pub(crate) fn count_of_bounds(&self, side: Side) -> usize {
        self.lists.len(side.0)
    }

    /// Begins a side.
    pub(crate) fn begin(&self) -> usize {
        self.lists.begin()
    }

    /// Puts atoms into the side that was begun at `place`, behind those that it has.
    pub(crate) fn put(&mut self, place: usize, from: u32, until: u32) -> Result<(), Memory> {
        if from >= until {
            return Ok(());
        }
        if self.lists.last(place) == Some(from) {
            self.lists.set_last(until);
            return Ok(());
        }
        self.lists.put(from)?;
        self.lists.put(until)
    }

    /// Ends the side that was begun at `place`.
    pub(crate) fn end(&mut self, alloc: Global, place: usize) -> Result<Side, Memory> {
        let number = self.lists.end(alloc, place)?;
        Ok(Side(number))
    }

    /// The atoms from one up to another, without it.
    pub(crate) fn range(&mut self, alloc: Global, from: u32, until: u32) -> Result<Side, Memory> {
        let place = self.begin();
        self.put(place, from, until)?;
        self.end(alloc, place)
    }

    /// Whether the side has one of the atoms from one up to another.
    pub(crate) fn hits(&self, side: Side, from: u32, until: u32) -> bool {
        let bounds = self.bounds(side);
        let at = bounds_up_to(bounds, from);
        at % 2 == 1 || (at < bounds.len() && word_at(bounds, at) < until)
    }

    /// Whether the side has all atoms from one up to another.
    pub(crate) fn covers(&self, side: Side, from: u32, until: u32) -> bool {
        let bounds = self.bounds(side);
        let at = bounds_up_to(bounds, from);
        at % 2 == 1 && word_at(bounds, at) >= until
    }

    /// How many atoms the side has.
    pub(crate) fn count(&self, side: Side) -> u32 {
        let mut count: u32 = 0;
        let mut from: Option<u32> = None;
        for bound in self.bounds(side) {
            match from {
                None => from = Some(*bound),
                Some(low) => {
                    count = count.saturating_add(bound.saturating_sub(low));
                    from = None;
                }
            }
        }
        count
    }

    /// The side of which the atoms are those of two sides, joined.
    pub(crate) fn joined(
        &mut self,
        alloc: Global,
        joint: Joint,
        first: Side,
        second: Side,
    ) -> Result<Side, Memory> {
        let first = first.0;
        let second = second.0;
        if first == second {
            return Ok(if joint == Joint::Minus {
                Side::EMPTY
            } else {
                Side(first)
            });
        }
        if first == 0 {
            return Ok(if joint == Joint::Or {
                Side(second)
            } else {
                Side::EMPTY
            });
        }
        if second == 0 {
            return Ok(if joint == Joint::And {
                Side::EMPTY
            } else {
                Side(first)
            });
        }
        let number = joint.number();
        let mixed = first.wrapping_mul(2_654_435_761)
            ^ second.wrapping_mul(40503)
            ^ number.wrapping_mul(97);
        let place = (mixed % 65536) as usize;
        if let Some(known) = self.known.get(place) {
            if known.first == first && known.second == second && known.joint == number {
                return Ok(Side(known.side));
            }
        }
        let side = self.merged(alloc, joint, first, second)?;
        if let Some(known) = self.known.get_mut(place) {
            *known = Known {
                first,
                second,
                joint: number,
                side: side.0,
            };
        }
        Ok(side)
    }

    /// The side of which the atoms are those of two sides, joined, bound by bound.
    fn merged(
        &mut self,
        alloc: Global,
        joint: Joint,
        first: u32,
        second: u32,
    ) -> Result<Side, Memory> {
        let place = self.begin();
        let mut at = self.lists.place(first);
        let end = at.saturating_add(self.lists.len(first));
        let mut other = self.lists.place(second);
        let other_end = other.saturating_add(self.lists.len(second));
        let most = self.lists.len(first).saturating_add(self.lists.len(second));
        self.work = self.work.saturating_add(most as u64);
        let mut is_in = false;
        let mut is_other = false;
        let mut is_out = false;
        for _ in 0..most {
            if at >= end && other >= other_end {
                break;
            }
            let bound = if at < end {
                self.lists.word(at)
            } else {
                u32::MAX
            };
            let other_bound = if other < other_end {
                self.lists.word(other)
            } else {
                u32::MAX
            };
            let next = bound.min(other_bound);
            if at < end && bound == next {
                is_in = !is_in;
                at = at.saturating_add(1);
            }
            if other < other_end && other_bound == next {
                is_other = !is_other;
                other = other.saturating_add(1);
            }
            let is_now = joint.of(is_in, is_other);
            if is_now != is_out {
                self.lists.put(next)?;
                is_out = is_now;
            }
            if joint == Joint::Minus && at >= end && !is_in {
                break;
            }
        }
        self.end(alloc, place)
    }

    /// The atoms of a side from one up to another.
    pub(crate) fn cut(
        &mut self,
        alloc: Global,
        side: Side,
        from: u32,
        until: u32,
    ) -> Result<Side, Memory> {
        if from >= until {
            return Ok(Side::EMPTY);
        }
        let bounds = self.bounds(side);
        let first = bounds_up_to(bounds, from);
        let last = bounds_up_to(bounds, until.saturating_sub(1));
        let start = self.lists.place(side.0);
        let place = self.begin();
        if first % 2 == 1 {
            self.lists.put(from)?;
        }
        for at in first..last {
            let bound = self.lists.word(start.wrapping_add(at));
            self.lists.put(bound)?;
        }
        if last % 2 == 1 {
            self.lists.put(until)?;
        }
        self.end(alloc, place)
    }
}
