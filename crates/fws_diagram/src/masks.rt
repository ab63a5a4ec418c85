//! Masks: sets of colours, by number.

use crate::memo::Pairs;
use crate::words::{Lists, word_at};
use fws_num::Memory;
use std::alloc::Global;

/// A set of colours, by its number. The sets of one space are equal where their numbers are.
#[derive(Clone, Copy, Debug, PartialEq, Eq)]
pub struct Mask(pub(crate) u32);

impl Mask {
    /// Every colour there is: whatever is done is right.
    pub const ALL: Mask = Mask(0);

    /// No colour: nothing that is done is right.
    pub const NONE: Mask = Mask(1);
}

/// All masks of a space.
#[derive(Drop)]
pub(crate) struct Masks {
    // A mask's list has its colours, rising. That of all colours has two words that no other list begins with.
    lists: Lists,
    // The colours below 64, as bits.
    low: Vec<u64>,
    both: Pairs,
    either: Pairs,
}

/// What a list of all colours begins with: no rising list does.
const EVERY: u32 = u32::MAX;

impl Masks {
    /// No masks.
    pub(crate) fn new(alloc: Global) -> Masks {
        Masks {
            lists: Lists::new(alloc),
            low: Vec::new(alloc),
            both: Pairs::new(alloc),
            either: Pairs::new(alloc),
        }
    }

    /// Adds the masks of all colours and of none ahead of all others.
    pub(crate) fn prepare(&mut self, alloc: Global) -> Result<(), Memory> {
        self.low.push(u64::MAX)?;
        let from = self.lists.begin();
        self.lists.put(EVERY)?;
        self.lists.put(EVERY)?;
        let _all = self.lists.end(alloc, from)?;
        self.low.push(0)?;
        let _none = self.lists.end(alloc, from)?;
        Ok(())
    }

    /// Whether a mask has a colour.
    pub(crate) fn has(&self, mask: Mask, colour: u32) -> bool {
        if mask == Mask::ALL {
            return true;
        }
        if colour < 64 {
            return match self.low.get(mask.0 as usize) {
                Some(bits) => (bits >> colour) & 1 == 1,
                None => false,
            };
        }
        let colours = self.lists.list(mask.0);
        crate::sides::bounds_up_to(colours, colour) > 0
            && word_at(
                colours,
                crate::sides::bounds_up_to(colours, colour).saturating_sub(1),
            ) == colour
    }

    /// The colours of a mask that isn't that of all.
    pub(crate) fn colours(&self, mask: Mask) -> &[u32] {
        if mask == Mask::ALL {
            return &[];
        }
        self.lists.list(mask.0)
    }

    /// The mask of the colours that were put since a list was begun, rising.
    fn end(&mut self, alloc: Global, from: usize, low: u64) -> Result<Mask, Memory> {
        let number = self.lists.end(alloc, from)?;
        if number as usize >= self.low.len() {
            self.low.push(low)?;
        }
        Ok(Mask(number))
    }

    /// The mask of some colours, which rise.
    pub(crate) fn of(&mut self, alloc: Global, colours: &[u32]) -> Result<Mask, Memory> {
        let from = self.lists.begin();
        let mut low = 0;
        for colour in colours {
            self.lists.put(*colour)?;
            if *colour < 64 {
                low |= 1u64 << *colour;
            }
        }
        self.end(alloc, from, low)
    }

    /// What both masks have, or what either has.
    pub(crate) fn joined(
        &mut self,
        alloc: Global,
        is_and: bool,
        first: Mask,
        second: Mask,
    ) -> Result<Mask, Memory> {
        let neutral = if is_and { Mask::ALL } else { Mask::NONE };
        let absorbing = if is_and { Mask::NONE } else { Mask::ALL };
        if first == second || second == neutral || first == absorbing {
            return Ok(first);
        }
        if first == neutral || second == absorbing {
            return Ok(second);
        }
        let low = first.0.min(second.0);
        let high = first.0.max(second.0);
        let known = if is_and {
            self.both.get(low, high)
        } else {
            self.either.get(low, high)
        };
        if let Some(number) = known {
            return Ok(Mask(number));
        }
        let mask = self.merged(alloc, is_and, low, high)?;
        if is_and {
            self.both.set(alloc, low, high, mask.0)?;
        } else {
            self.either.set(alloc, low, high, mask.0)?;
        }
        Ok(mask)
    }

    /// What both masks have, or what either has, colour by colour.
    fn merged(
        &mut self,
        alloc: Global,
        is_and: bool,
        first: u32,
        second: u32,
    ) -> Result<Mask, Memory> {
        let from = self.lists.begin();
        let mut low = 0;
        let mut at = self.lists.place(first);
        let end = at.saturating_add(self.lists.len(first));
        let mut other = self.lists.place(second);
        let other_end = other.saturating_add(self.lists.len(second));
        let most = self.lists.len(first).saturating_add(self.lists.len(second));
        for _ in 0..most {
            let has = at < end;
            let has_other = other < other_end;
            if !has && !has_other {
                break;
            }
            let colour = self.lists.word(at);
            let other_colour = self.lists.word(other);
            let is_first = has && (!has_other || colour <= other_colour);
            let is_second = has_other && (!has || other_colour <= colour);
            let next = if is_first { colour } else { other_colour };
            if is_first {
                at = at.saturating_add(1);
            }
            if is_second {
                other = other.saturating_add(1);
            }
            if !is_and || (is_first && is_second) {
                self.lists.put(next)?;
                if next < 64 {
                    low |= 1u64 << next;
                }
            }
        }
        self.end(alloc, from, low)
    }
}
