//! What walks remember, thrown away at once by counting epochs.

use fws_num::Memory;
use std::alloc::Global;

/// A number for each key below some thousands or millions.
#[derive(Drop)]
pub(crate) struct Memo {
    // The epoch in which a key got its number.
    stamps: Vec<u32>,
    numbers: Vec<u32>,
    epoch: u32,
}

impl Memo {
    /// Without numbers.
    pub(crate) fn new(alloc: Global) -> Memo {
        Memo {
            stamps: Vec::new(alloc),
            numbers: Vec::new(alloc),
            epoch: 1,
        }
    }

    /// Forgets all numbers.
    pub(crate) fn clear(&mut self) {
        match self.epoch.checked_add(1) {
            Some(epoch) => self.epoch = epoch,
            None => {
                self.stamps.truncate(0);
                self.numbers.truncate(0);
                self.epoch = 1;
            }
        }
    }

    /// The number of a key, if it has one.
    pub(crate) fn get(&self, key: u32) -> Option<u32> {
        match self.stamps.get(key as usize) {
            Some(stamp) => {
                if *stamp == self.epoch {
                    self.numbers.get(key as usize).copied()
                } else {
                    None
                }
            }
            None => None,
        }
    }

    /// Gives a key its number.
    pub(crate) fn set(&mut self, key: u32, number: u32) -> Result<(), Memory> {
        let place = key as usize;
        if place >= self.stamps.len() {
            for _ in self.stamps.len()..place.saturating_add(1) {
                self.stamps.push(0)?;
            }
        }
        if place >= self.numbers.len() {
            for _ in self.numbers.len()..place.saturating_add(1) {
                self.numbers.push(0)?;
            }
        }
        if let Some(stamp) = self.stamps.get_mut(place) {
            *stamp = self.epoch;
        }
        if let Some(slot) = self.numbers.get_mut(place) {
            *slot = number;
        }
        Ok(())
    }
}

/// A pair of numbers with what it has.
#[derive(Clone, Copy)]
struct Pair {
    first: u32,
    second: u32,
    number: u32,
    epoch: u32,
}

/// A number for each of some pairs of numbers.
#[derive(Drop)]
pub struct Pairs {
    // Its length is a power of 2, and fewer than half of the entries are of this epoch.
    entries: Vec<Pair>,
    epoch: u32,
    count: usize,
}

/// How many entries there are at least.
const LEAST: usize = 256;

const UNUSED: Pair = Pair {
    first: 0,
    second: 0,
    number: 0,
    epoch: 0,
};

/// Makes so many unused entries.
fn unused(alloc: Global, count: usize) -> Result<Vec<Pair>, Memory> {
    let mut entries = Vec::new(alloc);
    for _ in 0..count {
        entries.push(UNUSED)?;
    }
    Ok(entries)
}

/// Where to look first for a pair.
fn mixed(first: u32, second: u32) -> u64 {
    let key = (u64::from(first) << 32) | u64::from(second);
    let product = key.wrapping_mul(0x9e37_79b9_7f4a_7c15);
    product ^ (product >> 32)
}

impl Pairs {
    /// Without numbers.
    pub fn new(alloc: Global) -> Pairs {
        Pairs {
            entries: Vec::new(alloc),
            epoch: 1,
            count: 0,
        }
    }

    /// Forgets all numbers.
    pub fn clear(&mut self, alloc: Global) {
        self.count = 0;
        match self.epoch.checked_add(1) {
            Some(epoch) => self.epoch = epoch,
            None => {
                self.entries = Vec::new(alloc);
                self.epoch = 1;
            }
        }
    }

    /// The number of a pair, if it has one.
    pub fn get(&self, first: u32, second: u32) -> Option<u32> {
        let count = self.entries.len();
        let mask = (count as u64).saturating_sub(1);
        let mut at = mixed(first, second) & mask;
        for _ in 0..count {
            match self.entries.get(at as usize) {
                Some(pair) => {
                    if pair.epoch != self.epoch {
                        return None;
                    }
                    if pair.first == first && pair.second == second {
                        return Some(pair.number);
                    }
                }
                None => return None,
            }
            at = at.wrapping_add(1) & mask;
        }
        None
    }

    /// Gives a pair its number, which it hasn't yet.
    pub fn set(
        &mut self,
        alloc: Global,
        first: u32,
        second: u32,
        number: u32,
    ) -> Result<(), Memory> {
        if self.count.saturating_mul(2) >= self.entries.len() {
            self.grow(alloc)?;
        }
        let pair = Pair {
            first,
            second,
            number,
            epoch: self.epoch,
        };
        self.count = self.count.saturating_add(1);
        store(&mut self.entries, pair);
        Ok(())
    }

    /// Makes room for twice as many.
    fn grow(&mut self, alloc: Global) -> Result<(), Memory> {
        let count = self.entries.len().saturating_mul(2).max(LEAST);
        let mut entries = unused(alloc, count)?;
        for pair in &self.entries {
            if pair.epoch == self.epoch {
                store(&mut entries, *pair);
            }
        }
        self.entries = entries;
        Ok(())
    }
}

/// Stores a pair at the first place that isn't used in its epoch.
fn store(entries: &mut Vec<Pair>, pair: Pair) {
    let count = entries.len();
    let mask = (count as u64).saturating_sub(1);
    let mut at = mixed(pair.first, pair.second) & mask;
    for _ in 0..count {
        if let Some(entry) = entries.get_mut(at as usize) {
            if entry.epoch != pair.epoch {
                *entry = pair;
                return;
            }
        }
        at = at.wrapping_add(1) & mask;
    }
}
