//! Rules by what stands ahead of their places: a chain, a list, or a kind of rule. Each family's rules have numbers one behind the
//! other.

use fws_num::{Memory, Text};
use std::alloc::Global;

/// The rules of a line: the number of the first one, and how many there are.
#[derive(Clone, Copy)]
pub(crate) struct Stretch {
    pub(crate) first: u32,
    pub(crate) count: u32,
}

/// A family.
#[derive(Drop)]
struct Family {
    front: Text,
    first: u32,
    count: u32,
    /// How many of its rules were met.
    met: u32,
}

/// The families of a configuration's rules.
#[derive(Drop)]
pub(crate) struct Families {
    all: Vec<Family>,
    /// The one that was met last.
    last: usize,
}

/// What stands ahead of the last blank of a label.
fn front_of(label: &[u8]) -> &[u8] {
    let mut end = 0;
    for (k, byte) in label.iter().enumerate() {
        if *byte == b' ' {
            end = k;
        }
    }
    match label.get(..end) {
        Some(front) => front,
        None => &[],
    }
}

impl Families {
    /// Adds a rule to the last family, or to a new one.
    fn add(&mut self, alloc: Global, number: u32, front: &[u8]) -> Result<(), Memory> {
        if let Some(family) = self.all.last_mut() {
            if family.front.as_slice() == front {
                family.count = family.count.saturating_add(1);
                return Ok(());
            }
        }
        let front = Text::of(alloc, front)?;
        self.all.push(Family {
            front,
            first: number,
            count: 1,
            met: 0,
        })?;
        Ok(())
    }

    /// The families of rules with these labels.
    pub(crate) fn of(alloc: Global, labels: &[Text]) -> Result<Families, Memory> {
        let mut families = Families {
            all: Vec::new(alloc),
            last: 0,
        };
        let mut number = 0u32;
        for label in labels {
            families.add(alloc, number, front_of(label.as_slice()))?;
            number = number.saturating_add(1);
        }
        Ok(families)
    }

    /// Whether the family at a place has the front.
    fn is_at(&self, place: usize, front: &[u8]) -> bool {
        match self.all.get(place) {
            Some(family) => family.front.as_slice() == front,
            None => false,
        }
    }

    /// Where the family with the front stands, if there is one.
    fn place_of(&self, front: &[u8]) -> Option<usize> {
        if self.is_at(self.last, front) {
            return Some(self.last);
        }
        self.all
            .iter()
            .position(|family| family.front.as_slice() == front)
    }

    /// Meets so many rules of the family with the front: none where there is no such family.
    pub(crate) fn meet(&mut self, front: &[u8], count: u32) -> Stretch {
        let place = self.place_of(front).unwrap_or(usize::MAX);
        match self.all.get_mut(place) {
            Some(family) => {
                let first = family.first.saturating_add(family.met);
                family.met = family.met.saturating_add(count);
                self.last = place;
                Stretch { first, count }
            }
            None => Stretch { first: 0, count: 0 },
        }
    }

    /// Whether all rules were met, each once.
    pub(crate) fn are_met(&self) -> bool {
        self.all.iter().all(|family| family.met == family.count)
    }
}
