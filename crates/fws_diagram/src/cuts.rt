//! Where the fields of a space are cut into atoms.

use crate::fields::FIELDS;
use crate::words::word_at;
use fws_iv::Ivs;
use fws_num::Memory;
use std::alloc::Global;

/// Where each field is cut: an atom begins at each cut, and at 0.
#[derive(Drop)]
pub struct Cuts {
    pub(crate) tops: [u32; 10],
    pub(crate) starts: Vec<Vec<u32>>,
}

impl Cuts {
    /// No cuts, with the greatest value of each field.
    pub fn new(alloc: Global, tops: [u32; 10]) -> Result<Cuts, Memory> {
        let mut starts = Vec::new(alloc);
        for _ in 0..FIELDS {
            starts.push(Vec::new(alloc))?;
        }
        Ok(Cuts { tops, starts })
    }

    /// Where a field is cut, in the order in which that was said.
    pub fn starts(&self, field: usize) -> &[u32] {
        match self.starts.get(field) {
            Some(starts) => starts,
            None => &[],
        }
    }

    /// The greatest value of a field.
    fn top(&self, field: usize) -> u32 {
        word_at(&self.tops, field)
    }

    /// Cuts a field ahead of a value.
    pub fn cut(&mut self, field: usize, value: u32) -> Result<(), Memory> {
        if value == 0 || value > self.top(field) {
            return Ok(());
        }
        if let Some(starts) = self.starts.get_mut(field) {
            starts.push(value)?;
        }
        Ok(())
    }

    /// Cuts a field behind a value.
    pub fn cut_behind(&mut self, field: usize, value: u32) -> Result<(), Memory> {
        match value.checked_add(1) {
            Some(next) => self.cut(field, next),
            None => Ok(()),
        }
    }

    /// Cuts a field at both ends of a range.
    pub fn cut_range(&mut self, field: usize, low: u32, high: u32) -> Result<(), Memory> {
        self.cut(field, low)?;
        self.cut_behind(field, high)
    }

    /// Cuts a field at the ends of each interval of a set.
    pub fn cut_set(&mut self, field: usize, set: &Ivs) -> Result<(), Memory> {
        for part in set.parts() {
            self.cut_range(field, part.lo, part.hi)?;
        }
        Ok(())
    }
}
