//! How many cases agree.

use fws_num::{Memory, Text, put_dec};
use std::alloc::Global;

/// The cases that were tried so far.
#[derive(Clone, Copy)]
pub struct Tally {
    all: u64,
    agreeing: u64,
    differing: Option<u64>,
}

impl Tally {
    /// No case yet.
    pub fn new() -> Tally {
        Tally {
            all: 0,
            agreeing: 0,
            differing: None,
        }
    }

    /// Counts a case. The first one that doesn't agree is kept by its number.
    pub fn count(&mut self, agrees: bool) {
        self.all = self.all.saturating_add(1);
        if agrees {
            self.agreeing = self.agreeing.saturating_add(1);
        } else if self.differing.is_none() {
            self.differing = Some(self.all);
        }
    }

    /// Adds the first case that differs, and how many agree.
    fn put(&self, said: &mut Text) -> Result<(), Memory> {
        if let Some(number) = self.differing {
            said.put(b"first differs ")?;
            put_dec(said, number)?;
            said.put(b", ")?;
        }
        put_dec(said, self.agreeing)?;
        said.put(b" of ")?;
        put_dec(said, self.all)?;
        said.put(b" agree")
    }

    /// The first case that differs, and how many agree.
    pub fn said(&self, alloc: Global) -> Result<Text, Memory> {
        let mut said = Text::new(alloc);
        self.put(&mut said)?;
        Ok(said)
    }
}
