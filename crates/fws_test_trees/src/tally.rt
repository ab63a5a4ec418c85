//! How many cases agree.

use fws_num::{Memory, Text, put_dec};

/// The cases of a group that were tried so far.
#[derive(Clone, Copy)]
pub struct Tally {
    tried: u64,
    agreeing: u64,
    differing: Option<u64>,
}

impl Tally {
    /// No case yet.
    pub fn new() -> Tally {
        Tally {
            tried: 0,
            agreeing: 0,
            differing: None,
        }
    }

    /// Counts a case. The first one that doesn't agree is kept by its number.
    pub fn count(&mut self, agrees: bool) {
        if agrees {
            self.agreeing = self.agreeing.saturating_add(1);
        } else if self.differing.is_none() {
            self.differing = Some(self.tried);
        }
        self.tried = self.tried.saturating_add(1);
    }

    /// Whether all agree.
    pub fn is_clean(&self) -> bool {
        self.differing.is_none()
    }

    /// Appends a line: the name, how many agree, and the first that doesn't.
    pub fn put_line(&self, out: &mut Text, name: &[u8]) -> Result<(), Memory> {
        out.put(name)?;
        out.put(b" ")?;
        put_dec(out, self.agreeing)?;
        out.put(b" of ")?;
        put_dec(out, self.tried)?;
        out.put(b" agree")?;
        if let Some(number) = self.differing {
            out.put(b", first differs ")?;
            put_dec(out, number)?;
        }
        out.put(b"\n")
    }
}
