//! The rules that decide on a packet.

use crate::rules::NONE;
use fws_flat::FlatAct;
use fws_num::{Memory, Text};
use std::alloc::Global;

/// The rules that decide on a packet.
#[derive(Drop)]
pub(crate) struct Deciders {
    /// Those that accept it, one for each list that it meets, or the one that drops it: none where a policy does.
    pub(crate) verdict: Vec<u32>,
    /// The one that writes its destination: NONE where none does.
    pub(crate) destination: u32,
    /// The one that writes its source: NONE where none does.
    pub(crate) source: u32,
    /// All that it uses.
    pub(crate) used: Vec<u32>,
}

/// What is noted on a walk.
#[derive(Drop)]
pub(crate) struct Log {
    pub(crate) found: Deciders,
    /// The last rule that was used.
    rule: u32,
    /// The last rule of the list that decided.
    decided: u32,
}

/// Whether a rule translates, by its label.
fn translates(labels: &[Text], rule: u32) -> bool {
    match labels.get(rule as usize) {
        Some(label) => matches!(
            label.as_slice(),
            [b'n', b'a', b't', b' ', ..] | [b'r', b'd', b'r', b' ', ..]
        ),
        None => false,
    }
}

impl Log {
    /// Nothing is noted.
    pub(crate) fn new(alloc: Global) -> Log {
        Log {
            found: Deciders {
                verdict: Vec::new(alloc),
                destination: NONE,
                source: NONE,
                used: Vec::new(alloc),
            },
            rule: NONE,
            decided: NONE,
        }
    }

    /// Begins a list.
    pub(crate) fn begin(&mut self) {
        self.rule = NONE;
        self.decided = NONE;
    }

    /// Notes a rule that is used.
    fn note_rule(&mut self, rule: u32) -> Result<(), Memory> {
        if rule == NONE {
            return Ok(());
        }
        self.rule = rule;
        self.found.used.push(rule)?;
        Ok(())
    }

    /// Notes what an instruction does that stands for a rule, or for none. Where one accepts that stands for none a rule led there; where
    /// one drops none did: it is the end of a list.
    pub(crate) fn note(&mut self, rule: u32, act: FlatAct) -> Result<(), Memory> {
        self.note_rule(rule)?;
        match act {
            FlatAct::Accept | FlatAct::Hold(_) => self.decided = self.rule,
            FlatAct::Drop => self.decided = rule,
            FlatAct::Dst(_) => self.found.destination = self.rule,
            FlatAct::Src(_) => self.found.source = self.rule,
            _ => {}
        }
        Ok(())
    }

    /// Notes that a list accepted.
    pub(crate) fn accepted(&mut self, labels: &[Text]) -> Result<(), Memory> {
        let rule = self.decided;
        if rule != NONE && !translates(labels, rule) {
            self.found.verdict.push(rule)?;
        }
        Ok(())
    }

    /// Notes that a list dropped.
    pub(crate) fn dropped(&mut self, alloc: Global) -> Result<(), Memory> {
        self.found.verdict = Vec::new(alloc);
        if self.decided != NONE {
            self.found.verdict.push(self.decided)?;
        }
        Ok(())
    }
}
