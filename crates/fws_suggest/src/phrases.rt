//! Lines that say one rule: of what one line can't say each way in a line of its own.

use fws_diagram::Stop;
use fws_num::{Memory, Text};
use std::alloc::Global;

/// How many lines a rule may take.
const MOST_LINES: usize = 5000;

/// The lines of a rule while they are written.
#[derive(Drop)]
pub struct Phrases {
    alloc: Global,
    lines: Vec<Text>,
}

/// Appends a blank, where something stands ahead of it, and words.
fn put_words(line: &mut Text, words: &[u8]) -> Result<(), Memory> {
    if words.is_empty() {
        return Ok(());
    }
    if !line.as_slice().is_empty() {
        line.put(b" ")?;
    }
    line.put(words)
}

/// Puts a line with words behind it.
fn put_longer(
    alloc: Global,
    lines: &mut Vec<Text>,
    line: &Text,
    words: &[u8],
) -> Result<(), Memory> {
    let mut longer = line.copy(alloc)?;
    put_words(&mut longer, words)?;
    lines.push(longer)?;
    Ok(())
}

/// Puts each of the lines once for each of the choices, which it ends in.
fn put_chosen(
    alloc: Global,
    chosen: &mut Vec<Text>,
    lines: &[Text],
    choices: &[Text],
) -> Result<(), Memory> {
    for line in lines {
        for choice in choices {
            put_longer(alloc, chosen, line, choice.as_slice())?;
        }
    }
    Ok(())
}

/// Puts copies of lines.
fn put_copies(alloc: Global, copies: &mut Vec<Text>, lines: &[Text]) -> Result<(), Memory> {
    for line in lines {
        let copy = line.copy(alloc)?;
        copies.push(copy)?;
    }
    Ok(())
}

impl Phrases {
    /// One empty line.
    pub fn new(alloc: Global) -> Result<Phrases, Memory> {
        let mut lines = Vec::new(alloc);
        lines.push(Text::new(alloc))?;
        Ok(Phrases { alloc, lines })
    }

    /// Appends words to each line.
    pub fn put(&mut self, words: &[u8]) -> Result<(), Memory> {
        for line in self.lines.iter_mut() {
            put_words(line, words)?;
        }
        Ok(())
    }

    /// Takes each line once for each of the choices, which it ends in.
    pub fn choose(&mut self, choices: &[Text]) -> Result<(), Stop> {
        if let [only] = choices {
            self.put(only.as_slice())?;
            return Ok(());
        }
        if self.lines.len().saturating_mul(choices.len()) > MOST_LINES {
            return Err(Stop::Late);
        }
        let mut lines = Vec::new(self.alloc);
        put_chosen(self.alloc, &mut lines, &self.lines, choices)?;
        self.lines = lines;
        Ok(())
    }

    /// The same lines.
    pub fn copy(&self) -> Result<Phrases, Memory> {
        let mut lines = Vec::new(self.alloc);
        put_copies(self.alloc, &mut lines, &self.lines)?;
        Ok(Phrases {
            alloc: self.alloc,
            lines,
        })
    }

    /// Puts the lines of another rule behind these.
    pub fn append(&mut self, others: &Phrases) -> Result<(), Stop> {
        if self.lines.len().saturating_add(others.lines.len()) > MOST_LINES {
            return Err(Stop::Late);
        }
        put_copies(self.alloc, &mut self.lines, &others.lines)?;
        Ok(())
    }

    /// No line.
    pub fn none(alloc: Global) -> Phrases {
        Phrases {
            alloc,
            lines: Vec::new(alloc),
        }
    }

    /// The lines.
    pub fn lines(&self) -> &[Text] {
        self.lines.as_slice()
    }
}
