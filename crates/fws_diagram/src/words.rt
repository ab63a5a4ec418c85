//! Lists of numbers, equal lists stored once.

use fws_num::Memory;
use std::alloc::Global;

/// Where a list stands among all words.
#[derive(Clone, Copy)]
struct Span {
    from: usize,
    len: usize,
    digest: u64,
}

/// Lists of numbers, by number. Equal lists have one number.
pub struct Lists {
    // All lists, one behind the other.
    words: Vec<u32>,
    spans: Vec<Span>,
    // By digest: the number of a list and one more, or 0. Its length is a power of 2.
    slots: Vec<u32>,
    // The lists that are being made, the inner one behind the outer.
    draft: Vec<u32>,
}

impl Drop for Lists {
    fn drop(self) {
        let Lists {
            words,
            spans,
            slots,
            draft,
        } = self;
        drop(words);
        drop(spans);
        drop(slots);
        drop(draft);
    }
}

/// How many slots there are at least.
const LEAST: usize = 1024;

/// A number of the words, which is most times another one for other words.
fn digest_of(words: &[u32]) -> u64 {
    let mut digest = 0x9e37_79b9_7f4a_7c15u64;
    for word in words {
        digest = (digest ^ u64::from(*word)).wrapping_mul(0xff51_afd7_ed55_8ccd);
        digest ^= digest >> 32;
    }
    digest
}

/// The word at a place; 0 where there is none.
pub fn word_at(words: &[u32], at: usize) -> u32 {
    match words.get(at) {
        Some(word) => *word,
        None => 0,
    }
}

/// Makes so many empty slots.
pub(crate) fn empty_slots(alloc: Global, count: usize) -> Result<Vec<u32>, Memory> {
    let mut slots = Vec::new(alloc);
    for _ in 0..count {
        slots.push(0)?;
    }
    Ok(slots)
}

impl Lists {
    /// No lists.
    pub fn new(alloc: Global) -> Lists {
        Lists {
            words: Vec::new(alloc),
            spans: Vec::new(alloc),
            slots: Vec::new(alloc),
            draft: Vec::new(alloc),
        }
    }

    /// How many words all lists have.
    pub fn size(&self) -> usize {
        self.words.len()
    }

    /// The list with this number; the empty list where there is none.
    pub fn list(&self, number: u32) -> &[u32] {
        if let Some(span) = self.spans.get(number as usize) {
            if let Some(behind) = self.words.get(span.from..) {
                if let Some(list) = behind.get(..span.len) {
                    return list;
                }
            }
        }
        &[]
    }

    /// Where the list with this number begins among all words.
    pub fn place(&self, number: u32) -> usize {
        match self.spans.get(number as usize) {
            Some(span) => span.from,
            None => self.words.len(),
        }
    }

    /// How long the list with this number is.
    pub fn len(&self, number: u32) -> usize {
        match self.spans.get(number as usize) {
            Some(span) => span.len,
            None => 0,
        }
    }

    /// The word at a place among all words; 0 where there is none.
    pub fn word(&self, at: usize) -> u32 {
        word_at(&self.words, at)
    }

    /// Begins a list: what is put from here on is in it, until it is ended.
    pub fn begin(&self) -> usize {
        self.draft.len()
    }

    /// Puts a word at the end of the list that was begun last.
    pub fn put(&mut self, word: u32) -> Result<(), Memory> {
        self.draft.push(word)?;
        Ok(())
    }

    /// The last word that was put into a list that was begun at `from`, if it has one.
    pub fn last(&self, from: usize) -> Option<u32> {
        if self.draft.len() <= from {
            return None;
        }
        self.draft.last().copied()
    }

    /// Puts a word in the place of the last one.
    pub fn set_last(&mut self, word: u32) {
        if let Some(last) = self.draft.last_mut() {
            *last = word;
        }
    }

    /// How many words the list has that was begun at `from`.
    pub fn drafted(&self, from: usize) -> usize {
        self.draft.len().saturating_sub(from)
    }

    /// The word at a place of the list that was begun at `from`; 0 where there is none.
    pub fn draft_word(&self, from: usize, at: usize) -> u32 {
        word_at(&self.draft, from.wrapping_add(at))
    }

    /// Gives up the list that was begun at `from`.
    pub fn drop_draft(&mut self, from: usize) {
        self.draft.truncate(from);
    }

    /// Makes the table of slots twice as long.
    fn grow(&mut self, alloc: Global) -> Result<(), Memory> {
        let count = self.slots.len().saturating_mul(2).max(LEAST);
        let mut slots = empty_slots(alloc, count)?;
        let mask = (count as u64).saturating_sub(1);
        let mut number: u32 = 0;
        for span in &self.spans {
            number = number.saturating_add(1);
            let mut at = (span.digest & mask) as usize;
            for _ in 0..count {
                match slots.get_mut(at) {
                    Some(slot) => {
                        if *slot == 0 {
                            *slot = number;
                            break;
                        }
                    }
                    None => break,
                }
                at = ((at as u64).wrapping_add(1) & mask) as usize;
            }
        }
        self.slots = slots;
        Ok(())
    }

    /// Ends the list that was begun at `from`, and gives its number: the one that an equal list has already, if there is one.
    pub fn end(&mut self, alloc: Global, from: usize) -> Result<u32, Memory> {
        if self.spans.len().saturating_mul(2) >= self.slots.len() {
            self.grow(alloc)?;
        }
        let number = self.number_of(from)?;
        self.draft.truncate(from);
        Ok(number)
    }

    /// The number of the list that was begun at `from`.
    fn number_of(&mut self, from: usize) -> Result<u32, Memory> {
        let Some(list) = self.draft.get(from..) else {
            return Err(Memory);
        };
        let digest = digest_of(list);
        let count = self.slots.len();
        let mask = (count as u64).saturating_sub(1);
        let mut at = (digest & mask) as usize;
        for _ in 0..count {
            let slot = word_at(&self.slots, at);
            if slot == 0 {
                break;
            }
            if let Some(span) = self.spans.get((slot - 1) as usize) {
                if span.digest == digest && span.len == list.len() {
                    if let Some(behind) = self.words.get(span.from..) {
                        if let Some(other) = behind.get(..span.len) {
                            if other == list {
                                return Ok(slot - 1);
                            }
                        }
                    }
                }
            }
            at = ((at as u64).wrapping_add(1) & mask) as usize;
        }
        let Ok(number) = u32::try_from(self.spans.len()) else {
            return Err(Memory);
        };
        let Some(next) = number.checked_add(1) else {
            return Err(Memory);
        };
        let span = Span {
            from: self.words.len(),
            len: list.len(),
            digest,
        };
        for word in list {
            self.words.push(*word)?;
        }
        self.spans.push(span)?;
        if let Some(slot) = self.slots.get_mut(at) {
            *slot = next;
        }
        Ok(number)
    }
}
