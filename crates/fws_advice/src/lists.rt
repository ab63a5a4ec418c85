//! How many rules the lists of a text of pf stand for, and how many uses of macros it has, about: what reading it costs goes by
//! these, not by its bytes alone.

use crate::bytes::{behind, byte_at, is_space, part};
use fws_num::Memory;
use std::alloc::Global;
use std::collections::HashMap;

/// The most rules that a text may stand for. A statement that makes more is refused before any of them is made.
const MOST: usize = 200_000;

/// The key of a macro's name. Names with one key count as one macro.
fn key_of(name: &[u8]) -> u32 {
    let mut key = 2_166_136_261u32;
    for c in name {
        key = (key ^ u32::from(*c)).wrapping_mul(16_777_619);
    }
    key
}

/// What is known of the text so far.
#[derive(Drop)]
struct Lists {
    /// How many values macros stand for, by the keys of their names.
    macros: HashMap<u32, usize>,
    /// How many rules the statements before make.
    rules: usize,
    /// How many uses of macros they have.
    uses: usize,
    /// How many rules this statement makes.
    product: usize,
    /// How many values it has.
    values: usize,
    /// How many values the list has in which this is; none outside.
    listed: Option<usize>,
    /// The key of the macro that it defines.
    defined: Option<u32>,
}

impl Lists {
    /// How many values a word stands for.
    fn size(&self, word: &[u8]) -> usize {
        match behind(word, b"$") {
            Some(name) => match self.macros.get(&key_of(name)) {
                Some(size) => *size,
                None => 1,
            },
            None => 1,
        }
    }

    /// Takes a word.
    fn take_word(&mut self, word: &[u8]) {
        if word.is_empty() {
            return;
        }
        let size = self.size(word);
        if behind(word, b"$").is_some() {
            self.uses = self.uses.saturating_add(1);
        }
        self.values = self.values.saturating_add(size);
        match self.listed {
            Some(count) => self.listed = Some(count.saturating_add(size)),
            None => self.product = self
                .product
                .saturating_mul(size)
                .min(MOST.saturating_add(1)),
        }
    }

    /// Takes the end of a list.
    fn close(&mut self) {
        if let Some(count) = self.listed {
            self.product = self
                .product
                .saturating_mul(count.max(1))
                .min(MOST.saturating_add(1));
        }
        self.listed = None;
    }

    /// Takes the end of a statement.
    fn end(&mut self) -> Result<(), Memory> {
        match self.defined {
            Some(key) => {
                let size = self.product.max(self.values);
                self.macros.insert(key, size)?;
            }
            None => {
                if self.product <= MOST {
                    self.rules = self.rules.saturating_add(self.product);
                }
            }
        }
        self.product = 1;
        self.values = 0;
        self.listed = None;
        self.defined = None;
        Ok(())
    }

    /// Takes what stands behind a word. The byte ahead of it tells whether the line goes on.
    fn take_byte(&mut self, c: u8, word: &[u8], ahead: u8) -> Result<(), Memory> {
        match c {
            b'{' => self.listed = Some(0),
            b'}' => self.close(),
            b'=' => {
                if self.values == 1 && self.defined.is_none() {
                    self.defined = Some(key_of(word));
                    self.values = 0;
                    self.product = 1;
                }
            }
            b'\n' => {
                if self.listed.is_none() && ahead != b'\\' {
                    self.end()?;
                }
            }
            _ => {}
        }
        Ok(())
    }
}

/// The byte ends a word.
fn ends_word(c: u8) -> bool {
    is_space(c) || matches!(c, b',' | b'"' | b'{' | b'}' | b'=')
}

/// How many rules a text of pf stands for, and how many uses of macros it has, about.
pub(crate) fn rules_and_uses(alloc: Global, text: &[u8]) -> Result<(usize, usize), Memory> {
    let mut lists = Lists {
        macros: HashMap::new(alloc),
        rules: 0,
        uses: 0,
        product: 1,
        values: 0,
        listed: None,
        defined: None,
    };
    let mut from = 0usize;
    let mut last: &[u8] = b"";
    let mut is_comment = false;
    for (at, c) in text.iter().enumerate() {
        is_comment = *c != b'\n' && (is_comment || *c == b'#');
        if ends_word(*c) && !is_comment {
            let word = part(text, from, at);
            if !word.is_empty() {
                lists.take_word(word);
                last = word;
            }
            lists.take_byte(*c, last, byte_at(text, at.wrapping_sub(1)))?;
            from = at.saturating_add(1);
        }
    }
    lists.end()?;
    Ok((lists.rules, lists.uses))
}
