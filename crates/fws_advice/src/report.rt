//! The text that is said.

use crate::bytes::byte_at;
use fws_num::{Memory, Text, put_dec, put_quad};
use std::alloc::Global;

/// What is said so far.
#[derive(Drop)]
pub(crate) struct Report {
    pub(crate) alloc: Global,
    text: Text,
}

/// The byte, or a question mark where a terminal would take it as a command. The byte behind it may be the second one of a letter.
fn shown(c: u8, next: u8) -> u8 {
    let is_control = c < 32 || c == 127;
    let begins_control = c == 0xc2 && (0x80..=0x9f).contains(&next);
    if is_control || begins_control {
        b'?'
    } else {
        c
    }
}

/// The byte that stands for it on a terminal, behind the byte ahead of it.
fn shown_behind(before: u8, c: u8, next: u8) -> u8 {
    if c == b'\t' {
        b' '
    } else if before == 0xc2 && (0x80..=0x9f).contains(&c) {
        b'?'
    } else {
        shown(c, next)
    }
}

impl Report {
    /// Nothing is said.
    pub(crate) fn new(alloc: Global) -> Report {
        Report {
            alloc,
            text: Text::new(alloc),
        }
    }

    /// What is said.
    pub(crate) fn as_slice(&self) -> &[u8] {
        self.text.as_slice()
    }

    /// Nothing is said.
    pub(crate) fn is_empty(&self) -> bool {
        self.text.as_slice().is_empty()
    }

    /// Says words of our own.
    pub(crate) fn say(&mut self, words: &[u8]) -> Result<(), Memory> {
        self.text.put(words)
    }

    /// Says a number in decimals.
    pub(crate) fn say_number(&mut self, number: u64) -> Result<(), Memory> {
        put_dec(&mut self.text, number)
    }

    /// Says an address.
    pub(crate) fn say_address(&mut self, address: u32) -> Result<(), Memory> {
        put_quad(&mut self.text, address)
    }

    /// Says bytes that others wrote, without those that a terminal would take as commands.
    pub(crate) fn show(&mut self, bytes: &[u8]) -> Result<(), Memory> {
        let mut before = 0u8;
        for (at, c) in bytes.iter().enumerate() {
            let next = byte_at(bytes, at.saturating_add(1));
            self.text.put(&[shown_behind(before, *c, next)])?;
            before = *c;
        }
        Ok(())
    }

    /// Says our words, with what others wrote, in quotes, in the place of each `%`.
    pub(crate) fn say_with(&mut self, words: &[u8], word: &[u8]) -> Result<(), Memory> {
        for c in words {
            if *c == b'%' {
                self.text.put(b"`")?;
                self.show(word)?;
                self.text.put(b"`")?;
            } else {
                self.text.put(&[*c])?;
            }
        }
        Ok(())
    }
}
