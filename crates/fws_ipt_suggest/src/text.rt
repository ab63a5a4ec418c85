//! The text of tables, chains and rules.

use crate::options::{put_mark, words};
use fws_net::End;
use fws_num::{Memory, Text, put_dec, put_quad};
use fws_suggest::Phrases;
use std::alloc::Global;

/// Lines of rules, and how many there are.
#[derive(Drop)]
pub(crate) struct Lines {
    pub(crate) text: Text,
    pub(crate) count: usize,
}

impl Lines {
    /// No line.
    pub(crate) fn new(alloc: Global) -> Lines {
        Lines {
            text: Text::new(alloc),
            count: 0,
        }
    }

    /// Appends the lines of a rule of a chain with its target.
    pub(crate) fn put(
        &mut self,
        chain: &[u8],
        tests: &Phrases,
        target: &[u8],
    ) -> Result<(), Memory> {
        self.put_all(chain, tests, b"-j ", target)
    }

    /// Appends the lines of a rule that leads to another chain for good.
    pub(crate) fn lead(
        &mut self,
        chain: &[u8],
        tests: &Phrases,
        target: &[u8],
    ) -> Result<(), Memory> {
        self.put_all(chain, tests, b"-g ", target)
    }

    /// Appends the lines of a rule with its target behind an option.
    fn put_all(
        &mut self,
        chain: &[u8],
        tests: &Phrases,
        option: &[u8],
        target: &[u8],
    ) -> Result<(), Memory> {
        for line in tests.lines() {
            self.text.put(b"-A ")?;
            self.text.put(chain)?;
            self.text.put(b" ")?;
            if !line.as_slice().is_empty() {
                self.text.put(line.as_slice())?;
                self.text.put(b" ")?;
            }
            self.text.put(option)?;
            self.text.put(target)?;
            self.text.put(b"\n")?;
            self.count = self.count.saturating_add(1);
        }
        Ok(())
    }

    /// Whether there is no line.
    pub(crate) fn is_empty(&self) -> bool {
        self.count == 0
    }
}

/// The target that writes an end.
pub(crate) fn end_target(alloc: Global, option: &[u8], end: End) -> Result<Text, Memory> {
    if end.len < 32 {
        let mut text = words(alloc, b"NETMAP --to ")?;
        put_quad(&mut text, end.addr)?;
        text.put(b"/")?;
        put_dec(&mut text, u64::from(end.len))?;
        return Ok(text);
    }
    let mut text = words(alloc, option)?;
    text.put(b" ")?;
    put_quad(&mut text, end.addr)?;
    if let Some(port) = end.port {
        text.put(b":")?;
        put_dec(&mut text, u64::from(port))?;
    }
    Ok(text)
}

/// The target that sets a mark.
pub(crate) fn mark_target(alloc: Global, mark: u32) -> Result<Text, Memory> {
    let mut text = words(alloc, b"MARK --set-mark ")?;
    put_mark(&mut text, mark)?;
    Ok(text)
}

/// Appends a line.
pub(crate) fn put_line(out: &mut Text, line: &[u8]) -> Result<(), Memory> {
    out.put(line)?;
    out.put(b"\n")
}

/// Appends the line that declares a built-in chain with its policy.
pub(crate) fn put_chain(out: &mut Text, chain: &[u8], accepts: bool) -> Result<(), Memory> {
    out.put(b":")?;
    out.put(chain)?;
    out.put(if accepts {
        b" ACCEPT [0:0]\n"
    } else {
        b" DROP [0:0]\n"
    })
}
