//! The text of instances and rules.

use fws_num::{Memory, Text, put_dec};
use fws_suggest::Phrases;
use std::alloc::Global;

/// How many numbers rules have.
const MOST_RULES: usize = 60000;

/// A rule without its number: what stands ahead of where it goes on, and at which place it goes on, if it does.
#[derive(Drop)]
struct Line {
    action: Text,
    goes_to: Option<Mark>,
    body: Text,
}

/// A place among the rules.
#[derive(Clone, Copy, PartialEq, Eq)]
pub(crate) enum Mark {
    /// The rule `check-state`.
    Check,
    /// The first rule behind the list of what is dropped as packets come in.
    Listed,
    /// The first rule behind the list of what is dropped as packets leave.
    Left,
    /// The first rule behind those that translate packets that come in.
    Translated,
}

/// Rules while they are put together.
#[derive(Drop)]
pub(crate) struct Script {
    alloc: Global,
    /// The instances, a line each.
    pub(crate) instances: Text,
    /// How many instances there are.
    pub(crate) numbers: usize,
    lines: Vec<Line>,
    check: usize,
    listed: usize,
    left: usize,
    translated: usize,
}

/// A rule for one line of a body.
fn rule_of(alloc: Global, action: &[u8], body: &[u8], ending: &[u8]) -> Result<Text, Memory> {
    let mut rule = Text::of(alloc, action)?;
    rule.put(b" ")?;
    rule.put(body)?;
    rule.put(ending)?;
    Ok(rule)
}

/// Appends a rule with its number, and the number of the rule at which it goes on.
fn put_numbered(out: &mut Text, line: &Line, number: u64, goes_to: u64) -> Result<(), Memory> {
    out.put(b"add ")?;
    put_dec(out, number)?;
    out.put(b" ")?;
    out.put(line.action.as_slice())?;
    if line.goes_to.is_some() {
        put_dec(out, goes_to)?;
        out.put(b" ")?;
        out.put(line.body.as_slice())?;
    }
    out.put(b"\n")
}

impl Script {
    /// No rule.
    pub(crate) fn new(alloc: Global) -> Script {
        Script {
            alloc,
            instances: Text::new(alloc),
            numbers: 0,
            lines: Vec::new(alloc),
            check: 0,
            listed: 0,
            left: 0,
            translated: 0,
        }
    }

    /// How many lines there are.
    pub(crate) fn count(&self) -> usize {
        self.lines.len().saturating_add(self.numbers)
    }

    /// Appends a rule that goes on at a place, or just stands there.
    fn put_line(
        &mut self,
        action: &[u8],
        goes_to: Option<Mark>,
        body: &[u8],
    ) -> Result<(), Memory> {
        let action = Text::of(self.alloc, action)?;
        let body = Text::of(self.alloc, body)?;
        self.lines.push(Line {
            action,
            goes_to,
            body,
        })?;
        Ok(())
    }

    /// Appends a rule.
    pub(crate) fn put(&mut self, rule: &[u8]) -> Result<(), Memory> {
        self.put_line(rule, None, b"")
    }

    /// Appends a rule for each line of a body.
    pub(crate) fn put_all(
        &mut self,
        action: &[u8],
        body: &Phrases,
        ending: &[u8],
    ) -> Result<(), Memory> {
        for line in body.lines() {
            let rule = rule_of(self.alloc, action, line.as_slice(), ending)?;
            self.put(rule.as_slice())?;
        }
        Ok(())
    }

    /// Appends a rule for each line of a body that goes on at a place.
    pub(crate) fn put_skips(&mut self, mark: Mark, body: &Phrases) -> Result<(), Memory> {
        for line in body.lines() {
            self.put_line(b"skipto ", Some(mark), line.as_slice())?;
        }
        Ok(())
    }

    /// Says that the next rule is the first behind the list of what is dropped as packets come in.
    pub(crate) fn end_list(&mut self) {
        self.listed = self.lines.len();
    }

    /// Says that the next rule is the first behind the list of what is dropped as packets leave.
    pub(crate) fn end_leaving_list(&mut self) {
        self.left = self.lines.len();
    }

    /// Says that the next rule is the first behind those that translate what comes in.
    pub(crate) fn end_translations(&mut self) {
        self.translated = self.lines.len();
    }

    /// Appends `check-state`.
    pub(crate) fn put_check(&mut self) -> Result<(), Memory> {
        self.check = self.lines.len();
        self.put(b"check-state")
    }

    /// How far the numbers of rules lie apart.
    fn step(&self) -> u64 {
        if self.lines.len() < 600 {
            100
        } else if self.lines.len() < 6000 {
            10
        } else {
            1
        }
    }

    /// The place at which a rule goes on.
    fn place_of(&self, mark: Option<Mark>) -> usize {
        match mark {
            Some(Mark::Listed) => self.listed,
            Some(Mark::Left) => self.left,
            Some(Mark::Translated) => self.translated,
            _ => self.check,
        }
    }

    /// Appends the whole text: none where there are more rules than numbers.
    pub(crate) fn put_text(&self, out: &mut Text) -> Result<bool, Memory> {
        if self.lines.len() > MOST_RULES {
            return Ok(false);
        }
        let step = self.step();
        out.put(self.instances.as_slice())?;
        let mut number = 100u64;
        for line in &self.lines {
            let place = self.place_of(line.goes_to) as u64;
            let goes_to = place.saturating_mul(step).saturating_add(100);
            put_numbered(out, line, number, goes_to)?;
            number = number.saturating_add(step);
        }
        Ok(true)
    }
}
