//! Rules that drop or accept, with what they have in common in chains of the user's.

use crate::options::words;
use crate::passing::{GO, LEAVING};
use crate::rules::Writer;
use crate::sharing::{Common, common_part, split_by};
use crate::text::{Lines, put_line};
use fws_num::{Memory, Text, put_dec};
use fws_suggest::{ACCEPT, FIELDS, Policy, Region, Rule, Stop, Style};
use std::alloc::Global;
use std::mem;

/// How many chains of the user's a table may have.
const MOST_CHAINS: usize = 500;

/// A chain of the user's that isn't written so far.
#[derive(Drop)]
struct Waiting {
    /// Its name.
    name: Text,
    /// What returns from it first.
    others: Option<Region>,
    /// Its rules.
    rules: Vec<Rule>,
}

/// The rules of a table while they are written.
#[derive(Drop)]
pub(crate) struct Sheet {
    alloc: Global,
    /// The lines that declare chains of the user's.
    pub(crate) heads: Text,
    /// The rules with their headings.
    pub(crate) body: Text,
    /// How many rules there are.
    pub(crate) count: usize,
    /// Whether a chain of the user's has rules that lead to the chain of what leaves, so that a packet which that doesn't decide would
    /// come back.
    pub(crate) leads_within: bool,
    /// Whether rules of one colour are gathered that others stand between, where these decide other packets.
    gathers: bool,
    waiting: Vec<Waiting>,
    chains: usize,
}

/// Whether two rules decide on no packet that both meet.
fn are_apart(policy: &mut Policy, one: &Region, other: &Region) -> Result<bool, Memory> {
    for field in 0..FIELDS {
        if !policy.space.meets(one.side(field), other.side(field))? {
            return Ok(true);
        }
    }
    Ok(false)
}

/// Where a rule may stand behind the rules: directly behind the last one of its colour, if those behind that decide other packets, and
/// else behind all of them.
fn place_for(policy: &mut Policy, rules: &[Rule], rule: &Rule) -> Result<usize, Memory> {
    for place in (0..rules.len()).rev() {
        let Some(before) = rules.get(place).copied() else {
            break;
        };
        if before.colour == rule.colour {
            return Ok(place.saturating_add(1));
        }
        if !are_apart(policy, &before.region, &rule.region)? {
            break;
        }
    }
    Ok(rules.len())
}

/// The rules with those of one colour beside one another, as far as that changes nothing.
fn gathered(policy: &mut Policy, rules: &[Rule]) -> Result<Vec<Rule>, Memory> {
    let mut all = Vec::new(policy.alloc);
    for rule in rules {
        let place = place_for(policy, &all, rule)?;
        if place <= all.len() {
            all.insert(place, *rule)?;
        }
    }
    Ok(all)
}

/// The verdict that a colour is.
pub(crate) fn verdict(colour: u32) -> &'static [u8] {
    if colour == ACCEPT { b"ACCEPT" } else { b"DROP" }
}

impl Sheet {
    /// No rule.
    pub(crate) fn new(alloc: Global) -> Sheet {
        Sheet {
            alloc,
            heads: Text::new(alloc),
            body: Text::new(alloc),
            count: 0,
            leads_within: false,
            gathers: false,
            waiting: Vec::new(alloc),
            chains: 0,
        }
    }

    /// No rule, where rules of one colour are gathered or stay where they are.
    pub(crate) fn gathering(alloc: Global, gathers: bool) -> Sheet {
        let mut sheet = Sheet::new(alloc);
        sheet.gathers = gathers;
        sheet
    }

    /// Appends lines behind a heading, if there are any.
    pub(crate) fn put_group(&mut self, heading: &[u8], lines: &Lines) -> Result<(), Memory> {
        if lines.is_empty() {
            return Ok(());
        }
        put_line(&mut self.body, heading)?;
        self.put_lines(lines)
    }

    /// Appends lines.
    pub(crate) fn put_lines(&mut self, lines: &Lines) -> Result<(), Memory> {
        self.body.put(lines.text.as_slice())?;
        self.count = self.count.saturating_add(lines.count);
        Ok(())
    }

    /// Declares a chain of the user's.
    pub(crate) fn declare(&mut self, name: &[u8]) -> Result<(), Memory> {
        self.heads.put(b":")?;
        self.heads.put(name)?;
        self.heads.put(b" - [0:0]\n")
    }

    /// Declares a chain for what is behind a part of rules, and gives its name.
    fn name_for(&mut self, common: &Common) -> Result<Text, Memory> {
        self.chains = self.chains.saturating_add(1);
        let mut name = words(self.alloc, common.part.name())?;
        name.put(b"-")?;
        put_dec(&mut name, self.chains as u64)?;
        self.declare(name.as_slice())?;
        Ok(name)
    }

    /// Lets what some rules have in common lead to a chain of its own, and gives all other rules.
    fn put_common(
        &mut self,
        writer: &Writer,
        policy: &mut Policy,
        style: &mut Style,
        lines: &mut Lines,
        chain: &[u8],
        common: &Common,
        rules: &[Rule],
    ) -> Result<Vec<Rule>, Stop> {
        let parts = split_by(self.alloc, &policy.space, common, rules)?;
        if parts.behind.iter().any(|rule| rule.colour == GO) {
            self.leads_within = true;
        }
        let name = self.name_for(common)?;
        let region = if common.others.is_some() {
            policy.everything()
        } else {
            common.region
        };
        let tests = writer.tests(policy, style, &region)?;
        lines.put(chain, &tests, name.as_slice())?;
        self.waiting.push(Waiting {
            name,
            others: common.others,
            rules: parts.behind,
        })?;
        Ok(parts.left)
    }

    /// Appends rules of one colour, with what they have in common in chains of the user's.
    fn put_run(
        &mut self,
        writer: &Writer,
        policy: &mut Policy,
        style: &mut Style,
        lines: &mut Lines,
        chain: &[u8],
        rules: Vec<Rule>,
    ) -> Result<(), Stop> {
        let mut left = rules;
        for _ in 0..left.len() {
            if self.chains >= MOST_CHAINS {
                break;
            }
            let Some(common) = common_part(policy, style, &left)? else {
                break;
            };
            left = self.put_common(writer, policy, style, lines, chain, &common, &left)?;
        }
        for rule in &left {
            let tests = writer.tests(policy, style, &rule.region)?;
            if rule.colour == GO {
                lines.lead(chain, &tests, LEAVING)?;
            } else {
                lines.put(chain, &tests, verdict(rule.colour))?;
            }
        }
        Ok(())
    }

    /// Appends rules, gathered where that is asked.
    pub(crate) fn put_rules(
        &mut self,
        writer: &Writer,
        policy: &mut Policy,
        style: &mut Style,
        lines: &mut Lines,
        chain: &[u8],
        rules: &[Rule],
    ) -> Result<(), Stop> {
        if self.gathers {
            let together = gathered(policy, rules)?;
            self.put_runs(writer, policy, style, lines, chain, &together)
        } else {
            self.put_runs(writer, policy, style, lines, chain, rules)
        }
    }

    /// Appends rules, of which those of one colour beside one another may stand in any order.
    fn put_runs(
        &mut self,
        writer: &Writer,
        policy: &mut Policy,
        style: &mut Style,
        lines: &mut Lines,
        chain: &[u8],
        rules: &[Rule],
    ) -> Result<(), Stop> {
        let mut run: Vec<Rule> = Vec::new(self.alloc);
        for rule in rules {
            if is_other(&run, rule) {
                let before = mem::replace(&mut run, Vec::new(self.alloc));
                self.put_run(writer, policy, style, lines, chain, before)?;
            }
            run.push(*rule)?;
        }
        self.put_run(writer, policy, style, lines, chain, run)
    }

    /// Appends a chain of the user's.
    fn put_waiting(
        &mut self,
        writer: &Writer,
        policy: &mut Policy,
        style: &mut Style,
        next: Waiting,
    ) -> Result<(), Stop> {
        let Waiting {
            name,
            others,
            rules,
        } = next;
        let mut lines = Lines::new(self.alloc);
        if let Some(others) = others {
            let tests = writer.tests(policy, style, &others)?;
            lines.put(name.as_slice(), &tests, b"RETURN")?;
        }
        self.put_run(writer, policy, style, &mut lines, name.as_slice(), rules)?;
        Ok(self.put_lines(&lines)?)
    }

    /// Appends the chains of the user's to which rules lead, in the way in which these are written.
    pub(crate) fn put_all_waiting(
        &mut self,
        writer: &Writer,
        policy: &mut Policy,
        style: &mut Style,
    ) -> Result<(), Stop> {
        if !self.waiting.is_empty() {
            put_line(&mut self.body, b"# What these chains lead to.")?;
        }
        for _ in 0..MOST_CHAINS {
            let Some(next) = self.waiting.pop() else {
                break;
            };
            self.put_waiting(writer, policy, style, next)?;
        }
        Ok(())
    }
}

/// Whether a rule has another colour than those of a list.
fn is_other(rules: &[Rule], rule: &Rule) -> bool {
    match rules.last() {
        Some(last) => last.colour != rule.colour,
        None => false,
    }
}
