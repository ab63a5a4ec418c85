//! Pairs of rules that decide on one packet, in a text and in its source.

use crate::deciders::Deciders;
use crate::rules::NONE;
use fws_num::Memory;
use std::alloc::Global;

/// How many pairs of rules are kept.
const MOST_PAIRS: usize = 200_000;

/// Rules of a text, each with a rule of the source, or with none.
#[derive(Drop)]
pub(crate) struct Pairs {
    /// Those that decide.
    strong: Vec<(u32, u32)>,
    /// Those that are used.
    weak: Vec<(u32, u32)>,
}

/// For each rule of a text the rules of the source that decide at points of it, by their numbers; NONE stands for no rule.
#[derive(Drop)]
pub(crate) struct Origins {
    pub(crate) rules: Vec<Vec<u32>>,
}

/// Appends pairs of a rule with each of these: with none where there are none.
fn put_pairs(pairs: &mut Vec<(u32, u32)>, rule: u32, sources: &[u32]) -> Result<(), Memory> {
    if pairs.len() >= MOST_PAIRS {
        return Ok(());
    }
    if sources.is_empty() {
        pairs.push((rule, NONE))?;
    }
    for source in sources {
        pairs.push((rule, *source))?;
    }
    Ok(())
}

/// Appends pairs of each of these rules with each of those.
fn put_all_pairs(
    pairs: &mut Vec<(u32, u32)>,
    rules: &[u32],
    sources: &[u32],
) -> Result<(), Memory> {
    for rule in rules {
        put_pairs(pairs, *rule, sources)?;
    }
    Ok(())
}

/// Appends the pair of rules that write: with those that accept where the source has none that writes.
fn put_writers(
    pairs: &mut Vec<(u32, u32)>,
    rule: u32,
    source: u32,
    others: &[u32],
) -> Result<(), Memory> {
    if rule == NONE {
        return Ok(());
    }
    if source == NONE {
        return put_pairs(pairs, rule, others);
    }
    put_pairs(pairs, rule, &[source])
}

impl Pairs {
    /// None.
    pub(crate) fn new(alloc: Global) -> Pairs {
        Pairs {
            strong: Vec::new(alloc),
            weak: Vec::new(alloc),
        }
    }

    /// Notes the rules of a text and of its source at a point.
    pub(crate) fn note(&mut self, target: &Deciders, source: &Deciders) -> Result<(), Memory> {
        let others = source.verdict.as_slice();
        put_all_pairs(&mut self.strong, target.verdict.as_slice(), others)?;
        put_writers(
            &mut self.strong,
            target.destination,
            source.destination,
            others,
        )?;
        put_writers(&mut self.strong, target.source, source.source, others)?;
        put_all_pairs(&mut self.weak, target.used.as_slice(), others)
    }

    /// Which of so many rules decide somewhere.
    pub(crate) fn deciding(&self, alloc: Global, count: usize) -> Result<Vec<bool>, Memory> {
        let mut some = Vec::new(alloc);
        for _ in 0..count {
            some.push(false)?;
        }
        for (rule, _) in &self.strong {
            if let Some(place) = some.get_mut(*rule as usize) {
                *place = true;
            }
        }
        Ok(some)
    }

    /// For so many rules the rules of the source: those at points where it decides, and else where it is used.
    pub(crate) fn origins(mut self, alloc: Global, count: usize) -> Result<Origins, Memory> {
        self.strong.sort_unstable();
        self.weak.sort_unstable();
        origins_by(alloc, &self, count)
    }
}

/// Whether a pair is the last one.
fn is_last(last: Option<(u32, u32)>, pair: (u32, u32)) -> bool {
    match last {
        Some((rule, source)) => rule == pair.0 && source == pair.1,
        None => false,
    }
}

/// Puts the second of each pair behind the first's, each once, where the first isn't among those that are left out.
fn put_sorted(
    rules: &mut Vec<Vec<u32>>,
    pairs: &[(u32, u32)],
    has_some: &[bool],
) -> Result<(), Memory> {
    let mut last = None;
    for pair in pairs {
        let (rule, source) = *pair;
        let is_new = !is_last(last, *pair);
        last = Some(*pair);
        let is_left_out = has_some.get(rule as usize).copied().unwrap_or(true);
        if !is_new || is_left_out {
            continue;
        }
        if let Some(sources) = rules.get_mut(rule as usize) {
            sources.push(source)?;
        }
    }
    Ok(())
}

/// Which rules have some.
fn are_told(alloc: Global, rules: &[Vec<u32>]) -> Result<Vec<bool>, Memory> {
    let mut told = Vec::new(alloc);
    for sources in rules {
        told.push(!sources.is_empty())?;
    }
    Ok(told)
}

/// For so many rules what sorted pairs say, those that decide ahead of those that are used.
fn origins_by(alloc: Global, pairs: &Pairs, count: usize) -> Result<Origins, Memory> {
    let mut rules = Vec::new(alloc);
    for _ in 0..count {
        rules.push(Vec::new(alloc))?;
    }
    let none = are_told(alloc, rules.as_slice())?;
    put_sorted(&mut rules, pairs.strong.as_slice(), none.as_slice())?;
    let told = are_told(alloc, rules.as_slice())?;
    put_sorted(&mut rules, pairs.weak.as_slice(), told.as_slice())?;
    Ok(Origins { rules })
}
