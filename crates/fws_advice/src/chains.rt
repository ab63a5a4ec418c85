//! Chains of iptables that lead back to themselves, or too deep, or become too long.

use crate::bytes::{is, is_one_of};
use crate::cutting::{Span, lines_of, word, words_of};
use crate::report::Report;
use fws_num::Memory;
use std::alloc::Global;

/// How many chains of a way are named.
const NAMED: usize = 80;

/// How many chains are named with their sizes.
const SIZES: usize = 10;

/// How many jumps are looked at.
const JUMPS: usize = 2000;

/// Targets that are no chains.
const TARGETS: [&[u8]; 12] = [
    b"ACCEPT",
    b"DROP",
    b"REJECT",
    b"RETURN",
    b"LOG",
    b"NFLOG",
    b"MARK",
    b"SNAT",
    b"DNAT",
    b"MASQUERADE",
    b"REDIRECT",
    b"NETMAP",
];

/// The target is a chain.
fn is_chain(target: &[u8]) -> bool {
    !is_one_of(&TARGETS, target)
}

/// A rule with a jump: its chain and the chain to which it goes, in a text.
#[derive(Clone, Copy)]
struct Jump {
    from: Span,
    to: Span,
    line: u32,
}

/// The word behind `-j` or `-g`, if there is one.
fn target_of(line: &[u8], spans: &[Span]) -> Option<Span> {
    for (at, span) in spans.iter().enumerate() {
        if is(span.of(line), b"-j") || is(span.of(line), b"-g") {
            return spans.get(at.saturating_add(1)).copied();
        }
    }
    None
}

/// The chain of a rule, if the line is one.
fn chain_of(line: &[u8], spans: &[Span]) -> Option<Span> {
    for at in 0..2usize {
        if is(word(line, spans, at), b"-A") {
            return spans.get(at.saturating_add(1)).copied();
        }
    }
    None
}

/// The stretch of a line as one of the text.
fn moved(span: Span, by: usize) -> Span {
    Span {
        from: span.from.saturating_add(by),
        to: span.to.saturating_add(by),
    }
}

/// The rules of a text that go to a chain, as many as are looked at.
fn jumps_of(alloc: Global, text: &[u8]) -> Result<Vec<Jump>, Memory> {
    let mut jumps = Vec::new(alloc);
    let mut number = 0u32;
    for line in &lines_of(alloc, text)? {
        number = number.saturating_add(1);
        let bytes = line.of(text);
        let spans = words_of(alloc, false, bytes)?;
        if let (Some(from), Some(to)) = (chain_of(bytes, &spans), target_of(bytes, &spans)) {
            if is_chain(to.of(bytes)) && jumps.len() < JUMPS {
                jumps.push(Jump {
                    from: moved(from, line.from),
                    to: moved(to, line.from),
                    line: number,
                })?;
            }
        }
    }
    Ok(jumps)
}

/// A jump on a way, and the place of the one ahead of it on this way.
#[derive(Clone, Copy)]
struct Step {
    jump: Jump,
    ahead: Option<usize>,
}

/// Whether a chain was come to.
fn is_seen(text: &[u8], steps: &[Step], chain: &[u8]) -> bool {
    for step in steps {
        if step.jump.to.of(text) == chain {
            return true;
        }
    }
    false
}

/// The steps from a chain to others, each chain once, up to one that leads back to it: the place of that one.
fn way_back(
    alloc: Global,
    text: &[u8],
    jumps: &[Jump],
    chain: &[u8],
) -> Result<(Vec<Step>, Option<usize>), Memory> {
    let mut steps: Vec<Step> = Vec::new(alloc);
    for turn in 0..=jumps.len() {
        let ahead = turn.checked_sub(1);
        let from = match ahead {
            None => chain,
            Some(at) => match steps.get(at) {
                Some(step) => step.jump.to.of(text),
                None => break,
            },
        };
        for jump in jumps {
            if jump.from.of(text) != from || is_seen(text, &steps, jump.to.of(text)) {
                continue;
            }
            steps.push(Step { jump: *jump, ahead })?;
            if jump.to.of(text) == chain {
                let last = steps.len().saturating_sub(1);
                return Ok((steps, Some(last)));
            }
        }
    }
    Ok((steps, None))
}

/// The jumps of a way, the first one first.
fn way_to(alloc: Global, steps: &[Step], last: usize) -> Result<Vec<Jump>, Memory> {
    let mut back = Vec::new(alloc);
    let mut at = Some(last);
    for _ in 0..=steps.len() {
        match at {
            None => break,
            Some(place) => match steps.get(place) {
                None => break,
                Some(step) => {
                    back.push(step.jump)?;
                    at = step.ahead;
                }
            },
        }
    }
    let mut way = Vec::new(alloc);
    for jump in back.iter().rev() {
        way.push(*jump)?;
    }
    Ok(way)
}

/// Says the jumps of a way.
fn say_way(out: &mut Report, text: &[u8], way: &[Jump]) -> Result<(), Memory> {
    for jump in way.iter().take(NAMED) {
        out.say(b"    line ")?;
        out.say_number(u64::from(jump.line))?;
        out.say(b": ")?;
        out.show(jump.from.of(text))?;
        out.say(b" goes to ")?;
        out.show(jump.to.of(text))?;
        out.say(b"\n")?;
    }
    if way.len() > NAMED {
        out.say(b"    .. and so on\n")?;
    }
    Ok(())
}

/// Says by which rules a chain leads back to itself.
fn say_loop(out: &mut Report, text: &[u8], chain: &[u8]) -> Result<(), Memory> {
    let jumps = jumps_of(out.alloc, text)?;
    let (steps, last) = way_back(out.alloc, text, &jumps, chain)?;
    if let Some(last) = last {
        let way = way_to(out.alloc, &steps, last)?;
        say_way(out, text, &way)?;
    }
    out.say(b"    Break the ring: take one of these jumps out.\n")
}

/// Says a way from a chain to the one that is come to last.
fn say_depth(out: &mut Report, text: &[u8], chain: &[u8]) -> Result<(), Memory> {
    let jumps = jumps_of(out.alloc, text)?;
    let (steps, _) = way_back(out.alloc, text, &jumps, chain)?;
    if let Some(last) = steps.len().checked_sub(1) {
        let way = way_to(out.alloc, &steps, last)?;
        say_way(out, text, &way)?;
    }
    out.say(b"    Jump less deep: a path may go through 64 chains.\n")
}

/// How many rules a chain has.
fn rules_of(alloc: Global, text: &[u8], chain: &[u8]) -> Result<u64, Memory> {
    let mut count = 0u64;
    for line in &lines_of(alloc, text)? {
        let bytes = line.of(text);
        let spans = words_of(alloc, false, bytes)?;
        if let Some(from) = chain_of(bytes, &spans) {
            if from.of(bytes) == chain {
                count = count.saturating_add(1);
            }
        }
    }
    Ok(count)
}

/// How many of the jumps go from one chain to another.
fn times(text: &[u8], jumps: &[Jump], from: &[u8], to: &[u8]) -> u64 {
    let mut count = 0u64;
    for jump in jumps {
        if jump.from.of(text) == from && jump.to.of(text) == to {
            count = count.saturating_add(1);
        }
    }
    count
}

/// Says how many rules a chain has, and how often it calls others with how many.
fn say_sizes(out: &mut Report, text: &[u8], chain: &[u8]) -> Result<(), Memory> {
    let jumps = jumps_of(out.alloc, text)?;
    let (steps, _) = way_back(out.alloc, text, &jumps, chain)?;
    for step in steps.iter().take(SIZES) {
        let from = step.jump.from.of(text);
        let to = step.jump.to.of(text);
        let rules = rules_of(out.alloc, text, to)?;
        if rules > 0 {
            out.say(b"    ")?;
            out.show(from)?;
            out.say(b" calls ")?;
            out.show(to)?;
            out.say(b" ")?;
            out.say_number(times(text, &jumps, from, to))?;
            out.say(b" times, with ")?;
            out.say_number(rules)?;
            out.say(b" rules of its own\n")?;
        }
    }
    out.say(
        b"    Call less often, or put common tests in front: 1,000,000 rules may be written out.\n",
    )
}

/// Says of a file why its chains can't be unfolded. The words are those behind its name in the refusal.
pub(crate) fn say_chain(
    out: &mut Report,
    name: &[u8],
    text: &[u8],
    why: &[u8],
    chain: &[u8],
) -> Result<(), Memory> {
    out.show(name)?;
    if is(why, b"loop") {
        out.say_with(b": the chain % leads back to itself\n", chain)?;
        say_loop(out, text, chain)
    } else if is(why, b"deep") {
        out.say_with(
            b": a path of jumps from % goes through more than 64 chains\n",
            chain,
        )?;
        say_depth(out, text, chain)
    } else {
        out.say_with(
            b": with % the rules are more than 1,000,000, each called chain written out where it is called\n",
            chain,
        )?;
        say_sizes(out, text, chain)
    }
}
