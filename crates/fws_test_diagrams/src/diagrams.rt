//! Diagrams as lines spell them: `chain NAME RULE ; RULE ; ..`, `ladder NAME N TIMES` for the chains NAME1 to NAMEN of which
//! each calls the next so often and the last accepts, and `arrive`, `deliver`, `forward` or `send`, the name of a chain, and
//! what a stage shows and ends with.

use crate::rules::{Scope, chain_named, rules_of};
use crate::shown::{WAYS, Way, shown_of};
use crate::stop::Stop;
use crate::words::decimal;
use fws_ifcl::{Act, Chain, Ifcl, Rule, Stage};
use fws_net::{Cond, Site};
use fws_num::{Items, Line, Memory, Text, Word, put_dec, value_named};
use std::alloc::Global;

/// The name of a ladder's chain with this number.
fn rung_name(alloc: Global, name: &Word, number: u32) -> Result<Text, Memory> {
    let mut rung = name.text.copy(alloc)?;
    put_dec(&mut rung, u64::from(number))?;
    Ok(rung)
}

/// Adds the names of so many chains of a ladder.
fn put_rung_names(
    alloc: Global,
    names: &mut Items<Text>,
    name: &Word,
    count: u32,
) -> Result<(), Memory> {
    for number in 1..=count {
        names.put(rung_name(alloc, name, number)?)?;
    }
    Ok(())
}

/// Adds the names of the chains of a line.
fn put_names(alloc: Global, names: &mut Items<Text>, line: &Line) -> Result<(), Stop> {
    match line.words.as_slice() {
        [kind, name, ..] if kind.is(b"chain") => names.put(name.text.copy(alloc)?)?,
        [kind, name, count, _] if kind.is(b"ladder") => {
            put_rung_names(alloc, names, name, decimal(count.text.as_slice())?)?;
        }
        _ => {}
    }
    Ok(())
}

/// The names of the chains, in their order.
pub fn names_of(alloc: Global, lines: &[Line]) -> Result<Items<Text>, Stop> {
    let mut names = Items::new(alloc);
    for line in lines {
        put_names(alloc, &mut names, line)?;
    }
    Ok(names)
}

/// So many rules that hold always and do this.
fn same_rules(alloc: Global, act: Act, times: u32) -> Result<Items<Rule>, Memory> {
    let mut rules = Items::new(alloc);
    for _ in 0..times {
        rules.put(Rule {
            cond: Cond::new(alloc),
            act,
        })?;
    }
    Ok(rules)
}

/// The rules of a ladder's chain: so many calls of the chain with the next name, and an accept where there is none.
fn rung_rules(
    alloc: Global,
    scope: &Scope,
    next: &Text,
    times: u32,
) -> Result<Items<Rule>, Memory> {
    match chain_named(scope.chains, next.as_slice()) {
        Ok(c) => same_rules(alloc, Act::Call(c), times),
        Err(_) => same_rules(alloc, Act::Accept, 1),
    }
}

/// The rules of the chain of a ladder with this number, which calls the next so often.
fn rules_of_rung(
    alloc: Global,
    scope: &Scope,
    name: &Word,
    number: u32,
    times: u32,
) -> Result<Items<Rule>, Memory> {
    let next = rung_name(alloc, name, number.saturating_add(1))?;
    rung_rules(alloc, scope, &next, times)
}

/// The chain of a ladder with this number, which calls the next so often.
fn rung(
    alloc: Global,
    scope: &Scope,
    name: &Word,
    number: u32,
    times: u32,
) -> Result<Chain, Memory> {
    let rules = rules_of_rung(alloc, scope, name, number, times)?;
    Ok(Chain {
        name: rung_name(alloc, name, number)?,
        rules,
    })
}

/// Adds the chains of a ladder of so many, of which each calls the next so often.
fn put_ladder(
    alloc: Global,
    scope: &Scope,
    chains: &mut Items<Chain>,
    name: &Word,
    count: u32,
    times: u32,
) -> Result<(), Memory> {
    for number in 1..=count {
        chains.put(rung(alloc, scope, name, number, times)?)?;
    }
    Ok(())
}

/// The chain of this name with the rules of these words.
fn chain_of(alloc: Global, scope: &Scope, name: &Word, rules: &[Word]) -> Result<Chain, Stop> {
    let rules = rules_of(alloc, scope, rules)?;
    Ok(Chain {
        name: name.text.copy(alloc)?,
        rules,
    })
}

/// Adds a chain of this name with the rules of these words.
fn put_chain(
    alloc: Global,
    scope: &Scope,
    chains: &mut Items<Chain>,
    name: &Word,
    rules: &[Word],
) -> Result<(), Stop> {
    chains.put(chain_of(alloc, scope, name, rules)?)?;
    Ok(())
}

/// The stage of these words: the name of a chain, and what is shown.
fn stage_of(scope: &Scope, words: &[Word]) -> Result<Stage, Stop> {
    let [name, shown @ ..] = words else {
        return Err(Stop::Malformed);
    };
    let shown = shown_of(shown)?;
    Ok(Stage {
        chain: chain_named(scope.chains, name.text.as_slice())?,
        shows_recv: shown.recv,
        shows_xmit: shown.xmit,
        outward: shown.outward,
        end: shown.end,
    })
}

/// Adds a stage to a way.
fn put_stage(diagram: &mut Ifcl, way: Way, stage: Stage) -> Result<(), Memory> {
    match way {
        Way::Arrive => diagram.arrive.put(stage),
        Way::Deliver => diagram.deliver.put(stage),
        Way::Forward => diagram.forward.put(stage),
        Way::Send => diagram.send.put(stage),
    }
}

/// Adds what a line says of the diagram; a line that says something else adds nothing.
fn put_line(alloc: Global, scope: &Scope, diagram: &mut Ifcl, line: &Line) -> Result<(), Stop> {
    let Some((kind, words)) = line.words.as_slice().split_first() else {
        return Ok(());
    };
    if let Some(way) = value_named(&WAYS, kind.text.as_slice()) {
        return Ok(put_stage(diagram, way, stage_of(scope, words)?)?);
    }
    match words {
        [name, rules @ ..] if kind.is(b"chain") => {
            put_chain(alloc, scope, &mut diagram.chains, name, rules)
        }
        [name, count, times] if kind.is(b"ladder") => {
            let count = decimal(count.text.as_slice())?;
            let times = decimal(times.text.as_slice())?;
            Ok(put_ladder(alloc, scope, &mut diagram.chains, name, count, times)?)
        }
        _ => Ok(()),
    }
}

/// Adds what lines say of the diagram.
fn put_lines(alloc: Global, scope: &Scope, diagram: &mut Ifcl, lines: &[Line]) -> Result<(), Stop> {
    for line in lines {
        put_line(alloc, scope, diagram, line)?;
    }
    Ok(())
}

/// The diagram of these lines, whose chains have these names.
pub fn diagram_of(
    alloc: Global,
    site: &Site,
    names: &[Text],
    lines: &[Line],
) -> Result<Ifcl, Stop> {
    let scope = Scope {
        site,
        chains: names,
    };
    let mut diagram = Ifcl {
        chains: Items::new(alloc),
        arrive: Items::new(alloc),
        deliver: Items::new(alloc),
        forward: Items::new(alloc),
        send: Items::new(alloc),
    };
    put_lines(alloc, &scope, &mut diagram, lines)?;
    Ok(diagram)
}
