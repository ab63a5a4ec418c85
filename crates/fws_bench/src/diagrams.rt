//! Diagrams that show what unfolding and its refusals cost.

use crate::stop::Stop;
use fws_ifcl::{Act, Chain, Ifcl, Rule, Stage, ifcl_ok};
use fws_iv::one;
use fws_net::{Cond, Lit, Test};
use fws_num::{Items, Memory, Text};
use fws_unfold::{UnfoldAnswer, unfold};
use std::alloc::Global;

/// 10.0.0.9
const HOST: u32 = 167_772_169;

/// A kind of diagram, whose first chain is that of a stage.
#[derive(Clone, Copy)]
pub enum Shape {
    /// So many calls of a chain of 1,000 rules.
    Calls,
    /// So many chains of which each calls the next, and one at their end.
    Ladder,
    /// The same, and the last calls the one in the middle.
    Ring,
}

/// A chain of rules without a name.
fn chain_of(alloc: Global, rules: Items<Rule>) -> Chain {
    Chain {
        name: Text::new(alloc),
        rules,
    }
}

/// A chain of so many rules that act alike on every packet.
fn alike(alloc: Global, n: u32, act: Act) -> Result<Chain, Memory> {
    let mut rules = Items::new(alloc);
    for _ in 0..n {
        rules.put(Rule {
            cond: Cond::new(alloc),
            act,
        })?;
    }
    Ok(chain_of(alloc, rules))
}

/// The literal that a packet comes from one host.
fn from_host(alloc: Global) -> Result<Lit, Memory> {
    Ok(Lit {
        not: false,
        test: Test::Src(one(alloc, HOST, HOST)?),
    })
}

/// A rule that drops the packets of one host.
fn dropping_rule(alloc: Global) -> Result<Rule, Memory> {
    let mut cond = Cond::new(alloc);
    cond.put(from_host(alloc)?)?;
    Ok(Rule {
        cond,
        act: Act::Drop,
    })
}

/// A chain of 1,000 rules that drop the packets of one host.
fn dropping(alloc: Global) -> Result<Chain, Memory> {
    let mut rules = Items::new(alloc);
    for _ in 0..1000 {
        rules.put(dropping_rule(alloc)?)?;
    }
    Ok(chain_of(alloc, rules))
}

/// So many chains of which each calls the next, and one with this act at their end.
fn row_of(alloc: Global, n: u32, last: Act) -> Result<Items<Chain>, Memory> {
    let mut chains = Items::new(alloc);
    for k in 0..n {
        chains.put(alike(alloc, 1, Act::Call(k.saturating_add(1)))?)?;
    }
    chains.put(alike(alloc, 1, last)?)?;
    Ok(chains)
}

/// So many calls of a chain, and this chain.
fn calls_of(alloc: Global, n: u32) -> Result<Items<Chain>, Memory> {
    let mut chains = Items::new(alloc);
    chains.put(alike(alloc, n, Act::Call(1))?)?;
    chains.put(dropping(alloc)?)?;
    Ok(chains)
}

/// The chains of a diagram.
fn chains_of(alloc: Global, shape: Shape, n: u32) -> Result<Items<Chain>, Memory> {
    match shape {
        Shape::Calls => calls_of(alloc, n),
        Shape::Ladder => row_of(alloc, n, Act::Accept),
        Shape::Ring => row_of(alloc, n, Act::Call(n / 2)),
    }
}

/// The stage of the first chain alone.
fn one_stage(alloc: Global) -> Result<Items<Stage>, Memory> {
    let mut stages = Items::new(alloc);
    stages.put(Stage {
        chain: 0,
        shows_recv: true,
        shows_xmit: true,
        outward: false,
        end: true,
    })?;
    Ok(stages)
}

/// A diagram whose first chain is that of the stage of forwarded packets.
fn diagram_of(alloc: Global, shape: Shape, n: u32) -> Result<Ifcl, Memory> {
    let chains = chains_of(alloc, shape, n)?;
    let forward = one_stage(alloc)?;
    Ok(Ifcl {
        chains,
        arrive: Items::new(alloc),
        deliver: Items::new(alloc),
        forward,
        send: Items::new(alloc),
    })
}

/// How many instructions a diagram has when it is unfolded, or why there are none.
fn count_code(alloc: Global, diagram: &Ifcl) -> Result<Result<usize, UnfoldAnswer>, Stop> {
    if !ifcl_ok(diagram) {
        return Err(Stop::Words);
    }
    match unfold(alloc, diagram) {
        Ok(flat) => Ok(Ok(flat.code.len())),
        Err(UnfoldAnswer::Memory) => Err(Stop::Memory),
        Err(refusal) => Ok(Err(refusal)),
    }
}

/// How many instructions the unfolded diagram has, or why there are none.
pub fn count_unfolded(
    alloc: Global,
    shape: Shape,
    n: u32,
) -> Result<Result<usize, UnfoldAnswer>, Stop> {
    let diagram = diagram_of(alloc, shape, n)?;
    count_code(alloc, &diagram)
}
