//! The walk through the chains of a stage.

ghost use Rattle.std.specs.Prelude.{◌≡◌, ℕ, suc, List, ◌∷◌, ◌++◌, nat_eq, IfOk, OnOk};
ghost use Rattle.std.specs.List.{list_any};
ghost use Rattle.fws_net.specs.declared.transit.Transit.{Transit};
ghost use Rattle.fws_net.specs.Routes.{IsSound};
ghost use Rattle.fws_ifcl.specs.declared.diagram.Place.{Place};
ghost use Rattle.fws_ifcl.specs.declared.diagram.Rule.{Rule};
ghost use Rattle.fws_ifcl.specs.declared.step.ChainEnd.{ChainEnd};
ghost use Rattle.fws_ifcl.specs.Turns.{turned, used_turned};
ghost use Rattle.fws_ifcl.specs.Uses.{chain_used, rules_used, stage_used, used_back, used_behind};
ghost use Rattle.fws_ifcl.specs.Walk.{back, chain_walk, rules_at, rules_walk, stage_end, stage_walk, stepped};

use crate::diagram::{Chain, Place, Rule};
use crate::model::acting::{Scene, rule_holds, step_of};
use crate::step::{ChainEnd, Step, Turn};
use fws_net::Transit;
use fws_num::Memory;
use std::alloc::Global;

/// The rules of the chain with this number.
fn rules_at(chains: &[Chain], c: usize) -> &[Rule]
    ensures { result.now ≡ rules_at chains.now c }
{
    match chains.get(c) {
        Some(chain) => chain.rules.as_slice(),
        None => &[],
    }
}

/// Whether the chain is on the path.
fn is_on(path: &[u32], c: u32) -> bool
    ensures { result ≡ list_any (nat_eq c) path.now }
{
    path.iter().any(|on| c == *on)
}

/// The place of a rule.
fn place_of(chain: u32, rule: usize) -> Result<Place, Memory>
    ensures { IfOk result (λ place. place ≡ record { chain = chain; rule = rule }) }
{
    let rule = u32::try_from(rule).map_err(|_| Memory)?;
    Ok(Place { chain, rule })
}

/// What the rule at the place does, whether its condition holds or not. Where it holds the place is added
/// to the log.
fn rule_step(
    alloc: Global,
    scene: &Scene,
    at: Place,
    rule: &Rule,
    t: Transit,
    log: &mut Vec<Place>,
) -> Result<Step, Memory>
    requires { IsSound scene.now.site.now }
    ensures walked { IfOk result (λ step. (enter : ℕ → Transit → ChainEnd) (rest : List Rule) → stepped enter (rules_walk enter scene.now.site.now scene.now.packet.now scene.now.kind.now scene.now.stage (suc at.rule) rest) step ≡ rules_walk enter scene.now.site.now scene.now.packet.now scene.now.kind.now scene.now.stage at.rule (rule.now ∷ rest) 0 t) }
    ensures logged { IfOk result (λ step. (used : ℕ → Transit → List Place) (enter : ℕ → Transit → ChainEnd) (rest : List Rule) → log.new.items ++ used_behind used enter (rules_used used enter at.chain scene.now.site.now scene.now.packet.now scene.now.kind.now scene.now.stage (suc at.rule) rest) step ≡ log.old.items ++ rules_used used enter at.chain scene.now.site.now scene.now.packet.now scene.now.kind.now scene.now.stage at.rule (rule.now ∷ rest) 0 t) }
{
    if !rule_holds(alloc, scene, rule, &t)? {
        return Ok(Step::Onwards(0, t));
    }
    log.push(at)?;
    let step = step_of(alloc, scene.packet, scene.kind, rule.act, t)?;
    Ok(step)
}

/// How the walk goes on behind a rule that entered a chain which was left like this.
fn turn_back(end: ChainEnd) -> Turn
    ensures walked { (go : ℕ → Transit → ChainEnd) → turned go result ≡ back (go 0) end }
    ensures used { (go : ℕ → Transit → List Place) → used_turned go result ≡ used_back (go 0) end }
{
    match end {
        ChainEnd::Accepted(t) => Turn::Leave(ChainEnd::Accepted(t)),
        ChainEnd::Dropped => Turn::Leave(ChainEnd::Dropped),
        ChainEnd::Through(t) => Turn::Onwards(0, t),
    }
}

/// How the walk goes on behind a step. A chain that it enters from the chains of the path is walked, while
/// at most `left` chains are entered, and the places of the rules that are used there are added to the log.
#[cycle(chain_walk)]
fn turn_of(
    alloc: Global,
    scene: &Scene,
    left: usize,
    path: &[u32],
    step: Step,
    log: &mut Vec<Place>,
) -> Result<Turn, Memory>
    requires { IsSound scene.now.site.now }
    ensures walked { IfOk result (λ turn. (go : ℕ → Transit → ChainEnd) → turned go turn ≡ stepped (chain_walk scene.now.chains.now scene.now.site.now scene.now.packet.now scene.now.kind.now scene.now.stage left path.now) go step) }
    ensures logged { IfOk result (λ turn. (go : ℕ → Transit → List Place) → log.new.items ++ used_turned go turn ≡ log.old.items ++ used_behind (chain_used scene.now.chains.now scene.now.site.now scene.now.packet.now scene.now.kind.now scene.now.stage left path.now) (chain_walk scene.now.chains.now scene.now.site.now scene.now.packet.now scene.now.kind.now scene.now.stage left path.now) go step) }
{
    match step {
        Step::Leave(end) => Ok(Turn::Leave(end)),
        Step::Onwards(place, t) => Ok(Turn::Onwards(place, t)),
        Step::Enter(d, t) => {
            let entered = chain_walk(alloc, scene, left, path, d, t, log)?;
            Ok(turn_back(entered))
        }
        Step::Switch(d, t) => {
            let whole = chain_walk(alloc, scene, left, path, d, t, log)?;
            Ok(Turn::Leave(whole))
        }
    }
}

/// Walks the rules of chain `c`, from which chains are entered as from those of the path, while at most
/// `left` are, and adds the places of the rules that are used to the log.
#[cycle(chain_walk)]
fn rules_walk(
    alloc: Global,
    scene: &Scene,
    left: usize,
    path: &[u32],
    c: u32,
    t: Transit,
    log: &mut Vec<Place>,
) -> Result<ChainEnd, Memory>
    requires { IsSound scene.now.site.now }
    ensures walked { IfOk result (λ end. end ≡ rules_walk (chain_walk scene.now.chains.now scene.now.site.now scene.now.packet.now scene.now.kind.now scene.now.stage left path.now) scene.now.site.now scene.now.packet.now scene.now.kind.now scene.now.stage 0 (rules_at scene.now.chains.now c) 0 t) }
    ensures logged { OnOk result (log.new.items ≡ log.old.items ++ rules_used (chain_used scene.now.chains.now scene.now.site.now scene.now.packet.now scene.now.kind.now scene.now.stage left path.now) (chain_walk scene.now.chains.now scene.now.site.now scene.now.packet.now scene.now.kind.now scene.now.stage left path.now) c scene.now.site.now scene.now.packet.now scene.now.kind.now scene.now.stage 0 (rules_at scene.now.chains.now c) 0 t) }
{
    let mut now = t;
    let mut to = 0;
    for (at, rule) in rules_at(scene.chains, c as usize).iter().enumerate() {
        if at < to {
            continue;
        }
        let here = place_of(c, at)?;
        let step = rule_step(alloc, scene, here, rule, now, log)?;
        let turn = turn_of(alloc, scene, left, path, step, log)?;
        match turn {
            Turn::Leave(end) => return Ok(end),
            Turn::Onwards(place, t) => {
                to = place as usize;
                now = t;
            }
        }
    }
    Ok(ChainEnd::Through(now))
}

/// The path on which the chain is entered, of which it comes first.
fn path_under(alloc: Global, c: u32, path: &[u32]) -> Result<Vec<u32>, Memory>
    ensures { IfOk result (λ under. under.items ≡ c ∷ path.now) }
{
    let mut under = Vec::new(alloc);
    under.push(c)?;
    under.extend_from_slice(path)?;
    Ok(under)
}

/// Walks chain `c`, entered from the chains of the path, while at most `left` chains are entered, and
/// adds the places of the rules that are used to the log.
#[cycle(chain_walk)]
fn chain_walk(
    alloc: Global,
    scene: &Scene,
    left: usize,
    path: &[u32],
    c: u32,
    t: Transit,
    log: &mut Vec<Place>,
) -> Result<ChainEnd, Memory>
    requires { IsSound scene.now.site.now }
    ensures walked { IfOk result (λ end. end ≡ chain_walk scene.now.chains.now scene.now.site.now scene.now.packet.now scene.now.kind.now scene.now.stage left path.now c t) }
    ensures logged { OnOk result (log.new.items ≡ log.old.items ++ chain_used scene.now.chains.now scene.now.site.now scene.now.packet.now scene.now.kind.now scene.now.stage left path.now c t) }
{
    if left == 0 {
        return Ok(ChainEnd::Dropped);
    }
    if is_on(path, c) {
        return Ok(ChainEnd::Dropped);
    }
    let under = path_under(alloc, c, path)?;
    rules_walk(alloc, scene, left - 1, under.as_slice(), c, t, log)
}

/// The packet behind a stage whose chain is left like this: at the chain's end the verdict so far
/// decides.
fn stage_end(end: ChainEnd) -> Option<Transit>
    ensures { result ≡ stage_end end }
{
    match end {
        ChainEnd::Accepted(t) => Some(t),
        ChainEnd::Dropped => None,
        ChainEnd::Through(t) => t.decided(),
    }
}

/// The packet behind the stage; none where it is dropped. The places of the rules that are used are
/// added to the log.
pub(crate) fn stage_walk(
    alloc: Global,
    scene: &Scene,
    t: Transit,
    log: &mut Vec<Place>,
) -> Result<Option<Transit>, Memory>
    requires { IsSound scene.now.site.now }
    ensures walked { IfOk result (λ o. o ≡ stage_walk scene.now.chains.now scene.now.site.now scene.now.packet.now scene.now.kind.now scene.now.stage t) }
    ensures logged { OnOk result (log.new.items ≡ log.old.items ++ stage_used scene.now.chains.now scene.now.site.now scene.now.packet.now scene.now.kind.now scene.now.stage t) }
{
    let stage = scene.stage;
    let begun = t.with_verdict(stage.end);
    let end = chain_walk(
        alloc,
        scene,
        scene.chains.len(),
        &[],
        stage.chain,
        begun,
        log,
    )?;
    Ok(stage_end(end))
}
