//! The instructions of rules and of the ends of chains, put before the code that is there.

ghost use Rattle.std.specs.Prelude.{◌≡◌, ◌≤◌, ℕ, List, [], ◌∷◌, Some, None, reverse, vec_len, IfOk, OnOk};
ghost use Rattle.fws_ifcl.specs.declared.diagram.Chain.{Chain};
ghost use Rattle.fws_ifcl.specs.Walk.{rules_at};
ghost use Rattle.fws_unfold.specs.Drafts.{Does, call_of, plain_act, start_of, walk_from};
ghost use Rattle.fws_unfold.specs.Used.{Uses, used_from};
ghost use Rattle.fws_unfold.specs.declared.draft.DraftAct.TheVariants as drafts;

use crate::draft::{Draft, DraftAct};
use fws_flat::FlatAct;
use fws_ifcl::{Act, Chain, Place, Rule};
use fws_net::Cond;
use fws_num::Memory;
use std::alloc::Global;

/// The rules of the chain with this number; none past the end.
pub(crate) fn rules_at(chains: &[Chain], c: usize) -> &[Rule]
    ensures { result.now ≡ rules_at chains.now c }
{
    match chains.get(c) {
        Some(chain) => chain.rules.as_slice(),
        None => &[],
    }
}

/// The place of a rule.
pub(crate) fn place_of(chain: u32, rule: usize) -> Result<Place, Memory>
    ensures { IfOk result (λ place. place ≡ record { chain = chain; rule = rule }) }
{
    let rule = u32::try_from(rule).map_err(|_| Memory)?;
    Ok(Place { chain, rule })
}

/// The chain that a rule enters, and how many instructions stand where the walk goes on behind it: the
/// next ones for a call, those behind the end of the chain for a goto.
pub(crate) fn call_of(act: Act, next: usize, back: usize) -> Option<(u32, usize)>
    ensures { result ≡ call_of act next back }
{
    match act {
        Act::Call(c) => Some((c, next)),
        Act::Goto(c) => Some((c, back)),
        _ => None,
    }
}

/// What a rule that enters no chain does: a return goes on behind the end of the chain, a skip where its
/// rule begins.
pub(crate) fn plain_act(act: Act, back: usize, skip: usize) -> DraftAct
    ensures { result ≡ plain_act act back skip }
{
    match act {
        Act::Accept => DraftAct::Do(FlatAct::Accept),
        Act::Drop => DraftAct::Do(FlatAct::Drop),
        Act::Hold(accepts) => DraftAct::Do(FlatAct::Hold(accepts)),
        Act::Call(_) | Act::Goto(_) | Act::Return => DraftAct::Go(back),
        Act::Skip(_) => DraftAct::Go(skip),
        Act::Src(end) => DraftAct::Do(FlatAct::Src(end)),
        Act::Dst(end) => DraftAct::Do(FlatAct::Dst(end)),
        Act::RecSrc => DraftAct::Do(FlatAct::RecSrc),
        Act::RecDst => DraftAct::Do(FlatAct::RecDst),
        Act::AddTag(tag) => DraftAct::Do(FlatAct::AddTag(tag)),
        Act::OnlyTag(tag) => DraftAct::Do(FlatAct::OnlyTag(tag)),
        Act::DelTag(tag) => DraftAct::Do(FlatAct::DelTag(tag)),
    }
}

/// Puts a jump that every packet takes before the code.
fn put_jump(alloc: Global, out: &mut Vec<Draft>, to: usize) -> Result<(), Memory>
    ensures { OnOk result (reverse out.new.items ≡ record { cond = []; act = drafts.Go to; rule = None } ∷ reverse out.old.items) }
{
    out.push(Draft {
        cond: Cond::new(alloc),
        act: DraftAct::Go(to),
        rule: None,
    })?;
    Ok(())
}

/// Puts an instruction that stands for a rule before the code.
pub(crate) fn put_rule(
    alloc: Global,
    out: &mut Vec<Draft>,
    rule: &Rule,
    at: Place,
    act: DraftAct,
) -> Result<(), Memory>
    ensures { OnOk result (reverse out.new.items ≡ record { cond = rule.now.cond; act = act; rule = Some at } ∷ reverse out.old.items) }
{
    out.push(Draft {
        cond: rule.cond.copy(alloc)?,
        act,
        rule: Some(at),
    })?;
    Ok(())
}

/// Puts the instructions of a rule before the code of the chain that it enters: into that code where its
/// condition holds, else past it, to where so many instructions stand.
pub(crate) fn put_guard(
    alloc: Global,
    out: &mut Vec<Draft>,
    rule: &Rule,
    at: Place,
    next: usize,
) -> Result<(), Memory>
    ensures { OnOk result (reverse out.new.items ≡ record { cond = rule.now.cond; act = drafts.Go (vec_len out.old); rule = Some at } ∷ record { cond = []; act = drafts.Go next; rule = None } ∷ reverse out.old.items) }
{
    let body = out.len();
    put_jump(alloc, out, next)?;
    put_rule(alloc, out, rule, at, DraftAct::Go(body))
}

/// Where the rule begins to which a rule of so many skips; 0 where it doesn't skip.
pub(crate) fn start_of(starts: &[usize], rules: usize, act: Act) -> usize
    ensures { result ≡ start_of starts.now rules act }
{
    match act {
        Act::Skip(to) => starts
            .get(rules.saturating_sub(to as usize))
            .copied()
            .unwrap_or(0),
        _ => 0,
    }
}

/// Puts the end of a chain before the code: a jump to where the walk goes on, if that isn't next.
#[tactic(auto, using(crate::proofs::Bodies::put_nothing, crate::proofs::Bodies::put_end_jump, crate::proofs::BodiesUsed::put_nothing_used))]
pub(crate) fn put_end(alloc: Global, out: &mut Vec<Draft>, back: usize) -> Result<(), Memory>
    requires { back ≤ vec_len out.old }
    ensures does { OnOk result ((chains : List Chain) (at : ℕ) → Does (λ s. walk_from chains s at []) back (reverse out.old.items) (reverse out.new.items)) }
    ensures uses { OnOk result ((chains : List Chain) (c at : ℕ) → Uses (λ s. used_from chains c s at []) (λ s. walk_from chains s at []) back (reverse out.old.items) (reverse out.new.items)) }
{
    if out.len() == back {
        return Ok(());
    }
    put_jump(alloc, out, back)?;
    Ok(())
}
