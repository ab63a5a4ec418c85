//! What rules do, as acts, and the rules that are put for them.

ghost use Rattle.std.specs.Prelude.{◌≡◌, [], ◌∷◌, ◌++◌, length, map, OnOk, IfOk};
ghost use Rattle.fws_ifcl_rules.specs.Rules.{always};
ghost use Rattle.fws_ifcl.specs.declared.diagram.Act.TheVariants.{Hold};
ghost use Rattle.fws_pfo_ifcl.specs.Blocks.{acting, acts_of, changes, decision, ending, holding, is_hold, only_tag, tagging, without_other, without_others, writing};

use crate::ends::number_of;
use crate::frame::Frame;
use crate::held::{bits_of, put_telling};
use fws_ifcl::{Act, Rule};
use fws_ifcl_rules::{put_always, put_guard, put_rule};
use fws_net::{Cond, End};
use fws_num::Memory;
use fws_pfo::{PfoKind, PfoRule};
use std::alloc::Global;

/// Puts the act behind the others that writes the end, if there is one: over the source as packets go out, and over the destination
/// as they come in. Fails if memory runs out.
fn put_writing(acts: &mut Vec<Act>, outward: bool, to: Option<End>) -> Result<(), Memory>
    ensures { OnOk result (acts.new.items ≡ acts.old.items ++ writing outward to) }
{
    match to {
        None => Ok(()),
        Some(end) => {
            acts.push(if outward {
                Act::Src(end)
            } else {
                Act::Dst(end)
            })?;
            Ok(())
        }
    }
}

/// Puts the act behind the others that makes the tag the only one, if there is one. Fails if memory runs out.
fn put_only_tag(acts: &mut Vec<Act>, tag: Option<u32>) -> Result<(), Memory>
    ensures { OnOk result (acts.new.items ≡ acts.old.items ++ only_tag tag) }
{
    match tag {
        None => Ok(()),
        Some(n) => {
            acts.push(Act::OnlyTag(n))?;
            Ok(())
        }
    }
}

/// Puts the act behind the others that takes the tag away, unless it is this one. Fails if memory runs out.
fn put_without_other(acts: &mut Vec<Act>, n: u32, tag: u32) -> Result<(), Memory>
    ensures { OnOk result (acts.new.items ≡ acts.old.items ++ without_other n tag) }
{
    if n == tag {
        return Ok(());
    }
    acts.push(Act::DelTag(tag))?;
    Ok(())
}

/// Puts acts behind the others that take all of so many tags away but this one. Fails if memory runs out.
fn put_without_others(acts: &mut Vec<Act>, n: u32, tags: u32) -> Result<(), Memory>
    ensures { OnOk result (acts.new.items ≡ acts.old.items ++ without_others n 0 tags) }
{
    for tag in 0..tags {
        put_without_other(acts, n, tag)?;
    }
    Ok(())
}

/// Puts acts behind the others that put the tag, if there is one: as the only one where no end can be held, else as the only one of
/// the names. Fails if memory runs out.
fn put_tagging(
    acts: &mut Vec<Act>,
    frame: &Frame,
    may_hold: bool,
    tag: Option<u32>,
) -> Result<(), Memory>
    ensures { OnOk result (acts.new.items ≡ acts.old.items ++ tagging frame.now may_hold tag) }
{
    match tag {
        None => Ok(()),
        Some(n) => {
            if !may_hold {
                acts.push(Act::OnlyTag(n))?;
                return Ok(());
            }
            put_without_others(acts, n, frame.tags)?;
            acts.push(Act::AddTag(n))?;
            Ok(())
        }
    }
}

/// Puts acts behind the others that hold the end, or none. Fails if memory runs out.
fn put_holding(
    alloc: Global,
    acts: &mut Vec<Act>,
    frame: &Frame,
    to: Option<End>,
) -> Result<(), Memory>
    ensures { OnOk result (acts.new.items ≡ acts.old.items ++ holding frame.now to) }
{
    let number = number_of(frame.ends.as_slice(), to)?;
    let bits = bits_of(alloc, frame.bits, number)?;
    put_telling(acts, frame.tags, bits.as_slice())
}

/// Puts acts behind the others that hold the verdict so far, put the tag, and hold the end or none. Fails if memory runs out.
fn put_verdict(
    alloc: Global,
    acts: &mut Vec<Act>,
    frame: &Frame,
    tag: Option<u32>,
    to: Option<End>,
    passes: bool,
) -> Result<(), Memory>
    ensures { OnOk result (acts.new.items ≡ acts.old.items ++ Hold passes ∷ only_tag tag ++ holding frame.now to) }
{
    acts.push(Act::Hold(passes))?;
    put_only_tag(acts, tag)?;
    put_holding(alloc, acts, frame, to)
}

/// Puts the acts of a rule that isn't quick behind the others, where a rule ahead of it may have held an end. Fails if memory runs
/// out.
fn put_changes(
    alloc: Global,
    acts: &mut Vec<Act>,
    frame: &Frame,
    may_hold: bool,
    rule: &PfoRule,
) -> Result<(), Memory>
    ensures { OnOk result (acts.new.items ≡ acts.old.items ++ changes frame.now may_hold rule.now.tag rule.now.to rule.now.kind) }
{
    match rule.kind {
        PfoKind::Pass => put_verdict(alloc, acts, frame, rule.tag, rule.to, true),
        PfoKind::Block => put_verdict(alloc, acts, frame, rule.tag, None, false),
        PfoKind::Match => {
            put_tagging(acts, frame, may_hold, rule.tag)?;
            put_writing(acts, frame.outward, rule.to)
        }
    }
}

/// Puts the acts behind the others with which packets pass with an end or none, or are dropped. Fails if memory runs out.
pub(crate) fn put_decision(
    acts: &mut Vec<Act>,
    outward: bool,
    to: Option<End>,
    passes: bool,
) -> Result<(), Memory>
    ensures { OnOk result (acts.new.items ≡ acts.old.items ++ decision outward to passes) }
{
    if !passes {
        acts.push(Act::Drop)?;
        return Ok(());
    }
    put_writing(acts, outward, to)?;
    acts.push(Act::Accept)?;
    Ok(())
}

/// Puts the acts of a rule that is quick behind the others. Fails if memory runs out.
fn put_ending(acts: &mut Vec<Act>, frame: &Frame, rule: &PfoRule) -> Result<(), Memory>
    ensures { OnOk result (acts.new.items ≡ acts.old.items ++ ending frame.now rule.now.tag rule.now.to rule.now.kind) }
{
    match rule.kind {
        PfoKind::Pass => {
            put_only_tag(acts, rule.tag)?;
            put_writing(acts, frame.outward, rule.to)?;
            acts.push(Act::Accept)?;
            Ok(())
        }
        PfoKind::Block => {
            acts.push(Act::Drop)?;
            Ok(())
        }
        PfoKind::Match => Ok(()),
    }
}

/// The acts of a rule, where a rule ahead of it may have held an end. Fails if memory runs out.
pub(crate) fn acts_of(
    alloc: Global,
    frame: &Frame,
    may_hold: bool,
    rule: &PfoRule,
) -> Result<Vec<Act>, Memory>
    ensures { IfOk result (λ acts. acts.items ≡ acts_of frame.now may_hold rule.now) }
{
    let mut acts = Vec::new(alloc);
    if rule.quick {
        put_ending(&mut acts, frame, rule)?;
        return Ok(acts);
    }
    put_changes(alloc, &mut acts, frame, may_hold, rule)?;
    Ok(acts)
}

/// Puts rules behind the others that act everywhere, one for each act. Fails if memory runs out.
pub(crate) fn put_acts(alloc: Global, rules: &mut Vec<Rule>, acts: &[Act]) -> Result<(), Memory>
    ensures { OnOk result (rules.new.items ≡ rules.old.items ++ map always acts.now) }
{
    for act in acts {
        put_always(alloc, rules, *act)?;
    }
    Ok(())
}

/// Whether the act holds a verdict.
fn is_hold(act: Act) -> bool
    ensures { result ≡ is_hold act }
{
    matches!(act, Act::Hold(_))
}

/// Puts rules behind the others that do the two acts where the condition holds. Fails if memory runs out.
fn put_both(
    alloc: Global,
    rules: &mut Vec<Rule>,
    cond: Cond,
    act: Act,
    next: Act,
) -> Result<(), Memory>
    ensures { OnOk result (rules.new.items ≡ rules.old.items ++ acting (length rules.old.items) cond (act ∷ next ∷ [])) }
{
    if is_hold(act) {
        put_rule(rules, cond.copy(alloc)?, act)?;
        return put_rule(rules, cond, next);
    }
    put_guard(alloc, rules, cond, 2)?;
    put_always(alloc, rules, act)?;
    put_always(alloc, rules, next)
}

/// Puts rules behind the others that do the acts where the condition holds. Fails if memory runs out.
pub(crate) fn put_acting(
    alloc: Global,
    rules: &mut Vec<Rule>,
    cond: Cond,
    acts: &[Act],
) -> Result<(), Memory>
    ensures { OnOk result (rules.new.items ≡ rules.old.items ++ acting (length rules.old.items) cond acts.now) }
{
    match acts {
        [] => Ok(()),
        [act] => put_rule(rules, cond, *act),
        [act, next] => put_both(alloc, rules, cond, *act, *next),
        [_, _, _, ..] => {
            put_guard(alloc, rules, cond, acts.len())?;
            put_acts(alloc, rules, acts)
        }
    }
}
