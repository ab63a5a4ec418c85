//! The rules of the tail: behind the last rule that puts a tag or writes at once nothing changes what a rule sees, so that the rule
//! that decides can be found as the first one that matches.

ghost use Rattle.std.specs.Prelude.{◌≡◌, ◌++◌, length, IfOk, OnOk};
ghost use Rattle.fws_pfo_ifcl.specs.Blocks.{EndsIn, changes_sight, decides_first, decides_last, deciding, quick_rulings, ruling_by, ruling_rules, slow_rulings, tail_place, tail_rules, tail_rulings, writes_at_once};
ghost use Rattle.fws_pfo_ifcl.specs.Rulings.{StandFor, rulings_of};

use crate::acting::{put_acting, put_decision};
use crate::ends::is_met;
use crate::ruling::Ruling;
use crate::rulings::Rulings;
use fws_ifcl::Rule;
use fws_net::{Cond, End};
use fws_num::{Items, Memory};
use fws_pfo::{PfoKind, PfoRule};
use std::alloc::Global;

/// Whether a rule of the kind writes its end at once, if it has one.
fn writes_at_once(kind: PfoKind, has_end: bool) -> bool
    ensures { result ≡ writes_at_once kind has_end }
{
    match kind {
        PfoKind::Pass => false,
        PfoKind::Block => false,
        PfoKind::Match => has_end,
    }
}

/// Whether a rule is met on the pass and changes what rules behind it see.
fn changes_sight(outward: bool, rule: &PfoRule) -> bool
    ensures { result ≡ changes_sight outward rule.now }
{
    is_met(rule.way, outward)
        && (rule.tag.is_some() || writes_at_once(rule.kind, rule.to.is_some()))
}

/// The place at which the tail begins: behind the last rule that changes what rules behind it see. Linear in the rules.
pub(crate) fn tail_place(outward: bool, rules: &[PfoRule]) -> usize
    ensures { result ≡ tail_place outward rules.now }
{
    let mut place = 0;
    for i in 0..rules.len() {
        if changes_sight(outward, &rules[i]) {
            place = i + 1;
        }
    }
    place
}

/// Whether a rule decides as one that is quick.
fn decides_first(outward: bool, rule: &PfoRule) -> bool
    ensures { result ≡ decides_first outward rule.now }
{
    is_met(rule.way, outward) && rule.quick
}

/// Whether a rule decides as one that isn't.
fn decides_last(outward: bool, rule: &PfoRule) -> bool
    ensures { result ≡ decides_last outward rule.now }
{
    is_met(rule.way, outward) && !rule.quick
}

/// Puts what a rule of the kind decides behind the others. Fails if memory runs out.
fn put_by(
    alloc: Global,
    all: &mut Rulings,
    kind: PfoKind,
    cond: Cond,
    to: Option<End>,
) -> Result<(), Memory>
    ensures { OnOk result (StandFor (rulings_of all.new) (rulings_of all.old ++ ruling_by kind cond to)) }
{
    match kind {
        PfoKind::Pass => all.put_passing(alloc, cond, to),
        PfoKind::Block => all.put_dropping(alloc, cond),
        PfoKind::Match => Ok(()),
    }
}

/// Puts what a rule decides behind the others, if it is to. Fails if memory runs out.
fn put_deciding(
    alloc: Global,
    all: &mut Rulings,
    decides: bool,
    rule: &PfoRule,
) -> Result<(), Memory>
    ensures { OnOk result (StandFor (rulings_of all.new) (rulings_of all.old ++ deciding decides rule.now)) }
{
    if !decides {
        return Ok(());
    }
    let cond = rule.cond.copy(alloc)?;
    put_by(alloc, all, rule.kind, cond, rule.to)?;
    Ok(())
}

/// Puts what the quick ones decide behind the others, in their order. Fails if memory runs out.
fn put_quick_rules(
    alloc: Global,
    all: &mut Rulings,
    outward: bool,
    tail: &[PfoRule],
) -> Result<(), Memory>
    ensures { OnOk result (StandFor (rulings_of all.new) (rulings_of all.old ++ quick_rulings outward tail.now)) }
{
    for rule in tail {
        put_deciding(alloc, all, decides_first(outward, rule), rule)?;
    }
    Ok(())
}

/// Puts what those decide behind the others that aren't quick, the last one first. Fails if memory runs out.
fn put_slow_rules(
    alloc: Global,
    all: &mut Rulings,
    outward: bool,
    tail: &[PfoRule],
) -> Result<(), Memory>
    ensures { OnOk result (StandFor (rulings_of all.new) (rulings_of all.old ++ slow_rulings outward tail.now)) }
{
    for i in (0..tail.len()).rev() {
        let rule = &tail[i];
        put_deciding(alloc, all, decides_last(outward, rule), rule)?;
    }
    Ok(())
}

/// Rulings that stand for those of the tail, of which neighbours are joined. Fails if memory runs out.
fn joined_tail(alloc: Global, outward: bool, tail: &[PfoRule]) -> Result<Items<Ruling>, Memory>
    ensures { IfOk result (λ all. StandFor all (tail_rulings outward tail.now)) }
{
    let mut all = Rulings::new(alloc);
    put_quick_rules(alloc, &mut all, outward, tail)?;
    put_slow_rules(alloc, &mut all, outward, tail)?;
    let fewer = all.into_rulings(alloc)?;
    Ok(fewer)
}

/// Puts the rules of a ruling behind the others. Fails if memory runs out.
fn put_ruling(
    alloc: Global,
    rules: &mut Vec<Rule>,
    outward: bool,
    one: Ruling,
) -> Result<(), Memory>
    ensures { OnOk result (rules.new.items ≡ rules.old.items ++ ruling_rules outward (length rules.old.items) one) }
{
    let Ruling { cond, passes, to } = one;
    let mut acts = Vec::new(alloc);
    put_decision(&mut acts, outward, to, passes)?;
    put_acting(alloc, rules, cond, acts.as_slice())?;
    Ok(())
}

/// Puts the rules of rulings behind the others. Fails if memory runs out.
fn put_rulings(
    alloc: Global,
    rules: &mut Vec<Rule>,
    outward: bool,
    all: Vec<Ruling>,
) -> Result<(), Memory>
    ensures { OnOk result (rules.new.items ≡ rules.old.items ++ tail_rules outward (length rules.old.items) all.items) }
{
    for one in all {
        put_ruling(alloc, rules, outward, one)?;
    }
    Ok(())
}

/// Puts rules behind the others that decide as the rules of the tail do. Fails if memory runs out.
pub(crate) fn put_tail(
    alloc: Global,
    rules: &mut Vec<Rule>,
    outward: bool,
    tail: &[PfoRule],
) -> Result<(), Memory>
    ensures { OnOk result (EndsIn outward tail.now rules.old.items rules.new.items) }
{
    let joined = joined_tail(alloc, outward, tail)?;
    put_rulings(alloc, rules, outward, joined.into_vec())?;
    Ok(())
}
