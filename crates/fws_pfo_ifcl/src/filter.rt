//! The rules to which rules are unfolded.

ghost use Rattle.std.specs.Prelude.{◌≡◌, ◌++◌, length, false, OnOk};
ghost use Rattle.fws_pfo_ifcl.specs.Blocks.{IsFiltered, held_rule, held_rules, met_rule, met_rules};

use crate::acting::{acts_of, put_acting, put_decision};
use crate::ends::{end_of, is_met};
use crate::frame::Frame;
use crate::held::{bits_of, told};
use crate::tail::{put_tail, tail_place};
use fws_ifcl::Rule;
use fws_ifcl_rules::sum;
use fws_net::End;
use fws_num::Memory;
use fws_pfo::PfoRule;
use std::alloc::Global;

/// Puts the rules of a rule behind the others if it is met on the pass, where a rule ahead of it may have held an end. Fails if
/// memory runs out.
fn put_met(
    alloc: Global,
    rules: &mut Vec<Rule>,
    frame: &Frame,
    may_hold: bool,
    rule: &PfoRule,
) -> Result<(), Memory>
    ensures { OnOk result (rules.new.items ≡ rules.old.items ++ met_rule frame.now may_hold (length rules.old.items) rule.now) }
{
    if !is_met(rule.way, frame.outward) {
        return Ok(());
    }
    let acts = acts_of(alloc, frame, may_hold, rule)?;
    let cond = rule.cond.copy(alloc)?;
    put_acting(alloc, rules, cond, acts.as_slice())?;
    Ok(())
}

/// Puts the rules to which rules are unfolded behind the others, in their order. Fails if memory runs out.
fn put_met_rules(
    alloc: Global,
    rules: &mut Vec<Rule>,
    frame: &Frame,
    head: &[PfoRule],
) -> Result<(), Memory>
    ensures { OnOk result (rules.new.items ≡ rules.old.items ++ met_rules frame.now false (length rules.old.items) head.now) }
{
    let mut may_hold = false;
    for rule in head {
        put_met(alloc, rules, frame, may_hold, rule)?;
        may_hold = may_hold || end_of(frame.outward, rule).is_some();
    }
    Ok(())
}

/// Puts the rules behind the others at which the end with the number is written where it is held. Fails if memory runs out.
fn put_held_rule(
    alloc: Global,
    rules: &mut Vec<Rule>,
    frame: &Frame,
    number: usize,
    end: End,
) -> Result<(), Memory>
    ensures { OnOk result (rules.new.items ≡ rules.old.items ++ held_rule frame.now (length rules.old.items) number end) }
{
    let bits = bits_of(alloc, frame.bits, number)?;
    let cond = told(alloc, frame.tags, bits.as_slice())?;
    let mut acts = Vec::new(alloc);
    put_decision(&mut acts, frame.outward, Some(end), true)?;
    put_acting(alloc, rules, cond, acts.as_slice())?;
    Ok(())
}

/// Puts the rules behind the others at which the end that is held is written. Fails if memory runs out.
fn put_held_rules(alloc: Global, rules: &mut Vec<Rule>, frame: &Frame) -> Result<(), Memory>
    ensures { OnOk result (rules.new.items ≡ rules.old.items ++ held_rules frame.now (length rules.old.items) 1 frame.now.ends) }
{
    let mut number = 1;
    for end in frame.ends.as_slice() {
        put_held_rule(alloc, rules, frame, number, *end)?;
        number = sum(number, 1)?;
    }
    Ok(())
}

/// Puts the rules to which the rules of a pass are unfolded behind the others: ahead of the tail in their order, then as they
/// decide first, and last those of ends that are held. Fails if memory runs out.
pub(crate) fn put_filter_rules(
    alloc: Global,
    rules: &mut Vec<Rule>,
    frame: &Frame,
    all: &[PfoRule],
) -> Result<(), Memory>
    ensures { OnOk result (IsFiltered frame.now all.now rules.old.items rules.new.items) }
{
    let (head, tail) = all.split_at(tail_place(frame.outward, all));
    put_met_rules(alloc, rules, frame, head)?;
    put_tail(alloc, rules, frame.outward, tail)?;
    put_held_rules(alloc, rules, frame)?;
    Ok(())
}
