//! The rules to which filter rules are unfolded.

ghost use Rattle.std.specs.Prelude.{◌≡◌, ◌++◌, false, length, OnOk};
ghost use Rattle.fws_pf_ifcl.specs.Blocks.{IsFiltered, filter_rule, holding, met_rule, met_rules, passing_at_once};

use crate::tail::{is_met, put_tail, tail_place};
use fws_ifcl::{Act, Rule};
use fws_ifcl_rules::{put_always, put_guard, put_rule};
use fws_net::Cond;
use fws_num::Memory;
use fws_pf::PfRule;
use std::alloc::Global;

/// Puts the rules behind the others at which packets pass at once where the condition holds, with the tag put first. Fails if
/// memory runs out.
fn put_passing(
    alloc: Global,
    rules: &mut Vec<Rule>,
    cond: Cond,
    tag: Option<u32>,
) -> Result<(), Memory>
    ensures { OnOk result (rules.new.items ≡ rules.old.items ++ passing_at_once (length rules.old.items) cond tag) }
{
    match tag {
        None => put_rule(rules, cond, Act::Accept),
        Some(n) => {
            put_guard(alloc, rules, cond, 2)?;
            put_always(alloc, rules, Act::OnlyTag(n))?;
            put_always(alloc, rules, Act::Accept)
        }
    }
}

/// Puts the rules behind the others that hold a verdict so far where the condition holds, with the tag put behind it. Fails if
/// memory runs out.
fn put_holding(
    alloc: Global,
    rules: &mut Vec<Rule>,
    passes: bool,
    cond: Cond,
    tag: Option<u32>,
) -> Result<(), Memory>
    ensures { OnOk result (rules.new.items ≡ rules.old.items ++ holding passes cond tag) }
{
    match tag {
        None => put_rule(rules, cond, Act::Hold(passes)),
        Some(n) => {
            let again = cond.copy(alloc)?;
            put_rule(rules, cond, Act::Hold(passes))?;
            put_rule(rules, again, Act::OnlyTag(n))
        }
    }
}

/// Puts the rules to which a filter rule is unfolded behind the others. Fails if memory runs out.
fn put_filter_rule(alloc: Global, rules: &mut Vec<Rule>, rule: &PfRule) -> Result<(), Memory>
    ensures { OnOk result (rules.new.items ≡ rules.old.items ++ filter_rule (length rules.old.items) rule.now) }
{
    let cond = rule.cond.copy(alloc)?;
    if !rule.quick {
        put_holding(alloc, rules, rule.pass, cond, rule.tag)?;
        return Ok(());
    }
    if rule.pass {
        put_passing(alloc, rules, cond, rule.tag)?;
        return Ok(());
    }
    put_rule(rules, cond, Act::Drop)?;
    Ok(())
}

/// Puts the rules of a filter rule behind the others if it is met on the pass. Fails if memory runs out.
fn put_met(alloc: Global, rules: &mut Vec<Rule>, outward: bool, rule: &PfRule) -> Result<(), Memory>
    ensures { OnOk result (rules.new.items ≡ rules.old.items ++ met_rule outward (length rules.old.items) rule.now) }
{
    if is_met(rule.way, outward) {
        put_filter_rule(alloc, rules, rule)?;
        return Ok(());
    }
    Ok(())
}

/// Puts the rules to which filter rules are unfolded behind the others, in their order. Fails if memory runs out.
fn put_met_rules(
    alloc: Global,
    rules: &mut Vec<Rule>,
    outward: bool,
    filter: &[PfRule],
) -> Result<(), Memory>
    ensures { OnOk result (rules.new.items ≡ rules.old.items ++ met_rules outward (length rules.old.items) filter.now) }
{
    for rule in filter {
        put_met(alloc, rules, outward, rule)?;
    }
    Ok(())
}

/// Puts the rules to which the filter rules of a pass are unfolded behind the others, as they decide first. Fails if memory runs
/// out.
fn put_filter(
    alloc: Global,
    rules: &mut Vec<Rule>,
    outward: bool,
    filter: &[PfRule],
) -> Result<(), Memory>
    ensures { OnOk result (IsFiltered false outward filter.now rules.old.items rules.new.items) }
{
    let (ahead, tail) = filter.split_at(tail_place(outward, filter));
    put_met_rules(alloc, rules, outward, ahead)?;
    put_tail(alloc, rules, outward, tail)?;
    Ok(())
}

/// Puts the rules to which the filter rules of a pass are unfolded behind the others: in their order, or as they decide first.
/// Fails if memory runs out.
pub(crate) fn put_filter_rules(
    alloc: Global,
    rules: &mut Vec<Rule>,
    in_order: bool,
    outward: bool,
    filter: &[PfRule],
) -> Result<(), Memory>
    ensures { OnOk result (IsFiltered in_order outward filter.now rules.old.items rules.new.items) }
{
    if in_order {
        put_met_rules(alloc, rules, outward, filter)?;
        return Ok(());
    }
    put_filter(alloc, rules, outward, filter)?;
    Ok(())
}
