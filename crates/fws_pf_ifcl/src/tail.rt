//! The rules of the tail: behind the last filter rule that puts a tag nothing changes what a rule sees, so
//! that the rule that decides can be found as the first one that matches.

ghost use Rattle.std.specs.Prelude.{◌≡◌, [], ◌∷◌, ◌++◌, map, IfOk, OnOk};
ghost use Rattle.fws_pf.specs.Walk.{is_met};
ghost use Rattle.fws_join.specs.Deciding.{StandsFor};
ghost use Rattle.fws_pf_ifcl.specs.Blocks.{EndsIn, deciding, puts_tag, quick_rule, quick_rules, rule_of, slow_rule, slow_rules, tail_place, tail_rules};

use fws_ifcl::{Act, Rule};
use fws_ifcl_rules::put_rule;
use fws_join::{Decision, Joining, decisions_stand_by_parts};
use fws_num::Memory;
use fws_pf::{PfRule, Way};
use std::alloc::Global;

/// Whether a rule is met on the pass.
pub(crate) fn is_met(way: Way, outward: bool) -> bool
    ensures { result ≡ is_met way outward }
{
    match way {
        Way::Both => true,
        Way::Inward => !outward,
        Way::Outward => outward,
    }
}

/// Whether a rule is met on the pass and puts a tag.
fn puts_tag(outward: bool, rule: &PfRule) -> bool
    ensures { result ≡ puts_tag outward rule.now }
{
    is_met(rule.way, outward) && rule.tag.is_some()
}

/// The place at which the tail begins: behind the last rule that puts a tag. Linear in the rules.
pub(crate) fn tail_place(outward: bool, filter: &[PfRule]) -> usize
    ensures { result ≡ tail_place outward filter.now }
{
    let mut place = 0;
    for i in 0..filter.len() {
        if puts_tag(outward, &filter[i]) {
            place = i + 1;
        }
    }
    place
}

/// Puts what a filter rule decides where its condition holds behind the others, if it is to. Fails if memory runs out.
fn put_deciding(
    alloc: Global,
    all: &mut Joining,
    decides: bool,
    rule: &PfRule,
) -> Result<(), Memory>
    ensures { OnOk result (StandsFor all.new (all.old ++ deciding decides rule.now)) }
{
    decisions_stand_by_parts();
    if !decides {
        return Ok(());
    }
    let cond = rule.cond.copy(alloc)?;
    all.put(alloc, cond, rule.pass)?;
    Ok(())
}

/// Puts that of a filter rule behind the others if it is met on the pass and quick. Fails if memory runs out.
fn put_quick_rule(
    alloc: Global,
    all: &mut Joining,
    outward: bool,
    rule: &PfRule,
) -> Result<(), Memory>
    ensures { OnOk result (StandsFor all.new (all.old ++ quick_rule outward rule.now)) }
{
    let decides = is_met(rule.way, outward) && rule.quick;
    put_deciding(alloc, all, decides, rule)?;
    Ok(())
}

/// Puts that of a filter rule behind the others if it is met on the pass and not quick. Fails if memory runs out.
fn put_slow_rule(
    alloc: Global,
    all: &mut Joining,
    outward: bool,
    rule: &PfRule,
) -> Result<(), Memory>
    ensures { OnOk result (StandsFor all.new (all.old ++ slow_rule outward rule.now)) }
{
    let decides = is_met(rule.way, outward) && !rule.quick;
    put_deciding(alloc, all, decides, rule)?;
    Ok(())
}

/// Puts those of the quick rules behind the others, in their order. Fails if memory runs out.
fn put_quick_rules(
    alloc: Global,
    all: &mut Joining,
    outward: bool,
    tail: &[PfRule],
) -> Result<(), Memory>
    ensures { OnOk result (StandsFor all.new (all.old ++ quick_rules outward tail.now)) }
{
    decisions_stand_by_parts();
    for rule in tail {
        put_quick_rule(alloc, all, outward, rule)?;
    }
    Ok(())
}

/// Puts those of the rules that aren't quick behind the others, the last one first. Fails if memory runs out.
fn put_slow_rules(
    alloc: Global,
    all: &mut Joining,
    outward: bool,
    tail: &[PfRule],
) -> Result<(), Memory>
    ensures { OnOk result (StandsFor all.new (all.old ++ slow_rules outward tail.now)) }
{
    decisions_stand_by_parts();
    for i in (0..tail.len()).rev() {
        put_slow_rule(alloc, all, outward, &tail[i])?;
    }
    Ok(())
}

/// Decisions that stand for those of the tail, of which neighbours are joined. Fails if memory runs out.
fn joined_tail(alloc: Global, outward: bool, tail: &[PfRule]) -> Result<Vec<Decision>, Memory>
    ensures { IfOk result (λ all. StandsFor all.items (tail_rules outward tail.now)) }
{
    decisions_stand_by_parts();
    let mut all = Joining::new(alloc);
    put_quick_rules(alloc, &mut all, outward, tail)?;
    put_slow_rules(alloc, &mut all, outward, tail)?;
    let fewer = all.into_decisions(alloc)?;
    Ok(fewer)
}

/// Puts the rule of a decision behind the others. Fails if memory runs out.
fn put_decision(rules: &mut Vec<Rule>, one: Decision) -> Result<(), Memory>
    ensures { OnOk result (rules.new.items ≡ rules.old.items ++ rule_of one ∷ []) }
{
    let Decision { cond, passes } = one;
    put_rule(rules, cond, if passes { Act::Accept } else { Act::Drop })
}

/// Puts the rules of decisions behind the others. Fails if memory runs out.
fn put_decisions(rules: &mut Vec<Rule>, all: Vec<Decision>) -> Result<(), Memory>
    ensures { OnOk result (rules.new.items ≡ rules.old.items ++ map rule_of all.items) }
{
    for one in all {
        put_decision(rules, one)?;
    }
    Ok(())
}

/// Puts rules behind the others that decide as the rules of the tail do. Fails if memory runs out.
pub(crate) fn put_tail(
    alloc: Global,
    rules: &mut Vec<Rule>,
    outward: bool,
    tail: &[PfRule],
) -> Result<(), Memory>
    ensures { OnOk result (EndsIn outward tail.now rules.old.items rules.new.items) }
{
    let joined = joined_tail(alloc, outward, tail)?;
    put_decisions(rules, joined)?;
    Ok(())
}
