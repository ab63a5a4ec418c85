//! The rules to which a rule is unfolded.

ghost use Rattle.std.specs.Prelude.{◌≡◌, ◌+◌, ◌++◌, ◌∷◌, [], true, false, Some, length, IfOk, OnOk};
ghost use Rattle.fws_ifcl_rules.specs.Rules.{always, guarded, ruled};
ghost use Rattle.fws_ipfw.specs.Soundness.{are_apart};
ghost use Rattle.fws_ipfw.specs.Walk.{nat_numbered};
ghost use Rattle.fws_ipfw_ifcl.specs.Blocks.{accepting, acting, block, keeping, tagging_first, translating_once};

use crate::instances::Instances;
use crate::translating::{put_skip, put_translating};
use crate::widths::{acting_width, translating_width};
use fws_ifcl::{Act, Rule};
use fws_ifcl_rules::{narrowed, place_behind, put_always, put_guard, put_rule, ruled_by, sum};
use fws_ipfw::{IpfwAct, IpfwNat, IpfwRule, IpfwTag};
use fws_net::{Cond, Test};
use fws_num::Memory;
use fws_rules::positive;
use std::alloc::Global;

/// Where the rules of a rule lead.
#[derive(Clone, Copy)]
pub(crate) struct Leads {
    /// Whether they stand in the half of packets that were translated.
    pub(crate) translated: bool,
    /// The place of the rules that end a pass.
    pub(crate) ends: usize,
    /// The place at which a packet goes on behind a translation.
    pub(crate) done: usize,
    /// The place to which it skips.
    pub(crate) to: usize,
}

/// How a pass ends accepted. Fails if memory runs out.
fn accepting(translated: bool, ends: usize) -> Result<Act, Memory>
    ensures { IfOk result (λ act. act ≡ accepting translated ends) }
{
    if translated {
        Ok(Act::Accept)
    } else {
        Ok(Act::Skip(place_behind(ends, 0)?))
    }
}

/// Puts a rule that skips to a place where its condition holds. Fails if memory runs out.
fn put_skipping(rules: &mut Vec<Rule>, cond: Cond, to: usize) -> Result<(), Memory>
    ensures { OnOk result (rules.new.items ≡ rules.old.items ++ ruled cond (Act.Skip to) ∷ []) }
{
    let place = place_behind(to, 0)?;
    put_rule(rules, cond, Act::Skip(place))
}

/// Puts behind the others the rules that translate by an instance where the condition holds, behind which the walk goes on at the
/// place done. Fails if memory runs out.
fn put_by_instance(
    alloc: Global,
    rules: &mut Vec<Rule>,
    done: usize,
    cond: Cond,
    nat: &IpfwNat,
) -> Result<(), Memory>
    ensures { OnOk result (rules.new.items ≡ rules.old.items ++ translating_once false done (length rules.old.items) cond (Some nat.now)) }
{
    let inner = translating_width(nat)?;
    put_guard(alloc, rules, cond, inner)?;
    put_translating(alloc, rules, done, nat)?;
    Ok(())
}

/// Puts behind the others the rules that translate by the instance with a number where the condition holds, unless the packet was
/// translated. Fails if memory runs out.
fn put_translating_once(
    alloc: Global,
    rules: &mut Vec<Rule>,
    instances: &Instances,
    nats: &[IpfwNat],
    leads: Leads,
    cond: Cond,
    number: u32,
) -> Result<(), Memory>
    requires { are_apart nats.now ≡ true }
    ensures { OnOk result (rules.new.items ≡ rules.old.items ++ translating_once leads.translated leads.done (length rules.old.items) cond (nat_numbered number nats.now)) }
{
    if leads.translated {
        let next = place_behind(rules.len(), 1)?;
        return put_rule(rules, cond, Act::Skip(next));
    }
    match instances.find(nats, number) {
        Some(nat) => put_by_instance(alloc, rules, leads.done, cond, nat),
        None => {
            put_guard(alloc, rules, cond, 1)?;
            put_skip(alloc, rules, leads.done)?;
            Ok(())
        }
    }
}

/// Puts the rules of an act behind the others. Fails if memory runs out.
fn put_acting(
    alloc: Global,
    rules: &mut Vec<Rule>,
    instances: &Instances,
    nats: &[IpfwNat],
    leads: Leads,
    cond: Cond,
    act: IpfwAct,
) -> Result<(), Memory>
    requires { are_apart nats.now ≡ true }
    ensures { OnOk result (rules.new.items ≡ rules.old.items ++ acting nats.now leads.translated leads.ends leads.done leads.to (length rules.old.items) cond act) }
{
    match act {
        IpfwAct::Allow => put_rule(rules, cond, accepting(leads.translated, leads.ends)?),
        IpfwAct::Deny => put_rule(rules, cond, Act::Drop),
        IpfwAct::Count => {
            let next = place_behind(rules.len(), 1)?;
            put_rule(rules, cond, Act::Skip(next))
        }
        IpfwAct::Skip(_) => put_skipping(rules, cond, leads.to),
        IpfwAct::Check => {
            let known = narrowed(cond, positive(Test::Est))?;
            put_rule(rules, known, accepting(leads.translated, leads.ends)?)
        }
        IpfwAct::Nat(number) => {
            put_translating_once(alloc, rules, instances, nats, leads, cond, number)
        }
    }
}

/// Puts the rule that puts or takes away a tag behind the others, and then the rules of an act, all of which are met where the
/// condition holds. Fails if memory runs out.
fn put_tagged(
    alloc: Global,
    rules: &mut Vec<Rule>,
    instances: &Instances,
    nats: &[IpfwNat],
    leads: Leads,
    cond: Cond,
    act: IpfwAct,
    tags: Act,
) -> Result<(), Memory>
    requires { are_apart nats.now ≡ true }
    ensures { OnOk result (rules.new.items ≡ rules.old.items ++ guarded (length rules.old.items) cond (always tags ∷ acting nats.now leads.translated leads.ends leads.done leads.to (length rules.old.items + 3) [] act)) }
{
    let acts = acting_width(instances, nats, leads.translated, act)?;
    let inner = sum(acts, 1)?;
    put_guard(alloc, rules, cond, inner)?;
    put_always(alloc, rules, tags)?;
    put_acting(alloc, rules, instances, nats, leads, Cond::new(alloc), act)?;
    Ok(())
}

/// Puts the rules of a rule's tag and act behind the others. Fails if memory runs out.
fn put_tagging_first(
    alloc: Global,
    rules: &mut Vec<Rule>,
    instances: &Instances,
    nats: &[IpfwNat],
    leads: Leads,
    rule: &IpfwRule,
) -> Result<(), Memory>
    requires { are_apart nats.now ≡ true }
    ensures { OnOk result (rules.new.items ≡ rules.old.items ++ tagging_first nats.now leads.translated leads.ends leads.done leads.to (length rules.old.items) rule.now.cond rule.now.act rule.now.tag) }
{
    let cond = rule.cond.copy(alloc)?;
    match rule.tag {
        IpfwTag::Nothing => put_acting(alloc, rules, instances, nats, leads, cond, rule.act),
        IpfwTag::Add(tag) => {
            let tags = Act::AddTag(tag);
            put_tagged(alloc, rules, instances, nats, leads, cond, rule.act, tags)
        }
        IpfwTag::Remove(tag) => {
            let tags = Act::DelTag(tag);
            put_tagged(alloc, rules, instances, nats, leads, cond, rule.act, tags)
        }
    }
}

/// Puts the rule behind the others at which packets of connections pass, if the rule keeps state. Fails if memory runs out.
fn put_keeping(alloc: Global, rules: &mut Vec<Rule>, leads: Leads, keep: bool) -> Result<(), Memory>
    ensures { OnOk result (rules.new.items ≡ rules.old.items ++ keeping keep leads.translated leads.ends) }
{
    if keep {
        let act = accepting(leads.translated, leads.ends)?;
        rules.push(ruled_by(alloc, positive(Test::Est), act)?)?;
        return Ok(());
    }
    Ok(())
}

/// Puts the rules to which a rule is unfolded behind the others. Fails if memory runs out.
pub(crate) fn put_block(
    alloc: Global,
    rules: &mut Vec<Rule>,
    instances: &Instances,
    nats: &[IpfwNat],
    leads: Leads,
    rule: &IpfwRule,
) -> Result<(), Memory>
    requires { are_apart nats.now ≡ true }
    ensures { OnOk result (rules.new.items ≡ rules.old.items ++ block nats.now leads.translated leads.ends leads.done leads.to (length rules.old.items) rule.now) }
{
    put_keeping(alloc, rules, leads, rule.keep)?;
    put_tagging_first(alloc, rules, instances, nats, leads, rule)?;
    Ok(())
}
