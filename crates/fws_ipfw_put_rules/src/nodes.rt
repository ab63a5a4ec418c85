//! The rules of nodes.

ghost use Rattle.std.specs.Prelude.{◌≡◌, ◌<◌, [], length, OnOk};
ghost use Rattle.fws_ipfw.specs.declared.config.IpfwRule.{IpfwRule};
ghost use Rattle.fws_ipfw_put_rules.specs.Blocks.{IsGoodCond};
ghost use Rattle.fws_ipfw_put_rules.specs.Lists.{act_of, tag_for, tag_of, rule_of};
ghost use Rattle.fws_print.specs.Appended.{Appends};
ghost use Rattle.fws_ipfw_put_rules.specs.Plans.{AreRulesOfNode, IsKnown};

use crate::choice::Choice;
use crate::literals::narrowed;
use crate::plan::Plan;
use crate::turns::cut_turns;
use fws_ipfw::{IpfwAct, IpfwRule, IpfwTag};
use fws_net::Cond;
use fws_num::{Items, Memory};
use fws_tree::Node;
use fws_tree_seen::{
    cut_nodes_part_values, leaf_nodes_are_leaves, left_sets_are_open, open_kids_are_reached,
    seen_fields_agree, unseen_fields_are_open,
};
use std::alloc::Global;

// What the rule of a choice does.
fn act_for(choice: Choice) -> IpfwAct
    ensures { result ≡ act_of choice }
{
    match choice {
        Choice::Deny => IpfwAct::Deny,
        Choice::Allow(_) => IpfwAct::Allow,
        Choice::Skip(n, _) => IpfwAct::Skip(n),
    }
}

// The tag that is added, if one is.
fn added(tag: Option<u32>) -> IpfwTag
    ensures { result ≡ tag_for tag }
{
    match tag {
        None => IpfwTag::Nothing,
        Some(n) => IpfwTag::Add(n),
    }
}

// What the rule of a choice does to tags.
fn tag_of_choice(choice: Choice) -> IpfwTag
    ensures { result ≡ tag_of choice }
{
    match choice {
        Choice::Deny => IpfwTag::Nothing,
        Choice::Allow(tag) => added(tag),
        Choice::Skip(_, tag) => added(tag),
    }
}

// The rule of a choice. Packets are allowed to keep state.
fn rule_for(number: u32, cond: Cond, choice: Choice) -> IpfwRule
    ensures { result ≡ rule_of number cond choice }
{
    let act = act_for(choice);
    IpfwRule {
        number,
        cond,
        act,
        tag: tag_of_choice(choice),
        keep: act == IpfwAct::Allow,
    }
}

/// Appends the rules of a node for packets for which the condition holds. Fails if memory runs out.
pub(crate) fn put_node(
    alloc: Global,
    rules: &mut Items<IpfwRule>,
    plan: &Plan<'_>,
    at: usize,
    cond: &Cond,
) -> Result<(), Memory>
    requires planned { IsKnown plan.now }
    requires inside { at < length plan.now.nodes.now }
    requires good { IsGoodCond plan.now.site.now plan.now.section.now.seen plan.now.nodes.now at cond.now }
    ensures { OnOk result (Appends rules.old rules.new (AreRulesOfNode plan.now at cond.now)) }
{
    leaf_nodes_are_leaves::<Choice>();
    cut_nodes_part_values::<Choice>();
    seen_fields_agree();
    unseen_fields_are_open();
    left_sets_are_open();
    open_kids_are_reached::<Choice>();
    match &plan.nodes[at] {
        Node::Leaf(n) => {
            let choice = plan.leaves[*n as usize];
            rules.put(rule_for(plan.section.number, cond.copy(alloc)?, choice))?;
        }
        Node::Cut(f, kids) => {
            let turns = cut_turns(alloc, plan.section.seen, *f, kids.as_slice())?;
            for turn in turns.as_slice() {
                let next = narrowed(alloc, cond, &turn.lit)?;
                put_node(alloc, rules, plan, turn.node as usize, &next)?;
            }
        }
    }
    Ok(())
}
