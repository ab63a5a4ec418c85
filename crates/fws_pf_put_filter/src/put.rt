//! The filter rules of a tree.
//!
//! The idea: rules of pf are walked through to the end, and the last one that matches decides. A packet can carry tags. So the
//! walk down the tree is done by tags: a packet that has come to a node has the node's tag, and the rules of the node test its
//! field and put the tag of a kid. The first rule of all blocks, and the last ones pass packets that have the tag of an
//! accepting leaf.
//!
//! The order: a kid stands before its cut among the nodes, so the rules of the last node come first, and one pass through the
//! rules takes each packet down to its leaf. Each rule tests one field and one tag, so that no condition is long, and there are
//! as many blocks of rules as nodes, however many paths the tree has.
//!
//! States: nodes that decide alike need one tag (`states`). Leaves that drop have one, leaves that accept with the same source
//! have one, since the filter doesn't write destinations, and a cut whose kids all have one state has it too, and no rules.
//!
//! One state of a cut needs no test: its last rule asks for the tag alone, and puts that of the state whose kids together would
//! take most tests (`default`). If packets are dropped there, not even that rule is needed: they keep the tag of the cut, which
//! no rule passes.
//!
//! What holds, from the end: rules from those of a node on decide for packets with the tags of the nodes before it, by what is
//! reached below these; a node's block moves its own tag to a node below which nothing else is reached, and lets other tags by.
//!
//! The cost: a rule for each piece of each kid's set but those of one state.

ghost use Rattle.std.specs.Prelude.{◌≡◌, length, IfOk, OnOk};
ghost use Rattle.fws_pf.specs.declared.config.PfRule.{PfRule};
ghost use Rattle.fws_pf_put_filter.specs.Planned.{IsPlanned};
ghost use Rattle.fws_pf_put_filter.specs.Rules.{block_all};
ghost use Rattle.fws_print.specs.Appended.{Appends};
ghost use Rattle.fws_pf_put_filter.specs.Plans.{AreAllMoves, IsFilterOf};

use crate::nodes::put_node;
use crate::passes::put_passes;
use crate::plan::Plan;
use fws_net::{Cond, Outcome};
use fws_num::{Items, Memory};
use fws_pf::{PfRule, Way};
use fws_tree_seen::{
    cut_nodes_part_values, leaf_nodes_are_leaves, seen_fields_agree, unseen_fields_are_open,
};
use std::alloc::Global;

// A rule that blocks every packet, unless a later one matches.
fn blocking(alloc: Global) -> PfRule
    ensures { result ≡ block_all }
{
    PfRule {
        pass: false,
        way: Way::Both,
        quick: false,
        cond: Cond::new(alloc),
        tag: None,
        keep: false,
    }
}

// So many sums of 0.
fn zeros(alloc: Global, n: usize) -> Result<Vec<usize>, Memory>
    ensures { IfOk result (λ sums. length sums.items ≡ n) }
{
    let mut sums = Vec::new(alloc);
    for _i in 0..n {
        sums.push(0)?;
    }
    Ok(sums)
}

// For each node, from the last one to the first, appends its rules.
fn put_moves(alloc: Global, rules: &mut Items<PfRule>, plan: &Plan<'_>) -> Result<(), Memory>
    requires { IsPlanned plan.now.site.now plan.now.tree.now.0 plan.now.tree.now.1 plan.now.leaves.now plan.now.nodes.now plan.now.states.now }
    ensures { OnOk result (Appends rules.old rules.new (AreAllMoves plan.now)) }
{
    cut_nodes_part_values::<Outcome>();
    leaf_nodes_are_leaves::<Outcome>();
    seen_fields_agree();
    unseen_fields_are_open();
    let mut sums = zeros(alloc, plan.nodes.len())?;
    let mut k = plan.nodes.len();
    while k > 0 {
        k -= 1;
        put_node(alloc, rules, plan, &mut sums, k)?;
    }
    Ok(())
}

/// Appends filter rules that decide what the nodes of the tree decide, for packets that have the tag of a node's state. Fails if
/// memory runs out; rules may then stand behind the others.
pub fn put_filter(alloc: Global, rules: &mut Items<PfRule>, plan: &Plan<'_>) -> Result<(), Memory>
    requires { IsPlanned plan.now.site.now plan.now.tree.now.0 plan.now.tree.now.1 plan.now.leaves.now plan.now.nodes.now plan.now.states.now }
    ensures { OnOk result (Appends rules.old rules.new (IsFilterOf plan.now)) }
{
    cut_nodes_part_values::<Outcome>();
    leaf_nodes_are_leaves::<Outcome>();
    seen_fields_agree();
    unseen_fields_are_open();
    rules.put(blocking(alloc))?;
    put_moves(alloc, rules, plan)?;
    put_passes(alloc, rules, plan)?;
    Ok(())
}
