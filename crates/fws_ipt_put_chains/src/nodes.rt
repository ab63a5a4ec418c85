//! The acts of the nodes of a tree, and the chains that they enter.

ghost use Rattle.std.specs.Prelude.{◌≡◌, ◌≢◌, ◌≤◌, ◌<◌, true, length, IfOk, OnOk};
ghost use Rattle.fws_ipt.specs.declared.config.IptTable.{IptTable};
ghost use Rattle.fws_net.specs.Points.{tops_of};
ghost use Rattle.fws_tree.specs.Shared.{IsShared};
ghost use Rattle.fws_ipt_print.specs.Printable.{is_chain_name};
ghost use Rattle.fws_ipt_put_chains.specs.Acts.{leaf_act, IsCutPut, IsFit, IsFitCut, IsNodePut};
ghost use Rattle.fws_ipt_put_chains.specs.Blocks.{IsBlock};
ghost use Rattle.fws_ipt_put_chains.specs.Branches.{HasMarkChains};
ghost use Rattle.fws_ipt_put_chains.specs.Comings.{AreComings};
ghost use Rattle.fws_ipt_put_chains.specs.Plans.{AreActsFor};

use crate::coming::Coming;
use crate::names::chain_name;
use crate::plan::Plan;
use crate::rules::cut_rules;
use crate::verdict::Verdict;
use fws_ipt::{IptChain, IptGo};
use fws_num::{Items, Memory};
use fws_tree::{Kid, Node};
use fws_tree_seen::{
    cut_nodes_part_values, leaf_nodes_are_leaves, left_sets_are_open, open_kids_are_reached,
    seen_fields_agree, unseen_fields_are_open,
};
use std::alloc::Global;

// The act of a leaf.
fn act_of(verdict: Verdict) -> IptGo
    ensures { result ≡ leaf_act verdict }
{
    match verdict {
        Verdict::Accept => IptGo::Accept,
        Verdict::Drop => IptGo::Drop,
        Verdict::Mark(v) => IptGo::Goto(v),
    }
}

// Puts the chain of a cut behind the others, and gives the act that enters it.
fn put_cut(
    alloc: Global,
    chains: &mut Items<IptChain>,
    plan: &Plan<'_>,
    f: u8,
    coming: Coming,
    kids: &[Kid],
    acts: &[IptGo],
) -> Result<IptGo, Memory>
    requires plain { is_chain_name plan.now.front.now ≡ true }
    requires short { length plan.now.front.now ≤ 8 }
    requires fit { IsFitCut plan.now.seen (length acts.now) f kids.now }
    ensures { IfOk result (λ go. IsCutPut plan.now.table plan.now.seen f coming acts.now kids.now chains.old chains.new go) }
{
    let place = chains.len();
    if place >= u32::MAX as usize {
        return Err(Memory);
    }
    let number = place as u32;
    let rules = cut_rules(alloc, plan.seen, f, coming, kids, acts)?;
    let name = chain_name(alloc, plan.front, f, number)?;
    chains.put(IptChain {
        table: plan.table,
        name,
        policy: None,
        rules,
    })?;
    Ok(IptGo::Goto(number))
}

// Puts the chain of a node behind the others, if it needs one, and gives its act.
fn put_node(
    alloc: Global,
    chains: &mut Items<IptChain>,
    plan: &Plan<'_>,
    leaves: &[Verdict],
    node: &Node,
    coming: Coming,
    acts: &[IptGo],
) -> Result<IptGo, Memory>
    requires plain { is_chain_name plan.now.front.now ≡ true }
    requires short { length plan.now.front.now ≤ 8 }
    requires fit { IsFit plan.now.seen leaves.now (length acts.now) node.now }
    ensures { IfOk result (λ go. IsNodePut plan.now.table plan.now.seen leaves.now coming acts.now node.now chains.old chains.new go) }
{
    match node {
        Node::Leaf(n) => Ok(act_of(leaves[*n as usize])),
        Node::Cut(f, kids) => put_cut(alloc, chains, plan, *f, coming, kids.as_slice(), acts),
    }
}

/// Puts the chains of the first nodes of a tree behind the others, and gives the acts of these nodes.
pub(crate) fn put_nodes(
    alloc: Global,
    chains: &mut Items<IptChain>,
    plan: &Plan<'_>,
    leaves: &[Verdict],
    nodes: &[Node],
    comings: &[Coming],
    count: usize,
) -> Result<Vec<IptGo>, Memory>
    requires plain { is_chain_name plan.now.front.now ≡ true }
    requires short { length plan.now.front.now ≤ 8 }
    requires table { plan.now.table ≢ IptTable.Nat }
    requires tops { plan.now.tree.now.0 ≡ tops_of plan.now.site.now }
    requires shared { IsShared plan.now.tree.now.0 plan.now.tree.now.1 leaves.now nodes.now }
    requires marks { HasMarkChains plan.now.table plan.now.least chains.old plan.now.tree.now.1 }
    requires least { plan.now.least ≤ length chains.old }
    requires comings { AreComings nodes.now comings.now }
    requires count { count ≤ length nodes.now }
    ensures count { IfOk result (λ acts. length acts.items ≡ count) }
    ensures block { OnOk result (IsBlock plan.now.site.now plan.now.table chains.old chains.new) }
    ensures acts { IfOk result (λ acts. AreActsFor plan.now (length chains.old) chains.new comings.now leaves.now nodes.now acts.items) }
{
    seen_fields_agree();
    unseen_fields_are_open();
    left_sets_are_open();
    open_kids_are_reached::<Verdict>();
    leaf_nodes_are_leaves::<Verdict>();
    cut_nodes_part_values::<Verdict>();
    let mut acts = Vec::new(alloc);
    for k in 0..count {
        let go = put_node(alloc, chains, plan, leaves, &nodes[k], comings[k], &acts)?;
        acts.push(go)?;
    }
    Ok(acts)
}
