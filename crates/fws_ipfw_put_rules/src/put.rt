//! A decision tree as a list of rules.
//!
//! The idea: rules of ipfw stand in one list of which the first that holds decides, and all rules of a list here have one
//! number, so that none can be skipped to. So the tree is unfolded: each path from the root to a leaf becomes a rule whose
//! condition is what the path asks, and whose act is the leaf's choice.
//!
//! The order is what saves rules. At a cut the kids are taken one after the other, each as a turn with the literal of its set
//! (`turns`), and the last turn has no literal: behind the others it takes what none of them took. That is the kid whose tests
//! would be the most (`default`). So a kid with many pieces costs nothing, and neither does a chain of cuts that goes to it.
//! A set of addresses or ports that is longer than one list may hold is divided into groups (`groups`).
//!
//! What holds: the rules of a node under a condition decide on each packet for which the condition holds, and in favour of a
//! choice that the packet reaches in the node's tree; other packets pass them. A condition grows by one literal at each cut,
//! and never by two of one field, since no path cuts a field twice.
//!
//! A cut of the entry at the root is special: packets of the section's origin are asked for their interface, or for having none
//! (`root`).
//!
//! The cost: a rule for each path, that is the product of the pieces along it, but for the kids without a test. A tree that
//! shares much is written many times; the chains of iptables don't have this.

ghost use Rattle.std.specs.Prelude.{◌≡◌, ◌<◌, ◌≤◌, ◌-◌, ◌∷◌, [], Some, length, slice_get, OnOk};
ghost use Rattle.fws_ipfw.specs.declared.config.IpfwRule.{IpfwRule};
ghost use Rattle.fws_net.specs.Points.{tops_of};
ghost use Rattle.fws_net.specs.Routes.{IsSound};
ghost use Rattle.fws_tree_seen.specs.Shown.{IsTold};
ghost use Rattle.fws_tree.specs.declared.node.Node.{Node};
ghost use Rattle.fws_ipfw_put_rules.specs.Blocks.{KeepsEntry};
ghost use Rattle.fws_ipfw_put_rules.specs.Lists.{FitsAt, IsList};
ghost use Rattle.fws_ipfw_put_rules.specs.Literals.{direction};
ghost use Rattle.fws_print.specs.Appended.{Appends};
ghost use Rattle.fws_ipfw_put_rules.specs.Plans.{AreFirstTurns, AreRulesOfTurns, IsKnown, IsListOf};

use crate::choice::{Choice, Section};
use crate::literals::{narrowed, on_pass};
use crate::nodes::put_node;
use crate::plan::Plan;
use crate::root::root_turns;
use crate::turn::Turn;
use fws_ipfw::IpfwRule;
use fws_net::{Cond, Site};
use fws_num::{Items, Memory};
use fws_tree::{Kid, Node, Tree};
use fws_tree_seen::{
    cut_nodes_part_values, leaf_nodes_are_leaves, reached_values_are_told, seen_points_are_topped,
};
use std::alloc::Global;

// Appends the rules of turns for packets on the pass of the section.
fn put_turns(
    alloc: Global,
    rules: &mut Items<IpfwRule>,
    plan: &Plan<'_>,
    turns: &[Turn],
    cond: &Cond,
) -> Result<(), Memory>
    requires direction { cond.now ≡ direction plan.now.section.now.outward ∷ [] }
    requires planned { IsKnown plan.now }
    requires turns { AreFirstTurns plan.now turns.now }
    ensures { OnOk result (Appends rules.old rules.new (AreRulesOfTurns plan.now cond.now turns.now)) }
{
    for turn in turns {
        let next = narrowed(alloc, cond, &turn.lit)?;
        put_node(alloc, rules, plan, turn.node as usize, &next)?;
    }
    Ok(())
}

// Appends the list of a tree that cuts the entry into the sets of kids.
fn put_by_entry(
    alloc: Global,
    rules: &mut Items<IpfwRule>,
    plan: &Plan<'_>,
    kids: &[Kid],
) -> Result<(), Memory>
    requires sound { IsSound plan.now.site.now }
    requires told { IsTold plan.now.section.now.seen plan.now.tree.now.0 plan.now.tree.now.1 }
    requires planned { IsKnown plan.now }
    requires cut { slice_get plan.now.nodes.now (length plan.now.nodes.now - 1) ≡ Some (Node.Cut 0 kids.now) }
    ensures { OnOk result (Appends rules.old rules.new (IsListOf plan.now)) }
{
    reached_values_are_told::<Choice>();
    seen_points_are_topped();
    let cond = on_pass(alloc, plan.section.outward)?;
    let turns = root_turns(alloc, plan, kids)?;
    put_turns(alloc, rules, plan, turns.as_slice(), &cond)?;
    Ok(())
}

// Appends the list of a tree that doesn't cut the entry.
fn put_whole(alloc: Global, rules: &mut Items<IpfwRule>, plan: &Plan<'_>) -> Result<(), Memory>
    requires told { IsTold plan.now.section.now.seen plan.now.tree.now.0 plan.now.tree.now.1 }
    requires planned { IsKnown plan.now }
    requires keeps { (node : Node) → slice_get plan.now.nodes.now (length plan.now.nodes.now - 1) ≡ Some node → KeepsEntry node }
    ensures { OnOk result (Appends rules.old rules.new (IsListOf plan.now)) }
{
    reached_values_are_told::<Choice>();
    seen_points_are_topped();
    leaf_nodes_are_leaves::<Choice>();
    cut_nodes_part_values::<Choice>();
    let cond = on_pass(alloc, plan.section.outward)?;
    put_node(alloc, rules, plan, plan.nodes.len() - 1, &cond)?;
    Ok(())
}

// Appends the list of a tree whose nodes these are.
fn put_planned(alloc: Global, rules: &mut Items<IpfwRule>, plan: &Plan<'_>) -> Result<(), Memory>
    requires sound { IsSound plan.now.site.now }
    requires told { IsTold plan.now.section.now.seen plan.now.tree.now.0 plan.now.tree.now.1 }
    requires planned { IsKnown plan.now }
    ensures { OnOk result (Appends rules.old rules.new (IsListOf plan.now)) }
{
    match &plan.nodes[plan.nodes.len() - 1] {
        Node::Leaf(_) => put_whole(alloc, rules, plan),
        Node::Cut(f, kids) => {
            if *f == 0 {
                put_by_entry(alloc, rules, plan, kids.as_slice())
            } else {
                put_whole(alloc, rules, plan)
            }
        }
    }
}

/// Appends rules of the section's number that decide on packets as the tree does, in their order. Fails if memory runs out; rules
/// may then stand behind the others.
pub fn put_rules(
    alloc: Global,
    rules: &mut Items<IpfwRule>,
    site: &Site,
    tree: &Tree<Choice>,
    section: &Section,
) -> Result<(), Memory>
    requires sound { IsSound site.now }
    requires tops { tree.now.0 ≡ tops_of site.now }
    requires told { IsTold section.now.seen tree.now.0 tree.now.1 }
    requires fits { FitsAt tree.now.0 section.now.number tree.now.1 }
    requires number { (0 < section.now.number) × (section.now.number ≤ 65534) }
    ensures { OnOk result (Appends rules.old rules.new (IsList site.now tree.now.0 section.now tree.now.1)) }
{
    let shared = tree.shared();
    let plan = Plan {
        site,
        tree,
        section,
        leaves: shared.leaves,
        nodes: shared.nodes,
    };
    put_planned(alloc, rules, &plan)
}
