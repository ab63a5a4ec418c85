//! A decision tree as a list of translations.

ghost use Rattle.std.specs.Prelude.{◌≡◌, length, IfSome, OnOk, true, false, Some, None, ◌<◌, ◌≢◌};
ghost use Rattle.std.specs.List.{list_any};
ghost use Rattle.fws_iv.specs.Ivs.{has};
ghost use Rattle.fws_tree.specs.declared.node.Kid.{Kid};
ghost use Rattle.fws_net.specs.Points.{tops_of};
ghost use Rattle.fws_net.specs.Routes.{IsSound};
ghost use Rattle.fws_pf.specs.declared.config.PfNat.{PfNat};
ghost use Rattle.fws_tree_seen.specs.Shown.{IsTold};
ghost use Rattle.fws_tree_seen.specs.declared.seen.Seen.{Seen};
ghost use Rattle.fws_tree.specs.Shared.{IsShared};
ghost use Rattle.fws_pf_put_nat.specs.Scenes.{IsPlanned};
ghost use Rattle.fws_pf_put_nat.specs.Starts.{IsHostKid, IsStart};
ghost use Rattle.fws_pf_put_nat.specs.Translations.{KeepsPortsOutward, WritesOneEnd, WritesPortsOfProtocols};
ghost use Rattle.fws_print.specs.Appended.{Appends};
ghost use Rattle.fws_pf_put_nat.specs.Sheets.{scene_of, IsListOf, IsPlannedList};

use crate::ends::ends_of;
use crate::nodes::put_node;
use crate::path::whole_path;
use crate::plan::Plan;
use crate::rules::put_rule;
use crate::sheet::Sheet;
use fws_net::Outcome;
use fws_num::{Items, Memory};
use fws_pf::PfNat;
use fws_tree::{Kid, Node};
use fws_tree_seen::{cut_nodes_part_values, leaf_nodes_are_leaves};
use std::alloc::Global;

// The node of the kid that has the host's own packets.
fn host_kid(kids: &[Kid]) -> Option<u32>
    ensures some { IfSome result (IsHostKid kids.now) }
    ensures none { result ≡ None → list_any (λ kid. has kid.set 0) kids.now ≡ false }
{
    for kid in kids {
        if kid.set.has(0) {
            return Some(kid.node);
        }
    }
    None
}

// The node at which the host's own packets begin, where the last node cuts a field into the sets of kids.
fn host_start(f: u8, kids: &[Kid], last: usize) -> usize
    ensures later { f ≢ 0 → result ≡ last }
    ensures host { f ≡ 0 → list_any (λ kid. has kid.set 0) kids.now ≡ true → IsHostKid kids.now result }
{
    if f != 0 {
        return last;
    }
    match host_kid(kids) {
        Some(node) => node as usize,
        None => last,
    }
}

// The node at which packets begin that meet the list.
fn start_of(nodes: &[Node], outward: bool) -> usize
    requires { 0 < length nodes.now }
    ensures { IsStart nodes.now outward result }
{
    let last = nodes.len() - 1;
    if !outward {
        return last;
    }
    match &nodes[last] {
        Node::Leaf(_) => last,
        Node::Cut(f, kids) => host_start(*f, kids.as_slice(), last),
    }
}

// Appends the translations of all packets that meet the list.
fn put_all(alloc: Global, rules: &mut Items<PfNat>, sheet: &Sheet<'_>) -> Result<(), Memory>
    requires sound { IsSound sheet.now.site.now }
    requires planned { IsPlanned (scene_of sheet.now) }
    ensures { OnOk result (Appends rules.old rules.new (IsListOf sheet.now)) }
{
    let path = whole_path();
    put_node(alloc, rules, sheet, sheet.start, path, true)?;
    put_rule(alloc, rules, path, None, sheet.states[sheet.start])?;
    Ok(())
}

/// Appends the translations of a pass: the first that matches a packet writes the end that the tree gives it, and puts the tag of
/// the state at which the filter goes on. Fails if memory runs out; translations may then stand behind the others.
pub fn put_translations(
    alloc: Global,
    rules: &mut Items<PfNat>,
    plan: &Plan<'_>,
) -> Result<(), Memory>
    requires sound { IsSound plan.now.site.now }
    requires tops { plan.now.tree.now.0 ≡ tops_of plan.now.site.now }
    requires shared { IsShared plan.now.tree.now.0 plan.now.tree.now.1 plan.now.leaves.now plan.now.nodes.now }
    requires told { IsTold Seen.Entered plan.now.tree.now.0 plan.now.tree.now.1 }
    requires states { length plan.now.states.now ≡ length plan.now.nodes.now }
    requires ports { WritesPortsOfProtocols plan.now.tree.now.0 plan.now.tree.now.1 }
    requires one { WritesOneEnd plan.now.outward plan.now.tree.now.0 plan.now.tree.now.1 }
    requires bare { KeepsPortsOutward plan.now.outward plan.now.tree.now.0 plan.now.tree.now.1 }
    ensures { OnOk result (Appends rules.old rules.new (IsPlannedList plan.now)) }
{
    cut_nodes_part_values::<Outcome>();
    leaf_nodes_are_leaves::<Outcome>();
    let ends = ends_of(alloc, plan.outward, plan.leaves, plan.nodes)?;
    let start = start_of(plan.nodes, plan.outward);
    let sheet = Sheet {
        site: plan.site,
        tree: plan.tree,
        leaves: plan.leaves,
        nodes: plan.nodes,
        states: plan.states,
        outward: plan.outward,
        ends: ends.as_slice(),
        start,
    };
    put_all(alloc, rules, &sheet)
}
