//! A decision tree as chains.
//!
//! The idea: a cut of the tree becomes one chain, whose rules test the cut's field and go to the chains of the kids, and a leaf
//! becomes an act. A tree shares its nodes, and chains are shared in the same way: a node to which many cuts lead is one chain,
//! so that there are as many chains as cuts, however many paths the tree has.
//!
//! The order: kids stand before the cuts that lead to them, so one pass over the nodes from the first to the last is enough
//! (`nodes`). When a cut is met, the acts of all its kids are known.
//!
//! One kid of a cut needs no test. The sets of the kids part the values of the field, so a last rule without a test takes what
//! no rule before took (`default`). It goes to the kid whose tests would be the most, unless there is a value that no rule can
//! test alone (protocol 0, ICMP type 255): then to the kid that has it.
//!
//! What holds: the act of a node leads a packet to the value which the node's tree has at each point as which the packet is
//! seen, whatever chains stand behind. Fields that rules don't see have one rule, since by what is known of the tree all their
//! kids lead to the same values. A test of ports is read only under TCP or UDP, so each node is told which of them come to it
//! (`coming`): a pass from the last node to the first, which lets both flow from a cut to its kids as far as the sets between
//! let them through.
//!
//! A root that cuts the entry isn't a chain. The caller gets a branch for each of its kids, since built-in chains test
//! interfaces.
//!
//! The cost: a rule for each piece of each kid's set but one (a prefix or a range, a list of at most fifteen ports, a cube of
//! flags), so that rules grow with the nodes times their pieces.

ghost use Rattle.std.specs.Prelude.{◌≡◌, ◌≢◌, ◌≤◌, ◌<◌, ◌+◌, ◌-◌, ◌∷◌, [], true, length, map, slice_get, Some, All, IfOk, OnOk};
ghost use Rattle.fws_ipt.specs.declared.config.IptTable.{IptTable};
ghost use Rattle.fws_net.specs.Points.{tops_of};
ghost use Rattle.fws_net.specs.Routes.{IsSound};
ghost use Rattle.fws_tree.specs.declared.node.Node.{Node};
ghost use Rattle.fws_ipt_print.specs.Printable.{is_chain_name};
ghost use Rattle.fws_tree_seen.specs.Shown.{IsTold};
ghost use Rattle.fws_ipt_put_chains.specs.Acts.{branch_of};
ghost use Rattle.fws_ipt_put_chains.specs.Blocks.{IsBlock, IsPrintedAct};
ghost use Rattle.fws_ipt_put_chains.specs.Branches.{HasMarkChains, Leads, PartEntries};
ghost use Rattle.fws_ipt_put_chains.specs.Planned.{KeepsEntry};
ghost use Rattle.fws_ipt_put_chains.specs.Plans.{ArePutFor, IsKnown};

use crate::coming::comings;
use crate::nodes::put_nodes;
use crate::plan::Plan;
use crate::verdict::{Branch, Verdict};
use fws_ipt::{IptChain, IptGo, IptTable};
use fws_iv::one;
use fws_net::Site;
use fws_num::{Items, Memory};
use fws_tree::{Kid, Node, Tree};
use fws_tree_seen::{
    Seen, cut_nodes_part_values, leaf_nodes_are_leaves, reached_values_are_told,
    seen_points_are_topped,
};
use std::alloc::Global;

// A branch for each kid of a cut of the entry.
fn kid_branches(alloc: Global, kids: &[Kid], acts: &[IptGo]) -> Result<Items<Branch>, Memory>
    requires { All (λ kid. kid.node < length acts.now) kids.now }
    ensures { IfOk result (λ branches. branches ≡ map (branch_of acts.now) kids.now) }
{
    let mut branches = Items::new(alloc);
    for kid in kids {
        branches.put(Branch {
            entries: kid.set.copy(alloc)?,
            go: acts[kid.node as usize],
        })?;
    }
    Ok(branches)
}

// The one branch of a tree that doesn't cut the entry.
fn whole_branch(alloc: Global, top: u32, go: IptGo) -> Result<Items<Branch>, Memory>
    ensures { IfOk result (λ branches. branches ≡ record { entries = record { lo = 0; hi = top } ∷ []; go = go } ∷ []) }
{
    let mut branches = Items::new(alloc);
    branches.put(Branch {
        entries: one(alloc, 0, top)?,
        go,
    })?;
    Ok(branches)
}

// Puts the chains of a tree that cuts the entry into the sets of kids.
fn put_by_entry(
    alloc: Global,
    chains: &mut Items<IptChain>,
    plan: &Plan<'_>,
    leaves: &[Verdict],
    nodes: &[Node],
    kids: &[Kid],
) -> Result<Items<Branch>, Memory>
    requires planned { IsKnown plan.now chains.old leaves.now nodes.now }
    requires cut { slice_get nodes.now (length nodes.now - 1) ≡ Some (Node.Cut 0 kids.now) }
    ensures { IfOk result (ArePutFor plan.now chains.old chains.new) }
{
    reached_values_are_told::<Verdict>();
    seen_points_are_topped();
    leaf_nodes_are_leaves::<Verdict>();
    cut_nodes_part_values::<Verdict>();
    let last = nodes.len() - 1;
    let all = comings(alloc, nodes)?;
    let acts = put_nodes(alloc, chains, plan, leaves, nodes, &all, last)?;
    kid_branches(alloc, kids, &acts)
}

// Puts the chains of a tree that doesn't cut the entry.
fn put_whole(
    alloc: Global,
    chains: &mut Items<IptChain>,
    plan: &Plan<'_>,
    leaves: &[Verdict],
    nodes: &[Node],
) -> Result<Items<Branch>, Memory>
    requires planned { IsKnown plan.now chains.old leaves.now nodes.now }
    requires keeps { (node : Node) → slice_get nodes.now (length nodes.now - 1) ≡ Some node → KeepsEntry node }
    ensures { IfOk result (ArePutFor plan.now chains.old chains.new) }
{
    reached_values_are_told::<Verdict>();
    seen_points_are_topped();
    leaf_nodes_are_leaves::<Verdict>();
    cut_nodes_part_values::<Verdict>();
    let count = nodes.len();
    let all = comings(alloc, nodes)?;
    let acts = put_nodes(alloc, chains, plan, leaves, nodes, &all, count)?;
    let top = plan.site.faces.len() as u32 + 1;
    whole_branch(alloc, top, acts[count - 1])
}

// Puts the chains of a tree whose nodes these are.
fn put_planned(
    alloc: Global,
    chains: &mut Items<IptChain>,
    plan: &Plan<'_>,
    leaves: &[Verdict],
    nodes: &[Node],
) -> Result<Items<Branch>, Memory>
    requires planned { IsKnown plan.now chains.old leaves.now nodes.now }
    ensures { IfOk result (ArePutFor plan.now chains.old chains.new) }
{
    match &nodes[nodes.len() - 1] {
        Node::Leaf(_) => put_whole(alloc, chains, plan, leaves, nodes),
        Node::Cut(f, kids) => {
            if *f == 0 {
                put_by_entry(alloc, chains, plan, leaves, nodes, kids.as_slice())
            } else {
                put_whole(alloc, chains, plan, leaves, nodes)
            }
        }
    }
}

/// Puts chains behind the others that decide on packets as the tree does, and gives what rules do to send packets into them: a
/// branch for each set of entries that the tree tells apart. Fails if memory runs out; chains may then stand behind the others.
pub fn put_chains(
    alloc: Global,
    chains: &mut Items<IptChain>,
    site: &Site,
    tree: &Tree<Verdict>,
    table: IptTable,
    front: &[u8],
    seen: Seen,
    least: u32,
) -> Result<Items<Branch>, Memory>
    requires sound { IsSound site.now }
    requires tops { tree.now.0 ≡ tops_of site.now }
    requires told { IsTold seen tree.now.0 tree.now.1 }
    requires least { least ≤ length chains.old }
    requires marks { HasMarkChains table least chains.old tree.now.1 }
    requires table { table ≢ IptTable.Nat }
    requires plain { is_chain_name front.now ≡ true }
    requires short { length front.now ≤ 8 }
    ensures block { OnOk result (IsBlock site.now table chains.old chains.new) }
    ensures leads { IfOk result (λ branches. All (Leads tree.now.0 tree.now.1 seen least (length chains.old) (length chains.new) chains.new) branches) }
    ensures printed { IfOk result (λ branches. All (λ branch. IsPrintedAct table chains.new branch.go) branches) }
    ensures whole { IfOk result (λ branches. PartEntries (length site.now.faces + 1) branches) }
{
    let plan = Plan {
        site,
        tree,
        table,
        front,
        seen,
        least,
    };
    let shared = tree.shared();
    put_planned(alloc, chains, &plan, shared.leaves, shared.nodes)
}
