//! The turns of the root of a tree that cuts the entry.

ghost use Rattle.std.specs.Prelude.{◌≡◌, ◌<◌, ◌≤◌, ◌-◌, [], None, Some, true, length, slice_get, IfOk};
ghost use Rattle.std.specs.List.{list_any};
ghost use Rattle.fws_iv.specs.Ivs.{has};
ghost use Rattle.fws_tree.specs.declared.node.Kid.{Kid};
ghost use Rattle.fws_tree.specs.declared.node.Node.{Node};
ghost use Rattle.fws_ipfw_put_rules.specs.declared.choice.Origin.{Origin};
ghost use Rattle.fws_ipfw_put_rules.specs.Plans.{AreFirstTurns, IsKnown};

use crate::choice::{Choice, Origin};
use crate::entries::entry_turns;
use crate::plan::Plan;
use crate::turn::Turn;
use fws_num::{Items, Memory};
use fws_tree::Kid;
use fws_tree_seen::cut_nodes_part_values;
use std::alloc::Global;

// The place of the kid that has the host's own packets.
fn host_kid(kids: &[Kid]) -> usize
    requires { 0 < length kids.now }
    ensures within { result < length kids.now }
    ensures holds { list_any (λ kid. has kid.set 0) kids.now ≡ true → (kid : Kid) → slice_get kids.now result ≡ Some kid → has kid.set 0 ≡ true }
{
    for (i, kid) in kids.iter().enumerate() {
        if kid.set.has(0) {
            return i;
        }
    }
    0
}

// The turn of the host's own packets.
fn host_turns(alloc: Global, plan: &Plan<'_>, kids: &[Kid]) -> Result<Items<Turn>, Memory>
    requires planned { IsKnown plan.now }
    requires origin { plan.now.section.now.origin ≡ Origin.Host }
    requires cut { slice_get plan.now.nodes.now (length plan.now.nodes.now - 1) ≡ Some (Node.Cut 0 kids.now) }
    ensures { IfOk result (AreFirstTurns plan.now) }
{
    cut_nodes_part_values::<Choice>();
    let mut turns = Items::new(alloc);
    turns.put(Turn {
        lit: None,
        node: kids[host_kid(kids)].node,
    })?;
    Ok(turns)
}

// The turns of packets that arrive.
fn arriving_turns(alloc: Global, plan: &Plan<'_>, kids: &[Kid]) -> Result<Items<Turn>, Memory>
    requires planned { IsKnown plan.now }
    requires few { length plan.now.site.now.faces ≤ 62 }
    requires origin { plan.now.section.now.origin ≡ Origin.Arriving }
    requires cut { slice_get plan.now.nodes.now (length plan.now.nodes.now - 1) ≡ Some (Node.Cut 0 kids.now) }
    ensures { IfOk result (AreFirstTurns plan.now) }
{
    cut_nodes_part_values::<Choice>();
    entry_turns(alloc, plan.site.faces.len() as u32 + 1, kids)
}

/// The turns of a cut of the entry for packets of the section's origin. Fails if memory runs out.
pub(crate) fn root_turns(
    alloc: Global,
    plan: &Plan<'_>,
    kids: &[Kid],
) -> Result<Items<Turn>, Memory>
    requires planned { IsKnown plan.now }
    requires few { length plan.now.site.now.faces ≤ 62 }
    requires cut { slice_get plan.now.nodes.now (length plan.now.nodes.now - 1) ≡ Some (Node.Cut 0 kids.now) }
    ensures { IfOk result (AreFirstTurns plan.now) }
{
    match plan.section.origin {
        Origin::Host => host_turns(alloc, plan, kids),
        Origin::Arriving => arriving_turns(alloc, plan, kids),
    }
}
