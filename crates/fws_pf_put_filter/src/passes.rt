//! The rules that pass packets of accepting states.

ghost use Rattle.std.specs.Prelude.{◌≡◌, ℕ, ◌<◌, [], true, false, length, IfOk, OnOk};
ghost use Rattle.fws_net.specs.declared.outcome.Outcome.{Outcome};
ghost use Rattle.fws_pf.specs.declared.config.PfRule.{PfRule};
ghost use Rattle.fws_tree.specs.declared.node.Node.{Node};
ghost use Rattle.fws_pf_put_filter.specs.Planned.{IsPlanned};
ghost use Rattle.fws_pf_put_filter.specs.Rules.{accepts_leaf, accepts, passing};
ghost use Rattle.fws_print.specs.Appended.{Appends};
ghost use Rattle.fws_pf_put_filter.specs.Plans.{AreAllPasses, IsPassFor};

use crate::plan::Plan;
use fws_net::{Cond, Lit, Outcome, Test};
use fws_num::{Items, Memory};
use fws_pf::{PfRule, Way};
use fws_tree::Node;
use std::alloc::Global;

// A rule that passes packets of a state.
fn pass_rule(alloc: Global, n: u32) -> Result<PfRule, Memory>
    ensures { IfOk result (λ r. r ≡ passing n) }
{
    let mut cond = Cond::new(alloc);
    cond.put(Lit {
        not: false,
        test: Test::Tag(n),
    })?;
    Ok(PfRule {
        pass: true,
        way: Way::Both,
        quick: false,
        cond,
        tag: None,
        keep: true,
    })
}

// Whether the outcome accepts packets.
fn is_accepting(outcome: &Outcome) -> bool
    ensures { result ≡ accepts outcome.now }
{
    match outcome {
        Outcome::Drop => false,
        Outcome::Accept(_) => true,
    }
}

// Whether the node is a leaf that accepts packets.
fn accepts_node(leaves: &[Outcome], node: &Node) -> bool
    requires { (n : ℕ) → node.now ≡ Node.Leaf n → n < length leaves.now }
    ensures { result ≡ accepts_leaf leaves.now node.now }
{
    match node {
        Node::Leaf(i) => is_accepting(&leaves[*i as usize]),
        Node::Cut(_, _) => false,
    }
}

// Appends a rule that passes packets of the node, if it accepts them and is its own state.
fn put_pass(
    alloc: Global,
    rules: &mut Items<PfRule>,
    plan: &Plan<'_>,
    k: usize,
) -> Result<(), Memory>
    requires planned { IsPlanned plan.now.site.now plan.now.tree.now.0 plan.now.tree.now.1 plan.now.leaves.now plan.now.nodes.now plan.now.states.now }
    requires inside { k < length plan.now.nodes.now }
    ensures { OnOk result (Appends rules.old rules.new (IsPassFor plan.now k)) }
{
    let n = plan.states[k];
    if n as usize != k {
        return Ok(());
    }
    if accepts_node(plan.leaves, &plan.nodes[k]) {
        rules.put(pass_rule(alloc, n)?)?;
    }
    Ok(())
}

/// Appends a rule for each accepting state that passes its packets. Fails if memory runs out.
pub(crate) fn put_passes(
    alloc: Global,
    rules: &mut Items<PfRule>,
    plan: &Plan<'_>,
) -> Result<(), Memory>
    requires { IsPlanned plan.now.site.now plan.now.tree.now.0 plan.now.tree.now.1 plan.now.leaves.now plan.now.nodes.now plan.now.states.now }
    ensures { OnOk result (Appends rules.old rules.new (AreAllPasses plan.now)) }
{
    for k in 0..plan.nodes.len() {
        put_pass(alloc, rules, plan, k)?;
    }
    Ok(())
}
