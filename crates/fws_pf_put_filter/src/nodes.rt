//! The rules of nodes.

ghost use Rattle.std.specs.Prelude.{◌≡◌, ℕ, ◌+◌, ◌<◌, true, [], ◌++◌, Some, length, vec_len, slice_get, All, IfOk, OnOk};
ghost use Rattle.fws_pf.specs.declared.config.PfRule.{PfRule};
ghost use Rattle.fws_pf.specs.declared.config.Way.{Way};
ghost use Rattle.fws_net.specs.declared.outcome.Outcome.{Outcome};
ghost use Rattle.fws_tree.specs.declared.node.Node.{Node};
ghost use Rattle.fws_pf_put_filter.specs.Conds.{IsTestable};
ghost use Rattle.fws_pf_put_filter.specs.Planned.{IsPlanned};
ghost use Rattle.fws_pf_put_filter.specs.Rules.{moved, moves, AreKidRules, AreAllKidRules};
ghost use Rattle.fws_pf_put_filter.specs.States.{IsLeafNode};
ghost use Rattle.fws_print.specs.Appended.{Appends};
ghost use Rattle.fws_pf_put_filter.specs.Plans.{AreTestedOf, AreUntestedOf, IsCutOf, IsLastOf, IsNodeOf};

use crate::conds::conditions;
use crate::default::default_kid;
use crate::plan::Plan;
use crate::tested::{Tested, tested_by, way_for};
use fws_iv::Ivs;
use fws_net::{Cond, Lit, Outcome, Test};
use fws_num::{Items, Memory};
use fws_pf::{PfRule, Way};
use fws_tree::{Kid, Node};
use fws_tree_seen::{
    cut_nodes_part_values, leaf_nodes_are_leaves, seen_fields_agree, unseen_fields_are_open,
};
use std::alloc::Global;

// A rule that moves packets of a state for which the condition holds to another state.
fn moving(way: Way, from: u32, to: u32, cond: Cond) -> Result<PfRule, Memory>
    ensures { IfOk result (λ r. r ≡ moved way from to cond) }
{
    let mut cond = cond;
    cond.put(Lit {
        not: false,
        test: Test::Tag(from),
    })?;
    Ok(PfRule {
        pass: false,
        way,
        quick: false,
        cond,
        tag: Some(to),
        keep: false,
    })
}

// Appends such a rule for each condition.
fn put_moves(
    rules: &mut Items<PfRule>,
    way: Way,
    from: u32,
    to: u32,
    conds: Items<Cond>,
) -> Result<(), Memory>
    ensures { OnOk result (rules.new ≡ rules.old ++ moves way from to conds) }
{
    for cond in conds.into_vec() {
        rules.put(moving(way, from, to, cond)?)?;
    }
    Ok(())
}

// Appends the rules of a node for a kid with this state and set.
fn put_kid(
    alloc: Global,
    rules: &mut Items<PfRule>,
    tested: Tested,
    from: u32,
    default: u32,
    state: u32,
    set: &Ivs,
) -> Result<(), Memory>
    requires { IsTestable tested set.now }
    ensures { OnOk result (Appends rules.old rules.new (AreKidRules tested from default state set.now)) }
{
    if state == default {
        return Ok(());
    }
    let conds = conditions(alloc, tested, set)?;
    put_moves(rules, way_for(tested), from, state, conds)?;
    Ok(())
}

// Appends the rules of a node for all its kids.
fn put_kids(
    alloc: Global,
    rules: &mut Items<PfRule>,
    tested: Tested,
    from: u32,
    default: u32,
    states: &[u32],
    kids: &[Kid],
) -> Result<(), Memory>
    requires testable { All (λ kid. IsTestable tested kid.set) kids.now }
    requires known { All (λ kid. kid.node < length states.now) kids.now }
    ensures { OnOk result (Appends rules.old rules.new (AreAllKidRules tested states.now from default kids.now)) }
{
    for kid in kids {
        let state = states[kid.node as usize];
        put_kid(alloc, rules, tested, from, default, state, &kid.set)?;
    }
    Ok(())
}

// Whether packets are dropped at the leaf.
fn is_drop(leaves: &[Outcome], i: u32) -> bool
    requires { i < length leaves.now }
    ensures { result ≡ true → slice_get leaves.now i ≡ Some Outcome.Drop }
{
    match leaves[i as usize] {
        Outcome::Drop => true,
        Outcome::Accept(_) => false,
    }
}

// Whether packets are dropped at the node.
fn drops(leaves: &[Outcome], nodes: &[Node], k: u32) -> bool
    requires inside { k < length nodes.now }
    requires named { (k n : ℕ) → slice_get nodes.now k ≡ Some (Node.Leaf n) → n < length leaves.now }
    ensures { result ≡ true → IsLeafNode leaves.now nodes.now k Outcome.Drop }
{
    match &nodes[k as usize] {
        Node::Leaf(i) => is_drop(leaves, *i),
        Node::Cut(_, _) => false,
    }
}

// Appends the last rule of a node.
fn put_last(
    alloc: Global,
    rules: &mut Items<PfRule>,
    plan: &Plan<'_>,
    way: Way,
    from: u32,
    default: u32,
) -> Result<(), Memory>
    requires inside { default < length plan.now.nodes.now }
    requires named { (k n : ℕ) → slice_get plan.now.nodes.now k ≡ Some (Node.Leaf n) → n < length plan.now.leaves.now }
    ensures { OnOk result (Appends rules.old rules.new (IsLastOf plan.now way from default)) }
{
    if drops(plan.leaves, plan.nodes, default) {
        return Ok(());
    }
    rules.put(moving(way, from, default, Cond::new(alloc))?)?;
    Ok(())
}

// Appends the rules of a cut of what rules can test.
fn put_tested(
    alloc: Global,
    rules: &mut Items<PfRule>,
    plan: &Plan<'_>,
    sums: &mut Vec<usize>,
    tested: Tested,
    from: u32,
    kids: &[Kid],
) -> Result<(), Memory>
    requires some { 0 < length kids.now }
    requires testable { All (λ kid. IsTestable tested kid.set) kids.now }
    requires known { All (λ kid. kid.node < length plan.now.nodes.now) kids.now }
    requires planned { IsPlanned plan.now.site.now plan.now.tree.now.0 plan.now.tree.now.1 plan.now.leaves.now plan.now.nodes.now plan.now.states.now }
    requires size { vec_len sums.old ≡ length plan.now.nodes.now }
    ensures rules { OnOk result (Appends rules.old rules.new (AreTestedOf plan.now tested from kids.now)) }
    ensures size { vec_len sums.new ≡ vec_len sums.old }
{
    let at = default_kid(alloc, tested, kids, plan.states, sums)?;
    let default = plan.states[kids[at].node as usize];
    put_kids(alloc, rules, tested, from, default, plan.states, kids)?;
    put_last(alloc, rules, plan, way_for(tested), from, default)?;
    Ok(())
}

// Appends the rule of a cut of what no rule can test.
fn put_untested(
    alloc: Global,
    rules: &mut Items<PfRule>,
    plan: &Plan<'_>,
    from: u32,
    kids: &[Kid],
) -> Result<(), Memory>
    requires some { 0 < length kids.now }
    requires known { All (λ kid. kid.node < length plan.now.nodes.now) kids.now }
    requires planned { IsPlanned plan.now.site.now plan.now.tree.now.0 plan.now.tree.now.1 plan.now.leaves.now plan.now.nodes.now plan.now.states.now }
    ensures { OnOk result (Appends rules.old rules.new (AreUntestedOf plan.now from kids.now)) }
{
    let default = plan.states[kids[0].node as usize];
    put_last(alloc, rules, plan, Way::Both, from, default)?;
    Ok(())
}

// Appends the rules of a cut that is its own state.
fn put_cut(
    alloc: Global,
    rules: &mut Items<PfRule>,
    plan: &Plan<'_>,
    sums: &mut Vec<usize>,
    n: u32,
    f: u8,
    kids: &[Kid],
) -> Result<(), Memory>
    requires planned { IsPlanned plan.now.site.now plan.now.tree.now.0 plan.now.tree.now.1 plan.now.leaves.now plan.now.nodes.now plan.now.states.now }
    requires cut { slice_get plan.now.nodes.now n ≡ Some (Node.Cut f kids.now) }
    requires size { vec_len sums.old ≡ length plan.now.nodes.now }
    ensures rules { OnOk result (Appends rules.old rules.new (IsCutOf plan.now n)) }
    ensures size { vec_len sums.new ≡ vec_len sums.old }
{
    cut_nodes_part_values::<Outcome>();
    leaf_nodes_are_leaves::<Outcome>();
    seen_fields_agree();
    unseen_fields_are_open();
    let top = plan.site.faces.len() as u32 + 1;
    match tested_by(top, f) {
        Some(tested) => put_tested(alloc, rules, plan, sums, tested, n, kids)?,
        None => put_untested(alloc, rules, plan, n, kids)?,
    }
    Ok(())
}

/// Appends the rules of a node. Fails if memory runs out.
pub(crate) fn put_node(
    alloc: Global,
    rules: &mut Items<PfRule>,
    plan: &Plan<'_>,
    sums: &mut Vec<usize>,
    k: usize,
) -> Result<(), Memory>
    requires planned { IsPlanned plan.now.site.now plan.now.tree.now.0 plan.now.tree.now.1 plan.now.leaves.now plan.now.nodes.now plan.now.states.now }
    requires inside { k < length plan.now.nodes.now }
    requires size { vec_len sums.old ≡ length plan.now.nodes.now }
    ensures rules { OnOk result (Appends rules.old rules.new (IsNodeOf plan.now k)) }
    ensures size { vec_len sums.new ≡ vec_len sums.old }
{
    let n = plan.states[k];
    if n as usize != k {
        return Ok(());
    }
    match &plan.nodes[k] {
        Node::Leaf(_) => Ok(()),
        Node::Cut(f, kids) => put_cut(alloc, rules, plan, sums, n, *f, kids.as_slice()),
    }
}
