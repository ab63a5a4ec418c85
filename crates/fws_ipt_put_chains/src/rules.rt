//! The rules of the chain of a node.

ghost use Rattle.std.specs.Prelude.{◌≡◌, ◌+◌, ◌<◌, [], ◌++◌, Some, take, drop, length, All, IfOk, OnOk};
ghost use Rattle.fws_ipt.specs.declared.config.IptRule.{IptRule};
ghost use Rattle.fws_tree.specs.declared.node.Kid.{Kid};
ghost use Rattle.fws_tree_seen.specs.declared.field.PacketField.{PacketField};
ghost use Rattle.fws_tree_seen.specs.Cuts.{PartValues};
ghost use Rattle.fws_tree_seen.specs.Fields.{top_of};
ghost use Rattle.fws_tree_seen.specs.Shown.{seen_field};
ghost use Rattle.fws_ipt_put_chains.specs.Pieces.{IsSpelled};
ghost use Rattle.fws_ipt_put_chains.specs.Rules.{rules_of, AreKidRules, AreCutRules};
ghost use Rattle.fws_print.specs.Appended.{Appends};
ghost use Rattle.fws_ipt_put_chains.specs.Plans.{AreOtherRules, AreSpelledBut};

use crate::coming::Coming;
use crate::default::default_kid;
use crate::pieces::pieces;
use fws_ipt::{IptGo, IptRule};
use fws_net::Cond;
use fws_num::{Items, Memory};
use fws_tree::Kid;
use fws_tree_seen::{PacketField, Seen, packet_field};
use std::alloc::Global;

// Appends a rule for each condition, which all do the same.
fn put_rules(rules: &mut Items<IptRule>, conds: Items<Cond>, go: IptGo) -> Result<(), Memory>
    ensures { OnOk result (rules.new ≡ rules.old ++ rules_of go conds) }
{
    for cond in conds.into_vec() {
        rules.put(IptRule { cond, go })?;
    }
    Ok(())
}

// Appends the rules that send what hits the sets of kids to their nodes.
fn put_kids(
    alloc: Global,
    rules: &mut Items<IptRule>,
    field: PacketField,
    coming: Coming,
    kids: &[Kid],
    acts: &[IptGo],
) -> Result<(), Memory>
    requires spelled { All (λ kid. IsSpelled field kid.set) kids.now }
    requires known { All (λ kid. kid.node < length acts.now) kids.now }
    ensures { OnOk result (Appends rules.old rules.new (AreKidRules coming field acts.now kids.now)) }
{
    for kid in kids {
        let conds = pieces(alloc, field, coming, &kid.set)?;
        put_rules(rules, conds, acts[kid.node as usize])?;
    }
    Ok(())
}

// The rules of all kids but the one at this place.
fn other_rules(
    alloc: Global,
    field: PacketField,
    coming: Coming,
    kids: &[Kid],
    at: usize,
    acts: &[IptGo],
) -> Result<Items<IptRule>, Memory>
    requires within { at < length kids.now }
    requires front { All (λ kid. IsSpelled field kid.set) (take at kids.now) }
    requires back { All (λ kid. IsSpelled field kid.set) (drop (at + 1) kids.now) }
    requires known { All (λ kid. kid.node < length acts.now) kids.now }
    ensures { IfOk result (λ rules. AreKidRules coming field acts.now (take at kids.now ++ drop (at + 1) kids.now) rules) }
{
    let mut rules = Items::new(alloc);
    put_kids(alloc, &mut rules, field, coming, &kids[..at], acts)?;
    put_kids(alloc, &mut rules, field, coming, &kids[at + 1..], acts)?;
    Ok(rules)
}

// The same where a field is seen, and no rules where none is.
fn tests(
    alloc: Global,
    field: Option<PacketField>,
    coming: Coming,
    kids: &[Kid],
    at: usize,
    acts: &[IptGo],
) -> Result<Items<IptRule>, Memory>
    requires within { at < length kids.now }
    requires spelled { AreSpelledBut field at kids.now }
    requires known { All (λ kid. kid.node < length acts.now) kids.now }
    ensures { IfOk result (AreOtherRules coming field acts.now at kids.now) }
{
    match field {
        Some(f) => other_rules(alloc, f, coming, kids, at, acts),
        None => Ok(Items::new(alloc)),
    }
}

/// The rules of a cut: those of all kids but one, and last a rule without a test for that one. Fails if memory runs out.
pub(crate) fn cut_rules(
    alloc: Global,
    seen: Seen,
    f: u8,
    coming: Coming,
    kids: &[Kid],
    acts: &[IptGo],
) -> Result<Items<IptRule>, Memory>
    requires some { 0 < length kids.now }
    requires parted { (field : PacketField) → seen_field seen f ≡ Some field → PartValues (top_of field) kids.now }
    requires known { All (λ kid. kid.node < length acts.now) kids.now }
    ensures { IfOk result (λ rules. AreCutRules seen f coming acts.now kids.now rules) }
{
    let field = packet_field(seen, f);
    let at = default_kid(alloc, field, kids)?;
    let mut rules = tests(alloc, field, coming, kids, at, acts)?;
    let go = acts[kids[at].node as usize];
    rules.put(IptRule {
        cond: Cond::new(alloc),
        go,
    })?;
    Ok(rules)
}
