//! The ends that the accepted packets of a tree get.

ghost use Rattle.std.specs.Prelude.{◌≡◌, ◌↔◌, ◌<◌, ℕ, IsTrue, List, length, All, IfOk};
ghost use Rattle.fws_net.specs.declared.outcome.Outcome.{Outcome};
ghost use Rattle.fws_tree.specs.Plain.{Plain};
ghost use Rattle.fws_tree.specs.Shared.{IsShared};
ghost use Rattle.fws_pf_put_nat.specs.Ends.{Tells, AreEnds, AreJoined, IsOutcome, TellOfKids};
ghost use Rattle.fws_pf_put_nat.specs.Translations.{end_of};
ghost use Rattle.fws_pf_put_nat.specs.declared.ends.Ends.{Ends};

use fws_net::{End, Outcome, Rewrite};
use fws_num::Memory;
use fws_tree::{Kid, Node};
use fws_tree_seen::{cut_nodes_part_values, leaf_nodes_are_leaves};
use std::alloc::Global;

/// The ends that the accepted packets of a tree get on a pass.
#[derive(Clone, Copy, Debug, PartialEq, Eq)]
pub enum Ends {
    /// No packet is accepted.
    Nothing,
    /// All get this end, or none.
    One(Option<End>),
    /// There are two that differ.
    Many,
}

// Whether both are the same end, or none.
fn is_same_end(a: Option<End>, b: Option<End>) -> bool
    ensures { IsTrue result ↔ (a ≡ b) }
{
    a == b
}

// The ends of both.
fn joined(a: Ends, b: Ends) -> Ends
    ensures { AreJoined a b result }
{
    match (a, b) {
        (Ends::Nothing, _) => b,
        (_, Ends::Nothing) => a,
        (Ends::One(x), Ends::One(y)) => { if is_same_end(x, y) { a } else { Ends::Many } }
        _ => Ends::Many,
    }
}

// The end that is written on a pass.
fn end_on(outward: bool, rewrite: Rewrite) -> Option<End>
    ensures { result ≡ end_of outward rewrite }
{
    if outward { rewrite.src } else { rewrite.dst }
}

// The ends of a leaf.
fn leaf_ends(outward: bool, outcome: Outcome) -> Ends
    ensures { Tells outward (IsOutcome outcome) result }
{
    match outcome {
        Outcome::Drop => Ends::Nothing,
        Outcome::Accept(rewrite) => Ends::One(end_on(outward, rewrite)),
    }
}

// The ends of kids, by those of all nodes before.
fn kid_ends(ends: &[Ends], kids: &[Kid]) -> Ends
    requires { All (λ kid. kid.node < length ends.now) kids.now }
    ensures { TellOfKids ends.now kids.now result }
{
    let mut all = Ends::Nothing;
    for kid in kids {
        all = joined(all, ends[kid.node as usize]);
    }
    all
}

/// The ends of each node. Fails if memory runs out.
pub(crate) fn ends_of(
    alloc: Global,
    outward: bool,
    leaves: &[Outcome],
    nodes: &[Node],
) -> Result<Vec<Ends>, Memory>
    requires { (tops : List ℕ) × (t : Plain Outcome) × IsShared tops t leaves.now nodes.now }
    ensures { IfOk result (λ ends. AreEnds outward leaves.now nodes.now ends.items) }
{
    leaf_nodes_are_leaves::<Outcome>();
    cut_nodes_part_values::<Outcome>();
    let mut ends = Vec::new(alloc);
    for node in nodes {
        let own = match node {
            Node::Leaf(n) => leaf_ends(outward, leaves[*n as usize]),
            Node::Cut(_, kids) => kid_ends(&ends, kids.as_slice()),
        };
        ends.push(own)?;
    }
    Ok(ends)
}
