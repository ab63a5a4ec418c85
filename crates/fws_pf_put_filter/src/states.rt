//! The states of nodes.

ghost use Rattle.std.specs.Prelude.{◌≡◌, ℕ, ◌<◌, true, Some, List, length, slice_get, All, IfOk, IfSome};
ghost use Rattle.fws_net.specs.declared.outcome.Outcome.{Outcome};
ghost use Rattle.fws_tree.specs.Nodes.{AreOrderedFrom};
ghost use Rattle.fws_tree.specs.declared.node.Kid.{Kid};
ghost use Rattle.fws_tree.specs.declared.node.Node.{Node};
ghost use Rattle.fws_pf_put_filter.specs.States.{state_at, AreStates};
ghost use Rattle.fws_pf_put_filter.specs.Stating.{stripped, AreStatesBefore, IsCutState, IsFound, IsLeafState, IsNext};

use fws_net::{Outcome, Rewrite};
use fws_num::{Items, Memory};
use fws_tree::{Kid, Leaf, Node};
use fws_tree_seen::kids_stand_before;
use std::alloc::Global;

/// A leaf that is its own state.
#[derive(Clone, Copy)]
pub struct OwnLeaf {
    /// The number of its node.
    pub node: u32,
    /// What becomes of its packets, without their destination.
    pub outcome: Outcome,
}

// The outcome without its destination.
fn strip(outcome: &Outcome) -> Outcome
    ensures { result ≡ stripped outcome.now }
{
    match outcome {
        Outcome::Drop => Outcome::Drop,
        Outcome::Accept(w) => Outcome::Accept(Rewrite {
            src: w.src,
            dst: None,
        }),
    }
}

// The node of a leaf with the outcome, if there is one.
fn find(own: &[OwnLeaf], outcome: &Outcome) -> Option<u32>
    ensures { IfSome result (λ n. IsFound own.now outcome.now n) }
{
    for leaf in own {
        if leaf.outcome.same(outcome) {
            return Some(leaf.node);
        }
    }
    None
}

// The state of a leaf. One that wasn't met before is noted.
fn leaf_state(own: &mut Vec<OwnLeaf>, outcome: &Outcome, k: u32) -> Result<u32, Memory>
    ensures { IfOk result (λ s. IsLeafState outcome.now k own.old.items own.new.items s) }
{
    let wanted = strip(outcome);
    match find(own.as_slice(), &wanted) {
        Some(n) => Ok(n),
        None => {
            own.push(OwnLeaf {
                node: k,
                outcome: wanted,
            })?;
            Ok(k)
        }
    }
}

// Whether all kids have the state.
fn have_state(states: &[u32], kids: &[Kid], state: u32) -> bool
    requires { All (λ kid. kid.node < length states.now) kids.now }
    ensures { result ≡ true → All (λ kid. state_at states.now kid.node ≡ state) kids.now }
{
    for kid in kids {
        let own = states[kid.node as usize];
        if own != state {
            return false;
        }
    }
    true
}

// The state of a cut.
fn cut_state(states: &[u32], kids: &[Kid], k: u32) -> u32
    requires { All (λ kid. kid.node < length states.now) kids.now }
    ensures { IsCutState states.now kids.now k result }
{
    if kids.is_empty() {
        return k;
    }
    let state = states[kids[0].node as usize];
    if have_state(states, kids, state) {
        return state;
    }
    k
}

// The state of the next node.
fn next_state(
    leaves: &[Outcome],
    states: &[u32],
    own: &mut Vec<OwnLeaf>,
    node: &Node,
    k: u32,
) -> Result<u32, Memory>
    requires named { (n : ℕ) → node.now ≡ Node.Leaf n → n < length leaves.now }
    requires known { (f : ℕ) (kids : List Kid) → node.now ≡ Node.Cut f kids → All (λ kid. kid.node < length states.now) kids }
    ensures { IfOk result (λ s. IsNext leaves.now states.now node.now k own.old.items own.new.items s) }
{
    match node {
        Node::Leaf(i) => leaf_state(own, &leaves[*i as usize], k),
        Node::Cut(_, kids) => Ok(cut_state(states, kids.as_slice(), k)),
    }
}

/// The states of nodes, each a node that stands no later and is its own state: that of a leaf is a leaf that drops too, or accepts
/// with the same source; that of a cut is the cut, or the one state of all its kids. Fails if memory runs out.
pub fn states_of(alloc: Global, leaves: &[Outcome], nodes: &[Node]) -> Result<Items<u32>, Memory>
    requires ordered { AreOrderedFrom 0 nodes.now }
    requires named { (k n : ℕ) → slice_get nodes.now k ≡ Some (Node.Leaf n) → n < length leaves.now }
    ensures { IfOk result (λ states. AreStates leaves.now nodes.now states) }
{
    kids_stand_before();
    if nodes.len() >= u32::MAX as usize {
        return Err(Memory);
    }
    let mut states = Items::new(alloc);
    let mut own = Vec::new(alloc);
    for k in 0..nodes.len() {
        let state = next_state(leaves, states.as_slice(), &mut own, &nodes[k], k as u32)?;
        states.put(state)?;
    }
    Ok(states)
}
