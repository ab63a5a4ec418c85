//! Which of TCP and UDP come to each node of a tree.

ghost use Rattle.std.specs.Prelude.{◌≡◌, ℕ, ◌+◌, ◌≤◌, ◌<◌, length, All, IfOk, vec_len};
ghost use Rattle.std.specs.List.{AllByRecursion};
ghost use Rattle.fws_tree.specs.Nodes.{AreOrderedFrom};
ghost use Rattle.fws_ipt_put_chains.specs.Comings.{both, narrowed, coming_at, IsCovered, Flows, AreComings};

use fws_iv::Ivs;
use fws_num::Memory;
use fws_tree::{Kid, Node};
use fws_tree_seen::kids_stand_before;
use std::alloc::Global;

/// Which protocols with ports come to a node.
#[derive(Clone, Copy, Debug, PartialEq, Eq)]
pub struct Coming {
    /// Whether TCP may come.
    pub tcp: bool,
    /// Whether UDP may come.
    pub udp: bool,
}

const PROTO: u8 = 1;

const TCP: u32 = 6;

const UDP: u32 = 17;

// What comes to a kid with this set, where the field is cut.
fn narrow(f: u8, set: &Ivs, coming: Coming) -> Coming
    ensures { result ≡ narrowed f set.now coming }
{
    if f != PROTO {
        return coming;
    }
    Coming {
        tcp: coming.tcp && set.has(TCP),
        udp: coming.udp && set.has(UDP),
    }
}

// What is in either.
fn join(a: Coming, b: Coming) -> Coming
    ensures first { IsCovered a result }
    ensures second { IsCovered b result }
{
    Coming {
        tcp: a.tcp || b.tcp,
        udp: a.udp || b.udp,
    }
}

// Lets what comes to a node flow to its kids, which are nodes with smaller numbers.
fn flow(comings: &mut Vec<Coming>, at: usize, f: u8, kids: &[Kid])
    requires inside { at < vec_len comings.old }
    requires below { AllByRecursion (λ kid. kid.node < at) kids.now }
    ensures size { vec_len comings.new ≡ vec_len comings.old }
    ensures later { (k : ℕ) → at ≤ k → coming_at comings.new.items k ≡ coming_at comings.old.items k }
    ensures grows { (k : ℕ) → IsCovered (coming_at comings.old.items k) (coming_at comings.new.items k) }
    ensures flows { All (λ kid. IsCovered (narrowed f kid.set (coming_at comings.old.items at)) (coming_at comings.new.items kid.node)) kids.now }
{
    let here = comings[at];
    for kid in kids {
        let k = kid.node as usize;
        let more = narrow(f, &kid.set, here);
        comings[k] = join(comings[k], more);
    }
}

// The same for any node.
fn flow_on(comings: &mut Vec<Coming>, nodes: &[Node], at: usize)
    requires ordered { AreOrderedFrom 0 nodes.now }
    requires size { vec_len comings.old ≡ length nodes.now }
    requires inside { at < length nodes.now }
    ensures size { vec_len comings.new ≡ vec_len comings.old }
    ensures later { (k : ℕ) → at ≤ k → coming_at comings.new.items k ≡ coming_at comings.old.items k }
    ensures grows { (k : ℕ) → IsCovered (coming_at comings.old.items k) (coming_at comings.new.items k) }
    ensures flows { Flows nodes.now comings.new.items at }
{
    kids_stand_before();
    match &nodes[at] {
        Node::Leaf(_) => {}
        Node::Cut(f, kids) => flow(comings, at, *f, kids.as_slice()),
    }
}

// Both for the last of so many nodes, and nothing yet for the others.
fn first_comings(alloc: Global, nodes: &[Node]) -> Result<Vec<Coming>, Memory>
    ensures size { IfOk result (λ comings. length comings.items ≡ length nodes.now) }
    ensures last { IfOk result (λ comings. (k : ℕ) → length nodes.now ≡ k + 1 → IsCovered both (coming_at comings.items k)) }
{
    let mut comings = Vec::new(alloc);
    for i in 0..nodes.len() {
        let is_last = i + 1 == nodes.len();
        comings.push(Coming {
            tcp: is_last,
            udp: is_last,
        })?;
    }
    Ok(comings)
}

/// What comes to each node: both to the last one, and to a kid what comes to nodes of which it is a kid
/// and what the sets between let through.
pub(crate) fn comings(alloc: Global, nodes: &[Node]) -> Result<Vec<Coming>, Memory>
    requires ordered { AreOrderedFrom 0 nodes.now }
    ensures { IfOk result (λ comings. AreComings nodes.now comings.items) }
{
    let mut comings = first_comings(alloc, nodes)?;
    let mut k = nodes.len();
    while k > 0 {
        k -= 1;
        flow_on(&mut comings, nodes, k);
    }
    Ok(comings)
}
