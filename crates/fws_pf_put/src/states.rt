//! The translations of sources for all states.

ghost use Rattle.std.specs.Prelude.{◌≡◌, [], false, nat_eq, slice_get, OnOk};
ghost use Rattle.std.specs.Option.{option_map_or};
ghost use Rattle.fws_pf.specs.declared.config.PfNat.{PfNat};
ghost use Rattle.fws_pf_put.specs.Gathered.{leaf_rewrite, rewrite_at, rewrite_of};
ghost use Rattle.fws_print.specs.Appended.{Appends};
ghost use Rattle.fws_pf_put.specs.Grounds.{AreStateSources, IsSourceOf};

use crate::ends::Sources;
use crate::sources::put_source;
use fws_net::{Outcome, Rewrite};
use fws_num::{Items, Memory};
use fws_pf::PfNat;
use fws_tree::Node;
use std::alloc::Global;

/// What an outcome writes, if it accepts packets.
fn rewrite_of(outcome: Outcome) -> Option<Rewrite>
    ensures { result ≡ rewrite_of outcome }
{
    match outcome {
        Outcome::Drop => None,
        Outcome::Accept(rewrite) => Some(rewrite),
    }
}

/// What a node writes that is a leaf and accepts packets.
fn leaf_rewrite(leaves: &[Outcome], node: &Node) -> Option<Rewrite>
    ensures { result ≡ leaf_rewrite leaves.now node.now }
{
    match node {
        Node::Leaf(n) => match leaves.get(*n as usize) {
            Some(outcome) => rewrite_of(*outcome),
            None => None,
        },
        Node::Cut { .. } => None,
    }
}

/// Whether the node with this number is a state.
fn is_state(states: &[u32], k: usize) -> bool
    ensures { result ≡ option_map_or (nat_eq k) (slice_get states.now k) false }
{
    match states.get(k) {
        Some(state) => k == *state as usize,
        None => false,
    }
}

/// What the accepting leaf writes that is the state with this number, if one is.
fn rewrite_at(leaves: &[Outcome], nodes: &[Node], states: &[u32], k: usize) -> Option<Rewrite>
    ensures { result ≡ rewrite_at leaves.now nodes.now states.now k }
{
    if !is_state(states, k) {
        return None;
    }
    match nodes.get(k) {
        Some(node) => leaf_rewrite(leaves, node),
        None => None,
    }
}

/// Puts the translations for the source of packets with the tag, if packets with it are accepted. Fails if memory runs out.
fn put_state(
    alloc: Global,
    nats: &mut Items<PfNat>,
    tag: u32,
    rewrite: Option<Rewrite>,
    sources: &Sources,
) -> Result<(), Memory>
    ensures { OnOk result (Appends nats.old nats.new (IsSourceOf sources.now tag rewrite)) }
{
    match rewrite {
        None => Ok(()),
        Some(rewrite) => put_source(alloc, nats, tag, rewrite.src, sources),
    }
}

/// Puts the translations for the sources of all accepting states. Fails if memory runs out, as is a node past 4,000,000,000.
pub(crate) fn put_sources(
    alloc: Global,
    nats: &mut Items<PfNat>,
    leaves: &[Outcome],
    nodes: &[Node],
    states: &[u32],
    sources: &Sources,
) -> Result<(), Memory>
    ensures { OnOk result (Appends nats.old nats.new (AreStateSources leaves.now nodes.now states.now sources.now)) }
{
    if nodes.len() > 4_000_000_000 {
        return Err(Memory);
    }
    for k in 0..nodes.len() {
        let rewrite = rewrite_at(leaves, nodes, states, k);
        put_state(alloc, nats, k as u32, rewrite, sources)?;
    }
    Ok(())
}
