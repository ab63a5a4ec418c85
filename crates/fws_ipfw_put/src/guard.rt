//! The rules ahead of the look-up of connections.

ghost use Rattle.std.specs.Prelude.{◌≡◌, ◌≤◌, ◌<◌, ◌-◌, ◌^◌, ◌||◌, ℕ, true, not, List, Some, length, slice_get, IfOk, OnOk};
ghost use Rattle.fws_box.specs.Sides.{IsWithin, sides_have};
ghost use Rattle.fws_iv.specs.Ivs.{has};
ghost use Rattle.fws_net.specs.Points.{tops_of};
ghost use Rattle.fws_net.specs.Routes.{IsSound, is_local};
ghost use Rattle.fws_ipfw.specs.declared.config.IpfwRule.{IpfwRule};
ghost use Rattle.fws_tree_seen.specs.Shown.{IsTold};
ghost use Rattle.fws_tree_seen.specs.declared.seen.Seen.TheVariants.{Entered, Routed};
ghost use Rattle.fws_tree.specs.Plain.{leaf, value};
ghost use Rattle.fws_tree.specs.Shared.{subtree_of};
ghost use Rattle.fws_ipfw_put.specs.Guards.{IsFullGuard, IsGuard, IsImageList, IsMet, is_unmet};
ghost use Rattle.fws_ipfw_put.specs.Layout.{passing};
ghost use Rattle.fws_print.specs.Appended.{Appends};

use crate::choices::Passing;
use crate::rules::put_leaving;
use crate::sections::{KNOWN_ARRIVING, KNOWN_FORWARDED, KNOWN_SENT};
use fws_box::{Field, whole_sides};
use fws_ipfw::IpfwRule;
use fws_ipfw_put_rules::{Choice, Section, put_rules};
use fws_iv::{Ivs, one};
use fws_net::{Site, local_set, tops};
use fws_num::{Items, Memory};
use fws_tree::{Node, Tree};
use fws_tree_seen::relabelled_trees_are_told;
use std::alloc::Global;

/// The destinations for which an arriving packet makes no out pass. Fails if memory runs out.
fn unmet_destinations(alloc: Global, site: &Site) -> Result<Ivs, Memory>
    ensures { IfOk result (λ set. (a : ℕ) → a ≤ 2 ^ 32 - 1 → has set a ≡ (is_local site.now a || not site.now.forwarding)) }
{
    if site.forwarding {
        local_set(alloc, site)
    } else {
        one(alloc, 0, u32::MAX)
    }
}

/// The sides of the pairs that arrive and make no out pass. Fails if memory runs out.
fn unmet_sides(alloc: Global, site: &Site) -> Result<[Ivs; 12], Memory>
    requires { IsSound site.now }
    ensures { IfOk result (λ sides. (x : List ℕ) → IsWithin (tops_of site.now) x → sides_have sides x ≡ is_unmet site.now x) }
{
    let tops = tops(site);
    let mut sides = whole_sides(alloc, &tops)?;
    sides[Field::Entry as usize] = one(alloc, 1, tops[Field::Entry as usize])?;
    sides[Field::SentDst as usize] = unmet_destinations(alloc, site)?;
    Ok(sides)
}

/// The tree that is true at pairs that arrive and make no out pass, and this tree elsewhere. Fails if memory runs out.
pub(crate) fn met(alloc: Global, site: &Site, tree: &Tree<bool>) -> Result<Tree<bool>, Memory>
    requires sound { IsSound site.now }
    requires tops { tree.now.0 ≡ tops_of site.now }
    ensures tops { IfOk result (λ t. t.0 ≡ tops_of site.now) }
    ensures met { IfOk result (λ t. IsMet site.now tree.now.1 t.1) }
{
    let sides = unmet_sides(alloc, site)?;
    tree.paint(alloc, &sides, true)
}

/// Whether the leaf at a place is true.
fn is_true_leaf(leaves: &[bool], place: usize) -> bool
    ensures { result ≡ true → slice_get leaves.now place ≡ Some true }
{
    match leaves.get(place) {
        Some(leaf) => *leaf,
        None => false,
    }
}

/// Whether one leaf, and a true one, is the whole tree of the nodes.
fn is_true_root(leaves: &[bool], nodes: &[Node]) -> bool
    ensures { result ≡ true → subtree_of leaves.now nodes.now (length nodes.now - 1) ≡ leaf true }
{
    match nodes {
        [Node::Leaf(place)] => is_true_leaf(leaves, *place as usize),
        _ => false,
    }
}

/// Whether the tree is true at each point.
fn is_true_everywhere(tree: &Tree<bool>) -> bool
    ensures { result ≡ true → (x : List ℕ) → value tree.now.1 x ≡ Some true }
{
    let shared = tree.shared();
    is_true_root(shared.leaves, shared.nodes)
}

/// Puts the list of a section that lets pass what a tree holds true. Fails if memory runs out.
fn put_passing(
    alloc: Global,
    rules: &mut Items<IpfwRule>,
    site: &Site,
    tree: &Tree<bool>,
    section: &Section,
) -> Result<(), Memory>
    requires sound { IsSound site.now }
    requires tops { tree.now.0 ≡ tops_of site.now }
    requires told { IsTold section.now.seen (tops_of site.now) tree.now.1 }
    requires positive { 0 < section.now.number }
    requires ahead { section.now.number < 5000 }
    ensures { OnOk result (Appends rules.old rules.new (IsImageList site.now section.now passing tree.now.1)) }
{
    relabelled_trees_are_told::<bool, Choice>();
    let choices = tree.relabel(alloc, &Passing)?;
    put_rules(alloc, rules, site, &choices, section)?;
    Ok(())
}

/// Puts the lists that drop packets of connections. Fails if memory runs out.
fn put_full(
    alloc: Global,
    rules: &mut Items<IpfwRule>,
    site: &Site,
    packet: &Tree<bool>,
    behind: &Tree<bool>,
) -> Result<(), Memory>
    requires sound { IsSound site.now }
    requires packet_tops { packet.now.0 ≡ tops_of site.now }
    requires behind_tops { behind.now.0 ≡ tops_of site.now }
    requires packet_told { IsTold Entered (tops_of site.now) packet.now.1 }
    requires behind_told { IsTold Routed (tops_of site.now) behind.now.1 }
    ensures { OnOk result (Appends rules.old rules.new (IsFullGuard site.now packet.now.1 behind.now.1)) }
{
    put_passing(alloc, rules, site, packet, &KNOWN_ARRIVING)?;
    put_leaving(alloc, rules, site)?;
    put_passing(alloc, rules, site, behind, &KNOWN_FORWARDED)?;
    put_passing(alloc, rules, site, behind, &KNOWN_SENT)?;
    Ok(())
}

/// Whether both trees are true at each point.
fn are_true_everywhere(packet: &Tree<bool>, behind: &Tree<bool>) -> bool
    ensures packet { result ≡ true → (x : List ℕ) → value packet.now.1 x ≡ Some true }
    ensures behind { result ≡ true → (x : List ℕ) → value behind.now.1 x ≡ Some true }
{
    is_true_everywhere(packet) && is_true_everywhere(behind)
}

/// Puts the lists that drop packets of connections, if any are dropped. Fails if memory runs out.
pub(crate) fn put_guard(
    alloc: Global,
    rules: &mut Items<IpfwRule>,
    site: &Site,
    packet: &Tree<bool>,
    behind: &Tree<bool>,
) -> Result<(), Memory>
    requires sound { IsSound site.now }
    requires packet_tops { packet.now.0 ≡ tops_of site.now }
    requires behind_tops { behind.now.0 ≡ tops_of site.now }
    requires packet_told { IsTold Entered (tops_of site.now) packet.now.1 }
    requires behind_told { IsTold Routed (tops_of site.now) behind.now.1 }
    ensures { OnOk result (Appends rules.old rules.new (IsGuard site.now packet.now.1 behind.now.1)) }
{
    if are_true_everywhere(packet, behind) {
        return Ok(());
    }
    put_full(alloc, rules, site, packet, behind)?;
    Ok(())
}
