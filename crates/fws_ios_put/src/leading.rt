//! Entries whose packets are treated alike.

ghost use Rattle.std.specs.Prelude.{◌≡◌, ◌&&◌, ◌≤◌, ◌<◌, ◌+◌, true, length, List, IfOk};
ghost use Rattle.std.specs.List.{list_any};
ghost use Rattle.fws_iv.specs.Ivs.{has};
ghost use Rattle.fws_tree.specs.Plain.{branch};
ghost use Rattle.fws_ios_put.specs.Layout.{AreLeaders, MayLead};

use fws_num::{Items, Memory};
use fws_tree::{Kid, Node, Tree};
use fws_tree_seen::{cut_nodes_part_values, leaf_nodes_are_leaves};
use std::alloc::Global;

// Whether a kid has both values.
fn some_kid_has(kids: &[Kid], a: u8, b: u8) -> bool
    ensures { result ≡ list_any (λ kid. has kid.set a && has kid.set b) kids.now }
{
    kids.iter()
        .any(|kid| kid.set.has(a as u32) && kid.set.has(b as u32))
}

// Whether the tree has the same of both entries. It may answer no where it has.
fn has_same(tree: &Tree<bool>, a: u8, b: u8) -> bool
    ensures { result ≡ true → branch 0 tree.now.1 a ≡ branch 0 tree.now.1 b }
{
    leaf_nodes_are_leaves::<bool>();
    cut_nodes_part_values::<bool>();
    let shared = tree.shared();
    match &shared.nodes[shared.nodes.len() - 1] {
        Node::Leaf(_) => true,
        Node::Cut(f, kids) => {
            if *f != 0 {
                return true;
            }
            some_kid_has(kids.as_slice(), a, b)
        }
    }
}

// The first entry that is treated as this one, of those that lead and this one.
fn leader_of(new: &Tree<bool>, known: &Tree<bool>, leaders: &[u8], entry: u8) -> u8
    requires low { 1 ≤ entry }
    requires size { length leaders.now + 1 ≡ entry }
    ensures { MayLead new.now.1 known.now.1 leaders.now entry result }
{
    for i in 0..leaders.len() {
        let other = i as u8 + 1;
        if leaders[i] == other && has_same(new, other, entry) && has_same(known, other, entry) {
            return other;
        }
    }
    entry
}

/// The leaders of so many entries. Fails if memory runs out.
pub(crate) fn leaders_of(
    alloc: Global,
    new: &Tree<bool>,
    known: &Tree<bool>,
    most: u8,
) -> Result<Items<u8>, Memory>
    requires { most ≤ 63 }
    ensures { IfOk result (λ leaders. AreLeaders new.now.1 known.now.1 most leaders) }
{
    let mut leaders = Items::new(alloc);
    for i in 0..most {
        let leader = leader_of(new, known, leaders.as_slice(), i + 1);
        leaders.put(leader)?;
    }
    Ok(leaders)
}
