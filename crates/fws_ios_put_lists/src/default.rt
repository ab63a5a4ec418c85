//! The kid that is left to the end.

ghost use Rattle.std.specs.Prelude.{◌≡◌, ◌<◌, ◌↔◌, Some, All, length, IfOk, IfSome, IsTrue};
ghost use Rattle.fws_ios_put_lists.specs.Blocks.{below, IsPlanned};
ghost use Rattle.fws_ios_put_lists.specs.Turns.{IsKidNode};
ghost use Rattle.fws_tree.specs.Plain.{leaf};
ghost use Rattle.fws_ios_put_lists.specs.Sheets.{scene_of};

use crate::sheet::Sheet;
use crate::sizes::{kid_size, size_at};
use fws_ios_put_entries::Side;
use fws_num::Memory;
use fws_tree::{Kid, Node};
use fws_tree_seen::leaf_nodes_are_leaves;
use std::alloc::Global;

/// Whether packets fall to the value.
pub(crate) fn fall_to(falls: Option<bool>, permit: bool) -> bool
    ensures { IsTrue result ↔ (falls ≡ Some permit) }
{
    match falls {
        Some(value) => value == permit,
        None => false,
    }
}

/// The value of a node that is a leaf.
pub(crate) fn leaf_at(sheet: &Sheet<'_>, node: u32) -> Option<bool>
    requires planned { IsPlanned (scene_of sheet.now) }
    requires inside { node < length sheet.now.nodes.now }
    ensures { IfSome result (λ b. below (scene_of sheet.now) node ≡ leaf b) }
{
    leaf_nodes_are_leaves::<bool>();
    match &sheet.nodes[node as usize] {
        Node::Leaf(n) => Some(sheet.leaves[*n as usize]),
        Node::Cut(_, _) => None,
    }
}

// How many entries a kid takes that is left to the end.
fn last_size(sheet: &Sheet<'_>, node: u32, falls: Option<bool>) -> usize
    requires planned { IsPlanned (scene_of sheet.now) }
    requires inside { node < length sheet.now.nodes.now }
{
    match leaf_at(sheet, node) {
        Some(value) => { if fall_to(falls, value) { 0 } else { 1 } }
        None => size_at(sheet.sizes, node),
    }
}

/// The node of the first kid of those that save most entries where they are left to the end. Fails if memory runs out.
pub(crate) fn dearest(
    alloc: Global,
    sheet: &Sheet<'_>,
    side: Side,
    kids: &[Kid],
    falls: Option<bool>,
) -> Result<u32, Memory>
    requires planned { IsPlanned (scene_of sheet.now) }
    requires inside { All (λ kid. kid.node < length sheet.now.nodes.now) kids.now }
    requires some { 0 < length kids.now }
    ensures { IfOk result (IsKidNode kids.now) }
{
    let mut best = 0;
    let mut most = 0;
    for (i, kid) in kids.iter().enumerate() {
        let asked = kid_size(alloc, sheet.sizes, side, kid)?;
        let saved = asked.saturating_sub(last_size(sheet, kid.node, falls));
        if saved > most {
            best = i;
            most = saved;
        }
    }
    Ok(kids[best].node)
}
