//! The turns of a cut.

ghost use Rattle.std.specs.Prelude.{◌≡◌, ◌⊎◌, ◌<◌, ◌≤◌, ◌++◌, ℕ, true, Some, length, slice_get, All, IfOk, OnOk};
ghost use Rattle.fws_ios_put_lists.specs.Blocks.{IsGoodPath, IsPathTo, IsPlanned};
ghost use Rattle.fws_ios_put_lists.specs.Turns.{turns_to, AreKidTests, AreTests, AreTurns};
ghost use Rattle.fws_ios_put_lists.specs.declared.turn.Turn.{Turn};
ghost use Rattle.fws_ios_put_entries.specs.Paths.{number_of, top_of};
ghost use Rattle.fws_iv.specs.Ivs.{has};
ghost use Rattle.fws_tree_seen.specs.Cuts.{IsCutNode};
ghost use Rattle.fws_tree.specs.declared.node.Node.{Node};
ghost use Rattle.fws_print.specs.Appended.{Appends};
ghost use Rattle.fws_ios_put_lists.specs.Sheets.{scene_of};

use crate::default::{dearest, leaf_at};
use crate::sheet::Sheet;
use crate::turn::Turn;
use fws_ios_put_entries::{Path, Side, narrowed, side_at};
use fws_num::{Items, Memory};
use fws_tree::Kid;
use fws_tree_seen::{cut_nodes_part_values, leaf_nodes_are_leaves};
use std::alloc::Global;

// Appends a turn to the node on each path.
fn put_paths(
    turns: &mut Items<Turn>,
    paths: Items<Path>,
    node: u32,
    falls: Option<bool>,
) -> Result<(), Memory>
    ensures { OnOk result (turns.new ≡ turns.old ++ turns_to node falls paths) }
{
    for path in paths.into_vec() {
        turns.put(Turn { path, node, falls })?;
    }
    Ok(())
}

// Appends the turns for the set of a kid, unless its node is left to the end.
fn put_kid(
    alloc: Global,
    turns: &mut Items<Turn>,
    side: Side,
    kid: &Kid,
    path: Path,
    last: u32,
    falls: Option<bool>,
) -> Result<(), Memory>
    requires good { IsGoodPath (number_of side) path }
    requires within { (v : ℕ) → has kid.now.set v ≡ true → v ≤ top_of side }
    ensures { OnOk result (Appends turns.old turns.new (AreKidTests side kid.now path last falls)) }
{
    if last == kid.node {
        return Ok(());
    }
    let paths = narrowed(alloc, path, side, &kid.set)?;
    put_paths(turns, paths, kid.node, falls)?;
    Ok(())
}

// Appends the turns for the sets of the kids whose nodes aren't left to the end.
fn put_kids(
    alloc: Global,
    turns: &mut Items<Turn>,
    side: Side,
    kids: &[Kid],
    path: Path,
    last: u32,
    falls: Option<bool>,
) -> Result<(), Memory>
    requires good { IsGoodPath (number_of side) path }
    requires within { All (λ kid. (v : ℕ) → has kid.set v ≡ true → v ≤ top_of side) kids.now }
    ensures { OnOk result (Appends turns.old turns.new (AreTests side kids.now path last falls (length kids.now))) }
{
    for kid in kids {
        put_kid(alloc, turns, side, kid, path, last, falls)?;
    }
    Ok(())
}

// The turns of a node that cuts a field for which entries ask: those for the sets of all kids but one, and at the end one for all
// that no set before takes. Fails if memory runs out.
fn asked_turns(
    alloc: Global,
    sheet: &Sheet<'_>,
    at: usize,
    side: Side,
    kids: &[Kid],
    path: Path,
    falls: Option<bool>,
) -> Result<Items<Turn>, Memory>
    requires planned { IsPlanned (scene_of sheet.now) }
    requires inside { at < length sheet.now.nodes.now }
    requires cut { slice_get sheet.now.nodes.now at ≡ Some (Node.Cut (number_of side) kids.now) }
    requires node { IsCutNode sheet.now.tree.now.0 sheet.now.leaves.now sheet.now.nodes.now at (number_of side) kids.now }
    requires good { IsGoodPath (number_of side) path }
    ensures { IfOk result (AreTurns (scene_of sheet.now) at path falls) }
{
    leaf_nodes_are_leaves::<bool>();
    cut_nodes_part_values::<bool>();
    let last = dearest(alloc, sheet, side, kids, falls)?;
    let mut turns = Items::new(alloc);
    put_kids(
        alloc,
        &mut turns,
        side,
        kids,
        path,
        last,
        leaf_at(sheet, last),
    )?;
    turns.put(Turn {
        path,
        node: last,
        falls,
    })?;
    Ok(turns)
}

// The turn of a node that cuts a field for which entries don't ask: all kids give packets the same. Fails if memory runs out.
fn other_turns(
    alloc: Global,
    sheet: &Sheet<'_>,
    at: usize,
    f: u8,
    kids: &[Kid],
    path: Path,
    falls: Option<bool>,
) -> Result<Items<Turn>, Memory>
    requires planned { IsPlanned (scene_of sheet.now) }
    requires inside { at < length sheet.now.nodes.now }
    requires cut { slice_get sheet.now.nodes.now at ≡ Some (Node.Cut f kids.now) }
    requires node { IsCutNode sheet.now.tree.now.0 sheet.now.leaves.now sheet.now.nodes.now at f kids.now }
    requires good { IsPathTo (scene_of sheet.now) at path }
    requires other { (f ≡ 0) ⊎ (f ≡ 6) ⊎ (8 ≤ f) }
    ensures { IfOk result (AreTurns (scene_of sheet.now) at path falls) }
{
    leaf_nodes_are_leaves::<bool>();
    cut_nodes_part_values::<bool>();
    let mut turns = Items::new(alloc);
    turns.put(Turn {
        path,
        node: kids[0].node,
        falls,
    })?;
    Ok(turns)
}

/// The turns of a node that cuts a field into the sets of kids, for packets on the path. Fails if memory runs out.
pub(crate) fn cut_turns(
    alloc: Global,
    sheet: &Sheet<'_>,
    at: usize,
    f: u8,
    kids: &[Kid],
    path: Path,
    falls: Option<bool>,
) -> Result<Items<Turn>, Memory>
    requires planned { IsPlanned (scene_of sheet.now) }
    requires inside { at < length sheet.now.nodes.now }
    requires cut { slice_get sheet.now.nodes.now at ≡ Some (Node.Cut f kids.now) }
    requires node { IsCutNode sheet.now.tree.now.0 sheet.now.leaves.now sheet.now.nodes.now at f kids.now }
    requires good { IsPathTo (scene_of sheet.now) at path }
    ensures { IfOk result (AreTurns (scene_of sheet.now) at path falls) }
{
    match side_at(f) {
        Some(side) => asked_turns(alloc, sheet, at, side, kids, path, falls),
        None => other_turns(alloc, sheet, at, f, kids, path, falls),
    }
}
