//! The turns of a cut.

ghost use Rattle.std.specs.Prelude.{◌≡◌, ◌≤◌, ◌<◌, ◌++◌, ℕ, true, Some, length, slice_get, slice_index, All, IfOk, OnOk};
ghost use Rattle.fws_pf_put_nat.specs.Scenes.{IsPlanned};
ghost use Rattle.fws_pf_put_nat.specs.Turns.{last_turns, turns_to, AreKidTests, AreTests, AreTurns};
ghost use Rattle.fws_pf_put_nat.specs.Paths.{number_of, IsGoodPath};
ghost use Rattle.fws_pf_put_nat.specs.declared.turn.Turn.{Turn};
ghost use Rattle.fws_iv.specs.Ivs.{has};
ghost use Rattle.fws_tree_seen.specs.Cuts.{IsCutNode};
ghost use Rattle.fws_tree.specs.declared.node.Node.{Node};
ghost use Rattle.fws_print.specs.Appended.{Appends};
ghost use Rattle.fws_pf_put_nat.specs.Sheets.{scene_of};

use crate::default::{is_left, last_of, passes};
use crate::narrowing::set_paths;
use crate::path::Path;
use crate::sheet::Sheet;
use crate::side::Side;
use crate::turn::{Last, Turn};
use fws_net::Outcome;
use fws_num::{Items, Memory};
use fws_tree::Kid;
use fws_tree_seen::{cut_nodes_part_values, leaf_nodes_are_leaves, reached_values_are_told};
use std::alloc::Global;

// Appends a turn to the node on each path.
fn put_paths(
    turns: &mut Items<Turn>,
    paths: Items<Path>,
    node: u32,
    falls: bool,
) -> Result<(), Memory>
    ensures { OnOk result (turns.new ≡ turns.old ++ turns_to node falls paths) }
{
    for path in paths.into_vec() {
        turns.put(Turn { path, node, falls })?;
    }
    Ok(())
}

// Appends the turns for the set of a kid, unless it is left.
fn put_kid(
    alloc: Global,
    turns: &mut Items<Turn>,
    sheet: &Sheet<'_>,
    side: Side,
    kid: &Kid,
    path: Path,
    last: Last,
) -> Result<(), Memory>
    requires planned { IsPlanned (scene_of sheet.now) }
    requires few { length sheet.now.site.now.faces ≤ 62 }
    requires good { IsGoodPath sheet.now.site.now sheet.now.outward (number_of side) path }
    requires inward { sheet.now.outward ≡ true → 1 ≤ number_of side }
    requires within { (v : ℕ) → has kid.now.set v ≡ true → v ≤ slice_index sheet.now.tree.now.0 (number_of side) }
    requires known { kid.now.node < length sheet.now.ends.now }
    ensures { OnOk result (Appends turns.old turns.new (AreKidTests (scene_of sheet.now) side kid.now path last)) }
{
    if is_left(sheet, last, kid.node) {
        return Ok(());
    }
    let paths = set_paths(alloc, sheet, side, &kid.set, path)?;
    put_paths(turns, paths, kid.node, passes(last))?;
    Ok(())
}

// Appends the turns for the sets of the kids that aren't left.
fn put_kids(
    alloc: Global,
    turns: &mut Items<Turn>,
    sheet: &Sheet<'_>,
    side: Side,
    kids: &[Kid],
    path: Path,
    last: Last,
) -> Result<(), Memory>
    requires planned { IsPlanned (scene_of sheet.now) }
    requires few { length sheet.now.site.now.faces ≤ 62 }
    requires good { IsGoodPath sheet.now.site.now sheet.now.outward (number_of side) path }
    requires inward { sheet.now.outward ≡ true → 1 ≤ number_of side }
    requires within { All (λ kid. (v : ℕ) → has kid.set v ≡ true → v ≤ slice_index sheet.now.tree.now.0 (number_of side)) kids.now }
    requires known { All (λ kid. kid.node < length sheet.now.ends.now) kids.now }
    ensures { OnOk result (Appends turns.old turns.new (AreTests (scene_of sheet.now) side kids.now path last (length kids.now))) }
{
    for kid in kids {
        put_kid(alloc, turns, sheet, side, kid, path, last)?;
    }
    Ok(())
}

// Appends the turn of all that no test takes.
fn put_last(turns: &mut Items<Turn>, last: Last, path: Path, falls: bool) -> Result<(), Memory>
    ensures { OnOk result (turns.new ≡ turns.old ++ last_turns last path falls) }
{
    match last {
        Last::Root(node) => turns.put(Turn { path, node, falls })?,
        Last::Kept(node) => turns.put(Turn { path, node, falls })?,
        Last::Nothing => {}
    }
    Ok(())
}

/// The turns of a node that cuts the field into the sets of kids, for packets on the path: those for the sets of all kids but some,
/// and last one for all that no test takes. Fails if memory runs out.
pub(crate) fn cut_turns(
    alloc: Global,
    sheet: &Sheet<'_>,
    at: usize,
    side: Side,
    kids: &[Kid],
    path: Path,
    falls: bool,
) -> Result<Items<Turn>, Memory>
    requires planned { IsPlanned (scene_of sheet.now) }
    requires few { length sheet.now.site.now.faces ≤ 62 }
    requires inside { at < length sheet.now.nodes.now }
    requires cut { slice_get sheet.now.nodes.now at ≡ Some (Node.Cut (number_of side) kids.now) }
    requires node { IsCutNode sheet.now.tree.now.0 sheet.now.leaves.now sheet.now.nodes.now at (number_of side) kids.now }
    requires good { IsGoodPath sheet.now.site.now sheet.now.outward (number_of side) path }
    requires inward { sheet.now.outward ≡ true → 1 ≤ number_of side }
    ensures { IfOk result (λ turns. AreTurns (scene_of sheet.now) at path falls turns) }
{
    leaf_nodes_are_leaves::<Outcome>();
    cut_nodes_part_values::<Outcome>();
    reached_values_are_told::<Outcome>();
    let last = last_of(sheet, side, kids);
    let mut turns = Items::new(alloc);
    put_kids(alloc, &mut turns, sheet, side, kids, path, last)?;
    put_last(&mut turns, last, path, falls)?;
    Ok(turns)
}
