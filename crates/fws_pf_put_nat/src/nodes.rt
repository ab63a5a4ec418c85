//! The translations of nodes.
//!
//! The idea: of a list of translations the first that matches decides, and it doesn't go on to another list. So the tree is
//! unfolded along its paths, as it is for ipfw. What differs is what has to be told apart: on the in pass only the destinations
//! that are written, and on the out pass only the sources. Each node therefore has its ends (`ends`): none, one (or that none is
//! written), or many, found in one pass from the first node to the last.
//!
//! Where the ends of a node are settled, the path needs no further test: all packets on it that are accepted get this end, and
//! one that is dropped may be translated, too, since the filter drops it whatever is written. So a tree of thousands of nodes
//! that writes one end is one translation. Where there are many, the node is unfolded: at each turn a kid's set narrows the path
//! (`narrowing`), and the kid that would take most translations comes last without a test (`default`).
//!
//! Packets that get no end need a translation only where a later one could match them: a `no` translation ends their search.
//! `falls` says that they may fall to what stands behind: it is true at the root, and for the last turn of a cut, and false for
//! the turns before it.
//!
//! What holds: the translations of a node on a path match no packet that isn't on the path. A packet on it that comes to the
//! node is led by the first that matches: to its end and to the tag of the node's state, from which the filter goes on; or it
//! passes them all, if it gets no end and may fall.
//!
//! An end that keeps a part of the address is written once for each block of addresses that the path meets, and a port under TCP
//! and UDP alone (`writings`).
//!
//! The cost: a translation for each path down to where ends are settled, times the pieces of the sets on it.

ghost use Rattle.std.specs.Prelude.{◌≡◌, ◌≤◌, ◌<◌, ◌++◌, [], true, Some, length, OnOk, slice_get, slice_index, MatchOption, IsTrue};
ghost use Rattle.fws_net.specs.declared.site.Site.{Site};
ghost use Rattle.fws_pf.specs.declared.config.PfNat.{PfNat};
ghost use Rattle.fws_tree.specs.declared.node.Node.{Node};
ghost use Rattle.fws_pf_put_nat.specs.Scenes.{CutsFrom, IsPlanned};
ghost use Rattle.fws_pf_put_nat.specs.Turns.{IsPathTo};
ghost use Rattle.fws_pf_put_nat.specs.Blocks.{AreNodeRules, root_nats};
ghost use Rattle.fws_pf_put_nat.specs.Ends.{IsRoot, IsSettledAt};
ghost use Rattle.fws_pf_put_nat.specs.Paths.{number_of};
ghost use Rattle.fws_pf_put_nat.specs.Writings.{IsPrintedPath, EndHasRoom};
ghost use Rattle.fws_pf_put_nat.specs.declared.ends.Ends.{Ends};
ghost use Rattle.fws_pf_put_nat.specs.declared.path.Path.{Path};
ghost use Rattle.fws_print.specs.Appended.{Appends};
ghost use Rattle.fws_pf_put_nat.specs.Sheets.{scene_of, IsSettledNode, PutsEnd};

use crate::ends::Ends;
use crate::path::Path;
use crate::rules::{put_rule, put_rules};
use crate::sheet::Sheet;
use crate::side::{Side, side_at};
use crate::turns::cut_turns;
use crate::writings::end_paths;
use fws_net::{End, Outcome};
use fws_num::{Items, Memory};
use fws_pf::PfNat;
use fws_tree::Node;
use fws_tree_seen::{cut_nodes_part_values, leaf_nodes_are_leaves, reached_values_are_told};
use std::alloc::Global;

// Whether the ends at a cut of this field are settled: there are none, there is one and what it is written over isn't cut,
// or translations don't test the field, with which no end changes.
fn is_settled(outward: bool, f: u8, ends: Ends) -> bool
    ensures yes { IsTrue result → IsSettledAt outward f ends }
    ensures root { IsRoot ends → IsTrue result }
{
    match ends {
        Ends::Nothing => true,
        Ends::One(None) => true,
        Ends::One(Some(_)) => f >= if outward { 5 } else { 4 },
        Ends::Many => f >= 6,
    }
}

// The field by whose values packets go on at a cut, unless the ends are settled there.
fn open_side(outward: bool, f: u8, ends: Ends) -> Option<Side>
    ensures { MatchOption result (IsSettledAt outward f ends) (λ side. (number_of side ≡ f) × (IsRoot ends → ⊥)) }
{
    if is_settled(outward, f, ends) {
        return None;
    }
    side_at(f)
}

// Appends the translations that write an end over packets on a path.
fn put_end(
    alloc: Global,
    rules: &mut Items<PfNat>,
    outward: bool,
    path: Path,
    end: End,
    tag: u32,
) -> Result<(), Memory>
    requires { (site : Site) × IsPrintedPath site path }
    ensures ok { OnOk result (PutsEnd rules.old rules.new outward path end tag) }
    ensures room { EndHasRoom end }
{
    let paths = end_paths(alloc, outward, path, end)?;
    put_rules(alloc, rules, paths.as_slice(), end, tag)?;
    Ok(())
}

// Appends the translations of a node at which all accepted packets get this end, or none, for packets on a path.
fn put_one(
    alloc: Global,
    rules: &mut Items<PfNat>,
    sheet: &Sheet<'_>,
    at: usize,
    one: Option<End>,
    path: Path,
    falls: bool,
) -> Result<(), Memory>
    requires planned { IsPlanned (scene_of sheet.now) }
    requires inside { at < length sheet.now.nodes.now }
    requires good { IsPathTo (scene_of sheet.now) at path }
    requires settled { IsSettledNode (scene_of sheet.now) at }
    requires there { slice_get sheet.now.ends.now at ≡ Some (Ends.One one) }
    ensures { OnOk result (Appends rules.old rules.new (AreNodeRules (scene_of sheet.now) at path falls)) }
{
    cut_nodes_part_values::<Outcome>();
    leaf_nodes_are_leaves::<Outcome>();
    reached_values_are_told::<Outcome>();
    match one {
        Some(end) => put_end(alloc, rules, sheet.outward, path, end, sheet.states[at])?,
        None => put_root(alloc, rules, sheet, path, falls)?,
    }
    Ok(())
}

// Appends the translations of a node whose ends are settled, for packets on a path.
fn put_settled(
    alloc: Global,
    rules: &mut Items<PfNat>,
    sheet: &Sheet<'_>,
    at: usize,
    path: Path,
    falls: bool,
) -> Result<(), Memory>
    requires planned { IsPlanned (scene_of sheet.now) }
    requires inside { at < length sheet.now.nodes.now }
    requires good { IsPathTo (scene_of sheet.now) at path }
    requires settled { IsSettledNode (scene_of sheet.now) at }
    ensures { OnOk result (Appends rules.old rules.new (AreNodeRules (scene_of sheet.now) at path falls)) }
{
    cut_nodes_part_values::<Outcome>();
    leaf_nodes_are_leaves::<Outcome>();
    reached_values_are_told::<Outcome>();
    let ends = sheet.ends[at];
    match ends {
        Ends::One(one) => put_one(alloc, rules, sheet, at, one, path, falls)?,
        Ends::Nothing => put_root(alloc, rules, sheet, path, falls)?,
        Ends::Many => put_root(alloc, rules, sheet, path, falls)?,
    }
    Ok(())
}

// Appends the translation of packets on a path that get no end, unless they may pass.
fn put_root(
    alloc: Global,
    rules: &mut Items<PfNat>,
    sheet: &Sheet<'_>,
    path: Path,
    falls: bool,
) -> Result<(), Memory>
    requires planned { IsPlanned (scene_of sheet.now) }
    requires good { IsPrintedPath sheet.now.site.now path }
    ensures { OnOk result (rules.new ≡ rules.old ++ root_nats path falls (slice_index sheet.now.states.now sheet.now.start)) }
{
    if falls {
        return Ok(());
    }
    put_rule(alloc, rules, path, None, sheet.states[sheet.start])?;
    Ok(())
}

/// Appends the translations of a node for packets on the path. Those that get no end need none where they may fall to what stands
/// behind. Fails if memory runs out.
pub(crate) fn put_node(
    alloc: Global,
    rules: &mut Items<PfNat>,
    sheet: &Sheet<'_>,
    at: usize,
    path: Path,
    falls: bool,
) -> Result<(), Memory>
    requires planned { IsPlanned (scene_of sheet.now) }
    requires few { length sheet.now.site.now.faces ≤ 62 }
    requires inside { at < length sheet.now.nodes.now }
    requires good { IsPathTo (scene_of sheet.now) at path }
    requires inward { sheet.now.outward ≡ true → CutsFrom (scene_of sheet.now) at 1 }
    ensures { OnOk result (Appends rules.old rules.new (AreNodeRules (scene_of sheet.now) at path falls)) }
{
    cut_nodes_part_values::<Outcome>();
    match &sheet.nodes[at] {
        Node::Leaf(_) => put_settled(alloc, rules, sheet, at, path, falls)?,
        Node::Cut(f, kids) => match open_side(sheet.outward, *f, sheet.ends[at]) {
            None => put_settled(alloc, rules, sheet, at, path, falls)?,
            Some(side) => {
                let turns = cut_turns(alloc, sheet, at, side, kids.as_slice(), path, falls)?;
                for turn in turns.as_slice() {
                    put_node(
                        alloc,
                        rules,
                        sheet,
                        turn.node as usize,
                        turn.path,
                        turn.falls,
                    )?;
                }
            }
        },
    }
    Ok(())
}
