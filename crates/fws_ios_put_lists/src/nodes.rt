//! The entries of nodes.
//!
//! The idea: of an access list the first entry that matches decides, and behind the last one packets are denied. The tree of
//! truth values is unfolded along its paths: an entry for each path, which permits where the leaf is true and denies where it
//! is false.
//!
//! What saves entries is what a path may fall to. `falls` is the value that packets get from what stands behind if no entry of
//! the node matches them. At the root it is false, since lists deny at their end; at a cut one kid is left to the end, and where
//! that kid is a leaf, the turns before it fall to its value (`turns`). A leaf with the value to which its packets fall needs no
//! entry. Which kid is left to the end is chosen by how many entries that saves, by the sizes of nodes, which are counted in one
//! pass from the first node to the last (`sizes`); they are a hint, and nothing has to be known of them.
//!
//! What holds: the entries of a node on a path match no packet that isn't on the path. A packet on it, seen at a point where the
//! node's tree has a value, is given that value by the first entry that matches; or it passes all entries, if it falls to it.
//!
//! The cost: an entry for each path to a leaf that isn't fallen to, times the pieces of the sets on it (prefixes, ranges of
//! ports, single types).

ghost use Rattle.std.specs.Prelude.{◌≡◌, ◌<◌, ◌++◌, ◌∷◌, [], length, OnOk};
ghost use Rattle.fws_ios.specs.declared.config.IosEntry.{IosEntry};
ghost use Rattle.fws_ios_put_lists.specs.Blocks.{AreNodeEntries, IsPathTo, IsPlanned};
ghost use Rattle.fws_ios_put_lists.specs.Entries.{act_of, AreLeafEntries, IsEntry};
ghost use Rattle.fws_ios_put_entries.specs.Paths.{IsWritable};
ghost use Rattle.fws_print.specs.Appended.{Appends};
ghost use Rattle.fws_ios_put_lists.specs.Sheets.{scene_of};

use crate::default::fall_to;
use crate::sheet::Sheet;
use crate::turns::cut_turns;
use fws_ios::IosEntry;
use fws_ios_put_entries::{Act, Path, entry_of};
use fws_num::{Items, Memory};
use fws_tree::Node;
use fws_tree_seen::{cut_nodes_part_values, leaf_nodes_are_leaves};
use std::alloc::Global;

// What the entry does.
fn act_for(permit: bool, keep: bool) -> Act
    ensures { result ≡ act_of permit keep }
{
    Act {
        permit,
        reflect: permit && keep,
        established: false,
    }
}

/// Appends the entry that permits packets on the path, or denies them. Fails if memory runs out.
pub(crate) fn put_entry(
    alloc: Global,
    entries: &mut Items<IosEntry>,
    permit: bool,
    keep: bool,
    path: Path,
) -> Result<(), Memory>
    requires { IsWritable path }
    ensures { OnOk result ((e : IosEntry) × (entries.new ≡ entries.old ++ e ∷ []) × IsEntry permit keep path e) }
{
    entries.put(entry_of(alloc, act_for(permit, keep), path)?)?;
    Ok(())
}

// Appends the entry of a leaf for packets on the path, unless they fall to its value. Fails if memory runs out.
fn put_leaf(
    alloc: Global,
    entries: &mut Items<IosEntry>,
    permit: bool,
    keep: bool,
    path: Path,
    falls: Option<bool>,
) -> Result<(), Memory>
    requires { IsWritable path }
    ensures { OnOk result (Appends entries.old entries.new (AreLeafEntries permit keep path falls)) }
{
    if fall_to(falls, permit) {
        return Ok(());
    }
    put_entry(alloc, entries, permit, keep, path)?;
    Ok(())
}

/// Appends the entries of a node for packets on the path. Those need none whose value is what they fall to behind them. Fails if
/// memory runs out.
pub(crate) fn put_node(
    alloc: Global,
    entries: &mut Items<IosEntry>,
    sheet: &Sheet<'_>,
    at: usize,
    path: Path,
    falls: Option<bool>,
) -> Result<(), Memory>
    requires planned { IsPlanned (scene_of sheet.now) }
    requires inside { at < length sheet.now.nodes.now }
    requires good { IsPathTo (scene_of sheet.now) at path }
    ensures { OnOk result (Appends entries.old entries.new (AreNodeEntries (scene_of sheet.now) sheet.now.keep at path falls)) }
{
    leaf_nodes_are_leaves::<bool>();
    cut_nodes_part_values::<bool>();
    match &sheet.nodes[at] {
        Node::Leaf(n) => put_leaf(
            alloc,
            entries,
            sheet.leaves[*n as usize],
            sheet.keep,
            path,
            falls,
        )?,
        Node::Cut(f, kids) => {
            let turns = cut_turns(alloc, sheet, at, *f, kids.as_slice(), path, falls)?;
            for turn in turns.as_slice() {
                put_node(
                    alloc,
                    entries,
                    sheet,
                    turn.node as usize,
                    turn.path,
                    turn.falls,
                )?;
            }
        }
    }
    Ok(())
}
