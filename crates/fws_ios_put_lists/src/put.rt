//! A decision tree as a list of entries.

ghost use Rattle.std.specs.Prelude.{◌≡◌, ◌<◌, ◌-◌, ◌++◌, Some, false, List, length, OnOk};
ghost use Rattle.fws_ios.specs.declared.config.IosEntry.{IosEntry};
ghost use Rattle.fws_ios_put_lists.specs.Blocks.{IsPlanned};
ghost use Rattle.fws_ios_put_lists.specs.FirstMatch.{IsFirstMatch};
ghost use Rattle.fws_ios_put_entries.specs.Seen.{IsListed};
ghost use Rattle.fws_net.specs.Points.{tops_of};
ghost use Rattle.fws_net.specs.Routes.{IsSound};
ghost use Rattle.fws_tree.specs.Plain.{value};
ghost use Rattle.fws_print.specs.Appended.{Appends};
ghost use Rattle.fws_ios_put_lists.specs.Sheets.{scene_of, AreAllEntries};

use crate::nodes::{put_entry, put_node};
use crate::sheet::Sheet;
use crate::sizes::sizes_of;
use fws_ios::IosEntry;
use fws_ios_put_entries::whole_path;
use fws_net::Site;
use fws_num::{Items, Memory};
use fws_tree::Tree;
use std::alloc::Global;

// Appends the entries of the last node for all packets, which fall to be denied.
fn put_last(alloc: Global, entries: &mut Items<IosEntry>, sheet: &Sheet<'_>) -> Result<(), Memory>
    requires { IsPlanned (scene_of sheet.now) }
    ensures { OnOk result (Appends entries.old entries.new (AreAllEntries sheet.now)) }
{
    put_node(
        alloc,
        entries,
        sheet,
        sheet.nodes.len() - 1,
        whole_path(),
        Some(false),
    )?;
    Ok(())
}

// Appends the entries of all packets, and where they are none the one that denies all.
fn put_all(alloc: Global, entries: &mut Items<IosEntry>, sheet: &Sheet<'_>) -> Result<(), Memory>
    requires { IsPlanned (scene_of sheet.now) }
    ensures { OnOk result ((block : List IosEntry) × (entries.new ≡ entries.old ++ block) × (0 < length block) × AreAllEntries sheet.now block) }
{
    let before = entries.len();
    put_last(alloc, entries, sheet)?;
    if entries.len() == before {
        put_entry(alloc, entries, false, sheet.keep, whole_path())?;
    }
    Ok(())
}

/// Appends entries of which the first that a packet meets permits it just where the tree is true. Behind the last one packets are
/// denied. Fails if memory runs out; entries may then stand behind the others.
pub fn put_list(
    alloc: Global,
    entries: &mut Items<IosEntry>,
    site: &Site,
    tree: &Tree<bool>,
    keep: bool,
) -> Result<(), Memory>
    requires sound { IsSound site.now }
    requires tops { tree.now.0 ≡ tops_of site.now }
    requires listed { IsListed tree.now.0 (value tree.now.1) }
    ensures { OnOk result (Appends entries.old entries.new (IsFirstMatch site.now tree.now.1 keep)) }
{
    let shared = tree.shared();
    let sizes = sizes_of(alloc, shared.nodes)?;
    let sheet = Sheet {
        tree,
        leaves: shared.leaves,
        nodes: shared.nodes,
        sizes: sizes.as_slice(),
        keep,
    };
    put_all(alloc, entries, &sheet)?;
    Ok(())
}
