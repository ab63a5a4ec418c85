//! The lists for packets that come in, and where they are applied.

ghost use Rattle.std.specs.Prelude.{◌≡◌, ◌≤◌, ◌+◌, length, IfOk, OnOk};
ghost use Rattle.fws_net.specs.Points.{tops_of};
ghost use Rattle.fws_net.specs.Routes.{IsSound};
ghost use Rattle.fws_net.specs.declared.packet.Lang.TheVariants.{Ios};
ghost use Rattle.fws_rules.specs.Names.{AreNamed};
ghost use Rattle.fws_tree_seen.specs.declared.seen.Seen.TheVariants.{Entered};
ghost use Rattle.fws_tree_seen.specs.Shown.{IsTold};
ghost use Rattle.fws_ios_put.specs.Layout.{groups_of, leader, AreLeaders, AreLists, IsEntryList, IsOwnList, IsPut, LeadEarly};

use crate::blocks::list_of;
use crate::choosing::choices_of;
use crate::names::list_name;
use fws_ios::{IosEntry, IosGroup, IosList};
use fws_net::Site;
use fws_num::{Items, Memory};
use fws_tree::Tree;
use std::alloc::Global;

// The entries of the list of an entry. Fails if memory runs out.
fn own_entries(
    alloc: Global,
    site: &Site,
    new: &Tree<bool>,
    known: &Tree<bool>,
    entry: u8,
) -> Result<Items<IosEntry>, Memory>
    requires sound { IsSound site.now }
    requires new_tops { new.now.0 ≡ tops_of site.now }
    requires known_tops { known.now.0 ≡ tops_of site.now }
    requires new_told { IsTold Entered (tops_of site.now) new.now.1 }
    requires known_told { IsTold Entered (tops_of site.now) known.now.1 }
    requires entry { entry ≤ length site.now.faces + 1 }
    ensures { IfOk result (IsEntryList site.now new.now.1 known.now.1 entry) }
{
    let choices = choices_of(alloc, site, new, known, entry)?;
    list_of(alloc, site, &choices)
}

// The list of an entry. Fails if memory runs out.
fn own_list(
    alloc: Global,
    site: &Site,
    new: &Tree<bool>,
    known: &Tree<bool>,
    leaders: &[u8],
    entry: u8,
) -> Result<IosList, Memory>
    requires sound { IsSound site.now }
    requires new_tops { new.now.0 ≡ tops_of site.now }
    requires known_tops { known.now.0 ≡ tops_of site.now }
    requires new_told { IsTold Entered (tops_of site.now) new.now.1 }
    requires known_told { IsTold Entered (tops_of site.now) known.now.1 }
    requires size { length leaders.now ≡ length site.now.faces + 1 }
    requires low { 1 ≤ entry }
    requires high { entry ≤ length leaders.now }
    ensures { IfOk result (IsOwnList site.now new.now.1 known.now.1 leaders.now entry) }
{
    let entries = own_entries(alloc, site, new, known, entry)?;
    let name = list_name(alloc, site, leaders, entry)?;
    Ok(IosList { name, entries })
}

// Appends the list of an entry, if it leads. Fails if memory runs out.
fn put_own(
    alloc: Global,
    lists: &mut Items<IosList>,
    site: &Site,
    new: &Tree<bool>,
    known: &Tree<bool>,
    leaders: &[u8],
    entry: u8,
) -> Result<(), Memory>
    requires sound { IsSound site.now }
    requires new_tops { new.now.0 ≡ tops_of site.now }
    requires known_tops { known.now.0 ≡ tops_of site.now }
    requires new_told { IsTold Entered (tops_of site.now) new.now.1 }
    requires known_told { IsTold Entered (tops_of site.now) known.now.1 }
    requires size { length leaders.now ≡ length site.now.faces + 1 }
    requires low { 1 ≤ entry }
    requires high { entry ≤ length leaders.now }
    ensures { OnOk result (IsPut site.now new.now.1 known.now.1 leaders.now entry lists.old lists.new) }
{
    if leaders[entry as usize - 1] != entry {
        return Ok(());
    }
    lists.put(own_list(alloc, site, new, known, leaders, entry)?)?;
    Ok(())
}

/// The lists of the entries that lead. Fails if memory runs out.
pub(crate) fn lists_of(
    alloc: Global,
    site: &Site,
    new: &Tree<bool>,
    known: &Tree<bool>,
    leaders: &[u8],
) -> Result<Items<IosList>, Memory>
    requires sound { IsSound site.now }
    requires named { AreNamed Ios site.now }
    requires new_tops { new.now.0 ≡ tops_of site.now }
    requires known_tops { known.now.0 ≡ tops_of site.now }
    requires new_told { IsTold Entered (tops_of site.now) new.now.1 }
    requires known_told { IsTold Entered (tops_of site.now) known.now.1 }
    requires leaders { AreLeaders new.now.1 known.now.1 (length site.now.faces + 1) leaders.now }
    ensures { IfOk result (AreLists site.now new.now.1 known.now.1 leaders.now (length leaders.now + 1)) }
{
    let mut lists = Items::new(alloc);
    for i in 0..leaders.len() {
        put_own(alloc, &mut lists, site, new, known, leaders, i as u8 + 1)?;
    }
    Ok(lists)
}

/// Where packets that come in meet lists: at each entry that of its leader. Fails if memory runs out.
pub(crate) fn groups_of(
    alloc: Global,
    site: &Site,
    leaders: &[u8],
) -> Result<Items<IosGroup>, Memory>
    requires few { length leaders.now ≤ 63 }
    requires leaders { LeadEarly leaders.now }
    ensures { IfOk result (λ groups. groups ≡ groups_of site.now leaders.now (length leaders.now)) }
{
    let mut groups = Items::new(alloc);
    for i in 0..leaders.len() {
        let list = list_name(alloc, site, leaders, leaders[i])?;
        groups.put(IosGroup {
            face: i as u8 + 1,
            outward: false,
            list,
        })?;
    }
    Ok(groups)
}
