//! Configurations put together.

ghost use Rattle.std.specs.Prelude.{◌≡◌, ◌++◌, ◌+◌, ◌≤◌, length, IfOk, OnOk};
ghost use Rattle.fws_net.specs.Points.{tops_of};
ghost use Rattle.fws_net.specs.Routes.{IsSound};
ghost use Rattle.fws_net.specs.declared.packet.Lang.TheVariants as langs;
ghost use Rattle.fws_place.specs.Fits.{Fits};
ghost use Rattle.fws_tree_seen.specs.declared.seen.Seen.TheVariants.{Entered};
ghost use Rattle.fws_tree_seen.specs.Shown.{IsTold};
ghost use Rattle.fws_rules.specs.Names.{AreNamed};
ghost use Rattle.fws_tree.specs.Regular.{AreRegular};
ghost use Rattle.fws_ios_put.specs.Draft.{IsDraft};
ghost use Rattle.fws_ios_put.specs.Layout.{AreLeaders, AreLists};

use crate::lists::{groups_of, lists_of};
use fws_ios::{IosConfig, IosList};
use fws_ios_put_sources::{entries_on, sources_of};
use fws_net::Site;
use fws_num::{Items, Memory};
use fws_tree::{Tables, Tree};
use std::alloc::Global;

// Appends the lists. Fails if memory runs out.
fn put_lists(lists: &mut Items<IosList>, others: Items<IosList>) -> Result<(), Memory>
    ensures { OnOk result (lists.new ≡ lists.old ++ others) }
{
    for list in others.into_vec() {
        lists.put(list)?;
    }
    Ok(())
}

/// The configuration of tables that fit: with a list for the packets that come in by entries with one leader, by what the trees
/// tell of new packets and of those that are accepted in some connection. Fails if memory runs out.
pub(crate) fn drafted(
    alloc: Global,
    site: &Site,
    tables: &Tables,
    new: &Tree<bool>,
    known: &Tree<bool>,
    leaders: &[u8],
) -> Result<IosConfig, Memory>
    requires sound { IsSound site.now }
    requires named { AreNamed langs.Ios site.now }
    requires regular { AreRegular site.now tables.now }
    requires fits { Fits langs.Ios site.now tables.now }
    requires new_tops { new.now.0 ≡ tops_of site.now }
    requires known_tops { known.now.0 ≡ tops_of site.now }
    requires new_told { IsTold Entered (tops_of site.now) new.now.1 }
    requires known_told { IsTold Entered (tops_of site.now) known.now.1 }
    requires leaders { AreLeaders new.now.1 known.now.1 (length site.now.faces + 1) leaders.now }
    ensures { IfOk result (IsDraft site.now tables.now new.now.1 known.now.1 leaders.now) }
{
    let sources = sources_of(alloc, tables, site)?;
    let mut lists = lists_of(alloc, site, new, known, leaders)?;
    let groups = groups_of(alloc, site, leaders)?;
    let inside = entries_on(alloc, site, false)?;
    let outside = entries_on(alloc, site, true)?;
    let _inside = inside.parts();
    let _outside = outside.parts();
    put_lists(&mut lists, sources.lists)?;
    Ok(IosConfig {
        lists,
        groups,
        inside,
        outside,
        nats: sources.nats,
    })
}
