//! The lists, and the translations that ask them.

ghost use Rattle.std.specs.Prelude.{◌≡◌, false, ◌^◌, ◌<◌, ◌++◌, ◌∷◌, [], List, IfOk, OnOk, Some, length, slice_get};
ghost use Rattle.fws_ios.specs.declared.config.IosEntry.{IosEntry};
ghost use Rattle.fws_ios.specs.declared.config.IosList.{IosList};
ghost use Rattle.fws_ios_put_lists.specs.FirstMatch.{IsFirstMatch};
ghost use Rattle.fws_ios_put_entries.specs.Seen.{IsListed};
ghost use Rattle.fws_ios_put_sources.specs.Crossing.{AreTold};
ghost use Rattle.fws_ios_put_sources.specs.Lists.{list_name, nat_of, AreAsked, AreEntries, IsListAt, PutsList};
ghost use Rattle.fws_net.specs.Points.{tops_of};
ghost use Rattle.fws_net.specs.Routes.{IsSound};
ghost use Rattle.fws_tree.specs.Plain.{value};

use crate::parting::parted_at;
use crate::translations::Sources;
use fws_ios::{IosEntry, IosList, IosNat};
use fws_ios_put_lists::put_list;
use fws_net::{Outcome, Site};
use fws_num::{Items, Memory, Text, put_quad};
use fws_tree::Tree;
use indexmap::IndexSet;
use std::alloc::Global;

// The name of the list that gives an address. Fails if memory runs out.
fn list_name(alloc: Global, addr: u32) -> Result<Text, Memory>
    ensures { IfOk result (λ name. name ≡ list_name addr) }
{
    let mut name = Text::of(alloc, b"NAT-")?;
    put_quad(&mut name, addr)?;
    Ok(name)
}

// The entries of a list that permits packets just where the tree is true. Fails if memory runs out.
fn entries_for(alloc: Global, site: &Site, tree: &Tree<bool>) -> Result<Items<IosEntry>, Memory>
    requires sound { IsSound site.now }
    requires tops { tree.now.0 ≡ tops_of site.now }
    requires listed { IsListed tree.now.0 (value tree.now.1) }
    ensures { IfOk result (IsFirstMatch site.now tree.now.1 false) }
{
    let mut entries = Items::new(alloc);
    put_list(alloc, &mut entries, site, tree, false)?;
    Ok(entries)
}

// The entries of the list at a place. Fails if memory runs out.
fn entries_at(
    alloc: Global,
    site: &Site,
    crossing: &Tree<Outcome>,
    addrs: &IndexSet<u32>,
    place: usize,
) -> Result<Items<IosEntry>, Memory>
    requires sound { IsSound site.now }
    requires tops { crossing.now.0 ≡ tops_of site.now }
    requires told { AreTold crossing.now.0 crossing.now.1 }
    ensures { IfOk result (AreEntries site.now crossing.now.1 addrs.now.keys place) }
{
    let sets = parted_at(alloc, crossing, addrs, place)?;
    entries_for(alloc, site, &sets.permitted)
}

// The list at a place, which gives the address. Fails if memory runs out.
fn list_at(
    alloc: Global,
    site: &Site,
    crossing: &Tree<Outcome>,
    addrs: &IndexSet<u32>,
    place: usize,
    addr: u32,
) -> Result<IosList, Memory>
    requires sound { IsSound site.now }
    requires tops { crossing.now.0 ≡ tops_of site.now }
    requires told { AreTold crossing.now.0 crossing.now.1 }
    ensures { IfOk result (IsListAt site.now crossing.now.1 addrs.now.keys place addr) }
{
    let name = list_name(alloc, addr)?;
    let entries = entries_at(alloc, site, crossing, addrs, place)?;
    Ok(IosList { name, entries })
}

// Puts the list at a place, which gives the address, and the translation that asks it. Fails if memory runs out.
fn put_list_at(
    alloc: Global,
    sources: &mut Sources,
    site: &Site,
    crossing: &Tree<Outcome>,
    addrs: &IndexSet<u32>,
    place: usize,
    addr: u32,
) -> Result<(), Memory>
    requires sound { IsSound site.now }
    requires tops { crossing.now.0 ≡ tops_of site.now }
    requires told { AreTold crossing.now.0 crossing.now.1 }
    ensures { OnOk result (PutsList site.now crossing.now.1 addrs.now.keys place addr sources.old sources.new) }
{
    let list = list_name(alloc, addr)?;
    sources
        .lists
        .put(list_at(alloc, site, crossing, addrs, place, addr)?)?;
    sources.nats.put(IosNat::List { list, addr })?;
    Ok(())
}

// The address that the list at a place gives.
fn address_at(addrs: &IndexSet<u32>, place: usize) -> u32
    requires { place < length addrs.now.keys }
    ensures { slice_get addrs.now.keys place ≡ Some result }
{
    match addrs.get_index(place) {
        Some(addr) => *addr,
        None => unreachable!(),
    }
}

/// The lists that give the addresses, and the translations that ask them. Fails if memory runs out.
pub(crate) fn lists_of(
    alloc: Global,
    site: &Site,
    crossing: &Tree<Outcome>,
    addrs: &IndexSet<u32>,
) -> Result<Sources, Memory>
    requires sound { IsSound site.now }
    requires tops { crossing.now.0 ≡ tops_of site.now }
    requires told { AreTold crossing.now.0 crossing.now.1 }
    ensures { IfOk result (AreAsked site.now crossing.now.1 addrs.now.keys addrs.now.keys) }
{
    let mut sources = Sources {
        lists: Items::new(alloc),
        nats: Items::new(alloc),
    };
    for place in 0..addrs.len() {
        let addr = address_at(addrs, place);
        put_list_at(alloc, &mut sources, site, crossing, addrs, place, addr)?;
    }
    Ok(sources)
}
