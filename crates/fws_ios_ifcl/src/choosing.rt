//! The rules to which translations by lists are unfolded.

ghost use Rattle.std.specs.Prelude.{◌≡◌, ◌++◌, [], length, OnOk};
ghost use Rattle.fws_ios_ifcl.specs.Blocks.{choosing, choosing_from, choosing_rules, with_asked};

use crate::listing::put_listing;
use crate::names::Lists;
use fws_ifcl::{Act, Rule};
use fws_ifcl_rules::{place_behind, put_always, sum};
use fws_ios::{IosEntry, IosNat};
use fws_net::End;
use fws_num::{Memory, Text};
use indexmap::IndexSet;
use std::alloc::Global;

/// Puts the rules of a list that chooses packets for an address behind the others: two rules behind the list write the address as
/// the source of what it permits, and what it denies goes on behind these. Fails if memory runs out.
fn put_choosing(
    alloc: Global,
    rules: &mut Vec<Rule>,
    entries: &[IosEntry],
    addr: u32,
) -> Result<(), Memory>
    ensures { OnOk result (rules.new.items ≡ rules.old.items ++ choosing (length rules.old.items) entries.now addr) }
{
    let permitted = place_behind(rules.len(), sum(entries.len(), 1)?)?;
    let denied = place_behind(rules.len(), sum(entries.len(), 3)?)?;
    put_listing(
        alloc,
        rules,
        Act::Skip(permitted),
        Act::Skip(denied),
        entries,
    )?;
    put_always(alloc, rules, Act::Src(End::host(addr, None)))?;
    put_always(alloc, rules, Act::Accept)?;
    Ok(())
}

/// Puts the rules of a translation by the list of this name behind the others. Fails if memory runs out.
fn put_named(
    alloc: Global,
    rules: &mut Vec<Rule>,
    lists: &Lists,
    name: &Text,
    addr: u32,
) -> Result<(), Memory>
    ensures { OnOk result (rules.new.items ≡ rules.old.items ++ choosing_rules (length rules.old.items) lists.now [] (IosNat.List name.now addr)) }
{
    match lists.named(name) {
        Some(list) => {
            put_choosing(alloc, rules, list.entries.as_slice(), addr)?;
            Ok(())
        }
        None => Ok(()),
    }
}

/// Puts the rules of a translation by the list of this name behind the others, unless the list was asked before, whose answer would
/// be the same. Fails if memory runs out.
fn put_listed(
    alloc: Global,
    rules: &mut Vec<Rule>,
    lists: &Lists,
    asked: &mut IndexSet<Text>,
    name: &Text,
    addr: u32,
) -> Result<(), Memory>
    ensures rules { OnOk result (rules.new.items ≡ rules.old.items ++ choosing_rules (length rules.old.items) lists.now asked.old.keys (IosNat.List name.now addr)) }
    ensures asked { OnOk result (asked.new.keys ≡ with_asked (IosNat.List name.now addr) asked.old.keys) }
{
    let is_new = asked.insert(name.copy(alloc)?)?;
    if !is_new {
        return Ok(());
    }
    put_named(alloc, rules, lists, name, addr)?;
    Ok(())
}

/// Puts the rules of a translation behind the others if it is by a list that wasn't asked before. Fails if memory runs out.
fn put_choosing_rules(
    alloc: Global,
    rules: &mut Vec<Rule>,
    lists: &Lists,
    asked: &mut IndexSet<Text>,
    nat: &IosNat,
) -> Result<(), Memory>
    ensures rules { OnOk result (rules.new.items ≡ rules.old.items ++ choosing_rules (length rules.old.items) lists.now asked.old.keys nat.now) }
    ensures asked { OnOk result (asked.new.keys ≡ with_asked nat.now asked.old.keys) }
{
    match nat {
        IosNat::Static { .. } => Ok(()),
        IosNat::List { list, addr } => {
            put_listed(alloc, rules, lists, asked, list, *addr)?;
            Ok(())
        }
    }
}

/// Puts the rules of a translation behind the others if it is by a list, also one that was asked before. Fails if memory runs out.
pub(crate) fn put_asking(
    alloc: Global,
    rules: &mut Vec<Rule>,
    lists: &Lists,
    nat: &IosNat,
) -> Result<(), Memory>
    ensures { OnOk result (rules.new.items ≡ rules.old.items ++ choosing_rules (length rules.old.items) lists.now [] nat.now) }
{
    match nat {
        IosNat::Static { .. } => Ok(()),
        IosNat::List { list, addr } => {
            put_named(alloc, rules, lists, list, *addr)?;
            Ok(())
        }
    }
}

/// Puts the rules of all translations by lists behind the others. Fails if memory runs out.
pub(crate) fn put_all_choosing(
    alloc: Global,
    rules: &mut Vec<Rule>,
    lists: &Lists,
    nats: &[IosNat],
) -> Result<(), Memory>
    ensures { OnOk result (rules.new.items ≡ rules.old.items ++ choosing_from (length rules.old.items) lists.now [] nats.now) }
{
    let mut asked = IndexSet::new(alloc);
    for nat in nats {
        put_choosing_rules(alloc, rules, lists, &mut asked, nat)?;
    }
    Ok(())
}
