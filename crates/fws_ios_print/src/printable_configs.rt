//! Which configurations are printed.

ghost use Rattle.std.specs.Prelude.{◌≡◌, ◌^◌, nat_lt};
ghost use Rattle.std.specs.List.{list_all, list_any};
ghost use Rattle.std.specs.Str.{bytes_eq};
ghost use Rattle.fws_ios.specs.Soundness.{are_apart};
ghost use Rattle.fws_ios_print.specs.Printable.{are_sides, face_count, group_place, groups_ascend, has_entries, is_printable, is_printed_entry, is_printed_group, is_printed_list, is_printed_nat, meets, ranges_ascend, sides_differ};

use crate::conditions::is_state;
use crate::names::is_list_name;
use crate::order::names_ascend;
use crate::sets::is_printed_cond;
use fws_ios::{IosConfig, IosEntry, IosGroup, IosList, IosNat};
use fws_iv::Iv;
use fws_net::Site;

/// Whether the entry is printed: packets of connections are permitted, and others by what the condition asks
/// for. State is kept of permitted packets alone.
fn is_printed_entry(entry: &IosEntry) -> bool
    ensures { result ≡ is_printed_entry entry.now }
{
    if is_state(entry.cond.lits()) {
        entry.permit && !entry.reflect
    } else {
        (!entry.reflect || entry.permit) && is_printed_cond(entry.cond.lits())
    }
}

/// Whether all entries are printed.
fn are_printed_entries(entries: &[IosEntry]) -> bool
    ensures { result ≡ list_all is_printed_entry entries.now }
{
    entries.iter().all(|entry| is_printed_entry(entry))
}

/// Whether there are entries.
fn has_entries(entries: &[IosEntry]) -> bool
    ensures { result ≡ has_entries entries.now }
{
    match entries {
        [_, ..] => true,
        [] => false,
    }
}

/// Whether the list is printed.
fn is_printed_list(list: &IosList) -> bool
    ensures { result ≡ is_printed_list list.now }
{
    is_list_name(list.name.as_slice())
        && has_entries(list.entries.as_slice())
        && are_printed_entries(list.entries.as_slice())
}

/// Whether all lists are printed.
fn are_printed_lists(lists: &[IosList]) -> bool
    ensures { result ≡ list_all is_printed_list lists.now }
{
    lists.iter().all(|list| is_printed_list(list))
}

/// Whether a list has this name.
fn some_has(lists: &[IosList], name: &[u8]) -> bool
    ensures { result ≡ list_any (λ other. bytes_eq other.name name.now) lists.now }
{
    lists.iter().any(|other| other.name.as_slice() == name)
}

/// Whether no two lists have the same name. It compares any two.
fn all_differ(lists: &[IosList]) -> bool
    ensures { result ≡ are_apart lists.now }
{
    let mut left = lists;
    while let [list, rest @ ..] = left {
        if some_has(rest, list.name.as_slice()) {
            return false;
        }
        left = rest;
    }
    true
}

/// Whether no two lists have the same name. The time is linear where names ascend.
fn are_apart(lists: &[IosList]) -> bool
    ensures { result ≡ are_apart lists.now }
{
    if names_ascend(lists) {
        return true;
    }
    all_differ(lists)
}

/// The place of a list that is applied: by interfaces, and inward ahead of outward.
fn group_place(group: &IosGroup) -> u16
    ensures { result ≡ group_place group.now }
{
    2 * group.face as u16 + if group.outward { 1 } else { 0 }
}

/// Whether the lists are applied in their order, at most one at an interface in a direction.
fn groups_ascend(groups: &[IosGroup]) -> bool
    ensures { result ≡ groups_ascend 2 groups.now }
{
    let mut least = 2u32;
    for group in groups {
        let place = u32::from(group_place(group));
        if place < least {
            return false;
        }
        least = place + 1;
    }
    true
}

/// How many interfaces a site has, loopback among them.
fn face_count(site: &Site) -> u128
    ensures { result ≡ face_count site.now }
{
    site.faces.len() as u128 + 1
}

/// Whether the list is applied at an interface of the site.
fn is_printed_group(site: &Site, group: &IosGroup) -> bool
    ensures { result ≡ is_printed_group site.now group.now }
{
    group.face as u128 <= face_count(site) && is_list_name(group.list.as_slice())
}

/// Whether all lists are applied at interfaces of the site.
fn are_printed_groups(site: &Site, groups: &[IosGroup]) -> bool
    ensures { result ≡ list_all (is_printed_group site.now) groups.now }
{
    groups.iter().all(|group| is_printed_group(site, group))
}

/// Whether the ranges ascend from 1 to a greatest number, none empty and no two touching.
fn ranges_ascend(most: u128, set: &[Iv]) -> bool
    ensures { result ≡ ranges_ascend 1 most set.now }
{
    let mut least = 1u64;
    for iv in set {
        let iv = *iv;
        if (iv.lo as u64) < least || iv.hi < iv.lo || most < iv.hi as u128 {
            return false;
        }
        least = iv.hi as u64 + 2;
    }
    true
}

/// Whether the ranges have a number in common.
fn meets(a: Iv, b: Iv) -> bool
    ensures { result ≡ meets a b }
{
    a.lo <= b.hi && b.lo <= a.hi
}

/// Whether the range has a number in common with the set.
fn meets_some(a: Iv, set: &[Iv]) -> bool
    ensures { result ≡ list_any (meets a) set.now }
{
    set.iter().any(|b| meets(a, *b))
}

/// Whether no interface is on both sides.
fn sides_differ(inside: &[Iv], outside: &[Iv]) -> bool
    ensures { result ≡ sides_differ inside.now outside.now }
{
    inside.iter().all(|a| !meets_some(*a, outside))
}

/// Whether the sides have interfaces of the site, and none in common.
fn are_sides(site: &Site, inside: &[Iv], outside: &[Iv]) -> bool
    ensures { result ≡ are_sides site.now inside.now outside.now }
{
    let count = face_count(site);
    ranges_ascend(count, inside) && ranges_ascend(count, outside) && sides_differ(inside, outside)
}

/// Whether it is an address of 32 bits.
fn is_address(addr: u32) -> bool
    ensures { result ≡ nat_lt addr (2 ^ 32) }
{
    (addr as u64) < 4294967296
}

/// Whether the translation is printed: that of a list's packets to an address.
fn is_printed_nat(nat: &IosNat) -> bool
    ensures { result ≡ is_printed_nat nat.now }
{
    match nat {
        IosNat::List { list, addr } => is_list_name(list.as_slice()) && is_address(*addr),
        IosNat::Static { .. } => false,
    }
}

/// Whether all translations are printed.
fn are_printed_nats(nats: &[IosNat]) -> bool
    ensures { result ≡ list_all is_printed_nat nats.now }
{
    nats.iter().all(|nat| is_printed_nat(nat))
}

/// Whether the configuration can be printed: its lists are printed and have different names, they are applied
/// at interfaces of the site in their order, the sides have no interface in common, and all translations are
/// those of lists. The time is linear but for the ranges of both sides, where the names of lists ascend.
pub fn printable(c: &IosConfig, site: &Site) -> bool
    ensures { result ≡ is_printable site.now c.now }
{
    are_printed_lists(c.lists.as_slice())
        && are_apart(c.lists.as_slice())
        && groups_ascend(c.groups.as_slice())
        && are_printed_groups(site, c.groups.as_slice())
        && are_sides(site, c.inside.parts(), c.outside.parts())
        && are_printed_nats(c.nats.as_slice())
        && (c.nats.len() as u64) < u64::MAX
}
