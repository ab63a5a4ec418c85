//! Whether configurations keep state.

ghost use Rattle.std.specs.Prelude.{◌≡◌, ◌&&◌, ◌||◌, not, false, Some, is_some, option_copied};
ghost use Rattle.std.specs.List.{list_all, range_with_len};
ghost use Rattle.std.specs.Option.{option_map_or};
ghost use Rattle.fws_ios.specs.Walk.{group_at, list_named};
ghost use Rattle.fws_ios_print.specs.Printable.{face_count, is_class, is_state};
ghost use Rattle.fws_ios_put.specs.Placed.{is_guarded, is_keeping, keeps_state, tracks};

use fws_ios::{IosConfig, IosEntry, IosGroup, IosList};
use fws_net::{Lit, Site, Test};

/// Whether the test asks for packets of connections.
fn is_class(test: &Test) -> bool
    ensures { result ≡ is_class test.now }
{
    match test {
        Test::Est => true,
        _ => false,
    }
}

/// Whether the condition asks whether the packet is of a connection, and for nothing else.
fn is_state(cond: &[Lit]) -> bool
    ensures { result ≡ is_state cond.now }
{
    match cond {
        [lit] => !lit.not && is_class(&lit.test),
        _ => false,
    }
}

/// Whether the entry keeps state if it permits packets, or is the one for packets of connections.
fn keeps_state(entry: &IosEntry) -> bool
    ensures { result ≡ keeps_state entry.now }
{
    !entry.permit || (entry.reflect || is_state(entry.cond.lits()))
}

/// Whether each of the entries keeps state.
fn all_keep(entries: &[IosEntry]) -> bool
    ensures { result ≡ list_all keeps_state entries.now }
{
    entries.iter().all(|entry| keeps_state(entry))
}

/// The list with this name.
fn list_named<'a>(name: &[u8], lists: &'a [IosList]) -> Option<&'a IosList>
    ensures { option_copied result ≡ list_named name.now lists.now }
{
    for list in lists {
        if list.name.as_slice() == name {
            return Some(list);
        }
    }
    None
}

/// Whether the list that is applied is defined and each of its entries keeps state.
fn is_keeping(lists: &[IosList], group: &IosGroup) -> bool
    ensures { result ≡ is_keeping lists.now group.now }
{
    match list_named(group.list.as_slice(), lists) {
        Some(list) => all_keep(list.entries.as_slice()),
        None => false,
    }
}

/// Whether each list that is applied is so.
fn all_keeping(lists: &[IosList], groups: &[IosGroup]) -> bool
    ensures { result ≡ list_all (is_keeping lists.now) groups.now }
{
    groups.iter().all(|group| is_keeping(lists, group))
}

/// Whether packets that come in by the interface meet a list.
fn is_guarded(groups: &[IosGroup], face: u128) -> bool
    ensures { result ≡ is_guarded groups.now face }
{
    for group in groups {
        if !group.outward && group.face as u128 == face {
            return true;
        }
    }
    false
}

/// Whether packets that come in by each interface meet a list.
fn all_guarded(groups: &[IosGroup], site: &Site) -> bool
    ensures { result ≡ list_all (is_guarded groups.now) (range_with_len 1 (face_count site.now)) }
{
    let count = site.faces.len() as u128 + 1;
    for i in 0..count {
        if !is_guarded(groups, i + 1) {
            return false;
        }
    }
    true
}

/// Whether the configuration keeps state of what it permits.
pub fn tracks(c: &IosConfig, site: &Site) -> bool
    ensures { result ≡ tracks site.now c.now }
{
    all_guarded(c.groups.as_slice(), site) && all_keeping(c.lists.as_slice(), c.groups.as_slice())
}
