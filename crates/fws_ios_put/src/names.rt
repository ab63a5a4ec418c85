//! Names of lists.

ghost use Rattle.std.specs.Prelude.{◌≡◌, ◌≤◌, nat_eq, drop, length, IfOk};
ghost use Rattle.std.specs.List.{list_any};
ghost use Rattle.fws_ios_put.specs.Layout.{ending, has_followers, list_name};

use fws_net::{Lang, Site};
use fws_num::{Memory, Text};
use fws_rules::interface_name;
use std::alloc::Global;

// Whether the entry is one of these.
fn is_among(entries: &[u8], entry: u8) -> bool
    ensures { result ≡ list_any (nat_eq entry) entries.now }
{
    entries.iter().any(|own| entry == *own)
}

// Whether packets of a later entry meet the same list.
fn has_followers(leaders: &[u8], entry: u8) -> bool
    requires { entry ≤ length leaders.now }
    ensures { result ≡ has_followers leaders.now entry }
{
    let later = &leaders[entry as usize..];
    is_among(later, entry)
}

// What a name ends in.
fn ending(shared: bool) -> &'static [u8]
    ensures { result.now ≡ ending shared }
{
    if shared { b"+OTHERS" } else { &[] }
}

/// The name of an entry's list. Fails if memory runs out.
pub(crate) fn list_name(
    alloc: Global,
    site: &Site,
    leaders: &[u8],
    entry: u8,
) -> Result<Text, Memory>
    requires low { 1 ≤ entry }
    requires high { entry ≤ length leaders.now }
    ensures { IfOk result (λ name. name ≡ list_name site.now leaders.now entry) }
{
    let mut name = Text::of(alloc, b"FROM-")?;
    name.put(interface_name(site, Lang::Ios, u32::from(entry)))?;
    name.put(ending(has_followers(leaders, entry)))?;
    Ok(name)
}
