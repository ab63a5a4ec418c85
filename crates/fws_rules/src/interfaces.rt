//! Interfaces by their names, or by what their names begin with.

ghost use Rattle.std.specs.Prelude.{◌≡◌, Some, None, MatchOption};
ghost use Rattle.fws_net.specs.Reading.{CauseGiven};
ghost use Rattle.fws_net.specs.Routes.{IsSound};
ghost use Rattle.fws_rules.specs.Interfaces.{before_mark, interface_named, interfaces_of};

use fws_iv::{Ivs, one};
use fws_net::{Cause, Lang, ReadFault, Site, entries_beginning, entry_named};
use std::alloc::Global;

/// What stands ahead of the mark at the end of a text; nothing where it ends otherwise.
pub fn before_mark(mark: u8, text: &[u8]) -> Option<&[u8]>
    ensures { MatchOption result (before_mark mark text.now ≡ None) (λ front. before_mark mark text.now ≡ Some front.now) }
{
    let (last, front) = text.split_last()?;
    if *last == mark { Some(front) } else { None }
}

/// The entry number of the interface of this name.
fn interface_named(alloc: Global, site: &Site, lang: Lang, text: &[u8]) -> Result<Ivs, ReadFault>
    requires { IsSound site.now }
    ensures { CauseGiven result (interface_named lang site.now text.now) }
{
    match entry_named(site, lang, text) {
        Some(entry) => Ok(one(alloc, u32::from(entry), u32::from(entry))?),
        None => Err(ReadFault::Bad(Cause::NoInterface)),
    }
}

/// The entry numbers of the interface that a system calls so, or with this mark at the end of every one whose name
/// begins so. The cause is NoInterface where the site has no interface of the name.
pub fn read_interfaces(
    alloc: Global,
    site: &Site,
    lang: Lang,
    mark: u8,
    text: &[u8],
) -> Result<Ivs, ReadFault>
    requires { IsSound site.now }
    ensures { CauseGiven result (interfaces_of lang mark site.now text.now) }
{
    match before_mark(mark, text) {
        Some(front) => Ok(entries_beginning(alloc, site, lang, front)?),
        None => interface_named(alloc, site, lang, text),
    }
}
