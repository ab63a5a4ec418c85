//! The names of interfaces in each system.

ghost use Rattle.std.specs.Prelude.{◌≡◌};
ghost use Rattle.fws_rules.specs.Names.{interface_name};

use fws_net::{Lang, Site};

/// The name in a system of the interface with this entry number, which is 1 for loopback and 2 or more for
/// those of the site; empty past the last interface. The host has none: 0 gives what 2 gives.
pub fn interface_name(site: &Site, lang: Lang, entry: u32) -> &[u8]
    ensures { result.now ≡ interface_name lang site.now entry }
{
    if entry == 1 {
        return site.lo.name_in(lang).as_slice();
    }
    match site.faces.as_slice().get(entry.saturating_sub(2) as usize) {
        Some(face) => face.names.name_in(lang).as_slice(),
        None => b"",
    }
}
