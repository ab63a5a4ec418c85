//! Names of interfaces.

use fws_net::{Lang, Site};

/// The name of the interface with this entry number in a system: loopback's for 1, and no name for the host itself.
pub fn interface_name(site: &Site, lang: Lang, entry: u32) -> &[u8] {
    if entry == 1 {
        return site.lo.name_in(lang).as_slice();
    }
    let Some(place) = entry.checked_sub(2) else {
        return b"";
    };
    match site.faces.as_slice().get(place as usize) {
        Some(face) => face.names.name_in(lang).as_slice(),
        None => b"",
    }
}
