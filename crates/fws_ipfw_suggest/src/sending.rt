//! Instances that write sources.

use crate::script::Script;
use fws_net::{End, Lang, Site, face_addr};
use fws_num::{Memory, Text, put_dec, put_quad};
use fws_suggest::{Policy, Stop, interface_name};

/// The interface of which an address is the first.
fn face_of(site: &Site, end: End) -> Option<u32> {
    let mut entry = 2u8;
    for _face in site.faces.as_slice() {
        if face_addr(site, entry) == end.addr {
            return Some(u32::from(entry));
        }
        entry = entry.saturating_add(1);
    }
    None
}

/// Appends the instance with a number, for a source that is written, with redirects.
pub(crate) fn put_source(
    out: &mut Text,
    site: &Site,
    number: u64,
    end: End,
    redirects: &[u8],
) -> Result<(), Memory> {
    out.put(b"nat ")?;
    put_dec(out, number)?;
    match face_of(site, end) {
        Some(entry) => {
            out.put(b" config if ")?;
            out.put(interface_name(site, Lang::Ipfw, entry))?;
        }
        None => {
            out.put(b" config ip ")?;
            put_quad(out, end.addr)?;
        }
    }
    out.put(redirects)?;
    out.put(b"\n")
}

/// Appends the instances for the sources that are written: their numbers follow those of the instances with redirects. It gives
/// up where a port is written.
pub(crate) fn put_sources(
    script: &mut Script,
    policy: &Policy,
    site: &Site,
    redirecting: usize,
) -> Result<(), Stop> {
    let mut number = (redirecting as u64).saturating_add(1);
    for source in &policy.sources {
        let Some(end) = *source else {
            continue;
        };
        if end.port.is_some() || end.len < 32 {
            return Err(Stop::Late);
        }
        put_source(&mut script.instances, site, number, end, b"")?;
        script.numbers = script.numbers.saturating_add(1);
        number = number.saturating_add(1);
    }
    Ok(())
}
