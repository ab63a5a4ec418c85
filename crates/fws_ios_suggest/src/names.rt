//! Names of lists.

use fws_net::Site;
use fws_num::{Memory, Text, put_dec};
use std::alloc::Global;

/// A byte of a name: capitals, digits and `_`.
fn plain_byte(byte: u8) -> u8 {
    if byte.is_ascii_alphanumeric() {
        byte.to_ascii_uppercase()
    } else {
        b'_'
    }
}

/// Appends a name in capitals, digits and `_`.
fn put_plain(out: &mut Text, name: &[u8]) -> Result<(), Memory> {
    for byte in name {
        out.put(&[plain_byte(*byte)])?;
    }
    Ok(())
}

/// Appends the name that the site has for an interface, in capitals, digits and `_`.
fn put_name(out: &mut Text, site: &Site, entry: u32) -> Result<(), Memory> {
    let Some(place) = entry.checked_sub(2) else {
        return out.put(b"LO");
    };
    match site.faces.as_slice().get(place as usize) {
        Some(face) => put_plain(out, face.name.as_slice()),
        None => Ok(()),
    }
}

/// Whether a name is taken by loopback or by an interface.
fn is_taken(names: &[Text], name: &[u8]) -> bool {
    for other in names.iter().skip(1) {
        if other.as_slice() == name {
            return true;
        }
    }
    false
}

/// The name of an entry number behind some that have theirs.
fn name_of(alloc: Global, site: &Site, entry: u32, names: &[Text]) -> Result<Text, Memory> {
    let mut name = Text::new(alloc);
    put_name(&mut name, site, entry)?;
    if is_taken(names, name.as_slice()) {
        name.put(b"-")?;
        put_dec(&mut name, u64::from(entry))?;
    }
    Ok(name)
}

/// Names, one for each entry number from 0 on.
pub(crate) fn names_of(alloc: Global, site: &Site, entries: u32) -> Result<Vec<Text>, Memory> {
    let mut names = Vec::new(alloc);
    for entry in 0..entries {
        let name = name_of(alloc, site, entry, &names)?;
        names.push(name)?;
    }
    Ok(names)
}

/// The name of an entry number.
pub(crate) fn name_at(names: &[Text], entry: u32) -> &[u8] {
    match names.get(entry as usize) {
        Some(name) => name.as_slice(),
        None => b"",
    }
}

/// Appends the name of the list for packets that come in by these interfaces.
pub(crate) fn put_list_name(out: &mut Text, names: &[Text], entries: &[u32]) -> Result<(), Memory> {
    let mut is_first = true;
    for entry in entries.iter().take(3) {
        if !is_first {
            out.put(b"-")?;
        }
        is_first = false;
        out.put(name_at(names, *entry))?;
    }
    if entries.len() > 3 {
        out.put(b"-AND-OTHERS")?;
    }
    out.put(b"-IN")
}
