//! The text of interfaces.

use crate::inward::Inward;
use crate::names::{name_at, put_list_name};
use fws_net::{Lang, Side, Site};
use fws_num::{Memory, Text};
use fws_suggest::interface_name;

/// The side of an interface, by its entry number.
fn side_of(site: &Site, entry: u32) -> Side {
    let Some(place) = entry.checked_sub(2) else {
        return Side::Neither;
    };
    match site.faces.as_slice().get(place as usize) {
        Some(face) => face.side,
        None => Side::Neither,
    }
}

/// Appends on which side of a translation an interface stands.
fn put_side(out: &mut Text, side: Side) -> Result<(), Memory> {
    match side {
        Side::Inside => out.put(b" ip nat inside\n"),
        Side::Outside => out.put(b" ip nat outside\n"),
        Side::Neither => Ok(()),
    }
}

/// Appends the lists of an interface.
fn put_groups(out: &mut Text, list: &Inward, names: &[Text], entry: u32) -> Result<(), Memory> {
    out.put(b" ip access-group ")?;
    put_list_name(out, names, &list.entries)?;
    out.put(b" in\n")?;
    if list.evaluates && entry > 1 {
        out.put(b" ip access-group ")?;
        out.put(name_at(names, entry))?;
        out.put(b"-OUT out\n")?;
    }
    Ok(())
}

/// Appends the lines of an interface.
pub(crate) fn put_interface(
    out: &mut Text,
    site: &Site,
    lists: &[Inward],
    names: &[Text],
    entry: u32,
    translates: bool,
) -> Result<(), Memory> {
    out.put(b"interface ")?;
    out.put(interface_name(site, Lang::Ios, entry))?;
    out.put(b"\n")?;
    if translates {
        put_side(out, side_of(site, entry))?;
    }
    for list in lists {
        if list.entries.contains(&entry) {
            put_groups(out, list, names, entry)?;
        }
    }
    Ok(())
}
