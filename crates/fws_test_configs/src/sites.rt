//! Texts of sites that must be accepted, or refused at a line for a cause, and how sites are spelled.

use crate::edits::{Edit, edited, read_edit};
use crate::found::fields_of;
use crate::numbers::decimal;
use crate::stop::Stop;
use fws_net::{SiteAnswer, SiteCause, put_site, read_site};
use fws_num::{Items, Text, split_once, value_named};
use std::alloc::Global;

/// The names of causes; none for a site that is accepted.
const CAUSES: [(&[u8], Option<SiteCause>); 5] = [
    (b"accepted", None),
    (b"syntax", Some(SiteCause::Syntax)),
    (b"overlap", Some(SiteCause::Overlap)),
    (b"names", Some(SiteCause::Names)),
    (b"count", Some(SiteCause::Count)),
];

/// How a site must read.
#[derive(Clone, Copy)]
struct Wanted {
    cause: Option<SiteCause>,
    line: u32,
}

/// What a field `CAUSE LINE` wants.
fn wanted_of(text: &[u8]) -> Result<Wanted, Stop> {
    let Some((cause, line)) = split_once(text, b' ') else {
        return Err(Stop::Malformed);
    };
    match value_named(&CAUSES, cause) {
        Some(cause) => Ok(Wanted {
            cause,
            line: decimal(line)?,
        }),
        None => Err(Stop::Malformed),
    }
}

/// Whether reading the text gives the cause at the line, or a site where there is no cause.
fn reads_so(alloc: Global, text: &[u8], wanted: Wanted) -> Result<bool, Stop> {
    match read_site(alloc, text) {
        Ok(_) => Ok(wanted.cause.is_none()),
        Err(SiteAnswer::Memory) => Err(Stop::Memory),
        Err(SiteAnswer::Refused { line, cause }) => {
            Ok(wanted.cause == Some(cause) && wanted.line == line)
        }
    }
}

/// The edits of fields.
fn edits_of(alloc: Global, fields: &[Text]) -> Result<Items<Edit>, Stop> {
    let mut edits = Items::new(alloc);
    for field in fields {
        edits.put(read_edit(alloc, field.as_slice())?)?;
    }
    Ok(edits)
}

/// The text of a base after the edits of fields.
fn changed(alloc: Global, base: &[u8], fields: &[Text]) -> Result<Text, Stop> {
    let edits = edits_of(alloc, fields)?;
    Ok(edited(alloc, base, edits.as_slice())?)
}

/// Whether a base after the edits of fields reads as the first of them says.
fn fields_read_so(alloc: Global, base: &[u8], fields: &[Text]) -> Result<bool, Stop> {
    let Some((wanted, changes)) = fields.split_first() else {
        return Err(Stop::Malformed);
    };
    let wanted = wanted_of(wanted.as_slice())?;
    let text = changed(alloc, base, changes)?;
    reads_so(alloc, text.as_slice(), wanted)
}

/// Whether a case `CAUSE LINE|EDIT|..` is so: the base after the edits reads as it says.
pub fn is_site_so(alloc: Global, base: &[u8], case: &[u8]) -> Result<bool, Stop> {
    let fields = fields_of(alloc, case)?;
    fields_read_so(alloc, base, fields.as_slice())
}

/// The text of the site that a text spells, in the second form.
fn spelled(alloc: Global, text: &[u8]) -> Result<Text, Stop> {
    match read_site(alloc, text) {
        Ok(site) => Ok(put_site(alloc, &site)?),
        Err(SiteAnswer::Memory) => Err(Stop::Memory),
        Err(SiteAnswer::Refused { .. }) => Err(Stop::Malformed),
    }
}

/// Whether the site of a text is spelled in the second form as expected.
pub fn is_spelled_so(alloc: Global, text: &[u8], expected: &[u8]) -> Result<bool, Stop> {
    let found = spelled(alloc, text)?;
    Ok(found.as_slice() == expected)
}
