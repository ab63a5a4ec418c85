//! The words of the fields of a row.

ghost use Rattle.std.specs.Prelude.{◌≡◌, ◌≤◌, ◌+◌, ◌-◌, ◌<◌, [], ◌∷◌, ◌++◌, OnOk, All, map};
ghost use Rattle.std.specs.List.{join_with_byte};
ghost use Rattle.fws_table.specs.TableText.{entry_name, range_text, part_text, is_whole, side_text};
ghost use Rattle.std.specs.Fmt.{decimal};
ghost use Rattle.fws_num.specs.Numbers.{dotted};

use crate::field::Kind;
use fws_iv::{Iv, Ivs};
use fws_net::Site;
use fws_num::{Memory, Text, put_dec, put_quad};

fn is_whole(top: u32, parts: &[Iv]) -> bool
    ensures { result ≡ is_whole top parts.now }
{
    match parts {
        [part] => part.lo == 0 && part.hi == top,
        _ => false,
    }
}

/// Appends the name of an entry.
fn put_entry(out: &mut Text, site: &Site, entry: u64) -> Result<(), Memory>
    ensures { OnOk result (out.new ≡ out.old ++ entry_name site.now entry) }
{
    if entry == 0 {
        return out.put(b"host");
    }
    if entry == 1 {
        return out.put(b"lo");
    }
    match site.faces.as_slice().get(entry as usize - 2) {
        Some(face) => out.put(face.name.as_slice()),
        None => Ok(()),
    }
}

/// Appends the names of the entries of an interval with commas between.
fn put_entries(out: &mut Text, site: &Site, part: &Iv) -> Result<(), Memory>
    requires { part.now.lo ≤ part.now.hi }
    ensures { OnOk result (out.new ≡ out.old ++ part_text site.now Kind.Entry part.now) }
{
    let least = u64::from(part.lo);
    for entry in least..u64::from(part.hi) + 1 {
        if entry > least {
            out.put(b",")?;
        }
        put_entry(out, site, entry)?;
    }
    Ok(())
}

fn put_numbers(out: &mut Text, part: &Iv) -> Result<(), Memory>
    ensures { OnOk result (out.new ≡ out.old ++ range_text decimal part.now) }
{
    put_dec(out, u64::from(part.lo))?;
    if part.lo != part.hi {
        out.put(b"-")?;
        put_dec(out, u64::from(part.hi))?;
    }
    Ok(())
}

fn put_addresses(out: &mut Text, part: &Iv) -> Result<(), Memory>
    ensures { OnOk result (out.new ≡ out.old ++ range_text dotted part.now) }
{
    put_quad(out, part.lo)?;
    if part.lo != part.hi {
        out.put(b"-")?;
        put_quad(out, part.hi)?;
    }
    Ok(())
}

/// Appends what an interval is written as.
fn put_part(out: &mut Text, site: &Site, kind: Kind, part: &Iv) -> Result<(), Memory>
    requires { part.now.lo ≤ part.now.hi }
    ensures { OnOk result (out.new ≡ out.old ++ part_text site.now kind part.now) }
{
    match kind {
        Kind::Entry => put_entries(out, site, part),
        Kind::Number => put_numbers(out, part),
        Kind::Address => put_addresses(out, part),
    }
}

/// Appends what the intervals are written as with commas between.
fn put_parts(out: &mut Text, site: &Site, kind: Kind, parts: &[Iv]) -> Result<(), Memory>
    requires { All (λ part. part.lo ≤ part.hi) parts.now }
    ensures { OnOk result (out.new ≡ out.old ++ join_with_byte 44 (map (part_text site.now kind) parts.now)) }
{
    for (place, part) in parts.iter().enumerate() {
        if place > 0 {
            out.put(b",")?;
        }
        put_part(out, site, kind, part)?;
    }
    Ok(())
}

/// Appends the word of a field.
pub(crate) fn put_side(
    out: &mut Text,
    site: &Site,
    kind: Kind,
    top: u32,
    side: &Ivs,
) -> Result<(), Memory>
    ensures { OnOk result (out.new ≡ out.old ++ side_text site.now kind top side.now) }
{
    let parts = side.parts();
    if is_whole(top, parts) {
        return out.put(b"*");
    }
    put_parts(out, site, kind, parts)
}
