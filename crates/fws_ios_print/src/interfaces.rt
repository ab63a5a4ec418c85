//! Interfaces as they are printed: their sides, and the lists that are applied there.

ghost use Rattle.std.specs.Prelude.{◌≡◌, nat_eq, [], ◌∷◌, ◌++◌, map, OnOk};
ghost use Rattle.fws_iv.specs.Ivs.{has, in_part};
ghost use Rattle.fws_num.specs.Written.{ended, spaced};
ghost use Rattle.fws_print.specs.Words.{behind_blanks};
ghost use Rattle.fws_ios_print.specs.PrintedText.{are_some, direction_word, face_lines, face_names, group_lines, group_words, groups_behind, inner_line, interface_lines, interface_words, interfaces_lines, side_lines};

use fws_ios::{IosConfig, IosGroup};
use fws_iv::Iv;
use fws_net::{Iface, Site};
use fws_num::{Memory, Text};
use fws_print::put_word;

/// Whether the range has the number.
fn in_part(iv: Iv, face: u128) -> bool
    ensures { result ≡ in_part iv face }
{
    iv.lo as u128 <= face && face <= iv.hi as u128
}

/// Whether the set has the entry.
fn has_face(set: &[Iv], face: u128) -> bool
    ensures { result ≡ has set.now face }
{
    set.iter().any(|iv| in_part(*iv, face))
}

/// Whether the list is applied at this interface.
fn is_at(group: &IosGroup, face: u128) -> bool
    ensures { result ≡ nat_eq group.now.face face }
{
    group.face as u128 == face
}

/// Appends the line of a side, for an interface that is on it.
fn put_side(out: &mut Text, side: &[u8], set: &[Iv], face: u128) -> Result<(), Memory>
    ensures { OnOk result (out.new ≡ out.old ++ ended (side_lines side.now set.now face)) }
{
    if has_face(set, face) {
        out.put(b" ip nat")?;
        put_word(out, side)?;
        out.put(b"\n")?;
    }
    Ok(())
}

/// Appends the direction in which packets meet a list, behind a blank.
fn put_direction(out: &mut Text, outward: bool) -> Result<(), Memory>
    ensures { OnOk result (out.new ≡ out.old ++ 32 ∷ direction_word outward) }
{
    if outward {
        out.put(b" out")
    } else {
        out.put(b" in")
    }
}

/// Appends the words of a list that is applied.
fn put_group_words(out: &mut Text, group: &IosGroup) -> Result<(), Memory>
    ensures { OnOk result (out.new ≡ out.old ++ behind_blanks (group_words group.now)) }
{
    out.put(b" ip access-group")?;
    put_word(out, group.list.as_slice())?;
    put_direction(out, group.outward)?;
    Ok(())
}

/// Appends the line of a list that is applied.
fn put_group(out: &mut Text, group: &IosGroup) -> Result<(), Memory>
    ensures { OnOk result (out.new ≡ out.old ++ ended (inner_line (group_words group.now) ∷ [])) }
{
    put_group_words(out, group)?;
    out.put(b"\n")?;
    Ok(())
}

/// Appends the lines of the lists that are applied at this interface, which stand ahead of others.
fn put_groups(out: &mut Text, face: u128, groups: &[IosGroup]) -> Result<(), Memory>
    ensures { OnOk result (out.new ≡ out.old ++ ended (group_lines face groups.now)) }
{
    let mut left = groups;
    while let [group, rest @ ..] = left {
        if !is_at(group, face) {
            return Ok(());
        }
        put_group(out, group)?;
        left = rest;
    }
    Ok(())
}

/// What stands behind the lists that are applied at this interface.
fn groups_behind(face: u128, groups: &[IosGroup]) -> &[IosGroup]
    ensures { result.now ≡ groups_behind face groups.now }
{
    let mut left = groups;
    while let [group, rest @ ..] = left {
        if !is_at(group, face) {
            return left;
        }
        left = rest;
    }
    left
}

/// Whether the first of the lists is applied at this interface.
fn begin_at(face: u128, groups: &[IosGroup]) -> bool
    ensures { result ≡ are_some (group_lines face groups.now) }
{
    match groups {
        [group, ..] => is_at(group, face),
        [] => false,
    }
}

/// Whether anything is said of an interface.
fn has_lines(c: &IosConfig, face: u128, groups: &[IosGroup]) -> bool
    ensures { result ≡ are_some (face_lines c.now face groups.now) }
{
    has_face(c.inside.parts(), face) || has_face(c.outside.parts(), face) || begin_at(face, groups)
}

/// Appends what is said of an interface.
fn put_face(out: &mut Text, c: &IosConfig, face: u128, groups: &[IosGroup]) -> Result<(), Memory>
    ensures { OnOk result (out.new ≡ out.old ++ ended (face_lines c.now face groups.now)) }
{
    put_side(out, b"inside", c.inside.parts(), face)?;
    put_side(out, b"outside", c.outside.parts(), face)?;
    put_groups(out, face, groups)?;
    Ok(())
}

/// Appends the line of an interface by its name.
fn put_opening(out: &mut Text, name: &[u8]) -> Result<(), Memory>
    ensures { OnOk result (out.new ≡ out.old ++ ended (spaced (interface_words name.now) ∷ [])) }
{
    out.put(b"interface")?;
    put_word(out, name)?;
    out.put(b"\n")?;
    Ok(())
}

/// Appends the lines of an interface, if anything is said of it.
fn put_interface(
    out: &mut Text,
    c: &IosConfig,
    face: u128,
    name: &[u8],
    groups: &[IosGroup],
) -> Result<(), Memory>
    ensures { OnOk result (out.new ≡ out.old ++ ended (interface_lines c.now face name.now groups.now)) }
{
    if has_lines(c, face, groups) {
        put_opening(out, name)?;
        put_face(out, c, face, groups)?;
    }
    Ok(())
}

/// Appends the lines of interfaces, the first of which has the entry number 2, and lists that are applied
/// from there on.
fn put_faces(
    out: &mut Text,
    c: &IosConfig,
    faces: &[Iface],
    groups: &[IosGroup],
) -> Result<(), Memory>
    ensures { OnOk result (out.new ≡ out.old ++ ended (interfaces_lines c.now 2 (map (λ face. face.names.ios) faces.now) groups.now)) }
{
    let mut left = groups;
    let mut number = 2u128;
    for face in faces {
        put_interface(out, c, number, face.names.ios.as_slice(), left)?;
        left = groups_behind(number, left);
        number += 1;
    }
    Ok(())
}

/// Appends the lines of all interfaces, that of loopback first.
pub fn put_interfaces(out: &mut Text, c: &IosConfig, site: &Site) -> Result<(), Memory>
    ensures { OnOk result (out.new ≡ out.old ++ ended (interfaces_lines c.now 1 (face_names site.now) c.now.groups)) }
{
    let groups = c.groups.as_slice();
    put_interface(out, c, 1, site.lo.ios.as_slice(), groups)?;
    put_faces(out, c, site.faces.as_slice(), groups_behind(1, groups))?;
    Ok(())
}
