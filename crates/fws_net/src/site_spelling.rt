//! The text of a site in the second form.

ghost use Rattle.std.specs.Prelude.{◌≡◌, ◌++◌, ◌∷◌, [], map, codes, OnOk, IfOk, if◌then◌else◌};
ghost use Rattle.fws_num.specs.Written.{spaced};
ghost use Rattle.fws_net.specs.SiteLaws.{IsRead};
ghost use Rattle.fws_net.specs.SiteSpelling.{side_word, name_words, net_word, face_line, address_line, address_lines, name_at, route_line, last_lines, lines_text, site2_text};
ghost use Rattle.fws_net.specs.SiteText.{site_of};

use crate::routes::FIRST_ENTRY;
use crate::site::{Address, Iface, Names, RouteLine, Side, Site};
use crate::site_laws::{read_sites_are_orderly, spelled_sites_are_read};
use fws_num::{Memory, Text, put_dec, put_quad};
use std::alloc::Global;

/// Appends a blank and a word.
fn put_word(out: &mut Text, word: &[u8]) -> Result<(), Memory>
    ensures { OnOk result (out.new ≡ out.old ++ 32 ∷ word.now) }
{
    out.put(b" ")?;
    out.put(word)?;
    Ok(())
}

/// Appends a blank, a front such as `ipt=` and the name behind it.
fn put_name(out: &mut Text, front: &[u8], name: &Text) -> Result<(), Memory>
    ensures { OnOk result (out.new ≡ out.old ++ 32 ∷ (front.now ++ name.now)) }
{
    put_word(out, front)?;
    out.put(name.as_slice())?;
    Ok(())
}

/// Appends the names in the four systems, behind a blank.
fn put_names(out: &mut Text, names: &Names) -> Result<(), Memory>
    ensures { OnOk result (out.new ≡ out.old ++ 32 ∷ spaced (name_words names.now)) }
{
    put_name(out, b"ipt=", &names.ipt)?;
    put_name(out, b"ipfw=", &names.ipfw)?;
    put_name(out, b"pf=", &names.pf)?;
    put_name(out, b"ios=", &names.ios)?;
    Ok(())
}

/// Appends the side of a translation, behind a blank.
fn put_side(out: &mut Text, side: Side) -> Result<(), Memory>
    ensures { OnOk result (out.new ≡ out.old ++ 32 ∷ side_word side) }
{
    match side {
        Side::Neither => put_word(out, b"nat=none"),
        Side::Inside => put_word(out, b"nat=inside"),
        Side::Outside => put_word(out, b"nat=outside"),
    }
}

/// Appends an address and a length, behind a blank.
fn put_net(out: &mut Text, addr: u32, len: u8) -> Result<(), Memory>
    ensures { OnOk result (out.new ≡ out.old ++ 32 ∷ net_word addr len) }
{
    out.put(b" ")?;
    put_quad(out, addr)?;
    out.put(b"/")?;
    put_dec(out, u64::from(len))?;
    Ok(())
}

/// Appends the line of an interface.
fn put_face(out: &mut Text, face: &Iface) -> Result<(), Memory>
    ensures { OnOk result (out.new ≡ out.old ++ lines_text (face_line face.now ∷ [])) }
{
    out.put(b"interface")?;
    put_word(out, face.name.as_slice())?;
    put_names(out, &face.names)?;
    put_side(out, face.side)?;
    out.put(b"\n")?;
    Ok(())
}

/// Appends the lines of interfaces.
fn put_faces(out: &mut Text, faces: &[Iface]) -> Result<(), Memory>
    ensures { OnOk result (out.new ≡ out.old ++ lines_text (map face_line faces.now)) }
{
    for face in faces {
        put_face(out, face)?;
    }
    Ok(())
}

/// Appends the line of an address of the interface with this name.
fn put_address(out: &mut Text, name: &[u8], own: Address) -> Result<(), Memory>
    ensures { OnOk result (out.new ≡ out.old ++ lines_text (address_line name.now own ∷ [])) }
{
    out.put(b"address")?;
    put_word(out, name)?;
    put_net(out, own.addr, own.len)?;
    out.put(b"\n")?;
    Ok(())
}

/// Appends the lines of the addresses of the interface with this name.
fn put_addresses_of(out: &mut Text, name: &[u8], addrs: &[Address]) -> Result<(), Memory>
    ensures { OnOk result (out.new ≡ out.old ++ lines_text (map (address_line name.now) addrs.now)) }
{
    for own in addrs {
        put_address(out, name, *own)?;
    }
    Ok(())
}

/// Appends the lines of the interfaces' addresses.
fn put_addresses(out: &mut Text, faces: &[Iface]) -> Result<(), Memory>
    ensures { OnOk result (out.new ≡ out.old ++ lines_text (address_lines faces.now)) }
{
    for face in faces {
        put_addresses_of(out, face.name.as_slice(), face.addrs.as_slice())?;
    }
    Ok(())
}

/// Appends the name of the interface with this entry, behind a blank.
fn put_name_at(out: &mut Text, faces: &[Iface], entry: u8) -> Result<(), Memory>
    ensures { OnOk result (out.new ≡ out.old ++ 32 ∷ name_at faces.now entry) }
{
    match faces.get(usize::from(entry.saturating_sub(FIRST_ENTRY))) {
        Some(face) => put_word(out, face.name.as_slice()),
        None => put_word(out, b""),
    }
}

/// Appends the line of a route.
fn put_route(out: &mut Text, faces: &[Iface], line: RouteLine) -> Result<(), Memory>
    ensures { OnOk result (out.new ≡ out.old ++ lines_text (route_line faces.now line ∷ [])) }
{
    out.put(b"route")?;
    put_net(out, line.net.addr, line.net.len)?;
    put_name_at(out, faces, line.face)?;
    out.put(b"\n")?;
    Ok(())
}

/// Appends the lines of routes.
fn put_routes(out: &mut Text, faces: &[Iface], routes: &[RouteLine]) -> Result<(), Memory>
    ensures { OnOk result (out.new ≡ out.old ++ lines_text (map (route_line faces.now) routes.now)) }
{
    for line in routes {
        put_route(out, faces, *line)?;
    }
    Ok(())
}

/// Appends the line of loopback.
fn put_loopback(out: &mut Text, names: &Names) -> Result<(), Memory>
    ensures { OnOk result (out.new ≡ out.old ++ lines_text ((codes "loopback" ∷ name_words names.now) ∷ [])) }
{
    out.put(b"loopback")?;
    put_names(out, names)?;
    out.put(b"\n")?;
    Ok(())
}

/// Appends the line of the default interface.
fn put_default(out: &mut Text, faces: &[Iface], entry: u8) -> Result<(), Memory>
    ensures { OnOk result (out.new ≡ out.old ++ lines_text ((codes "default" ∷ name_at faces.now entry ∷ []) ∷ [])) }
{
    out.put(b"default")?;
    put_name_at(out, faces, entry)?;
    out.put(b"\n")?;
    Ok(())
}

/// Appends a line with one of two words behind a keyword.
fn put_choice(
    out: &mut Text,
    key: &[u8],
    chosen: bool,
    yes_word: &[u8],
    no_word: &[u8],
) -> Result<(), Memory>
    ensures { OnOk result (out.new ≡ out.old ++ lines_text ((key.now ∷ (if chosen then yes_word.now else no_word.now) ∷ []) ∷ [])) }
{
    out.put(key)?;
    if chosen {
        put_word(out, yes_word)?;
    } else {
        put_word(out, no_word)?;
    }
    out.put(b"\n")?;
    Ok(())
}

/// Appends the last four lines.
fn put_last_lines(out: &mut Text, site: &Site) -> Result<(), Memory>
    ensures { OnOk result (out.new ≡ out.old ++ lines_text (last_lines site.now)) }
{
    put_loopback(out, &site.lo)?;
    put_default(out, site.faces.as_slice(), site.fallback)?;
    put_choice(out, b"forwarding", site.forwarding, b"yes", b"no")?;
    put_choice(out, b"one_pass", site.one_pass, b"1", b"0")?;
    Ok(())
}

/// Appends all lines.
fn put_lines(out: &mut Text, site: &Site) -> Result<(), Memory>
    ensures { OnOk result (out.new ≡ out.old ++ site2_text site.now) }
{
    out.put(b"site 2\n")?;
    put_faces(out, site.faces.as_slice())?;
    put_addresses(out, site.faces.as_slice())?;
    put_routes(out, site.faces.as_slice(), site.routes.as_slice())?;
    put_last_lines(out, site)?;
    Ok(())
}

/// The text of a site in the second form: the lines of the interfaces, of their addresses in the same order, of the routes in
/// theirs, and the last four lines, with one blank between words. It asks for a site that some text spells; the text is read as
/// that site. Fails if memory runs out.
pub fn put_site(alloc: Global, site: &Site) -> Result<Text, Memory>
    requires { IsRead site.now }
    ensures spelled { IfOk result (λ text. text ≡ site2_text site.now) }
    ensures read_back { IfOk result (λ text. site_of text ≡ Ok site.now) }
{
    read_sites_are_orderly();
    spelled_sites_are_read();
    let mut out = Text::new(alloc);
    put_lines(&mut out, site)?;
    Ok(out)
}
