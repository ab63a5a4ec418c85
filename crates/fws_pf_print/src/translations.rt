//! Translations as they are printed.

ghost use Rattle.std.specs.Prelude.{◌≡◌, [], ◌∷◌, ◌++◌, codes, OnOk};
ghost use Rattle.std.specs.Option.{option_map_or};
ghost use Rattle.fws_net.specs.SiteSpelling.{net_word};
ghost use Rattle.fws_num.specs.Numbers.{dotted};
ghost use Rattle.fws_num.specs.Written.{ended, spaced};
ghost use Rattle.fws_print.specs.Words.{behind_blanks};
ghost use Rattle.fws_pf_print.specs.PrintedText.{end_port_words, end_words, front_words, options_words, static_words, tag_words, target_words, translation_lines, translation_words, verb_word};

use crate::tests::{put_front, put_options, put_tag};
use fws_net::{End, Site};
use fws_num::{Memory, Text};
use fws_pf::PfNat;
use fws_print::{put_address, put_network, put_number};

/// Appends what a translation does: destinations are written by `rdr`, and sources by `nat`.
fn put_verb(out: &mut Text, redirects: bool) -> Result<(), Memory>
    ensures { OnOk result (out.new ≡ out.old ++ verb_word redirects) }
{
    if redirects {
        out.put(b"rdr")
    } else {
        out.put(b"nat")
    }
}

/// Appends the port of an end, if it has one.
fn put_end_port(out: &mut Text, port: Option<u16>) -> Result<(), Memory>
    ensures { OnOk result (out.new ≡ out.old ++ behind_blanks (end_port_words port)) }
{
    if let Some(n) = port {
        out.put(b" port")?;
        put_number(out, u32::from(n))?;
    }
    Ok(())
}

/// Appends a whole address, and the port if there is one.
fn put_whole(out: &mut Text, e: End) -> Result<(), Memory>
    ensures { OnOk result (out.new ≡ out.old ++ behind_blanks (dotted e.addr ∷ end_port_words e.port)) }
{
    put_address(out, e.addr)?;
    put_end_port(out, e.port)?;
    Ok(())
}

/// Appends a network whose bits are written over the first bits of an address.
fn put_mapped(out: &mut Text, e: End) -> Result<(), Memory>
    ensures { OnOk result (out.new ≡ out.old ++ behind_blanks (net_word e.addr e.len ∷ codes "bitmask" ∷ [])) }
{
    put_network(out, e.addr, e.len)?;
    out.put(b" bitmask")?;
    Ok(())
}

/// Appends an end that is written.
fn put_end(out: &mut Text, e: End) -> Result<(), Memory>
    ensures { OnOk result (out.new ≡ out.old ++ behind_blanks (end_words e)) }
{
    if e.len == 32 {
        put_whole(out, e)
    } else {
        put_mapped(out, e)
    }
}

/// Appends that a source keeps its port.
fn put_static(out: &mut Text, redirects: bool) -> Result<(), Memory>
    ensures { OnOk result (out.new ≡ out.old ++ behind_blanks (static_words redirects)) }
{
    if redirects {
        out.put(b"")
    } else {
        out.put(b" static-port")
    }
}

/// Appends an end that is written, behind its arrow.
fn put_written(out: &mut Text, redirects: bool, e: End) -> Result<(), Memory>
    ensures { OnOk result (out.new ≡ out.old ++ behind_blanks (codes "->" ∷ end_words e ++ static_words redirects)) }
{
    out.put(b" ->")?;
    put_end(out, e)?;
    put_static(out, redirects)?;
    Ok(())
}

/// Appends the end that is written, if one is.
fn put_target(out: &mut Text, redirects: bool, to: Option<End>) -> Result<(), Memory>
    ensures { OnOk result (out.new ≡ out.old ++ behind_blanks (target_words redirects to)) }
{
    match to {
        Some(e) => put_written(out, redirects, e),
        None => out.put(b""),
    }
}

/// Appends a translation behind its first words.
fn put_body(out: &mut Text, site: &Site, redirects: bool, nat: &PfNat) -> Result<(), Memory>
    ensures { OnOk result (out.new ≡ out.old
        ++ behind_blanks (front_words site.now nat.now.cond ++ (tag_words nat.now.tag ++ (options_words nat.now.cond ++ target_words redirects nat.now.to)))) }
{
    put_front(out, site, nat.cond.lits())?;
    put_tag(out, nat.tag)?;
    put_options(out, nat.cond.lits())?;
    put_target(out, redirects, nat.to)?;
    Ok(())
}

/// Appends `no` ahead of a translation that writes nothing.
fn put_no(out: &mut Text, to: Option<End>) -> Result<(), Memory>
    ensures { OnOk result (out.new ≡ out.old ++ option_map_or (λ e. []) to (codes "no ")) }
{
    match to {
        Some(_) => out.put(b""),
        None => out.put(b"no "),
    }
}

/// Appends the line of a translation.
fn put_translation(out: &mut Text, site: &Site, redirects: bool, nat: &PfNat) -> Result<(), Memory>
    ensures { OnOk result (out.new ≡ out.old ++ ended (spaced (translation_words site.now redirects nat.now) ∷ [])) }
{
    put_no(out, nat.to)?;
    put_verb(out, redirects)?;
    put_body(out, site, redirects, nat)?;
    out.put(b"\n")?;
    Ok(())
}

/// Appends the lines of translations.
pub fn put_translations(
    out: &mut Text,
    site: &Site,
    redirects: bool,
    nats: &[PfNat],
) -> Result<(), Memory>
    ensures { OnOk result (out.new ≡ out.old ++ ended (translation_lines site.now redirects nats.now)) }
{
    for nat in nats {
        put_translation(out, site, redirects, nat)?;
    }
    Ok(())
}
