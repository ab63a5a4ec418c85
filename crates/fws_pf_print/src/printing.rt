//! The text of a configuration.

ghost use Rattle.std.specs.Prelude.{◌≡◌, [], ◌∷◌, ◌++◌, true, false, Ok, IfOk, OnOk};
ghost use Rattle.fws_net.specs.SiteLaws.{IsOrderly};
ghost use Rattle.fws_num.specs.Written.{ended};
ghost use Rattle.fws_pf.specs.FileText.{spelled};
ghost use Rattle.fws_pf_print.specs.Printable.{is_printable};
ghost use Rattle.fws_pf_print.specs.PrintedText.{config_text, filter_comment, rule_lines, section, translation_lines, translations_comment};
ghost use Rattle.fws_pf_print.specs.ReadBack.{PrintedTextsAreRead};

use crate::rules::put_rules;
use crate::translations::put_translations;
use fws_net::Site;
use fws_num::{
    Memory, Text, addresses_are_dotted, decimals_are_read, lines_are_read, numbers_are_digits,
    prefixes_are_read, quads_are_dotted, splits_back,
};
use fws_pf::{PfConfig, PfNat, PfRule};
use fws_rules::orderly_sites_are_named;
use std::alloc::Global;

/// The text of a printable configuration is read as that configuration.
fn printed_texts_are_read()
    ensures { PrintedTextsAreRead }
{
    addresses_are_dotted();
    decimals_are_read();
    lines_are_read();
    numbers_are_digits();
    prefixes_are_read();
    quads_are_dotted();
    splits_back();
    orderly_sites_are_named();
}

/// What stands ahead of the lines, as comments.
const HEAD: &[u8] =
    b"# Written by FWS for pf of FreeBSD. It is loaded with: pfctl -f FILE\n# Tags n0, n1 and so on stand for what was decided so far of a packet.\n";

/// Appends what translations do, as a comment.
fn put_translations_comment(out: &mut Text, redirects: bool) -> Result<(), Memory>
    ensures { OnOk result (out.new ≡ out.old ++ ended (translations_comment redirects ∷ [])) }
{
    if redirects {
        out.put(b"# Packets that come in: destinations are translated, and first tags are put.\n")
    } else {
        out.put(
            b"# Packets that go out: sources are translated, by the tags that were put as they came in.\n",
        )
    }
}

/// Appends the lines of translations, if there are any, behind a comment.
fn put_translation_section(
    out: &mut Text,
    site: &Site,
    redirects: bool,
    nats: &[PfNat],
) -> Result<(), Memory>
    ensures { OnOk result (out.new ≡ out.old ++ ended (section (translations_comment redirects) (translation_lines site.now redirects nats.now))) }
{
    if let [_, ..] = nats {
        put_translations_comment(out, redirects)?;
        put_translations(out, site, redirects, nats)?;
    }
    Ok(())
}

/// Appends the lines of rules, if there are any, behind a comment.
fn put_rule_section(out: &mut Text, site: &Site, rules: &[PfRule]) -> Result<(), Memory>
    ensures { OnOk result (out.new ≡ out.old ++ ended (section filter_comment (rule_lines site.now rules.now))) }
{
    if let [_, ..] = rules {
        out.put(
            b"# What becomes of packets: each rule tests one thing and a tag and puts the next tag. The last one that matches decides.\n",
        )?;
        put_rules(out, site, rules)?;
    }
    Ok(())
}

/// The text of a configuration: comments, translations and filter rules. Fails if memory runs out.
fn config_text(alloc: Global, c: &PfConfig, site: &Site) -> Result<Text, Memory>
    ensures { IfOk result (λ text. text ≡ config_text site.now c.now) }
{
    let mut out = Text::of(alloc, HEAD)?;
    put_translation_section(&mut out, site, true, c.rdr.as_slice())?;
    put_translation_section(&mut out, site, false, c.nat.as_slice())?;
    put_rule_section(&mut out, site, c.filter.as_slice())?;
    Ok(out)
}

/// The text of a printable configuration, as pfctl(8) loads it. It is read as that configuration. Fails if memory runs out.
pub fn print(alloc: Global, c: &PfConfig, site: &Site) -> Result<Text, Memory>
    requires orderly { IsOrderly site.now }
    requires printable { is_printable site.now c.now ≡ true }
    ensures { IfOk result (λ text. spelled site.now text ≡ Ok c.now) }
{
    printed_texts_are_read();
    config_text(alloc, c, site)
}
