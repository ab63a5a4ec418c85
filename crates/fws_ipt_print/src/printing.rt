//! The text of a configuration.

ghost use Rattle.std.specs.Prelude.{◌≡◌, ◌++◌, true, Ok, IfOk, OnOk};
ghost use Rattle.fws_net.specs.SiteLaws.{IsOrderly};
ghost use Rattle.fws_net.specs.SiteSpelling.{lines_text};
ghost use Rattle.fws_ipt.specs.FileText.{spelled};
ghost use Rattle.fws_ipt_print.specs.Printable.{is_printable};
ghost use Rattle.fws_ipt_print.specs.PrintedText.{config_lines, config_text};
ghost use Rattle.fws_ipt_print.specs.ReadBack.{PrintedTextsAreRead};

use crate::lines::put_table;
use fws_ipt::{IptConfig, IptTable};
use fws_net::Site;
use fws_num::{
    Memory, Text, addresses_are_dotted, decimals_are_read, joined_are_divided, lines_are_read,
    numbers_are_digits, prefixes_are_read, quads_are_dotted, splits_back, words_are_read,
};
use fws_rules::orderly_sites_are_named;
use std::alloc::Global;

/// The text of a printable configuration is read as that configuration.
fn printed_texts_are_read()
    ensures { PrintedTextsAreRead }
{
    addresses_are_dotted();
    decimals_are_read();
    joined_are_divided();
    lines_are_read();
    numbers_are_digits();
    prefixes_are_read();
    quads_are_dotted();
    splits_back();
    words_are_read();
    orderly_sites_are_named();
}

/// Appends the tables.
fn put_tables(out: &mut Text, c: &IptConfig, site: &Site) -> Result<(), Memory>
    ensures { OnOk result (out.new ≡ out.old ++ lines_text (config_lines site.now c.now)) }
{
    put_table(out, site, c.chains.as_slice(), IptTable::Mangle)?;
    put_table(out, site, c.chains.as_slice(), IptTable::Nat)?;
    put_table(out, site, c.chains.as_slice(), IptTable::Filter)?;
    Ok(())
}

/// What stands ahead of the tables, as comments.
const HEAD: &[u8] =
    b"# Written by FWS for iptables-restore(8). Marks that mangle sets are those that nat asks for.\n# new-FIELD-N: what becomes of new packets, by a field. known-FIELD-N: packets of connections, as they enter.\n# reply-FIELD-N: packets of connections, behind routing. mark-N: sets the mark N and accepts.\n";

/// The text of a configuration, as iptables-save(8) writes it: comments, and the tables. Fails if memory runs out.
fn config_text(alloc: Global, c: &IptConfig, site: &Site) -> Result<Text, Memory>
    ensures { IfOk result (λ text. text ≡ config_text site.now c.now) }
{
    let mut out = Text::of(alloc, HEAD)?;
    put_tables(&mut out, c, site)?;
    Ok(out)
}

/// The text of a printable configuration, as iptables-save(8) writes it. It is read as that configuration. Fails if memory runs
/// out.
pub fn print(alloc: Global, c: &IptConfig, site: &Site) -> Result<Text, Memory>
    requires orderly { IsOrderly site.now }
    requires printable { is_printable site.now c.now ≡ true }
    ensures { IfOk result (λ text. spelled site.now text ≡ Ok c.now) }
{
    printed_texts_are_read();
    config_text(alloc, c, site)
}
