//! The text of a configuration.

ghost use Rattle.std.specs.Prelude.{◌≡◌, ◌++◌, true, Ok, IfOk, OnOk};
ghost use Rattle.fws_net.specs.SiteLaws.{IsOrderly};
ghost use Rattle.fws_ipfw.specs.FileText.{spelled};
ghost use Rattle.fws_ipfw_print.specs.Printable.{is_printable};
ghost use Rattle.fws_ipfw_print.specs.PrintedText.{config_text};
ghost use Rattle.fws_ipfw_print.specs.ReadBack.{PrintedTextsAreRead};

use crate::instances::put_nats;
use crate::lines::put_rules;
use fws_ipfw::IpfwConfig;
use fws_iv::{many_ranges_add_members, same_members_same_list};
use fws_net::Site;
use fws_num::{
    Memory, Text, addresses_are_dotted, decimals_are_read, joined_are_divided, lines_are_read,
    numbers_are_digits, prefixes_are_read, quads_are_dotted, splits_back,
};
use fws_rules::orderly_sites_are_named;
use std::alloc::Global;

/// The text of a printable configuration is read as that configuration.
fn printed_texts_are_read()
    ensures { PrintedTextsAreRead }
{
    addresses_are_dotted();
    decimals_are_read();
    joined_are_divided();
    lines_are_read();
    numbers_are_digits();
    prefixes_are_read();
    quads_are_dotted();
    splits_back();
    many_ranges_add_members();
    same_members_same_list();
    orderly_sites_are_named();
}

/// What stands ahead of the lines, as comments.
const HEAD: &[u8] =
    b"# Written by FWS for ipfw(8). It is loaded with: ipfw -q FILE\n# Rules are added to those that are there: begin with an empty list (ipfw flush).\n# one_pass has to be as in the site file (sysctl net.inet.ip.fw.one_pass).\n";

/// The text of a configuration: comments, the instances and the rules. Fails if memory runs out.
fn config_text(alloc: Global, c: &IpfwConfig, site: &Site) -> Result<Text, Memory>
    ensures { IfOk result (λ text. text ≡ config_text site.now c.now) }
{
    let mut out = Text::of(alloc, HEAD)?;
    put_nats(&mut out, c.nats.as_slice())?;
    put_rules(&mut out, alloc, site, c.rules.as_slice())?;
    Ok(out)
}

/// The text of a printable configuration, as lines that ipfw(8) takes one by one. It is read as that configuration. Fails if memory
/// runs out.
pub fn print(alloc: Global, c: &IpfwConfig, site: &Site) -> Result<Text, Memory>
    requires orderly { IsOrderly site.now }
    requires printable { is_printable site.now c.now ≡ true }
    ensures { IfOk result (λ text. spelled site.now text ≡ Ok c.now) }
{
    printed_texts_are_read();
    config_text(alloc, c, site)
}
