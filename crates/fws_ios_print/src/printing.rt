//! The text of a configuration.

ghost use Rattle.std.specs.Prelude.{◌≡◌, [], ◌∷◌, ◌++◌, true, Ok, IfOk, OnOk};
ghost use Rattle.fws_net.specs.SiteLaws.{IsOrderly};
ghost use Rattle.fws_num.specs.Written.{ended};
ghost use Rattle.fws_ios.specs.FileText.{spelled};
ghost use Rattle.fws_ios_print.specs.Printable.{is_printable};
ghost use Rattle.fws_ios_print.specs.PrintedText.{config_text, list_lines, lists_comment, nats_comment, nats_lines, section};
ghost use Rattle.fws_ios_print.specs.ReadBack.{PrintedTextsAreRead};

use crate::interfaces::put_interfaces;
use crate::lists::put_lists;
use crate::translations::put_nats;
use fws_ios::{IosConfig, IosList, IosNat};
use fws_iv::{ranges_add_members, ranges_are_regular, same_members_same_list};
use fws_net::Site;
use fws_num::{
    Memory, Text, addresses_are_dotted, decimals_are_read, lines_are_read, numbers_are_digits,
    quads_are_dotted, words_are_read,
};
use fws_rules::orderly_sites_are_named;
use std::alloc::Global;

/// The text of a printable configuration is read as that configuration.
fn printed_texts_are_read()
    ensures { PrintedTextsAreRead }
{
    addresses_are_dotted();
    decimals_are_read();
    lines_are_read();
    numbers_are_digits();
    quads_are_dotted();
    words_are_read();
    ranges_add_members();
    ranges_are_regular();
    same_members_same_list();
    orderly_sites_are_named();
}

/// What stands ahead of the lines, as comments.
const HEAD: &[u8] =
    b"! Written by FWS for Cisco IOS. It is taken line by line in configuration mode.\n! CONNECTIONS keeps state of the packets that lists permit, and evaluate permits packets of their connections.\n! Interfaces: their sides, and the lists that their packets meet.\n";

/// Appends the lines of lists, if there are any, behind a comment.
fn put_list_section(out: &mut Text, lists: &[IosList]) -> Result<(), Memory>
    ensures { OnOk result (out.new ≡ out.old ++ ended (section lists_comment lists.now (list_lines lists.now))) }
{
    if let [_, ..] = lists {
        out.put(
            b"! Lists: the first entry that matches decides, and behind all of them packets are denied.\n",
        )?;
        put_lists(out, lists)?;
    }
    Ok(())
}

/// Appends the lines of translations, if there are any, behind a comment.
fn put_nat_section(out: &mut Text, nats: &[IosNat]) -> Result<(), Memory>
    ensures { OnOk result (out.new ≡ out.old ++ ended (section nats_comment nats.now (nats_lines 1 nats.now))) }
{
    if let [_, ..] = nats {
        out.put(
            b"! Sources of packets that go from inside to outside: the first translation whose list permits a packet applies.\n",
        )?;
        put_nats(out, nats)?;
    }
    Ok(())
}

/// The text of a configuration: comments, interfaces, lists and translations. Fails if memory runs out.
fn config_text(alloc: Global, c: &IosConfig, site: &Site) -> Result<Text, Memory>
    ensures { IfOk result (λ text. text ≡ config_text site.now c.now) }
{
    let mut out = Text::of(alloc, HEAD)?;
    put_interfaces(&mut out, c, site)?;
    put_list_section(&mut out, c.lists.as_slice())?;
    put_nat_section(&mut out, c.nats.as_slice())?;
    Ok(out)
}

/// The text of a printable configuration, as Cisco IOS takes it in configuration mode. It is read as that configuration. Fails if
/// memory runs out.
pub fn print(alloc: Global, c: &IosConfig, site: &Site) -> Result<Text, Memory>
    requires orderly { IsOrderly site.now }
    requires printable { is_printable site.now c.now ≡ true }
    ensures { IfOk result (λ text. spelled site.now text ≡ Ok c.now) }
{
    printed_texts_are_read();
    config_text(alloc, c, site)
}
