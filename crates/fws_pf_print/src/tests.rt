//! Tests of conditions as they are printed.

ghost use Rattle.std.specs.Prelude.{◌≡◌, [], ◌∷◌, ◌++◌, codes, OnOk};
ghost use Rattle.std.specs.Fmt.{decimal};
ghost use Rattle.fws_num.specs.Numbers.{lacks};
ghost use Rattle.fws_net.specs.declared.packet.Lang.TheVariants.{Pf};
ghost use Rattle.fws_rules.specs.Names.{interface_name};
ghost use Rattle.fws_pf_print.specs.Printable.{tag_name};
ghost use Rattle.fws_print.specs.Words.{behind_blanks, protocol_name};
ghost use Rattle.fws_pf_print.specs.PrintedText.{ends_in_digit, front_words, hosts_words, interface_words, is_bare_name, name_word, option_words, options_words, ports_word, ports_words, protocol_words, sides_words, tag_words};

use crate::addresses::put_addresses;
use crate::conditions::{tested, tests_hosts};
use crate::tags::put_tag_name;
use crate::values::put_flag_test;
use fws_iv::Iv;
use fws_net::{Lang, Lit, Site, Test};
use fws_num::{Memory, Text};
use fws_print::{first_number, put_number, put_protocol, put_range, put_word};
use fws_rules::interface_name;

/// Whether the last byte is a digit.
fn ends_in_digit(text: &[u8]) -> bool
    ensures { result ≡ ends_in_digit text.now }
{
    let mut left = text;
    while let [c, rest @ ..] = left {
        if let [] = rest {
            return b'0' <= *c && *c <= b'9';
        }
        left = rest;
    }
    false
}

/// Whether no byte is a slash.
fn lacks_slash(text: &[u8]) -> bool
    ensures { result ≡ lacks 47 text.now }
{
    text.iter().all(|c| *c != b'/')
}

/// Whether pfctl(8) takes the name without quotes: it has no slash and ends in a digit, as no keyword does
/// but these.
fn is_bare_name(name: &[u8]) -> bool
    ensures { result ≡ is_bare_name name.now }
{
    lacks_slash(name)
        && ends_in_digit(name)
        && name != b"inet6".as_slice()
        && name != b"l3".as_slice()
}

/// Appends a name, behind a blank; in quotes where it may need them.
fn put_name(out: &mut Text, name: &[u8]) -> Result<(), Memory>
    ensures { OnOk result (out.new ≡ out.old ++ 32 ∷ name_word name.now) }
{
    if is_bare_name(name) {
        put_word(out, name)?;
    } else {
        out.put(b" \"")?;
        out.put(name)?;
        out.put(b"\"")?;
    }
    Ok(())
}

/// Appends the name of an entry's interface, behind its keyword.
fn put_on(out: &mut Text, site: &Site, entry: u32) -> Result<(), Memory>
    ensures { OnOk result (out.new ≡ out.old ++ behind_blanks (codes "on" ∷ name_word (interface_name Pf site.now entry) ∷ [])) }
{
    put_word(out, b"on")?;
    put_name(out, interface_name(site, Lang::Pf, entry))?;
    Ok(())
}

/// Appends the interface that is asked for, if one is.
fn put_interface(out: &mut Text, site: &Site, set: &[Iv]) -> Result<(), Memory>
    ensures { OnOk result (out.new ≡ out.old ++ behind_blanks (interface_words site.now set.now)) }
{
    match set {
        [iv, ..] => put_on(out, site, iv.lo),
        [] => out.put(b""),
    }
}

/// Appends a protocol, behind its keyword.
fn put_proto(out: &mut Text, n: u32) -> Result<(), Memory>
    ensures { OnOk result (out.new ≡ out.old ++ behind_blanks (codes "proto" ∷ protocol_name n ∷ [])) }
{
    put_word(out, b"proto")?;
    put_protocol(out, n)?;
    Ok(())
}

/// Appends the protocol that is asked for, if one is.
fn put_protocol_of(out: &mut Text, set: &[Iv]) -> Result<(), Memory>
    ensures { OnOk result (out.new ≡ out.old ++ behind_blanks (protocol_words set.now)) }
{
    match set {
        [iv, ..] => put_proto(out, iv.lo),
        [] => out.put(b""),
    }
}

/// Appends a range of ports, behind its keyword.
fn put_port(out: &mut Text, iv: Iv) -> Result<(), Memory>
    ensures { OnOk result (out.new ≡ out.old ++ behind_blanks (codes "port" ∷ ports_word iv ∷ [])) }
{
    out.put(b" port ")?;
    put_range(out, b':', iv)?;
    Ok(())
}

/// Appends the ports that are asked for, if any are.
fn put_ports_of(out: &mut Text, set: &[Iv]) -> Result<(), Memory>
    ensures { OnOk result (out.new ≡ out.old ++ behind_blanks (ports_words set.now)) }
{
    match set {
        [iv, ..] => put_port(out, *iv),
        [] => out.put(b""),
    }
}

/// Appends the addresses and ports of either side.
fn put_sides(out: &mut Text, cond: &[Lit]) -> Result<(), Memory>
    ensures { OnOk result (out.new ≡ out.old ++ behind_blanks (sides_words cond.now)) }
{
    out.put(b" from")?;
    put_addresses(out, tested(cond, 2))?;
    put_ports_of(out, tested(cond, 3))?;
    out.put(b" to")?;
    put_addresses(out, tested(cond, 4))?;
    put_ports_of(out, tested(cond, 5))?;
    Ok(())
}

/// Appends the addresses and ports that are asked for; `all` where none are.
fn put_hosts(out: &mut Text, cond: &[Lit]) -> Result<(), Memory>
    ensures { OnOk result (out.new ≡ out.old ++ behind_blanks (hosts_words cond.now)) }
{
    if tests_hosts(cond) {
        put_sides(out, cond)
    } else {
        out.put(b" all")
    }
}

/// Appends what stands ahead of options: the interface, the protocol, addresses and ports.
pub fn put_front(out: &mut Text, site: &Site, cond: &[Lit]) -> Result<(), Memory>
    ensures { OnOk result (out.new ≡ out.old ++ behind_blanks (front_words site.now cond.now)) }
{
    put_interface(out, site, tested(cond, 0))?;
    put_protocol_of(out, tested(cond, 1))?;
    put_hosts(out, cond)?;
    Ok(())
}

/// Appends the test of an ICMP type.
fn put_type(out: &mut Text, n: u32) -> Result<(), Memory>
    ensures { OnOk result (out.new ≡ out.old ++ behind_blanks (codes "icmp-type" ∷ decimal n ∷ [])) }
{
    put_word(out, b"icmp-type")?;
    put_number(out, n)?;
    Ok(())
}

/// Appends a word and the name of a tag.
pub fn put_tagged(out: &mut Text, word: &[u8], n: u32) -> Result<(), Memory>
    ensures { OnOk result (out.new ≡ out.old ++ behind_blanks (word.now ∷ tag_name n ∷ [])) }
{
    put_word(out, word)?;
    put_tag_name(out, n)?;
    Ok(())
}

/// Appends a test as an option of a rule; those that stand ahead of options are none.
fn put_option(out: &mut Text, test: &Test) -> Result<(), Memory>
    ensures { OnOk result (out.new ≡ out.old ++ behind_blanks (option_words test.now)) }
{
    match test {
        Test::Flags { mask, want } => put_flag_test(out, *mask, *want),
        Test::Icmp(set) => put_type(out, first_number(set.parts())),
        Test::Tag(n) => put_tagged(out, b"tagged", *n),
        Test::Via(_)
        | Test::Proto(_)
        | Test::Src(_)
        | Test::Sport(_)
        | Test::Dst(_)
        | Test::Dport(_)
        | Test::Recv(_)
        | Test::Xmit(_)
        | Test::Outward
        | Test::Est
        | Test::AnyFlag(_)
        | Test::Never => out.put(b""),
    }
}

/// Appends the tests of a condition that are options.
pub fn put_options(out: &mut Text, cond: &[Lit]) -> Result<(), Memory>
    ensures { OnOk result (out.new ≡ out.old ++ behind_blanks (options_words cond.now)) }
{
    for lit in cond {
        put_option(out, &lit.test)?;
    }
    Ok(())
}

/// Appends the tag that is put, if one is.
pub fn put_tag(out: &mut Text, tag: Option<u32>) -> Result<(), Memory>
    ensures { OnOk result (out.new ≡ out.old ++ behind_blanks (tag_words tag)) }
{
    match tag {
        Some(n) => put_tagged(out, b"tag", n),
        None => out.put(b""),
    }
}
