//! Tests of conditions as they are printed.

ghost use Rattle.std.specs.Prelude.{◌≡◌, [], ◌∷◌, ◌++◌, codes, OnOk};
ghost use Rattle.std.specs.Fmt.{decimal};
ghost use Rattle.std.specs.List.{flat_map};
ghost use Rattle.fws_num.specs.Written.{has_slashes};
ghost use Rattle.fws_net.specs.declared.packet.Lang.TheVariants.{Ipfw};
ghost use Rattle.fws_rules.specs.Names.{interface_name};
ghost use Rattle.fws_ipfw_print.specs.Printable.{place_of};
ghost use Rattle.fws_print.specs.Sets.{first_number};
ghost use Rattle.fws_print.specs.Words.{behind_blanks};
ghost use Rattle.fws_ipfw_print.specs.PrintedText.{behind_place, condition_words, destination_tested, destination_word, literal_words, name_word, negated_words, protocol_tested, protocol_word, source_tested, source_word, test_words};

use crate::addresses::put_addresses;
use crate::values::{put_flag_test, put_ports, put_types};
use fws_iv::Ivs;
use fws_net::{Lang, Lit, Site, Test};
use fws_num::{Memory, Text};
use fws_print::{first_number, put_number, put_protocol, put_word};
use fws_rules::interface_name;
use std::alloc::Global;

/// The place of a test in a rule.
pub fn place_of(test: &Test) -> u8
    ensures { result ≡ place_of test.now }
{
    match test {
        Test::Proto(_) => 0,
        Test::Src(_) => 1,
        Test::Dst(_) => 2,
        Test::Outward => 3,
        Test::Recv(_) => 4,
        Test::Sport(_) => 5,
        Test::Dport(_) => 6,
        Test::Flags { .. } => 7,
        Test::Icmp(_) => 8,
        Test::Tag(_) => 9,
        Test::Est | Test::AnyFlag(_) | Test::Xmit(_) | Test::Via(_) | Test::Never => 10,
    }
}

/// Whether two slashes in a row stand in the text.
fn has_slashes(text: &[u8]) -> bool
    ensures { result ≡ has_slashes text.now }
{
    let mut left = text;
    while let [c, rest @ ..] = left {
        if *c == b'/' && matches!(rest, [b'/', ..]) {
            return true;
        }
        left = rest;
    }
    false
}

/// Appends a name, behind a blank; in quotes where two slashes stand in a row, which else begin a comment.
fn put_name(out: &mut Text, name: &[u8]) -> Result<(), Memory>
    ensures { OnOk result (out.new ≡ out.old ++ 32 ∷ name_word name.now) }
{
    if has_slashes(name) {
        out.put(b" \"")?;
        out.put(name)?;
        out.put(b"\"")?;
    } else {
        put_word(out, name)?;
    }
    Ok(())
}

/// Appends the test of a receiving interface.
fn put_interface(out: &mut Text, site: &Site, set: &Ivs) -> Result<(), Memory>
    ensures { OnOk result (out.new ≡ out.old ++ behind_blanks (codes "recv" ∷ name_word (interface_name Ipfw site.now (first_number set.now)) ∷ [])) }
{
    put_word(out, b"recv")?;
    put_name(
        out,
        interface_name(site, Lang::Ipfw, first_number(set.parts())),
    )?;
    Ok(())
}

/// Appends the test of a tag.
fn put_tagged(out: &mut Text, n: u32) -> Result<(), Memory>
    ensures { OnOk result (out.new ≡ out.old ++ behind_blanks (codes "tagged" ∷ decimal n ∷ [])) }
{
    put_word(out, b"tagged")?;
    put_number(out, n)?;
    Ok(())
}

/// Appends a test as an option of a rule.
fn put_test(out: &mut Text, alloc: Global, site: &Site, test: &Test) -> Result<(), Memory>
    ensures { OnOk result (out.new ≡ out.old ++ behind_blanks (test_words site.now test.now)) }
{
    match test {
        Test::Outward => out.put(b" out"),
        Test::Recv(set) => put_interface(out, site, set),
        Test::Sport(set) => put_ports(out, b"src-port", set.parts()),
        Test::Dport(set) => put_ports(out, b"dst-port", set.parts()),
        Test::Flags { mask, want } => put_flag_test(out, *mask, *want),
        Test::Icmp(set) => put_types(out, alloc, b"icmptypes", set.parts()),
        Test::Tag(n) => put_tagged(out, *n),
        Test::Proto(_)
        | Test::Src(_)
        | Test::Dst(_)
        | Test::Est
        | Test::AnyFlag(_)
        | Test::Xmit(_)
        | Test::Via(_)
        | Test::Never => out.put(b""),
    }
}

/// Appends a negated test as an option: `in`, and that no interface received the packet.
fn put_negated(out: &mut Text, test: &Test) -> Result<(), Memory>
    ensures { OnOk result (out.new ≡ out.old ++ behind_blanks (negated_words test.now)) }
{
    match test {
        Test::Outward => out.put(b" in"),
        Test::Recv(_) => out.put(b" not recv *"),
        Test::Proto(_)
        | Test::Src(_)
        | Test::Dst(_)
        | Test::Sport(_)
        | Test::Dport(_)
        | Test::Flags { .. }
        | Test::Icmp(_)
        | Test::Tag(_)
        | Test::Est
        | Test::AnyFlag(_)
        | Test::Xmit(_)
        | Test::Via(_)
        | Test::Never => out.put(b""),
    }
}

/// Appends a literal as an option.
fn put_literal(out: &mut Text, alloc: Global, site: &Site, lit: &Lit) -> Result<(), Memory>
    ensures { OnOk result (out.new ≡ out.old ++ behind_blanks (literal_words site.now lit.now)) }
{
    if lit.not {
        put_negated(out, &lit.test)
    } else {
        put_test(out, alloc, site, &lit.test)
    }
}

/// Appends the literals as options.
fn put_options(out: &mut Text, alloc: Global, site: &Site, lits: &[Lit]) -> Result<(), Memory>
    ensures { OnOk result (out.new ≡ out.old ++ behind_blanks (flat_map (literal_words site.now) lits.now)) }
{
    for lit in lits {
        put_literal(out, alloc, site, lit)?;
    }
    Ok(())
}

/// A condition without its first literal, if that tests what stands at this place.
fn behind_place(place: u8, cond: &[Lit]) -> &[Lit]
    ensures { result.now ≡ behind_place place cond.now }
{
    match cond {
        [] => cond,
        [lit, lits @ ..] => {
            if place_of(&lit.test) == place {
                lits
            } else {
                cond
            }
        }
    }
}

/// Appends a protocol that is tested; `ip` for another test.
fn put_protocol_tested(out: &mut Text, test: &Test) -> Result<(), Memory>
    ensures { OnOk result (out.new ≡ out.old ++ 32 ∷ protocol_tested test.now) }
{
    if let Test::Proto(set) = test {
        put_protocol(out, first_number(set.parts()))?;
    } else {
        out.put(b" ip")?;
    }
    Ok(())
}

/// Appends the protocol that a condition tests first; `ip` where it doesn't.
fn put_protocol_of(out: &mut Text, cond: &[Lit]) -> Result<(), Memory>
    ensures { OnOk result (out.new ≡ out.old ++ 32 ∷ protocol_word cond.now) }
{
    match cond {
        [lit, ..] => put_protocol_tested(out, &lit.test),
        [] => out.put(b" ip"),
    }
}

/// Appends sources that are tested; `any` for another test.
fn put_source_tested(out: &mut Text, alloc: Global, test: &Test) -> Result<(), Memory>
    ensures { OnOk result (out.new ≡ out.old ++ 32 ∷ source_tested test.now) }
{
    if let Test::Src(set) = test {
        put_addresses(out, alloc, set.parts())?;
    } else {
        out.put(b" any")?;
    }
    Ok(())
}

/// Appends the sources that a condition tests first; `any` where it doesn't.
fn put_source_of(out: &mut Text, alloc: Global, cond: &[Lit]) -> Result<(), Memory>
    ensures { OnOk result (out.new ≡ out.old ++ 32 ∷ source_word cond.now) }
{
    match cond {
        [lit, ..] => put_source_tested(out, alloc, &lit.test),
        [] => out.put(b" any"),
    }
}

/// Appends destinations that are tested; `any` for another test.
fn put_destination_tested(out: &mut Text, alloc: Global, test: &Test) -> Result<(), Memory>
    ensures { OnOk result (out.new ≡ out.old ++ 32 ∷ destination_tested test.now) }
{
    if let Test::Dst(set) = test {
        put_addresses(out, alloc, set.parts())?;
    } else {
        out.put(b" any")?;
    }
    Ok(())
}

/// Appends the destinations that a condition tests first; `any` where it doesn't.
fn put_destination_of(out: &mut Text, alloc: Global, cond: &[Lit]) -> Result<(), Memory>
    ensures { OnOk result (out.new ≡ out.old ++ 32 ∷ destination_word cond.now) }
{
    match cond {
        [lit, ..] => put_destination_tested(out, alloc, &lit.test),
        [] => out.put(b" any"),
    }
}

/// Appends the sources that a condition tests first, behind their keyword.
fn put_from(out: &mut Text, alloc: Global, cond: &[Lit]) -> Result<(), Memory>
    ensures { OnOk result (out.new ≡ out.old ++ behind_blanks (codes "from" ∷ source_word cond.now ∷ [])) }
{
    put_word(out, b"from")?;
    put_source_of(out, alloc, cond)?;
    Ok(())
}

/// Appends the destinations that a condition tests first, behind their keyword.
fn put_to(out: &mut Text, alloc: Global, cond: &[Lit]) -> Result<(), Memory>
    ensures { OnOk result (out.new ≡ out.old ++ behind_blanks (codes "to" ∷ destination_word cond.now ∷ [])) }
{
    put_word(out, b"to")?;
    put_destination_of(out, alloc, cond)?;
    Ok(())
}

/// Appends what a rule tests: the protocol, the source, the destination, and the other tests as options.
pub fn put_condition(out: &mut Text, alloc: Global, site: &Site, cond: &[Lit]) -> Result<(), Memory>
    ensures { OnOk result (out.new ≡ out.old ++ behind_blanks (condition_words site.now cond.now)) }
{
    let behind_protocol = behind_place(0, cond);
    let behind_source = behind_place(1, behind_protocol);
    put_protocol_of(out, cond)?;
    put_from(out, alloc, behind_protocol)?;
    put_to(out, alloc, behind_source)?;
    put_options(out, alloc, site, behind_place(2, behind_source))?;
    Ok(())
}
