//! Literals of conditions as they are printed.

ghost use Rattle.std.specs.Prelude.{◌≡◌, [], ◌∷◌, ◌++◌, codes, OnOk};
ghost use Rattle.std.specs.Fmt.{decimal};
ghost use Rattle.std.specs.List.{flat_map};
ghost use Rattle.fws_net.specs.declared.packet.Lang.TheVariants.{Iptables};
ghost use Rattle.fws_rules.specs.Names.{interface_name};
ghost use Rattle.fws_print.specs.Words.{behind_blanks, protocol_name};
ghost use Rattle.fws_ipt_print.specs.PrintedText.{address_words, class_word, first_part, flags_word, literal_words, mark_word, port_module, port_words, test_words};

use crate::numbers::{first_part, put_addresses, put_mark, put_option};
use crate::ports::{port_module, put_flags, put_ports};
use fws_iv::Ivs;
use fws_net::{Lang, Lit, Site, Test};
use fws_num::{Memory, Text, put_dec};
use fws_print::{put_protocol, put_word};
use fws_rules::interface_name;

/// Appends the test of a protocol.
fn put_proto(out: &mut Text, set: &Ivs) -> Result<(), Memory>
    ensures { OnOk result (out.new ≡ out.old ++ behind_blanks (codes "-p" ∷ protocol_name (first_part set.now).lo ∷ [])) }
{
    put_word(out, b"-p")?;
    put_protocol(out, first_part(set).lo)?;
    Ok(())
}

/// Appends the test of flags.
fn put_flag_test(out: &mut Text, mask: u8, want: u8) -> Result<(), Memory>
    ensures { OnOk result (out.new ≡ out.old
        ++ behind_blanks (codes "-m" ∷ codes "tcp" ∷ codes "--tcp-flags" ∷ flags_word mask ∷ flags_word want ∷ [])) }
{
    out.put(b" -m tcp --tcp-flags")?;
    put_flags(out, mask)?;
    put_flags(out, want)?;
    Ok(())
}

/// Appends the test of an ICMP type.
fn put_icmp(out: &mut Text, kind: u32) -> Result<(), Memory>
    ensures { OnOk result (out.new ≡ out.old ++ behind_blanks (codes "-m" ∷ codes "icmp" ∷ codes "--icmp-type" ∷ decimal kind ∷ [])) }
{
    put_option(out, b"icmp", b"--icmp-type")?;
    out.put(b" ")?;
    put_dec(out, u64::from(kind))?;
    Ok(())
}

/// Appends the test of a receiving interface.
fn put_interface(out: &mut Text, site: &Site, set: &Ivs) -> Result<(), Memory>
    ensures { OnOk result (out.new ≡ out.old ++ behind_blanks (codes "-i" ∷ interface_name Iptables site.now (first_part set.now).lo ∷ [])) }
{
    put_word(out, b"-i")?;
    put_word(
        out,
        interface_name(site, Lang::Iptables, first_part(set).lo),
    )?;
    Ok(())
}

/// The states of connections that a class has.
fn class_word(is_new: bool) -> &'static [u8]
    ensures { result.now ≡ class_word is_new }
{
    if is_new {
        b"NEW"
    } else {
        b"RELATED,ESTABLISHED"
    }
}

/// Appends the test of the class.
fn put_class(out: &mut Text, is_new: bool) -> Result<(), Memory>
    ensures { OnOk result (out.new ≡ out.old ++ behind_blanks (codes "-m" ∷ codes "conntrack" ∷ codes "--ctstate" ∷ class_word is_new ∷ [])) }
{
    put_option(out, b"conntrack", b"--ctstate")?;
    put_word(out, class_word(is_new))?;
    Ok(())
}

/// Appends the test of a mark.
fn put_tag(out: &mut Text, v: u32) -> Result<(), Memory>
    ensures { OnOk result (out.new ≡ out.old ++ behind_blanks (codes "-m" ∷ codes "mark" ∷ codes "--mark" ∷ mark_word v ∷ [])) }
{
    out.put(b" -m mark --mark ")?;
    put_mark(out, v)?;
    Ok(())
}

/// Appends the test of a source address.
fn put_src(out: &mut Text, set: &Ivs) -> Result<(), Memory>
    ensures { OnOk result (out.new ≡ out.old ++ behind_blanks (address_words (codes "-s") (codes "--src-range") (first_part set.now))) }
{
    put_addresses(out, b"-s", b"--src-range", first_part(set))?;
    Ok(())
}

/// Appends the test of a destination address.
fn put_dst(out: &mut Text, set: &Ivs) -> Result<(), Memory>
    ensures { OnOk result (out.new ≡ out.old ++ behind_blanks (address_words (codes "-d") (codes "--dst-range") (first_part set.now))) }
{
    put_addresses(out, b"-d", b"--dst-range", first_part(set))?;
    Ok(())
}

/// Appends the test of a source port.
fn put_sport(out: &mut Text, cond: &[Lit], set: &Ivs) -> Result<(), Memory>
    ensures { OnOk result (out.new ≡ out.old ++ behind_blanks (port_words (port_module cond.now) (codes "--sport") (codes "--sports") set.now)) }
{
    put_ports(out, port_module(cond), b"--sport", b"--sports", set.parts())?;
    Ok(())
}

/// Appends the test of a destination port.
fn put_dport(out: &mut Text, cond: &[Lit], set: &Ivs) -> Result<(), Memory>
    ensures { OnOk result (out.new ≡ out.old ++ behind_blanks (port_words (port_module cond.now) (codes "--dport") (codes "--dports") set.now)) }
{
    put_ports(out, port_module(cond), b"--dport", b"--dports", set.parts())?;
    Ok(())
}

/// Appends the words of a test in a condition, each behind a blank; the class alone may be negated.
fn put_test(
    out: &mut Text,
    site: &Site,
    cond: &[Lit],
    negated: bool,
    test: &Test,
) -> Result<(), Memory>
    ensures { OnOk result (out.new ≡ out.old ++ behind_blanks (test_words site.now cond.now negated test.now)) }
{
    match test {
        Test::Proto(set) => put_proto(out, set),
        Test::Src(set) => put_src(out, set),
        Test::Dst(set) => put_dst(out, set),
        Test::Sport(set) => put_sport(out, cond, set),
        Test::Dport(set) => put_dport(out, cond, set),
        Test::Flags { mask, want } => put_flag_test(out, *mask, *want),
        Test::Icmp(set) => put_icmp(out, first_part(set).lo),
        Test::Recv(set) => put_interface(out, site, set),
        Test::Est => put_class(out, negated),
        Test::Tag(v) => put_tag(out, *v),
        Test::AnyFlag(_) | Test::Xmit(_) | Test::Via(_) | Test::Outward | Test::Never => out.put(
            b"",
        ),
    }
}

/// Appends the words of the literals of a condition, each behind a blank.
pub fn put_literals(out: &mut Text, site: &Site, cond: &[Lit]) -> Result<(), Memory>
    ensures { OnOk result (out.new ≡ out.old ++ behind_blanks (flat_map (literal_words site.now cond.now) cond.now)) }
{
    for lit in cond {
        put_test(out, site, cond, lit.not, &lit.test)?;
    }
    Ok(())
}
