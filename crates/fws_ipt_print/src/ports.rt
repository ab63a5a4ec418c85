//! Ports and flags as they are printed, and the protocol that a condition asks for.

ghost use Rattle.std.specs.Prelude.{◌≡◌, ◌≤◌, [], ◌∷◌, ◌++◌, codes, OnOk};
ghost use Rattle.fws_ipt.specs.Spelled.{asks_protocol, tests_protocol, is_only};
ghost use Rattle.fws_print.specs.Words.{behind_blanks};
ghost use Rattle.fws_ipt_print.specs.PrintedText.{flag_names_word, flag_text, flags_word, port_module, port_words, range_word, ranges_word};

use crate::numbers::put_option;
use fws_iv::{Iv, Ivs};
use fws_net::{Lit, Test};
use fws_num::{Memory, Text};
use fws_print::{put_range, put_ranges, put_word};

/// Whether the set has this one number.
fn is_only(n: u32, set: &Ivs) -> bool
    ensures { result ≡ is_only n set.now }
{
    match set.parts() {
        [iv] => iv.lo == n && iv.hi == n,
        _ => false,
    }
}

/// Whether only this protocol passes the test.
fn tests_protocol(n: u32, test: &Test) -> bool
    ensures { result ≡ tests_protocol n test.now }
{
    match test {
        Test::Proto(set) => is_only(n, set),
        _ => false,
    }
}

/// Whether the condition asks for this protocol.
pub fn asks_protocol(n: u32, cond: &[Lit]) -> bool
    ensures { result ≡ asks_protocol n cond.now }
{
    cond.iter()
        .any(|lit| !lit.not && tests_protocol(n, &lit.test))
}

/// Appends several ranges behind an option of `multiport`.
fn put_list(out: &mut Text, many: &[u8], parts: &[Iv]) -> Result<(), Memory>
    ensures { OnOk result (out.new ≡ out.old ++ behind_blanks (codes "-m" ∷ codes "multiport" ∷ many.now ∷ ranges_word parts.now ∷ [])) }
{
    put_option(out, b"multiport", many)?;
    out.put(b" ")?;
    put_ranges(out, b':', parts)?;
    Ok(())
}

/// Appends one range behind an option of this module.
fn put_one(out: &mut Text, kind: &[u8], one: &[u8], iv: Iv) -> Result<(), Memory>
    ensures { OnOk result (out.new ≡ out.old ++ behind_blanks (codes "-m" ∷ kind.now ∷ one.now ∷ range_word iv ∷ [])) }
{
    put_option(out, kind, one)?;
    out.put(b" ")?;
    put_range(out, b':', iv)?;
    Ok(())
}

/// Appends one range behind an option of this module, or several behind an option of `multiport`.
pub fn put_ports(
    out: &mut Text,
    kind: &[u8],
    one: &[u8],
    many: &[u8],
    parts: &[Iv],
) -> Result<(), Memory>
    ensures { OnOk result (out.new ≡ out.old ++ behind_blanks (port_words kind.now one.now many.now parts.now)) }
{
    match parts {
        [] => put_list(out, many, parts),
        [iv] => put_one(out, kind, one, *iv),
        [_, _, ..] => put_list(out, many, parts),
    }
}

/// The module that tests one range of ports.
pub fn port_module(cond: &[Lit]) -> &'static [u8]
    ensures { result.now ≡ port_module cond.now }
{
    if asks_protocol(6, cond) {
        b"tcp"
    } else {
        b"udp"
    }
}

/// Appends the flag with this bit if it is set, behind a comma where one of a lower bit is set too.
fn put_flag(out: &mut Text, flags: u8, bit: u8, name: &[u8]) -> Result<(), Memory>
    requires { 1 ≤ bit }
    ensures { OnOk result (out.new ≡ out.old ++ flag_text flags bit name.now) }
{
    if flags / bit % 2 == 1 {
        if flags % bit != 0 {
            out.put(b",")?;
        }
        out.put(name)?;
    }
    Ok(())
}

/// Appends the names of the flags that are set, joined by commas.
fn put_names(out: &mut Text, flags: u8) -> Result<(), Memory>
    ensures { OnOk result (out.new ≡ out.old ++ flag_names_word flags) }
{
    put_flag(out, flags, 1, b"FIN")?;
    put_flag(out, flags, 2, b"SYN")?;
    put_flag(out, flags, 4, b"RST")?;
    put_flag(out, flags, 8, b"PSH")?;
    put_flag(out, flags, 16, b"ACK")?;
    put_flag(out, flags, 32, b"URG")?;
    Ok(())
}

/// Appends flags, behind a blank.
#[tactic(auto, unfolding(crate::specs::PrintedText::flags_word))]
pub fn put_flags(out: &mut Text, flags: u8) -> Result<(), Memory>
    ensures { OnOk result (out.new ≡ out.old ++ 32 ∷ flags_word flags) }
{
    match flags {
        63 => put_word(out, b"ALL"),
        0 => put_word(out, b"NONE"),
        _ => {
            out.put(b" ")?;
            put_names(out, flags)
        }
    }
}
