//! Tests that stand behind addresses and ports, as they are printed.

ghost use Rattle.std.specs.Prelude.{◌≡◌, ◌++◌, OnOk};
ghost use Rattle.fws_print.specs.Words.{behind_blanks};
ghost use Rattle.fws_ios_print.specs.PrintedText.{option_words, options_words};

use fws_net::{Lit, Test};
use fws_num::{Memory, Text};
use fws_print::{first_number, put_number};

/// Appends a test that stands behind addresses and ports, if it does.
fn put_option(out: &mut Text, test: &Test) -> Result<(), Memory>
    ensures { OnOk result (out.new ≡ out.old ++ behind_blanks (option_words test.now)) }
{
    match test {
        Test::Icmp(set) => put_number(out, first_number(set.parts())),
        Test::AnyFlag(_) => out.put(b" established"),
        Test::Proto(_)
        | Test::Src(_)
        | Test::Sport(_)
        | Test::Dst(_)
        | Test::Dport(_)
        | Test::Flags { .. }
        | Test::Via(_)
        | Test::Recv(_)
        | Test::Xmit(_)
        | Test::Outward
        | Test::Est
        | Test::Tag(_)
        | Test::Never => out.put(b""),
    }
}

/// Appends the tests that stand behind addresses and ports.
pub fn put_options(out: &mut Text, cond: &[Lit]) -> Result<(), Memory>
    ensures { OnOk result (out.new ≡ out.old ++ behind_blanks (options_words cond.now)) }
{
    for lit in cond {
        put_option(out, &lit.test)?;
    }
    Ok(())
}
