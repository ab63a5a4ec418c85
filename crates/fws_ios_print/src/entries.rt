//! Entries of access lists as they are printed.

ghost use Rattle.std.specs.Prelude.{◌≡◌, [], ◌∷◌, ◌++◌, OnOk};
ghost use Rattle.fws_num.specs.Written.{ended};
ghost use Rattle.fws_ios_print.specs.Printable.{tested};
ghost use Rattle.fws_print.specs.Words.{behind_blanks};
ghost use Rattle.fws_ios_print.specs.PrintedText.{action_word, addresses_words, entry_lines, entry_words, inner_line, options_words, ports_words, reflect_words, test_words};

use crate::addresses::put_addresses;
use crate::conditions::{is_state, tested};
use crate::tests::put_options;
use crate::values::{put_ports, put_protocol_of};
use fws_ios::IosEntry;
use fws_net::Lit;
use fws_num::{Memory, Text};

/// Appends what an entry does, behind a blank.
fn put_action(out: &mut Text, permit: bool) -> Result<(), Memory>
    ensures { OnOk result (out.new ≡ out.old ++ 32 ∷ action_word permit) }
{
    if permit {
        out.put(b" permit")
    } else {
        out.put(b" deny")
    }
}

/// Appends that state is kept, if it is.
fn put_reflect(out: &mut Text, reflect: bool) -> Result<(), Memory>
    ensures { OnOk result (out.new ≡ out.old ++ behind_blanks (reflect_words reflect)) }
{
    if reflect {
        out.put(b" reflect CONNECTIONS")
    } else {
        out.put(b"")
    }
}

/// Appends the destination that is asked for, and what stands behind it.
fn put_destination(out: &mut Text, cond: &[Lit], reflect: bool) -> Result<(), Memory>
    ensures { OnOk result (out.new ≡ out.old
        ++ behind_blanks (addresses_words (tested 3 cond.now) ++ (ports_words (tested 4 cond.now) ++ (options_words cond.now ++ reflect_words reflect)))) }
{
    put_addresses(out, tested(cond, 3))?;
    put_ports(out, tested(cond, 4))?;
    put_options(out, cond)?;
    put_reflect(out, reflect)?;
    Ok(())
}

/// Appends the source that is asked for, and what stands behind it.
fn put_source(out: &mut Text, cond: &[Lit], reflect: bool) -> Result<(), Memory>
    ensures { OnOk result (out.new ≡ out.old
        ++ behind_blanks (addresses_words (tested 1 cond.now) ++ (ports_words (tested 2 cond.now) ++ (addresses_words (tested 3 cond.now)
        ++ (ports_words (tested 4 cond.now) ++ (options_words cond.now ++ reflect_words reflect)))))) }
{
    put_addresses(out, tested(cond, 1))?;
    put_ports(out, tested(cond, 2))?;
    put_destination(out, cond, reflect)?;
    Ok(())
}

/// Appends the words of an entry by what it asks for.
fn put_test_words(out: &mut Text, entry: &IosEntry) -> Result<(), Memory>
    ensures { OnOk result (out.new ≡ out.old ++ behind_blanks (test_words entry.now)) }
{
    put_action(out, entry.permit)?;
    put_protocol_of(out, tested(entry.cond.lits(), 0))?;
    put_source(out, entry.cond.lits(), entry.reflect)?;
    Ok(())
}

/// Appends the words of an entry.
fn put_entry_words(out: &mut Text, entry: &IosEntry) -> Result<(), Memory>
    ensures { OnOk result (out.new ≡ out.old ++ behind_blanks (entry_words entry.now)) }
{
    if is_state(entry.cond.lits()) {
        out.put(b" evaluate CONNECTIONS")
    } else {
        put_test_words(out, entry)
    }
}

/// Appends the line of an entry.
fn put_entry(out: &mut Text, entry: &IosEntry) -> Result<(), Memory>
    ensures { OnOk result (out.new ≡ out.old ++ ended (inner_line (entry_words entry.now) ∷ [])) }
{
    put_entry_words(out, entry)?;
    out.put(b"\n")?;
    Ok(())
}

/// Appends the lines of entries.
pub fn put_entries(out: &mut Text, entries: &[IosEntry]) -> Result<(), Memory>
    ensures { OnOk result (out.new ≡ out.old ++ ended (entry_lines entries.now)) }
{
    for entry in entries {
        put_entry(out, entry)?;
    }
    Ok(())
}
