//! Protocols and ports as they are printed.

ghost use Rattle.std.specs.Prelude.{◌≡◌, ◌∷◌, ◌++◌, [], codes, OnOk};
ghost use Rattle.std.specs.Fmt.{decimal};
ghost use Rattle.fws_print.specs.Words.{behind_blanks};
ghost use Rattle.fws_ios_print.specs.PrintedText.{ports_words, protocol_word, range_words};

use fws_iv::Iv;
use fws_num::{Memory, Text};
use fws_print::{put_number, put_protocol, put_word};

/// Appends the protocol that is asked for, behind a blank; `ip` where none is.
pub fn put_protocol_of(out: &mut Text, set: &[Iv]) -> Result<(), Memory>
    ensures { OnOk result (out.new ≡ out.old ++ 32 ∷ protocol_word set.now) }
{
    match set {
        [iv, ..] => put_protocol(out, iv.lo),
        [] => put_word(out, b"ip"),
    }
}

/// Appends one port.
fn put_port(out: &mut Text, port: u32) -> Result<(), Memory>
    ensures { OnOk result (out.new ≡ out.old ++ behind_blanks (codes "eq" ∷ decimal port ∷ [])) }
{
    out.put(b" eq")?;
    put_number(out, port)?;
    Ok(())
}

/// Appends the first and the last port.
fn put_port_range(out: &mut Text, iv: Iv) -> Result<(), Memory>
    ensures { OnOk result (out.new ≡ out.old ++ behind_blanks (codes "range" ∷ decimal iv.lo ∷ decimal iv.hi ∷ [])) }
{
    out.put(b" range")?;
    put_number(out, iv.lo)?;
    put_number(out, iv.hi)?;
    Ok(())
}

/// Appends one port, or the first and the last one.
fn put_range(out: &mut Text, iv: Iv) -> Result<(), Memory>
    ensures { OnOk result (out.new ≡ out.old ++ behind_blanks (range_words iv)) }
{
    if iv.lo == iv.hi {
        put_port(out, iv.lo)
    } else {
        put_port_range(out, iv)
    }
}

/// Appends the ports that are asked for, if any are.
pub fn put_ports(out: &mut Text, set: &[Iv]) -> Result<(), Memory>
    ensures { OnOk result (out.new ≡ out.old ++ behind_blanks (ports_words set.now)) }
{
    match set {
        [iv, ..] => put_range(out, *iv),
        [] => out.put(b""),
    }
}
