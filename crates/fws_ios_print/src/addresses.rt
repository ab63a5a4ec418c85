//! Prefixes as they are printed.

ghost use Rattle.std.specs.Prelude.{◌≡◌, ◌-◌, ◌∷◌, ◌++◌, [], codes, OnOk};
ghost use Rattle.fws_num.specs.Numbers.{dotted};
ghost use Rattle.fws_print.specs.Words.{behind_blanks};
ghost use Rattle.fws_ios_print.specs.PrintedText.{addresses_words, prefix_words};

use fws_iv::Iv;
use fws_num::{Memory, Text};
use fws_print::put_address;

/// Appends one address.
fn put_host(out: &mut Text, addr: u32) -> Result<(), Memory>
    ensures { OnOk result (out.new ≡ out.old ++ behind_blanks (codes "host" ∷ dotted addr ∷ [])) }
{
    out.put(b" host")?;
    put_address(out, addr)?;
    Ok(())
}

/// Appends the first address of a prefix, and the wildcard of the others.
fn put_network(out: &mut Text, iv: Iv) -> Result<(), Memory>
    ensures { OnOk result (out.new ≡ out.old ++ behind_blanks (dotted iv.lo ∷ dotted (iv.hi - iv.lo) ∷ [])) }
{
    put_address(out, iv.lo)?;
    put_address(out, iv.hi.saturating_sub(iv.lo))?;
    Ok(())
}

/// Appends a prefix.
fn put_prefix(out: &mut Text, iv: Iv) -> Result<(), Memory>
    ensures { OnOk result (out.new ≡ out.old ++ behind_blanks (prefix_words iv)) }
{
    if iv.lo == iv.hi {
        put_host(out, iv.lo)
    } else {
        put_network(out, iv)
    }
}

/// Appends the addresses that are asked for; `any` where none are.
pub fn put_addresses(out: &mut Text, set: &[Iv]) -> Result<(), Memory>
    ensures { OnOk result (out.new ≡ out.old ++ behind_blanks (addresses_words set.now)) }
{
    match set {
        [iv, ..] => put_prefix(out, *iv),
        [] => out.put(b" any"),
    }
}
