//! Ranges of addresses as they are printed.

ghost use Rattle.std.specs.Prelude.{◌≡◌, ◌∷◌, ◌++◌, [], OnOk};
ghost use Rattle.std.specs.Option.{option_map_or};
ghost use Rattle.fws_net.specs.SiteSpelling.{net_word};
ghost use Rattle.fws_print.specs.Sets.{is_network};
ghost use Rattle.fws_print.specs.Words.{behind_blanks};
ghost use Rattle.fws_pf_print.specs.PrintedText.{addresses_words, between_words, network_len, range_words};

use fws_iv::Iv;
use fws_num::{Memory, Text};
use fws_print::{is_network, put_address, put_network};

/// The bits of the network whose addresses the range has, if there is one.
#[tactic(auto, unfolding(crate::specs::PrintedText::network_len))]
fn network_len(iv: Iv) -> Option<u8>
    ensures { result ≡ network_len iv }
{
    for n in 0..33 {
        if is_network(n, iv) {
            return Some(n);
        }
    }
    None
}

/// Appends two addresses with a dash between.
fn put_between(out: &mut Text, iv: Iv) -> Result<(), Memory>
    ensures { OnOk result (out.new ≡ out.old ++ behind_blanks (between_words iv)) }
{
    put_address(out, iv.lo)?;
    out.put(b" -")?;
    put_address(out, iv.hi)?;
    Ok(())
}

/// Appends a range of more than one address: a network, or the first and the last address.
fn put_wide(out: &mut Text, iv: Iv) -> Result<(), Memory>
    ensures { OnOk result (out.new ≡ out.old ++ behind_blanks (option_map_or (λ n. net_word iv.lo n ∷ []) (network_len iv) (between_words iv))) }
{
    match network_len(iv) {
        Some(n) => put_network(out, iv.lo, n),
        None => put_between(out, iv),
    }
}

/// Appends a range of addresses.
fn put_range(out: &mut Text, iv: Iv) -> Result<(), Memory>
    ensures { OnOk result (out.new ≡ out.old ++ behind_blanks (range_words iv)) }
{
    if iv.lo == iv.hi {
        put_address(out, iv.lo)
    } else {
        put_wide(out, iv)
    }
}

/// Appends the addresses that are asked for; `any` where none are.
pub fn put_addresses(out: &mut Text, set: &[Iv]) -> Result<(), Memory>
    ensures { OnOk result (out.new ≡ out.old ++ behind_blanks (addresses_words set.now)) }
{
    match set {
        [iv, ..] => put_range(out, *iv),
        [] => out.put(b" any"),
    }
}
