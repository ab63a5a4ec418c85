//! TCP flags as `--tcp-flags` has them.

ghost use Rattle.std.specs.Prelude.{◌≡◌, IfOk};
ghost use Rattle.fws_ipt.specs.Values.{flag_of, flag_set, with_flags, flags_of, syn_literal};

use fws_net::{Lit, Test};
use fws_num::{Memory, Text, pieces, value_named};
use fws_rules::positive;
use std::alloc::Global;

/// FIN, SYN, RST and ACK.
const OPENING: u8 = 23;

const SYN: u8 = 2;

/// TCP flags and their bits.
const TCP_FLAGS: [(&[u8], u8); 6] = [
    (b"FIN", 1),
    (b"SYN", 2),
    (b"RST", 4),
    (b"PSH", 8),
    (b"ACK", 16),
    (b"URG", 32),
];

/// Words that stand alone for several flags.
const FLAG_SETS: [(&[u8], u8); 2] = [(b"ALL", 63), (b"NONE", 0)];

/// The bit of a flag.
#[tactic(auto, unfolding(fws_ipt::specs::Values::flag_of))]
fn flag_of(text: &[u8]) -> Option<u8>
    ensures { result ≡ flag_of text.now }
{
    value_named(&TCP_FLAGS, text)
}

/// The bits of a word that stands alone for several flags.
#[tactic(auto, unfolding(fws_ipt::specs::Values::flag_set))]
fn flag_set(text: &[u8]) -> Option<u8>
    ensures { result ≡ flag_set text.now }
{
    value_named(&FLAG_SETS, text)
}

/// The bits of the flags, if each item is one.
fn flags_of_items(items: &[Text]) -> Option<u8>
    ensures { result ≡ with_flags 0 items.now }
{
    let mut flags = 0;
    for item in items {
        flags |= flag_of(item.as_slice())?;
    }
    Some(flags)
}

/// The bits of flags that commas join, or of ALL or NONE alone. Fails if memory runs out.
pub(crate) fn read_flags(alloc: Global, text: &[u8]) -> Result<Option<u8>, Memory>
    ensures { IfOk result (λ o. o ≡ flags_of text.now) }
{
    if let Some(flags) = flag_set(text) {
        return Ok(Some(flags));
    }
    let items = pieces(alloc, b',', text)?;
    Ok(flags_of_items(items.as_slice()))
}

/// The literal of `--syn`, which stands for `--tcp-flags FIN,SYN,RST,ACK SYN`.
pub(crate) fn syn_literal() -> Lit
    ensures { result ≡ syn_literal }
{
    positive(Test::Flags {
        mask: OPENING,
        want: SYN,
    })
}
