//! TCP flags as `tcpflags` has them.

ghost use Rattle.std.specs.Prelude.{◌≡◌, IfOk};
ghost use Rattle.fws_net.specs.Reading.{CauseGiven};
ghost use Rattle.fws_ipfw.specs.Values.{flag_of, flags_meaning, flags_test, with_flag, with_flags};

use fws_ipfw::Flags;
use fws_net::{Cause, Lit, ReadFault, Test};
use fws_num::{Text, pieces, value_named};
use fws_rules::positive;
use std::alloc::Global;

/// TCP flags and their bits.
const TCP_FLAGS: [(&[u8], u8); 6] = [
    (b"fin", 1),
    (b"syn", 2),
    (b"rst", 4),
    (b"psh", 8),
    (b"ack", 16),
    (b"urg", 32),
];

/// The bit of a flag.
#[tactic(auto, unfolding(fws_ipfw::specs::Values::flag_of))]
fn flag_of(text: &[u8]) -> Option<u8>
    ensures { result ≡ flag_of text.now }
{
    value_named(&TCP_FLAGS, text)
}

/// These flags and one more, which `!` before it has clear.
fn with_flag(text: &[u8], flags: Flags) -> Option<Flags>
    ensures { result ≡ with_flag text.now flags }
{
    match text.split_first() {
        None => None,
        Some((b'!', rest)) => {
            let bit = flag_of(rest)?;
            Some(Flags {
                off: flags.off | bit,
                ..flags
            })
        }
        Some(_) => {
            let bit = flag_of(text)?;
            Some(Flags {
                on: flags.on | bit,
                ..flags
            })
        }
    }
}

/// The flags of the items.
fn flags_of(items: &[Text]) -> Option<Flags>
    ensures { result ≡ with_flags (record { on = 0; off = 0 }) items.now }
{
    let mut flags = Flags { on: 0, off: 0 };
    for item in items {
        flags = with_flag(item.as_slice(), flags)?;
    }
    Some(flags)
}

/// The test of these flags. One that is both set and clear is one of no packet.
fn flags_test(flags: Flags) -> Test
    ensures { result ≡ flags_test flags }
{
    if flags.on & flags.off == 0 {
        Test::Flags {
            mask: flags.on | flags.off,
            want: flags.on,
        }
    } else {
        Test::Never
    }
}

/// The literal of flags that commas join.
pub(crate) fn read_flags(alloc: Global, text: &[u8]) -> Result<Lit, ReadFault>
    ensures { CauseGiven result (flags_meaning text.now) }
{
    let items = pieces(alloc, b',', text)?;
    match flags_of(items.as_slice()) {
        Some(flags) => Ok(positive(flags_test(flags))),
        None => Err(ReadFault::Bad(Cause::Syntax)),
    }
}
