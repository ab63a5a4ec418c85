//! Types of ICMP as `--icmp-type` has them.

ghost use Rattle.std.specs.Prelude.{◌≡◌};
ghost use Rattle.fws_net.specs.Reading.{CauseGiven};
ghost use Rattle.fws_ipt.specs.Values.{is_type_and_code, numbered_type, icmp_meaning};

use fws_iv::one;
use fws_net::{Cause, Lit, ReadFault, Test};
use fws_num::{read_dec, split_once};
use fws_rules::{is, positive};
use std::alloc::Global;

/// The type that stands for every one, and is left out.
const EVERY_TYPE: u8 = 255;

/// Whether it is a type with a code behind a slash.
fn is_type_and_code(text: &[u8]) -> bool
    ensures { result ≡ is_type_and_code text.now }
{
    match split_once(text, b'/') {
        Some((front, back)) => read_dec(front, 255).is_some() && read_dec(back, 255).is_some(),
        None => false,
    }
}

/// The literal of a type.
fn numbered_type(alloc: Global, n: u8) -> Result<Option<Lit>, ReadFault>
    ensures { CauseGiven result (numbered_type n) }
{
    if n == EVERY_TYPE {
        return Err(ReadFault::Bad(Cause::LeftOut));
    }
    let set = one(alloc, u32::from(n), u32::from(n))?;
    Ok(Some(positive(Test::Icmp(set))))
}

/// The literal of `--icmp-type`: a type 0 to 254; none for `any`, which holds of every packet. Type 255,
/// and a type with a code, are left out.
pub(crate) fn read_icmp_type(alloc: Global, text: &[u8]) -> Result<Option<Lit>, ReadFault>
    ensures { CauseGiven result (icmp_meaning text.now) }
{
    if is(text, b"any") {
        return Ok(None);
    }
    match read_dec(text, 255) {
        Some(n) => numbered_type(alloc, n as u8),
        None => {
            if is_type_and_code(text) {
                Err(ReadFault::Bad(Cause::LeftOut))
            } else {
                Err(ReadFault::Bad(Cause::Syntax))
            }
        }
    }
}
