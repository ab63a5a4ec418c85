//! Marks: numbers of 32 bits with masks.

ghost use Rattle.std.specs.Prelude.{◌≡◌, ◌≤◌, length, IfSome};
ghost use Rattle.std.specs.Option.{option_map_or};
ghost use Rattle.fws_net.specs.Reading.{CauseGiven};
ghost use Rattle.fws_ipt.specs.Values.{hex_digit, hex_after, hex_of, number_of, masked_of, is_full_mask, tested_mark, mark_value, set_whole, xmark_value, set_plain, set_mark_value};

use fws_net::{Cause, ReadFault};
use fws_num::{read_dec, split_once};
use fws_rules::demand;

/// The value of a hexadecimal digit.
fn hex_digit(c: u8) -> Option<u8>
    ensures value { result ≡ hex_digit c }
    ensures small { IfSome result (λ d. d ≤ 15) }
{
    match c {
        b'0'..=b'9' => Some(c - b'0'),
        b'a'..=b'f' => Some(c - b'a' + 10),
        b'A'..=b'F' => Some(c - b'A' + 10),
        _ => None,
    }
}

/// The number of hexadecimal digits.
fn hex_value(digits: &[u8]) -> Option<u64>
    requires { length digits.now ≤ 16 }
    ensures { result ≡ hex_after 0 digits.now }
{
    let mut value: u64 = 0;
    for c in digits {
        let digit = hex_digit(*c)?;
        value = value * 16 + u64::from(digit);
    }
    Some(value)
}

/// The number of 32 bits that 1 to 16 hexadecimal digits spell.
fn read_hex(digits: &[u8]) -> Option<u32>
    ensures { result ≡ hex_of digits.now }
{
    if digits.is_empty() || digits.len() > 16 {
        return None;
    }
    let value = hex_value(digits)?;
    if value <= u64::from(u32::MAX) {
        Some(value as u32)
    } else {
        None
    }
}

/// The number of 32 bits, in decimals or behind `0x` in hexadecimals.
fn read_number(text: &[u8]) -> Option<u32>
    ensures { result ≡ number_of text.now }
{
    match text {
        [b'0', b'x', digits @ ..] => read_hex(digits),
        _ => Some(read_dec(text, u64::from(u32::MAX))? as u32),
    }
}

/// The number, and the mask behind a slash, if there is one.
fn read_masked(text: &[u8]) -> Option<(u32, Option<u32>)>
    ensures { result ≡ masked_of text.now }
{
    match split_once(text, b'/') {
        Some((value, mask)) => {
            let value = read_number(value)?;
            let mask = read_number(mask)?;
            Some((value, Some(mask)))
        }
        None => Some((read_number(text)?, None)),
    }
}

/// The mark that is tested whole: without a mask, or with the full one.
fn tested_mark(value: (u32, Option<u32>)) -> Result<u32, ReadFault>
    ensures { CauseGiven result (tested_mark value) }
{
    match value.1 {
        None | Some(u32::MAX) => Ok(value.0),
        Some(_) => Err(ReadFault::Bad(Cause::LeftOut)),
    }
}

/// The value of `--mark`.
pub(crate) fn read_mark(text: &[u8]) -> Result<u32, ReadFault>
    ensures { CauseGiven result (mark_value text.now) }
{
    let value = demand(read_masked(text))?;
    tested_mark(value)
}

/// The mark that is set whole: with the full mask.
fn set_whole(value: (u32, Option<u32>)) -> Result<u32, ReadFault>
    ensures { CauseGiven result (set_whole value) }
{
    match value.1 {
        None => Err(ReadFault::Bad(Cause::Syntax)),
        Some(u32::MAX) => Ok(value.0),
        Some(_) => Err(ReadFault::Bad(Cause::LeftOut)),
    }
}

/// The value of `--set-xmark`: a number with the full mask behind a slash. Another mask is left out.
pub(crate) fn read_xmark(text: &[u8]) -> Result<u32, ReadFault>
    ensures { CauseGiven result (xmark_value text.now) }
{
    let value = demand(read_masked(text))?;
    set_whole(value)
}

/// The mark that is set without a mask.
fn set_plain(value: (u32, Option<u32>)) -> Result<u32, ReadFault>
    ensures { CauseGiven result (set_plain value) }
{
    match value.1 {
        None => Ok(value.0),
        Some(_) => Err(ReadFault::Bad(Cause::LeftOut)),
    }
}

/// The value of `--set-mark`: a number. One with a mask is left out.
pub(crate) fn read_set_mark(text: &[u8]) -> Result<u32, ReadFault>
    ensures { CauseGiven result (set_mark_value text.now) }
{
    let value = demand(read_masked(text))?;
    set_plain(value)
}
