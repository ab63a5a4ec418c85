//! The words of a site file.

ghost use Rattle.std.specs.Prelude.{◌≡◌, ◌-◌, ◌%◌, ◌^◌, ◌≤◌, IfSome};
ghost use Rattle.std.specs.List.{list_all};
ghost use Rattle.fws_net.specs.Reading.{CauseGiven};
ghost use Rattle.fws_net.specs.SiteWords.{is_letter, is_name_byte, is_name, name_of, name_behind, names_of, side_of, names_and_side, address_and_len, address_of, net_of};

use crate::answer::LineFault;
use crate::cause::{SiteCause, SiteFault};
use crate::site::{Address, Names, Side};
use fws_num::{Prefix, Text, Word, read_dec, read_quad, split_once};
use std::alloc::Global;

/// A word that isn't spelled as its place asks.
pub(crate) const MALFORMED: SiteFault = LineFault::Bad(SiteCause::Syntax);

fn is_letter(c: u8) -> bool
    ensures { result ≡ is_letter c }
{
    matches!(c, b'A'..=b'Z' | b'a'..=b'z')
}

/// Whether it is a letter, a digit, or one of `_`, `.`, `/` and `-`.
fn is_name_byte(c: u8) -> bool
    ensures { result ≡ is_name_byte c }
{
    is_letter(c) || c.is_ascii_digit() || c == b'_' || c == b'.' || c == b'/' || c == b'-'
}

fn are_name_bytes(text: &[u8]) -> bool
    ensures { result ≡ list_all is_name_byte text.now }
{
    text.iter().all(|c| is_name_byte(*c))
}

/// Whether it is a letter and at most 29 more bytes of a name.
pub(crate) fn is_name(text: &[u8]) -> bool
    ensures { result ≡ is_name text.now }
{
    match text {
        [] => false,
        [first, rest @ ..] => is_letter(*first) && are_name_bytes(rest) && rest.len() <= 29,
    }
}

/// The name that a text is.
pub(crate) fn read_name(alloc: Global, text: &[u8]) -> Result<Text, SiteFault>
    ensures { CauseGiven result (name_of text.now) }
{
    if !is_name(text) {
        return Err(MALFORMED);
    }
    let mut name = Text::new(alloc);
    name.put(text)?;
    Ok(name)
}

/// The name behind a front such as `ipt=`.
fn name_behind(alloc: Global, front: &[u8], word: &Word) -> Result<Text, SiteFault>
    ensures { CauseGiven result (name_behind front.now word.now) }
{
    let text = word.text.as_slice();
    if text.starts_with(front) {
        read_name(alloc, &text[front.len()..])
    } else {
        Err(MALFORMED)
    }
}

/// The names in the four systems.
#[tactic(auto, unfolding(crate::specs::SiteWords::names_of))]
pub(crate) fn read_names(
    alloc: Global,
    a: &Word,
    b: &Word,
    c: &Word,
    d: &Word,
) -> Result<Names, SiteFault>
    ensures { CauseGiven result (names_of a.now b.now c.now d.now) }
{
    let ipt = name_behind(alloc, b"ipt=", a)?;
    let ipfw = name_behind(alloc, b"ipfw=", b)?;
    let pf = name_behind(alloc, b"pf=", c)?;
    let ios = name_behind(alloc, b"ios=", d)?;
    Ok(Names { ipt, ipfw, pf, ios })
}

/// The side that a word such as `nat=inside` names.
pub(crate) fn read_side(word: &Word) -> Result<Side, SiteFault>
    ensures { CauseGiven result (side_of word.now) }
{
    if word.is(b"nat=inside") {
        Ok(Side::Inside)
    } else if word.is(b"nat=outside") {
        Ok(Side::Outside)
    } else if word.is(b"nat=none") {
        Ok(Side::Neither)
    } else {
        Err(MALFORMED)
    }
}

/// Four names and a side.
#[tactic(auto, unfolding(crate::specs::SiteWords::names_and_side))]
pub(crate) fn read_names_and_side(
    alloc: Global,
    a: &Word,
    b: &Word,
    c: &Word,
    d: &Word,
    e: &Word,
) -> Result<(Names, Side), SiteFault>
    ensures { CauseGiven result (names_and_side a.now b.now c.now d.now e.now) }
{
    let names = read_names(alloc, a, b, c, d)?;
    let side = read_side(e)?;
    Ok((names, side))
}

/// The address and the length of at most 32 of a text such as `10.0.0.1/24`.
fn read_address_and_len(text: &[u8]) -> Option<(u32, u8)>
    ensures value { result ≡ address_and_len text.now }
    ensures in_range { IfSome result (λ net. net.1 ≤ 32) }
{
    let (front, behind) = split_once(text, b'/')?;
    let addr = read_quad(front)?;
    let len = read_dec(behind, 32)?;
    Some((addr, len as u8))
}

/// An address with the length 1 to 32 of its network.
pub(crate) fn read_address(word: &Word) -> Result<Address, SiteFault>
    ensures { CauseGiven result (address_of word.now.text) }
{
    match read_address_and_len(word.text.as_slice()) {
        Some((addr, len)) => {
            if len == 0 {
                Err(MALFORMED)
            } else {
                Ok(Address { addr, len })
            }
        }
        None => Err(MALFORMED),
    }
}

/// The address without the bits past the first `len`.
fn cleared(addr: u32, len: u8) -> u32
    requires { len ≤ 32 }
    ensures { result ≡ addr - addr % 2 ^ (32 - len) }
{
    let size = 2u64.pow(32 - u32::from(len));
    (u64::from(addr) - u64::from(addr) % size) as u32
}

/// A network of a length from 0 to 32, of which the bits past the length are cleared.
pub(crate) fn read_net(word: &Word) -> Result<Prefix, SiteFault>
    ensures { CauseGiven result (net_of word.now.text) }
{
    match read_address_and_len(word.text.as_slice()) {
        Some((addr, len)) => Ok(Prefix {
            addr: cleared(addr, len),
            len,
        }),
        None => Err(MALFORMED),
    }
}
