//! Options, marks and addresses as they are printed.

ghost use Rattle.std.specs.Prelude.{◌≡◌, ◌<◌, ◌≤◌, ◌+◌, ◌-◌, ◌%◌, ◌∷◌, ◌++◌, [], codes, OnOk};
ghost use Rattle.fws_num.specs.Numbers.{dotted};
ghost use Rattle.fws_print.specs.Words.{behind_blanks};
ghost use Rattle.fws_ipt_print.specs.PrintedText.{address_words, first_part, free_bits, has_free, hex_byte, hex_text, mark_word};

use fws_iv::{Iv, Ivs};
use fws_num::{Memory, Text, put_quad};
use fws_print::{put_network, put_word};

/// Appends a module and one of its options, each behind a blank.
pub fn put_option(out: &mut Text, kind: &[u8], option: &[u8]) -> Result<(), Memory>
    ensures { OnOk result (out.new ≡ out.old ++ behind_blanks (codes "-m" ∷ kind.now ∷ option.now ∷ [])) }
{
    put_word(out, b"-m")?;
    put_word(out, kind)?;
    put_word(out, option)?;
    Ok(())
}

/// The hexadecimal digit of a number below 16.
fn hex_byte(digit: u8) -> u8
    requires { digit < 16 }
    ensures { result ≡ hex_byte digit }
{
    if digit < 10 {
        b'0' + digit
    } else {
        b'W' + digit
    }
}

/// Appends a number as hexadecimal digits, at most one more than `more` of them.
fn put_hex(out: &mut Text, more: u8, v: u32) -> Result<(), Memory>
    ensures { OnOk result (out.new ≡ out.old ++ hex_text more v) }
{
    if more > 0 && v >= 16 {
        put_hex(out, more - 1, v / 16)?;
    }
    out.put(&[hex_byte((v % 16) as u8)])?;
    Ok(())
}

/// Appends a mark, as `0x1f`.
#[tactic(auto, unfolding(crate::specs::PrintedText::mark_word))]
pub fn put_mark(out: &mut Text, v: u32) -> Result<(), Memory>
    ensures { OnOk result (out.new ≡ out.old ++ mark_word v) }
{
    out.put(b"0x")?;
    put_hex(out, 7, v)?;
    Ok(())
}

/// The first range of a set.
pub fn first_part(set: &Ivs) -> Iv
    ensures { result ≡ first_part set.now }
{
    match set.parts() {
        [iv, ..] => *iv,
        [] => Iv { lo: 0, hi: 0 },
    }
}

/// Whether the range is a prefix behind which this many bits are free.
fn has_free(bits: u8, iv: Iv) -> bool
    requires { bits ≤ 32 }
    ensures { result ≡ has_free bits iv }
{
    let size = 2u64.pow(u32::from(bits));
    u64::from(iv.lo) % size == 0 && u64::from(iv.hi) == u64::from(iv.lo) + (size - 1)
}

/// How many bits are free behind the prefix that the range is, if it is one.
fn free_bits(iv: Iv) -> Option<u8>
    ensures { result ≡ free_bits iv }
{
    for bits in 0..33u8 {
        if has_free(bits, iv) {
            return Some(bits);
        }
    }
    None
}

/// Appends two addresses with a dash between, behind a blank.
fn put_ends(out: &mut Text, iv: Iv) -> Result<(), Memory>
    ensures { OnOk result (out.new ≡ out.old ++ 32 ∷ (dotted iv.lo ++ 45 ∷ dotted iv.hi)) }
{
    out.put(b" ")?;
    put_quad(out, iv.lo)?;
    out.put(b"-")?;
    put_quad(out, iv.hi)?;
    Ok(())
}

/// Appends a range of addresses, behind a blank: as a prefix behind one option, or by its ends behind
/// another.
pub fn put_addresses(out: &mut Text, prefix: &[u8], range: &[u8], iv: Iv) -> Result<(), Memory>
    ensures { OnOk result (out.new ≡ out.old ++ behind_blanks (address_words prefix.now range.now iv)) }
{
    match free_bits(iv) {
        Some(bits) => {
            put_word(out, prefix)?;
            put_network(out, iv.lo, 32u8.saturating_sub(bits))?;
        }
        None => {
            put_word(out, b"-m")?;
            put_word(out, b"iprange")?;
            put_word(out, range)?;
            put_ends(out, iv)?;
        }
    }
    Ok(())
}
