//! TCP flags as `flags` has them (pf.conf(5)).

ghost use Rattle.std.specs.Prelude.{◌≡◌, ◌++◌};
ghost use Rattle.std.specs.List.{list_all, list_any};
ghost use Rattle.std.specs.Option.{option_map_or};
ghost use Rattle.fws_net.specs.Reading.{CauseGiven};
ghost use Rattle.fws_pf.specs.RuleText.{flag_of, flags_between, flags_test, flags_within, is_congestion, is_flag_letter, with_flags};

use fws_net::{Cause, ReadFault, Test};
use fws_num::split_once;

/// The bit of a flag.
fn flag_of(letter: u8) -> Option<u8>
    ensures { result ≡ flag_of letter }
{
    match letter {
        b'F' => Some(1),
        b'S' => Some(2),
        b'R' => Some(4),
        b'P' => Some(8),
        b'A' => Some(16),
        b'U' => Some(32),
        _ => None,
    }
}

/// Whether it is E or W, whose flags are left out.
fn is_congestion(letter: u8) -> bool
    ensures { result ≡ is_congestion letter }
{
    letter == b'E' || letter == b'W'
}

/// Whether it is the letter of a flag.
fn is_flag_letter(letter: u8) -> bool
    ensures { result ≡ is_flag_letter letter }
{
    flag_of(letter).is_some() || is_congestion(letter)
}

/// Whether all are letters of flags.
fn are_letters(text: &[u8]) -> bool
    ensures { result ≡ list_all is_flag_letter text.now }
{
    text.iter().all(|letter| is_flag_letter(*letter))
}

/// Whether a flag is left out.
fn has_congestion(text: &[u8]) -> bool
    ensures { result ≡ list_any is_congestion text.now }
{
    text.iter().any(|letter| is_congestion(*letter))
}

/// The bit of a letter, or none.
fn letter_bits(letter: u8) -> u8
    ensures { result ≡ option_map_or (λ bit. bit) (flag_of letter) 0 }
{
    match flag_of(letter) {
        Some(bit) => bit,
        None => 0,
    }
}

/// The bits of letters; those that no flag has give none.
fn flag_bits(text: &[u8]) -> u8
    ensures { result ≡ with_flags 0 text.now }
{
    let mut bits = 0;
    for letter in text {
        bits |= letter_bits(*letter);
    }
    bits
}

/// The test that of the flags of the mask exactly these are set, which are among them.
fn flags_within(want: u8, mask: u8) -> Result<Test, ReadFault>
    ensures { CauseGiven result (flags_within want mask) }
{
    if want & mask == want {
        Ok(Test::Flags { mask, want })
    } else {
        Err(ReadFault::Bad(Cause::Syntax))
    }
}

/// Whether all are letters of flags, before and behind a slash.
#[tactic(auto, using(crate::proofs::Letters::all_letters))]
fn are_all_letters(front: &[u8], back: &[u8]) -> bool
    ensures { result ≡ list_all is_flag_letter (front.now ++ back.now) }
{
    are_letters(front) && are_letters(back)
}

/// Whether a flag is left out, before or behind a slash.
#[tactic(auto, using(crate::proofs::Letters::some_congestion))]
fn have_congestion(front: &[u8], back: &[u8]) -> bool
    ensures { result ≡ list_any is_congestion (front.now ++ back.now) }
{
    has_congestion(front) || has_congestion(back)
}

/// The test of the flags before and behind a slash.
fn flags_between(front: &[u8], back: &[u8]) -> Result<Test, ReadFault>
    ensures { CauseGiven result (flags_between (front.now, back.now)) }
{
    if !are_all_letters(front, back) {
        return Err(ReadFault::Bad(Cause::Syntax));
    }
    if have_congestion(front, back) {
        return Err(ReadFault::Bad(Cause::LeftOut));
    }
    flags_within(flag_bits(front), flag_bits(back))
}

/// The test that flags with a mask behind a slash are, or why they are refused.
pub fn read_flags(text: &[u8]) -> Result<Test, ReadFault>
    ensures { CauseGiven result (flags_test text.now) }
{
    match split_once(text, b'/') {
        Some((front, back)) => flags_between(front, back),
        None => Err(ReadFault::Bad(Cause::Syntax)),
    }
}
