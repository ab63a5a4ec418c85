//! How a line begins (Cisco IOS).

ghost use Rattle.std.specs.Prelude.{◌≡◌, [], ◌∷◌, drop};
ghost use Rattle.fws_net.specs.Reading.{CauseGiven};
ghost use Rattle.fws_ios.specs.FileText.{alone, begins, begins_with_any, left_out_at_interfaces, left_out_lines, says};

use fws_net::{Cause, ReadFault};
use fws_num::Word;
use fws_rules::is;

/// Whether the word is this one, and can be judged.
pub(crate) fn says(word: &Word, text: &[u8]) -> bool
    ensures { result ≡ says word.now text.now }
{
    is(word.text.as_slice(), text) && word.is_sound()
}

/// Whether the line begins with this word.
pub(crate) fn begins_with(words: &[Word], first: &[u8]) -> bool
    ensures { result ≡ begins (first.now ∷ []) words.now }
{
    match words {
        [a, ..] => says(a, first),
        [] => false,
    }
}

/// Whether the line begins with these two words.
pub(crate) fn begins_with_two(words: &[Word], first: &[u8], second: &[u8]) -> bool
    ensures { result ≡ begins (first.now ∷ second.now ∷ []) words.now }
{
    match words {
        [a, rest @ ..] => says(a, first) && begins_with(rest, second),
        [] => false,
    }
}

/// Whether the line begins with these three words.
pub(crate) fn begins_with_three(words: &[Word], first: &[u8], second: &[u8], third: &[u8]) -> bool
    ensures { result ≡ begins (first.now ∷ second.now ∷ third.now ∷ []) words.now }
{
    match words {
        [a, rest @ ..] => says(a, first) && begins_with_two(rest, second, third),
        [] => false,
    }
}

/// The words behind the first n.
pub(crate) fn behind(words: &[Word], n: usize) -> &[Word]
    ensures { result.now ≡ drop n words.now }
{
    if n < words.len() { &words[n..] } else { &[] }
}

/// Whether the line is one of those that are left out.
pub(crate) fn is_left_out(words: &[Word]) -> bool
    ensures { result ≡ begins_with_any left_out_lines words.now }
{
    begins_with(words, b"zone")
        || begins_with(words, b"zone-pair")
        || begins_with(words, b"class-map")
        || begins_with(words, b"policy-map")
        || begins_with_two(words, b"ip", b"inspect")
        || begins_with_three(words, b"ip", b"nat", b"outside")
        || begins_with_two(words, b"ipv6", b"access-list")
}

/// Whether the line is one of those of interfaces that are left out.
pub(crate) fn is_left_out_at_interface(words: &[Word]) -> bool
    ensures { result ≡ begins_with_any left_out_at_interfaces words.now }
{
    begins_with_two(words, b"ip", b"inspect")
        || begins_with_two(words, b"ip", b"policy")
        || begins_with_two(words, b"ip", b"verify")
        || begins_with(words, b"zone-member")
        || begins_with_two(words, b"crypto", b"map")
}

/// A value behind which no word stands.
pub(crate) fn alone<T: Drop>(value: T, words: &[Word]) -> Result<T, ReadFault>
    ensures { CauseGiven result (alone value words.now) }
{
    if words.is_empty() {
        Ok(value)
    } else {
        Err(ReadFault::Bad(Cause::Syntax))
    }
}
