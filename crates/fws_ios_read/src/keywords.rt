//! The words of a running configuration (Cisco IOS).

ghost use Rattle.std.specs.Prelude.{◌≡◌};
ghost use Rattle.fws_ios.specs.Keywords.{begins_with_digit, is_keyword, is_other_word, misplaced, misspelled, port_word};

use fws_ios::PortWord;
use fws_net::Cause;
use fws_num::value_named;
use fws_rules::is_one_of;

/// How ports are compared.
const PORT_WORDS: [(&[u8], PortWord); 5] = [
    (b"eq", PortWord::Equal),
    (b"neq", PortWord::Unequal),
    (b"lt", PortWord::Less),
    (b"gt", PortWord::Greater),
    (b"range", PortWord::Range),
];

/// Keywords that compare no ports.
const OTHER_WORDS: [&[u8]; 30] = [
    b"interface",
    b"ip",
    b"access-group",
    b"in",
    b"out",
    b"nat",
    b"inside",
    b"outside",
    b"access-list",
    b"standard",
    b"extended",
    b"remark",
    b"permit",
    b"deny",
    b"evaluate",
    b"any",
    b"host",
    b"established",
    b"reflect",
    b"timeout",
    b"log",
    b"log-input",
    b"pool",
    b"netmask",
    b"prefix-length",
    b"source",
    b"list",
    b"overload",
    b"static",
    b"extendable",
];

/// The comparison of this name.
#[tactic(auto, unfolding(fws_ios::specs::Keywords::port_word))]
pub(crate) fn port_word(text: &[u8]) -> Option<PortWord>
    ensures { result ≡ port_word text.now }
{
    value_named(&PORT_WORDS, text)
}

/// Whether it is another keyword.
#[tactic(auto, unfolding(fws_ios::specs::Keywords::is_other_word))]
fn is_other_word(text: &[u8]) -> bool
    ensures { result ≡ is_other_word text.now }
{
    is_one_of(&OTHER_WORDS, text)
}

/// Whether it is a keyword of Cisco IOS.
fn is_keyword(text: &[u8]) -> bool
    ensures { result ≡ is_keyword text.now }
{
    port_word(text).is_some() || is_other_word(text)
}

/// Whether the text begins with a digit.
pub(crate) fn begins_with_digit(text: &[u8]) -> bool
    ensures { result ≡ begins_with_digit text.now }
{
    match text.first() {
        Some(byte) => byte.is_ascii_digit(),
        None => false,
    }
}

/// Why a word is refused that stands where a keyword may stand, and isn't one of those that may.
pub(crate) fn misplaced(text: &[u8]) -> Cause
    ensures { result ≡ misplaced text.now }
{
    if is_keyword(text) {
        Cause::Syntax
    } else {
        Cause::LeftOut
    }
}

/// Why one is refused that stands where a value may stand too.
pub(crate) fn misspelled(text: &[u8]) -> Cause
    ensures { result ≡ misspelled text.now }
{
    if begins_with_digit(text) {
        Cause::Syntax
    } else {
        misplaced(text)
    }
}
