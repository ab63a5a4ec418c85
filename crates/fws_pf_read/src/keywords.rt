//! The words of statements (pf.conf(5)).

ghost use Rattle.std.specs.Prelude.{◌≡◌};
ghost use Rattle.fws_pf.specs.Keywords.{action_word, is_keyword, is_other_word, misplaced, option_word};

use fws_net::Cause;
use fws_num::value_named;
use fws_pf::{ActionWord, OptionWord};
use fws_rules::is_one_of;

/// Words with which rules and translations begin.
const ACTION_WORDS: [(&[u8], ActionWord); 4] = [
    (b"block", ActionWord::Block),
    (b"pass", ActionWord::Pass),
    (b"rdr", ActionWord::Rdr),
    (b"nat", ActionWord::Nat),
];

/// Options of filter rules.
const OPTION_WORDS: [(&[u8], OptionWord); 8] = [
    (b"flags", OptionWord::Flags),
    (b"icmp-type", OptionWord::IcmpType),
    (b"keep", OptionWord::Keep),
    (b"modulate", OptionWord::Keep),
    (b"no", OptionWord::NoState),
    (b"tag", OptionWord::Tag),
    (b"tagged", OptionWord::Tagged),
    (b"label", OptionWord::Label),
];

/// Keywords that are neither actions nor options.
const OTHER_WORDS: [&[u8]; 26] = [
    b"drop",
    b"return",
    b"return-rst",
    b"return-icmp",
    b"in",
    b"out",
    b"log",
    b"all",
    b"quick",
    b"on",
    b"inet",
    b"proto",
    b"from",
    b"to",
    b"port",
    b"any",
    b"self",
    b"state",
    b"bitmask",
    b"static-port",
    b"table",
    b"persist",
    b"const",
    b"set",
    b"skip",
    b"scrub",
];

/// The action of this name.
#[tactic(auto, unfolding(fws_pf::specs::Keywords::action_word))]
pub(crate) fn action_word(text: &[u8]) -> Option<ActionWord>
    ensures { result ≡ action_word text.now }
{
    value_named(&ACTION_WORDS, text)
}

/// The option of this name.
#[tactic(auto, unfolding(fws_pf::specs::Keywords::option_word))]
pub(crate) fn option_word(text: &[u8]) -> Option<OptionWord>
    ensures { result ≡ option_word text.now }
{
    value_named(&OPTION_WORDS, text)
}

/// Whether it is another keyword.
#[tactic(auto, unfolding(fws_pf::specs::Keywords::is_other_word))]
fn is_other_word(text: &[u8]) -> bool
    ensures { result ≡ is_other_word text.now }
{
    is_one_of(&OTHER_WORDS, text)
}

/// Whether it is a keyword of pf.
fn is_keyword(text: &[u8]) -> bool
    ensures { result ≡ is_keyword text.now }
{
    action_word(text).is_some() || option_word(text).is_some() || is_other_word(text)
}

/// Why a word is refused that stands where a keyword may stand, and isn't one of those that may.
pub fn misplaced(text: &[u8]) -> Cause
    ensures { result ≡ misplaced text.now }
{
    if is_keyword(text) {
        Cause::Syntax
    } else {
        Cause::LeftOut
    }
}
