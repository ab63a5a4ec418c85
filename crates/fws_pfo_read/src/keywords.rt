//! The words of statements (pf.conf(5) of OpenBSD).

ghost use Rattle.std.specs.Prelude.{◌≡◌};
ghost use Rattle.fws_pfo.specs.Keywords.{action_word, is_added_word, is_different, is_lacked_word, misplaced};
ghost use Rattle.fws_pfo.specs.RuleText.{is_state_word};

use fws_net::Cause;
use fws_num::value_named;
use fws_pf_read::misplaced as pf_misplaced;
use fws_pfo::PfoKind;
use fws_rules::is_one_of;

/// Words with which rules begin.
const ACTION_WORDS: [(&[u8], PfoKind); 3] = [
    (b"pass", PfoKind::Pass),
    (b"block", PfoKind::Block),
    (b"match", PfoKind::Match),
];

/// Keywords that FreeBSD's pf lacks.
const ADDED_WORDS: [&[u8]; 3] = [b"match", b"nat-to", b"rdr-to"];

/// Keywords of FreeBSD's pf that are left out here.
const LACKED_WORDS: [&[u8]; 2] = [b"rdr", b"nat"];

/// Words with which options of state begin.
const STATE_WORDS: [&[u8]; 3] = [b"keep", b"modulate", b"no"];

/// What a rule with this first word is for.
#[tactic(auto, unfolding(fws_pfo::specs::Keywords::action_word))]
pub(crate) fn action_word(text: &[u8]) -> Option<PfoKind>
    ensures { result ≡ action_word text.now }
{
    value_named(&ACTION_WORDS, text)
}

/// Whether it is a keyword that FreeBSD's pf lacks.
#[tactic(auto, unfolding(fws_pfo::specs::Keywords::is_added_word))]
fn is_added_word(text: &[u8]) -> bool
    ensures { result ≡ is_added_word text.now }
{
    is_one_of(&ADDED_WORDS, text)
}

/// Whether it is a keyword of FreeBSD's pf that is left out here.
#[tactic(auto, unfolding(fws_pfo::specs::Keywords::is_lacked_word))]
fn is_lacked_word(text: &[u8]) -> bool
    ensures { result ≡ is_lacked_word text.now }
{
    is_one_of(&LACKED_WORDS, text)
}

/// Whether it is a keyword of one dialect alone.
pub(crate) fn is_different(text: &[u8]) -> bool
    ensures { result ≡ is_different text.now }
{
    is_added_word(text) || is_lacked_word(text)
}

/// Whether an option of state begins with it.
#[tactic(auto, unfolding(fws_pfo::specs::RuleText::is_state_word))]
pub(crate) fn is_state_word(text: &[u8]) -> bool
    ensures { result ≡ is_state_word text.now }
{
    is_one_of(&STATE_WORDS, text)
}

/// Why a word is refused that stands where a keyword may stand, and isn't one of those that may.
pub(crate) fn misplaced(text: &[u8]) -> Cause
    ensures { result ≡ misplaced text.now }
{
    if is_added_word(text) {
        Cause::Syntax
    } else if is_lacked_word(text) {
        Cause::LeftOut
    } else {
        pf_misplaced(text)
    }
}
