//! The words of rules and of instances (ipfw(8)).

ghost use Rattle.std.specs.Prelude.{◌≡◌};
ghost use Rattle.fws_ipfw.specs.Options.{action_word, begins_with_digit, is_keyword, is_other_word, misplaced, misspelled, nat_word, test_option};

use fws_ipfw::{ActionWord, NatWord, TestOption};
use fws_net::Cause;
use fws_num::value_named;
use fws_rules::is_one_of;

/// Actions of rules.
const ACTION_WORDS: [(&[u8], ActionWord); 13] = [
    (b"allow", ActionWord::Allow),
    (b"accept", ActionWord::Allow),
    (b"pass", ActionWord::Allow),
    (b"permit", ActionWord::Allow),
    (b"deny", ActionWord::Deny),
    (b"drop", ActionWord::Deny),
    (b"reject", ActionWord::Deny),
    (b"reset", ActionWord::Deny),
    (b"unreach", ActionWord::Unreach),
    (b"count", ActionWord::Count),
    (b"skipto", ActionWord::SkipTo),
    (b"nat", ActionWord::Nat),
    (b"check-state", ActionWord::CheckState),
];

/// Options that test a packet.
const TEST_OPTIONS: [(&[u8], TestOption); 12] = [
    (b"in", TestOption::In),
    (b"out", TestOption::Out),
    (b"recv", TestOption::Recv),
    (b"xmit", TestOption::Xmit),
    (b"via", TestOption::Via),
    (b"setup", TestOption::Setup),
    (b"established", TestOption::Established),
    (b"tcpflags", TestOption::TcpFlags),
    (b"icmptypes", TestOption::IcmpTypes),
    (b"src-port", TestOption::SourcePort),
    (b"dst-port", TestOption::DestinationPort),
    (b"tagged", TestOption::Tagged),
];

/// Options of instances.
const NAT_WORDS: [(&[u8], NatWord); 7] = [
    (b"ip", NatWord::Address),
    (b"if", NatWord::Interface),
    (b"log", NatWord::Plain),
    (b"same_ports", NatWord::Plain),
    (b"reset", NatWord::Plain),
    (b"redirect_port", NatWord::RedirectPort),
    (b"redirect_addr", NatWord::RedirectAddress),
];

/// Keywords that are neither actions nor options of tests or instances.
const OTHER_WORDS: [&[u8]; 17] = [
    b"ipfw",
    b"-q",
    b"-f",
    b"add",
    b"flush",
    b"config",
    b"logamount",
    b"tag",
    b"untag",
    b"all",
    b"from",
    b"to",
    b"not",
    b"any",
    b"me",
    b"keep-state",
    b":default",
];

/// The action of this name.
#[tactic(auto, unfolding(fws_ipfw::specs::Options::action_word))]
pub(crate) fn action_word(text: &[u8]) -> Option<ActionWord>
    ensures { result ≡ action_word text.now }
{
    value_named(&ACTION_WORDS, text)
}

/// The option of this name that tests a packet.
#[tactic(auto, unfolding(fws_ipfw::specs::Options::test_option))]
pub(crate) fn test_option(text: &[u8]) -> Option<TestOption>
    ensures { result ≡ test_option text.now }
{
    value_named(&TEST_OPTIONS, text)
}

/// The option of an instance of this name.
#[tactic(auto, unfolding(fws_ipfw::specs::Options::nat_word))]
pub(crate) fn nat_word(text: &[u8]) -> Option<NatWord>
    ensures { result ≡ nat_word text.now }
{
    value_named(&NAT_WORDS, text)
}

/// Whether it is another keyword.
#[tactic(auto, unfolding(fws_ipfw::specs::Options::is_other_word))]
fn is_other_word(text: &[u8]) -> bool
    ensures { result ≡ is_other_word text.now }
{
    is_one_of(&OTHER_WORDS, text)
}

/// Whether it is a keyword of ipfw.
fn is_keyword(text: &[u8]) -> bool
    ensures { result ≡ is_keyword text.now }
{
    action_word(text).is_some()
        || test_option(text).is_some()
        || nat_word(text).is_some()
        || is_other_word(text)
}

/// Whether the text begins with a digit.
fn begins_with_digit(text: &[u8]) -> bool
    ensures { result ≡ begins_with_digit text.now }
{
    match text.first() {
        Some(byte) => byte.is_ascii_digit(),
        None => false,
    }
}

/// Why a word is refused that stands where a keyword may stand, and isn't one of those that may.
pub(crate) fn misplaced(text: &[u8]) -> Cause
    ensures { result ≡ misplaced text.now }
{
    if is_keyword(text) {
        Cause::Syntax
    } else {
        Cause::LeftOut
    }
}

/// Why one is refused that stands where a value may stand too.
pub(crate) fn misspelled(text: &[u8]) -> Cause
    ensures { result ≡ misspelled text.now }
{
    if begins_with_digit(text) {
        Cause::Syntax
    } else {
        misplaced(text)
    }
}
