//! The words of a rule: options, modules and targets of iptables(8) and iptables-extensions(8).

ghost use Rattle.std.specs.Prelude.{◌≡◌};
ghost use Rattle.fws_ipt.specs.Options.{test_option, target_option, other_keyword, keyword_of, is_module, target_word, is_left_out_target, belongs, needs_option};

use fws_ipt::{Keyword, TargetOption, TargetWord, TestOption};
use fws_num::value_named;
use fws_rules::is_one_of;

/// Options that test a packet.
const TEST_OPTIONS: [(&[u8], TestOption); 19] = [
    (b"-s", TestOption::Source),
    (b"-d", TestOption::Destination),
    (b"-i", TestOption::InInterface),
    (b"-o", TestOption::OutInterface),
    (b"-p", TestOption::Protocol),
    (b"--sport", TestOption::SourcePort),
    (b"--dport", TestOption::DestinationPort),
    (b"--sports", TestOption::SourcePorts),
    (b"--dports", TestOption::DestinationPorts),
    (b"--tcp-flags", TestOption::TcpFlags),
    (b"--syn", TestOption::Syn),
    (b"--icmp-type", TestOption::IcmpType),
    (b"--state", TestOption::State),
    (b"--ctstate", TestOption::ConnectionState),
    (b"--mark", TestOption::Mark),
    (b"--src-range", TestOption::SourceRange),
    (b"--dst-range", TestOption::DestinationRange),
    (b"--src-type", TestOption::SourceType),
    (b"--dst-type", TestOption::DestinationType),
];

/// Options of targets.
const TARGET_OPTIONS: [(&[u8], TargetOption); 15] = [
    (b"--reject-with", TargetOption::RejectWith),
    (b"--log-prefix", TargetOption::LogPrefix),
    (b"--log-level", TargetOption::LogLevel),
    (b"--log-tcp-sequence", TargetOption::LogTcpSequence),
    (b"--log-tcp-options", TargetOption::LogTcpOptions),
    (b"--log-ip-options", TargetOption::LogIpOptions),
    (b"--log-uid", TargetOption::LogUid),
    (b"--nflog-group", TargetOption::NflogGroup),
    (b"--nflog-prefix", TargetOption::NflogPrefix),
    (b"--set-xmark", TargetOption::SetXmark),
    (b"--set-mark", TargetOption::SetMark),
    (b"--to-source", TargetOption::ToSource),
    (b"--to-destination", TargetOption::ToDestination),
    (b"--to-ports", TargetOption::ToPorts),
    (b"--to", TargetOption::ToNetwork),
];

/// Keywords that are no options of tests or targets.
const OTHER_KEYWORDS: [(&[u8], Keyword); 9] = [
    (b"!", Keyword::Not),
    (b"-m", Keyword::Match),
    (b"-j", Keyword::Jump),
    (b"-g", Keyword::Goto),
    (b"--comment", Keyword::Comment),
    (b"--limit", Keyword::Limit),
    (b"--limit-burst", Keyword::Limit),
    (b"-A", Keyword::Line),
    (b"COMMIT", Keyword::Line),
];

/// Modules whose options are read.
const MODULES: [&[u8]; 11] = [
    b"tcp",
    b"udp",
    b"icmp",
    b"multiport",
    b"state",
    b"conntrack",
    b"mark",
    b"iprange",
    b"addrtype",
    b"comment",
    b"limit",
];

/// Targets that are read.
const TARGET_WORDS: [(&[u8], TargetWord); 12] = [
    (b"ACCEPT", TargetWord::Accept),
    (b"DROP", TargetWord::Drop),
    (b"RETURN", TargetWord::Return),
    (b"REJECT", TargetWord::Reject),
    (b"LOG", TargetWord::Log),
    (b"NFLOG", TargetWord::Nflog),
    (b"MARK", TargetWord::Mark),
    (b"SNAT", TargetWord::Source),
    (b"DNAT", TargetWord::Destination),
    (b"MASQUERADE", TargetWord::Masquerade),
    (b"REDIRECT", TargetWord::Redirect),
    (b"NETMAP", TargetWord::Netmap),
];

/// Targets that are left out.
const LEFT_OUT_TARGETS: [&[u8]; 18] = [
    b"CHECKSUM",
    b"CLASSIFY",
    b"CONNMARK",
    b"CT",
    b"DSCP",
    b"HL",
    b"NFQUEUE",
    b"NOTRACK",
    b"QUEUE",
    b"SECMARK",
    b"SET",
    b"TCPMSS",
    b"TEE",
    b"TOS",
    b"TPROXY",
    b"TRACE",
    b"TTL",
    b"ULOG",
];

/// The option that tests a packet.
#[tactic(auto, unfolding(fws_ipt::specs::Options::test_option))]
fn test_option(text: &[u8]) -> Option<TestOption>
    ensures { result ≡ test_option text.now }
{
    value_named(&TEST_OPTIONS, text)
}

/// The option of a target.
#[tactic(auto, unfolding(fws_ipt::specs::Options::target_option))]
fn target_option(text: &[u8]) -> Option<TargetOption>
    ensures { result ≡ target_option text.now }
{
    value_named(&TARGET_OPTIONS, text)
}

/// A keyword that is no option of a test or a target.
#[tactic(auto, unfolding(fws_ipt::specs::Options::other_keyword))]
fn other_keyword(text: &[u8]) -> Option<Keyword>
    ensures { result ≡ other_keyword text.now }
{
    value_named(&OTHER_KEYWORDS, text)
}

/// The keyword that the word is, if it is one.
pub(crate) fn read_keyword(text: &[u8]) -> Option<Keyword>
    ensures { result ≡ keyword_of text.now }
{
    if let Some(option) = test_option(text) {
        return Some(Keyword::Test(option));
    }
    if let Some(keyword) = other_keyword(text) {
        return Some(keyword);
    }
    Some(Keyword::Target(target_option(text)?))
}

/// Whether it is a module whose options are read.
#[tactic(auto, unfolding(fws_ipt::specs::Options::is_module))]
pub(crate) fn is_module(text: &[u8]) -> bool
    ensures { result ≡ is_module text.now }
{
    is_one_of(&MODULES, text)
}

/// The target that the word is, if it is one that is read.
#[tactic(auto, unfolding(fws_ipt::specs::Options::target_word))]
pub(crate) fn read_target_word(text: &[u8]) -> Option<TargetWord>
    ensures { result ≡ target_word text.now }
{
    value_named(&TARGET_WORDS, text)
}

/// Whether it is a target that is left out.
#[tactic(auto, unfolding(fws_ipt::specs::Options::is_left_out_target))]
pub(crate) fn is_left_out_target(text: &[u8]) -> bool
    ensures { result ≡ is_left_out_target text.now }
{
    is_one_of(&LEFT_OUT_TARGETS, text)
}

/// Whether the option is one of the target's.
pub(crate) fn belongs(option: TargetOption, target: TargetWord) -> bool
    ensures { result ≡ belongs option target }
{
    match (option, target) {
        (TargetOption::RejectWith, TargetWord::Reject) => true,
        (
            TargetOption::LogPrefix
            | TargetOption::LogLevel
            | TargetOption::LogTcpSequence
            | TargetOption::LogTcpOptions
            | TargetOption::LogIpOptions
            | TargetOption::LogUid,
            TargetWord::Log,
        ) => true,
        (TargetOption::NflogGroup | TargetOption::NflogPrefix, TargetWord::Nflog) => true,
        (TargetOption::SetXmark | TargetOption::SetMark, TargetWord::Mark) => true,
        (TargetOption::ToSource, TargetWord::Source) => true,
        (TargetOption::ToDestination, TargetWord::Destination) => true,
        (TargetOption::ToPorts, TargetWord::Redirect) => true,
        (TargetOption::ToNetwork, TargetWord::Netmap) => true,
        _ => false,
    }
}

/// Whether the target needs one of its options, as SNAT, DNAT, NETMAP and MARK do.
pub(crate) fn needs_option(target: TargetWord) -> bool
    ensures { result ≡ needs_option target }
{
    matches!(
        target,
        TargetWord::Mark | TargetWord::Source | TargetWord::Destination | TargetWord::Netmap
    )
}
