//! A rule behind its chain's name (iptables(8), iptables-extensions(8)).

ghost use Rattle.std.specs.Prelude.{◌≡◌, false};
ghost use Rattle.std.specs.Option.{option_map_or};
ghost use Rattle.fws_net.specs.Causes.{judged, words_read};
ghost use Rattle.fws_net.specs.Reading.{CauseGiven, StepGiven, and_then};
ghost use Rattle.fws_net.specs.Routes.{IsSound};
ghost use Rattle.fws_ipt.specs.RuleText.{fresh_rule, target_begun, keyword_step, is_target_option, known_step, any_step, negated_keyword, negated_step, module_step, expected_step, rule_step, is_keyword_next, is_complete, is_misplaced, logs, is_protocol, lacks_protocol, named_len, keeps_network, is_loose, is_rule_left_out, rule_checks, rule_made, rule_of};

use crate::keywords::{is_module, read_keyword};
use crate::options::{compared_step, once, test_step, value_step};
use crate::progress::Progress;
use crate::targets::{goto_step, option_step, target_step, target_value_step};
use fws_ipt::{Expects, Hook, IptGo, IptRule, IptTable, Keyword, RuleDraft, TargetWord};
use fws_net::{Cause, Checks, Cond, ReadFault, Site};
use fws_num::{Items, Prefix, Word};
use fws_rules::is;
use std::alloc::Global;
use std::mem;

/// A rule ahead of its first word.
fn fresh_rule(alloc: Global) -> RuleDraft
    ensures { result ≡ fresh_rule }
{
    RuleDraft {
        expects: Expects::Keyword,
        given: Items::new(alloc),
        cond: Cond::new(alloc),
        source: None,
        destination: None,
        protocol: None,
        has_port: false,
        has_flags: false,
        has_icmp: false,
        is_limited: false,
        target: None,
        go: IptGo::Next,
        is_open: false,
        owes: false,
    }
}

/// Takes `-j` or `-g`, which are one option.
fn begin_target(d: &mut RuleDraft, next: Expects) -> Result<(), ReadFault>
    ensures { StepGiven result d.new (target_begun next d.old) }
{
    if d.target.is_some() {
        return Err(ReadFault::Bad(Cause::Syntax));
    }
    d.expects = next;
    Ok(())
}

/// Takes a keyword that no `!` negates.
fn keyword_step(
    alloc: Global,
    d: &mut RuleDraft,
    text: &[u8],
    keyword: Keyword,
) -> Result<(), ReadFault>
    ensures { StepGiven result d.new (keyword_step text.now keyword d.old) }
{
    match keyword {
        Keyword::Not => {
            d.is_open = false;
            d.expects = Expects::Negated;
        }
        Keyword::Match => {
            d.is_open = false;
            d.expects = Expects::Module;
        }
        Keyword::Jump => begin_target(d, Expects::Target)?,
        Keyword::Goto => begin_target(d, Expects::Chain)?,
        Keyword::Comment => {
            once(alloc, d, text)?;
            d.is_open = false;
            d.expects = Expects::Unused;
        }
        Keyword::Limit => {
            once(alloc, d, text)?;
            d.is_limited = true;
            d.is_open = false;
            d.expects = Expects::Unused;
        }
        Keyword::Line => return Err(ReadFault::Bad(Cause::Syntax)),
        Keyword::Test(option) => test_step(alloc, d, false, text, option)?,
        Keyword::Target(option) => option_step(alloc, d, text, option)?,
    }
    Ok(())
}

/// Takes a keyword. A target that still needs its option has it next.
fn known_step(
    alloc: Global,
    d: &mut RuleDraft,
    text: &[u8],
    keyword: Keyword,
) -> Result<(), ReadFault>
    ensures { StepGiven result d.new (known_step text.now keyword d.old) }
{
    if d.owes && !matches!(keyword, Keyword::Target(_)) {
        return Err(ReadFault::Bad(Cause::Syntax));
    }
    keyword_step(alloc, d, text, keyword)
}

/// Takes a word where a keyword may stand. An unknown word is left out.
fn any_step(alloc: Global, d: &mut RuleDraft, text: &[u8]) -> Result<(), ReadFault>
    ensures { StepGiven result d.new (any_step text.now d.old) }
{
    match read_keyword(text) {
        Some(keyword) => known_step(alloc, d, text, keyword),
        None => Err(ReadFault::Bad(Cause::LeftOut)),
    }
}

/// Takes a word behind `!`, which is an option that tests.
fn negated_step(alloc: Global, d: &mut RuleDraft, text: &[u8]) -> Result<(), ReadFault>
    ensures { StepGiven result d.new (negated_step text.now d.old) }
{
    match read_keyword(text) {
        Some(Keyword::Test(option)) => test_step(alloc, d, true, text, option),
        Some(_) => Err(ReadFault::Bad(Cause::Syntax)),
        None => Err(ReadFault::Bad(Cause::LeftOut)),
    }
}

/// Takes the name of a module. The module `limit` counts as a limit.
fn module_step(d: &mut RuleDraft, text: &[u8]) -> Result<(), ReadFault>
    ensures { StepGiven result d.new (module_step text.now d.old) }
{
    if !is_module(text) {
        return Err(ReadFault::Bad(Cause::LeftOut));
    }
    if is(text, b"limit") {
        d.is_limited = true;
    }
    d.expects = Expects::Keyword;
    Ok(())
}

/// Takes a word, by what it is taken for.
fn expected_step(
    alloc: Global,
    site: &Site,
    reader: &Progress,
    table: IptTable,
    expects: Expects,
    d: &mut RuleDraft,
    text: &[u8],
) -> Result<(), ReadFault>
    requires { IsSound site.now }
    ensures { StepGiven result d.new (expected_step site.now table reader.now.chains expects text.now d.old) }
{
    match expects {
        Expects::Keyword => any_step(alloc, d, text),
        Expects::Negated => negated_step(alloc, d, text),
        Expects::Value(option, negated) => value_step(alloc, site, d, option, negated, text),
        Expects::Compared(mask, negated) => compared_step(alloc, d, mask, negated, text),
        Expects::Module => module_step(d, text),
        Expects::Unused => {
            d.expects = Expects::Keyword;
            Ok(())
        }
        Expects::Target => target_step(alloc, reader, table, d, text),
        Expects::Chain => goto_step(alloc, reader, table, d, text),
        Expects::TargetValue(option) => target_value_step(d, option, text),
    }
}

/// Takes a word. One with a bad byte or an open quote is refused, whatever it would be.
fn take_word(
    alloc: Global,
    site: &Site,
    reader: &Progress,
    table: IptTable,
    d: &mut RuleDraft,
    word: &Word,
) -> Result<(), ReadFault>
    requires { IsSound site.now }
    ensures { StepGiven result d.new (judged word.now (rule_step site.now table reader.now.chains d.old word.now)) }
{
    if !word.is_sound() {
        return Err(ReadFault::Bad(Cause::Syntax));
    }
    expected_step(
        alloc,
        site,
        reader,
        table,
        d.expects,
        d,
        word.text.as_slice(),
    )
}

/// Takes the words of a rule, up to the first that is refused.
fn take_words(
    alloc: Global,
    site: &Site,
    reader: &Progress,
    table: IptTable,
    d: &mut RuleDraft,
    words: &[Word],
) -> Result<(), ReadFault>
    requires { IsSound site.now }
    ensures { StepGiven result d.new (words_read (rule_step site.now table reader.now.chains) d.old words.now) }
{
    for word in words {
        take_word(alloc, site, reader, table, d, word)?;
    }
    Ok(())
}

/// Whether no value and no option of a target lacks.
fn is_complete(d: &RuleDraft) -> bool
    ensures { result ≡ is_complete d.now }
{
    matches!(d.expects, Expects::Keyword) && !d.owes
}

/// Whether the target is left out in this table.
fn is_misplaced(table: IptTable, target: TargetWord) -> bool
    ensures { result ≡ is_misplaced table target }
{
    match target {
        TargetWord::Drop => matches!(table, IptTable::Nat),
        TargetWord::Reject => !matches!(table, IptTable::Filter),
        TargetWord::Mark => !matches!(table, IptTable::Mangle),
        TargetWord::Source
        | TargetWord::Destination
        | TargetWord::Masquerade
        | TargetWord::Redirect
        | TargetWord::Netmap => !matches!(table, IptTable::Nat),
        _ => false,
    }
}

/// Whether the target logs packets, where a rate may be limited.
fn logs(target: Option<TargetWord>) -> bool
    ensures { result ≡ option_map_or logs target false }
{
    matches!(target, Some(TargetWord::Log | TargetWord::Nflog))
}

/// The length of the prefix that names the addresses over which NETMAP writes at the hook.
fn named_len(d: &RuleDraft, hook: Hook) -> Option<u8>
    ensures { result ≡ named_len d.now hook }
{
    if hook.writes_dst() {
        d.destination
    } else if hook.writes_src() {
        d.source
    } else {
        None
    }
}

/// Whether a rule of a built-in chain names the addresses by a prefix that is as long as the network or
/// longer.
fn keeps_network(hook: Option<Hook>, d: &RuleDraft, network: Prefix) -> bool
    ensures { result ≡ keeps_network hook d.now network }
{
    let Some(hook) = hook else {
        return false;
    };
    match named_len(d, hook) {
        Some(len) => network.len <= len,
        None => false,
    }
}

/// Whether the rule writes a network elsewhere, or over addresses that it doesn't name.
fn is_loose(hook: Option<Hook>, d: &RuleDraft, go: IptGo) -> bool
    ensures { result ≡ is_loose hook d.now go }
{
    match go {
        IptGo::Netmap(network) => !keeps_network(hook, d, network),
        _ => false,
    }
}

/// Whether the rule has a target or a limit that is left out in this table and chain.
fn is_rule_left_out(table: IptTable, hook: Option<Hook>, d: &RuleDraft) -> bool
    ensures { result ≡ is_rule_left_out table hook d.now }
{
    let misplaced = match d.target {
        Some(target) => is_misplaced(table, target),
        None => false,
    };
    misplaced || is_loose(hook, d, d.go) || (d.is_limited && !logs(d.target))
}

/// Whether the protocol is this one.
fn is_protocol(number: u8, protocol: Option<u8>) -> bool
    ensures { result ≡ is_protocol number protocol }
{
    match protocol {
        Some(named) => number == named,
        None => false,
    }
}

/// Whether a test or a target asks for a protocol that the rule doesn't name.
fn lacks_protocol(d: &RuleDraft) -> bool
    ensures { result ≡ lacks_protocol d.now }
{
    let is_tcp = is_protocol(6, d.protocol);
    (d.has_port && !(is_tcp || is_protocol(17, d.protocol)))
        || (d.has_flags && !is_tcp)
        || (d.has_icmp && !is_protocol(1, d.protocol))
}

/// The rule of a draft, whose condition it takes along.
fn rule_drawn(alloc: Global, d: &mut RuleDraft) -> IptRule
    ensures { result ≡ record { cond = d.old.cond; go = d.old.go } }
{
    IptRule {
        cond: mem::replace(&mut d.cond, Cond::new(alloc)),
        go: d.go,
    }
}

/// The rule of what was read of it, unless it is refused.
fn make_rule(
    alloc: Global,
    table: IptTable,
    hook: Option<Hook>,
    d: &mut RuleDraft,
) -> Result<IptRule, ReadFault>
    ensures { CauseGiven result (rule_made table hook d.old) }
{
    if !is_complete(d) {
        return Err(ReadFault::Bad(Cause::Syntax));
    }
    let checks = Checks {
        left_out: is_rule_left_out(table, hook, d),
        backward: false,
        shape: lacks_protocol(d),
        expand: false,
    };
    match checks.first() {
        Some(cause) => Err(ReadFault::Bad(cause)),
        None => Ok(rule_drawn(alloc, d)),
    }
}

/// The rule of a draft and of these words behind it.
fn rule_behind(
    alloc: Global,
    site: &Site,
    reader: &Progress,
    table: IptTable,
    hook: Option<Hook>,
    d: &mut RuleDraft,
    words: &[Word],
) -> Result<IptRule, ReadFault>
    requires { IsSound site.now }
    ensures { CauseGiven result (and_then (words_read (rule_step site.now table reader.now.chains) d.old words.now) (rule_made table hook)) }
{
    take_words(alloc, site, reader, table, d, words)?;
    make_rule(alloc, table, hook, d)
}

/// The rule of these words, in a table with the chains that were read. The hook is that of its chain, if
/// this is built in.
pub(crate) fn read_rule(
    alloc: Global,
    site: &Site,
    reader: &Progress,
    table: IptTable,
    hook: Option<Hook>,
    words: &[Word],
) -> Result<IptRule, ReadFault>
    requires { IsSound site.now }
    ensures { CauseGiven result (rule_of site.now table hook reader.now.chains words.now) }
{
    let mut d = fresh_rule(alloc);
    rule_behind(alloc, site, reader, table, hook, &mut d, words)
}
