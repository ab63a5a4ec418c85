//! The lines of a text (ipfw(8)).

ghost use Rattle.std.specs.Prelude.{◌≡◌, ◌+◌, ◌&&◌, ◌∷◌, List, Ok, IfOk, OnOk};
ghost use Rattle.std.specs.Option.{option_map_or};
ghost use Rattle.std.specs.Str.{bytes_eq};
ghost use Rattle.fws_num.specs.declared.word.Word.{Word as AnyWord};
ghost use Rattle.fws_num.specs.Words.{is_sound};
ghost use Rattle.fws_net.specs.Reading.{CauseGiven, StepGiven, and_then};
ghost use Rattle.fws_net.specs.Routes.{IsSound};
ghost use Rattle.fws_ipfw.specs.NatText.{nat_of};
ghost use Rattle.fws_ipfw.specs.FileText.{add_line, all_defined, alone, are_words, behind_program, behind_quiet, command_line, command_step, config_line, defined_behind, defined_by, defined_from, flush_line, fresh_number, is_full, is_quiet, last_rule, listed_line, nat_line, next_number, quiet_line, redirects_named, redirects_of, rule_line, rule_number, rule_put, unnumbered, with_defined, with_nat, words_step};
ghost use Rattle.fws_ipfw.specs.RuleText.{rule_drawn};
ghost use Rattle.fws_ipfw_read.specs.Rules.{rule_behind};

use crate::instances::Known;
use crate::keywords::{action_word, misplaced, misspelled};
use crate::numbers::read_counted;
use crate::progress::Progress;
use crate::redirects::read_nat;
use crate::rule::{fresh_rule, rule_checks, take_rule};
use fws_ipfw::{Defined, IpfwAct, IpfwRule, RuleDraft};
use fws_net::{Cause, Cond, ReadFault, Site};
use fws_num::{Line, Memory, Word};
use fws_rules::is;
use std::alloc::Global;
use std::mem;

/// The number of a rule that has none, behind rules of which this is the greatest.
fn next_number(greatest: u32) -> u32
    ensures { result ≡ next_number greatest }
{
    match greatest.checked_add(100) {
        Some(next) => if next <= 65534 { next } else { greatest },
        None => greatest,
    }
}

/// The redirects of the instance that an act names.
fn redirects_named(known: &Known, act: IpfwAct) -> u32
    ensures { result ≡ redirects_named known.now act }
{
    match act {
        IpfwAct::Nat(number) => known.redirects(number),
        _ => 0,
    }
}

/// Whether an act names an instance, and so many redirects are too many.
fn is_full(act: IpfwAct, redirects: u64) -> bool
    ensures { result ≡ is_full act redirects }
{
    match act {
        IpfwAct::Nat(_) => redirects > 200_000,
        _ => false,
    }
}

/// The rule of a draft, whose condition it takes along.
fn rule_drawn(alloc: Global, number: u32, d: &mut RuleDraft) -> IpfwRule
    ensures { result ≡ rule_drawn number d.old }
{
    IpfwRule {
        number,
        cond: mem::replace(&mut d.cond, Cond::new(alloc)),
        act: d.act,
        tag: d.tag,
        keep: d.keep,
    }
}

/// Takes a rule with its number.
fn put_rule(
    alloc: Global,
    reader: &mut Progress,
    known: &Known,
    number: u32,
    d: &mut RuleDraft,
) -> Result<(), ReadFault>
    ensures { StepGiven result reader.new (rule_put number known.now reader.old d.old) }
{
    let named = u64::from(redirects_named(known, d.act));
    let Some(redirects) = reader.redirects().checked_add(named) else {
        return Err(ReadFault::Memory);
    };
    match rule_checks(number, is_full(d.act, redirects), d).first() {
        Some(cause) => Err(ReadFault::Bad(cause)),
        None => {
            reader.put_rule(rule_drawn(alloc, number, d), redirects)?;
            Ok(())
        }
    }
}

/// Takes a rule with its number: what was read of it, and these words behind it.
fn rule_behind(
    alloc: Global,
    site: &Site,
    known: &Known,
    reader: &mut Progress,
    number: u32,
    d: &mut RuleDraft,
    words: &[Word],
) -> Result<(), ReadFault>
    requires { IsSound site.now }
    ensures { StepGiven result reader.new (and_then (rule_behind site.now known.now d.old words.now) (rule_put number known.now reader.old)) }
{
    take_rule(alloc, site, known, d, words)?;
    put_rule(alloc, reader, known, number, d)
}

/// Takes the words of a rule behind its number.
fn rule_line(
    alloc: Global,
    site: &Site,
    known: &Known,
    reader: &mut Progress,
    number: u32,
    words: &[Word],
) -> Result<(), ReadFault>
    requires { IsSound site.now }
    ensures { StepGiven result reader.new (rule_line site.now known.now number words.now reader.old) }
{
    let mut d = fresh_rule(alloc);
    rule_behind(alloc, site, known, reader, number, &mut d, words)
}

/// The number of a rule; 65535 is judged with the whole line.
fn rule_number(text: &[u8]) -> Option<u32>
    ensures { result ≡ rule_number text.now }
{
    read_counted(text, 65535)
}

/// Takes a rule without a number, whose first word was judged.
fn unnumbered(
    alloc: Global,
    site: &Site,
    known: &Known,
    reader: &mut Progress,
    words: &[Word],
    first: &[u8],
) -> Result<(), ReadFault>
    requires { IsSound site.now }
    ensures { (w : AnyWord) (ws : List AnyWord) → words.now ≡ w ∷ ws → first.now ≡ w.text → StepGiven result reader.new (unnumbered site.now known.now w ws reader.old) }
{
    if action_word(first).is_none() {
        return Err(ReadFault::Bad(misspelled(first)));
    }
    let number = next_number(reader.greatest());
    rule_line(alloc, site, known, reader, number, words)
}

/// Takes the words behind `add`.
fn add_line(
    alloc: Global,
    site: &Site,
    known: &Known,
    reader: &mut Progress,
    words: &[Word],
) -> Result<(), ReadFault>
    requires { IsSound site.now }
    ensures { StepGiven result reader.new (add_line site.now known.now words.now reader.old) }
{
    let Some((word, rest)) = words.split_first() else {
        return Err(ReadFault::Bad(Cause::Syntax));
    };
    if !word.is_sound() {
        return Err(ReadFault::Bad(Cause::Syntax));
    }
    let text = word.text.as_slice();
    match rule_number(text) {
        Some(number) => rule_line(alloc, site, known, reader, number, rest),
        None => unnumbered(alloc, site, known, reader, words, text),
    }
}

/// Whether the word is this one, and can be judged.
fn is_word(word: &Word, text: &[u8]) -> bool
    ensures { result ≡ (bytes_eq word.now.text text.now && is_sound word.now) }
{
    is(word.text.as_slice(), text) && word.is_sound()
}

/// Whether the words are those of the rule that stands behind all others.
fn is_last_rule(words: &[Word]) -> bool
    ensures { result ≡ are_words last_rule words.now }
{
    let [deny, ip, from, source, to, destination] = words else {
        return false;
    };
    is_word(deny, b"deny")
        && is_word(ip, b"ip")
        && is_word(from, b"from")
        && is_word(source, b"any")
        && is_word(to, b"to")
        && is_word(destination, b"any")
}

/// Takes the words behind a number, as `ipfw list` prints a rule.
fn listed_line(
    alloc: Global,
    site: &Site,
    known: &Known,
    reader: &mut Progress,
    number: u32,
    words: &[Word],
) -> Result<(), ReadFault>
    requires { IsSound site.now }
    ensures { StepGiven result reader.new (listed_line site.now known.now number words.now reader.old) }
{
    if number == 65535 && is_last_rule(words) {
        reader.begin();
        return Ok(());
    }
    rule_line(alloc, site, known, reader, number, words)
}

/// Takes the words behind `config`.
fn instance_line(
    alloc: Global,
    site: &Site,
    reader: &mut Progress,
    number: u32,
    words: &[Word],
) -> Result<(), ReadFault>
    requires { IsSound site.now }
    ensures { StepGiven result reader.new (and_then (nat_of site.now number words.now) (λ nat. Ok (with_nat nat reader.old))) }
{
    let nat = read_nat(alloc, site, number, words)?;
    reader.put_nat(nat)?;
    Ok(())
}

/// Takes the words behind the number of an instance.
fn config_line(
    alloc: Global,
    site: &Site,
    reader: &mut Progress,
    number: u32,
    words: &[Word],
) -> Result<(), ReadFault>
    requires { IsSound site.now }
    ensures { StepGiven result reader.new (config_line site.now number words.now reader.old) }
{
    let Some((word, rest)) = words.split_first() else {
        return Err(ReadFault::Bad(Cause::Syntax));
    };
    if !word.is_sound() {
        return Err(ReadFault::Bad(Cause::Syntax));
    }
    let text = word.text.as_slice();
    if !is(text, b"config") {
        return Err(ReadFault::Bad(misplaced(text)));
    }
    instance_line(alloc, site, reader, number, rest)
}

/// The number of an instance, which no other has.
fn fresh_number(reader: &Progress, text: &[u8]) -> Result<u32, ReadFault>
    ensures { CauseGiven result (fresh_number text.now reader.now) }
{
    let Some(number) = read_counted(text, 65535) else {
        return Err(ReadFault::Bad(Cause::Syntax));
    };
    if reader.has_nat(number) {
        return Err(ReadFault::Bad(Cause::Syntax));
    }
    Ok(number)
}

/// Takes the words behind `nat`.
fn nat_line(
    alloc: Global,
    site: &Site,
    reader: &mut Progress,
    words: &[Word],
) -> Result<(), ReadFault>
    requires { IsSound site.now }
    ensures { StepGiven result reader.new (nat_line site.now words.now reader.old) }
{
    let Some((word, rest)) = words.split_first() else {
        return Err(ReadFault::Bad(Cause::Syntax));
    };
    if !word.is_sound() {
        return Err(ReadFault::Bad(Cause::Syntax));
    }
    let number = fresh_number(reader, word.text.as_slice())?;
    config_line(alloc, site, reader, number, rest)
}

/// Takes `flush`, which stands before all other lines.
fn flush_line(reader: &Progress, words: &[Word]) -> Result<(), ReadFault>
    ensures { StepGiven result reader.now (flush_line words.now reader.now) }
{
    if reader.is_begun() {
        return Err(ReadFault::Bad(Cause::LeftOut));
    }
    if !words.is_empty() {
        return Err(ReadFault::Bad(Cause::Syntax));
    }
    Ok(())
}

/// Takes a line by its first word behind `ipfw` and `-q` or `-f`.
fn command_step(
    alloc: Global,
    site: &Site,
    known: &Known,
    reader: &mut Progress,
    text: &[u8],
    words: &[Word],
) -> Result<(), ReadFault>
    requires { IsSound site.now }
    ensures { StepGiven result reader.new (command_step site.now known.now text.now words.now reader.old) }
{
    if is(text, b"add") {
        return add_line(alloc, site, known, reader, words);
    }
    if is(text, b"nat") {
        return nat_line(alloc, site, reader, words);
    }
    if is(text, b"flush") {
        return flush_line(reader, words);
    }
    match rule_number(text) {
        Some(number) => listed_line(alloc, site, known, reader, number, words),
        None => Err(ReadFault::Bad(misspelled(text))),
    }
}

/// Takes the words behind `-q` or `-f`.
fn command_line(
    alloc: Global,
    site: &Site,
    known: &Known,
    reader: &mut Progress,
    words: &[Word],
) -> Result<(), ReadFault>
    requires { IsSound site.now }
    ensures { StepGiven result reader.new (command_line site.now known.now words.now reader.old) }
{
    let Some((word, rest)) = words.split_first() else {
        return Err(ReadFault::Bad(Cause::Syntax));
    };
    if !word.is_sound() {
        return Err(ReadFault::Bad(Cause::Syntax));
    }
    command_step(alloc, site, known, reader, word.text.as_slice(), rest)
}

/// Whether it is `-q` or `-f`.
fn is_quiet(text: &[u8]) -> bool
    ensures { result ≡ is_quiet text.now }
{
    is(text, b"-q") || is(text, b"-f")
}

/// Takes the words behind `ipfw`.
fn quiet_line(
    alloc: Global,
    site: &Site,
    known: &Known,
    reader: &mut Progress,
    words: &[Word],
) -> Result<(), ReadFault>
    requires { IsSound site.now }
    ensures { StepGiven result reader.new (quiet_line site.now known.now words.now reader.old) }
{
    let Some((word, rest)) = words.split_first() else {
        return Err(ReadFault::Bad(Cause::Syntax));
    };
    if !word.is_sound() {
        return Err(ReadFault::Bad(Cause::Syntax));
    }
    let text = word.text.as_slice();
    if is_quiet(text) {
        return command_line(alloc, site, known, reader, rest);
    }
    command_step(alloc, site, known, reader, text, rest)
}

/// Takes the words of a line.
pub(crate) fn words_step(
    alloc: Global,
    site: &Site,
    known: &Known,
    reader: &mut Progress,
    words: &[Word],
) -> Result<(), ReadFault>
    requires { IsSound site.now }
    ensures { StepGiven result reader.new (words_step site.now known.now words.now reader.old) }
{
    let Some((word, rest)) = words.split_first() else {
        return Ok(());
    };
    if !word.is_sound() {
        return Err(ReadFault::Bad(Cause::Syntax));
    }
    let text = word.text.as_slice();
    if is(text, b"ipfw") {
        return quiet_line(alloc, site, known, reader, rest);
    }
    command_step(alloc, site, known, reader, text, rest)
}

/// The words behind `-q` or `-f`, where one stands.
fn behind_quiet(words: &[Word]) -> &[Word]
    ensures { result.now ≡ behind_quiet words.now }
{
    match words.split_first() {
        Some((word, rest)) => if is_quiet(word.text.as_slice()) {
            rest
        } else {
            words
        },
        None => words,
    }
}

/// The words behind `ipfw` and `-q` or `-f`, where they stand.
fn behind_program(words: &[Word]) -> &[Word]
    ensures { result.now ≡ behind_program words.now }
{
    match words.split_first() {
        Some((word, rest)) => if is(word.text.as_slice(), b"ipfw") {
            behind_quiet(rest)
        } else {
            words
        },
        None => words,
    }
}

/// How many redirects the instance of these words has; none where they are refused.
fn count_redirects(alloc: Global, site: &Site, number: u32, words: &[Word]) -> Result<u32, Memory>
    requires { IsSound site.now }
    ensures { IfOk result (λ n. n ≡ redirects_of (nat_of site.now number words.now)) }
{
    match read_nat(alloc, site, number, words) {
        Ok(nat) => match u32::try_from(nat.redirects.len()) {
            Ok(count) => Ok(count),
            Err(_) => Err(Memory),
        },
        Err(ReadFault::Bad(_)) => Ok(0),
        Err(ReadFault::Memory) => Err(Memory),
    }
}

/// The instance that words define: `nat`, a number and `config`, whatever stands behind.
fn defined_behind(alloc: Global, site: &Site, words: &[Word]) -> Result<Option<Defined>, Memory>
    requires { IsSound site.now }
    ensures { IfOk result (λ o. o ≡ defined_behind site.now words.now) }
{
    let [first, number, config, rest @ ..] = words else {
        return Ok(None);
    };
    if !is_word(first, b"nat") || !is_word(config, b"config") || !number.is_sound() {
        return Ok(None);
    }
    let Some(number) = read_counted(number.text.as_slice(), 65535) else {
        return Ok(None);
    };
    let redirects = count_redirects(alloc, site, number, rest)?;
    Ok(Some(Defined { number, redirects }))
}

/// Puts the instance that a line defines behind the others, unless one of them has its number.
fn note(alloc: Global, site: &Site, line: &Line, known: &mut Known) -> Result<(), Memory>
    requires { IsSound site.now }
    ensures { OnOk result (known.new ≡ option_map_or (λ each. with_defined each known.old) (defined_by site.now line.now) known.old) }
{
    match defined_behind(alloc, site, behind_program(line.words.as_slice()))? {
        Some(each) => known.put(each),
        None => Ok(()),
    }
}

/// Notes what lines define, in their order.
fn note_all(alloc: Global, site: &Site, lines: &[Line], known: &mut Known) -> Result<(), Memory>
    requires { IsSound site.now }
    ensures { OnOk result (known.new ≡ defined_from site.now known.old lines.now) }
{
    for line in lines {
        note(alloc, site, line, known)?;
    }
    Ok(())
}

/// The instances that the lines define, refused lines among them.
pub(crate) fn all_defined(alloc: Global, site: &Site, lines: &[Line]) -> Result<Known, Memory>
    requires { IsSound site.now }
    ensures { IfOk result (λ known. known ≡ all_defined site.now lines.now) }
{
    let mut known = Known::new(alloc);
    note_all(alloc, site, lines, &mut known)?;
    Ok(known)
}
