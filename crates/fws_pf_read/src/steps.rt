//! The words of a rule, from left to right (pf.conf(5)).

ghost use Rattle.std.specs.Prelude.{◌≡◌, ℕ, ◌≤◌, Ok, List, length, take, IfOk, OnOk};
ghost use Rattle.std.specs.List.{list_any};
ghost use Rattle.std.specs.Str.{bytes_eq};
ghost use Rattle.fws_net.specs.Reading.{StepGiven};
ghost use Rattle.fws_net.specs.Routes.{IsSound};
ghost use Rattle.fws_pf.specs.declared.macros.Macro.{Macro as AnyMacro};
ghost use Rattle.fws_pf.specs.declared.rule_draft.Expects.TheVariants as expect;
ghost use Rattle.fws_pf.specs.declared.statement.Statement.TheVariants as any;
ghost use Rattle.fws_pf.specs.Drafts.{going};
ghost use Rattle.fws_pf.specs.RuleText.{answer_step, answers, behind, destination_ports_step, hosts_step, inet_step, log_all_step, log_end_step, log_step, logged_step, on_step, past_step, proto_step, quick_step, rule_step, source_ports_step, to_step, value_taken, value_word_step, valued, way_step, with_items, word_step};
ghost use Rattle.fws_pf.specs.StatementText.{words_taken};
ghost use Rattle.fws_pf.specs.Values.{no_mark};
ghost use Rattle.fws_pf_words.specs.UsesKnown.{AreUses, ArePiece};
ghost use Rattle.fws_pf_read.specs.Places.{value_place};
ghost use Rattle.fws_pf_read.specs.Views.{draft_of};

use crate::draft::Draft;
use crate::keywords::misplaced;
use crate::options::{
    arrow_step, ask, flags_step, not_tagged_step, option_step, state_step, tag_name_step,
    tagged_name_step, tagged_step,
};
use crate::target::written_step;
use fws_net::{Cause, ReadFault};
use fws_num::{Memory, Text, Word};
use fws_pf::{Expects, Place, ValueKind, Way};
use fws_pf_words::{
    ItemList, KnownUses, LongValue, Setting, Source, has_ended, is_any_mark, is_mark,
};
use fws_rules::is;
use std::alloc::Global;
use std::mem;

/// What the word behind a place is taken for.
fn behind(place: Place) -> Expects
    ensures { result ≡ behind place }
{
    match place {
        Place::On => Expects::Inet,
        Place::Proto => Expects::Hosts,
        Place::Source => Expects::SourcePorts,
        Place::SourcePort => Expects::To,
        Place::Destination => Expects::DestinationPorts,
        Place::DestinationPort | Place::IcmpType => Expects::Option,
    }
}

/// Takes the types of ICMP messages.
fn put_icmp_types(items: ItemList, d: &mut Draft) -> Result<(), Memory>
    ensures { OnOk result (draft_of d.new ≡ with_items Place.IcmpType items (draft_of d.old)) }
{
    d.options.put_types(items)?;
    Ok(())
}

/// Takes the values of a place.
fn put_items(place: Place, items: ItemList, d: &mut Draft) -> Result<(), Memory>
    ensures { OnOk result (draft_of d.new ≡ with_items place items (draft_of d.old)) }
{
    match place {
        Place::On => d.faces = items,
        Place::Proto => d.protocols = items,
        Place::Source => d.sources = items,
        Place::SourcePort => d.source_ports = items,
        Place::Destination => d.destinations = items,
        Place::DestinationPort => d.destination_ports = items,
        Place::IcmpType => put_icmp_types(items, d)?,
    }
    Ok(())
}

/// Takes a value that has ended.
pub(crate) fn put_value(alloc: Global, place: Place, d: &mut Draft) -> Result<(), Memory>
    ensures { OnOk result (draft_of d.new ≡ valued place d.old.value (draft_of d.old)) }
{
    let value = mem::replace(&mut d.value, LongValue::new(alloc, ValueKind::Interface));
    d.expects = behind(place);
    put_items(place, value.into_items(), d)?;
    Ok(())
}

/// Takes a value that took a word, if it has ended.
pub(crate) fn take_value(alloc: Global, place: Place, d: &mut Draft) -> Result<(), Memory>
    ensures { OnOk result (draft_of d.new ≡ value_taken place d.old.value (draft_of d.old)) }
{
    if has_ended(d.value.expects()) {
        put_value(alloc, place, d)?;
    }
    Ok(())
}

/// Takes `port` behind the destination, or what follows.
fn destination_ports_step(alloc: Global, w: &Word, d: &mut Draft) -> Result<(), ReadFault>
    ensures { StepGiven result (draft_of d.new) (destination_ports_step w.now (draft_of d.old)) }
{
    if is(w.text.as_slice(), b"port") {
        ask(alloc, Place::DestinationPort, d);
        return Ok(());
    }
    option_step(alloc, w, d)
}

/// Takes `to`, or what follows.
fn to_step(alloc: Global, w: &Word, d: &mut Draft) -> Result<(), ReadFault>
    ensures { StepGiven result (draft_of d.new) (to_step w.now (draft_of d.old)) }
{
    if is(w.text.as_slice(), b"to") {
        ask(alloc, Place::Destination, d);
        return Ok(());
    }
    option_step(alloc, w, d)
}

/// Takes `port` behind the source, or what follows.
fn source_ports_step(alloc: Global, w: &Word, d: &mut Draft) -> Result<(), ReadFault>
    ensures { StepGiven result (draft_of d.new) (source_ports_step w.now (draft_of d.old)) }
{
    if is(w.text.as_slice(), b"port") {
        ask(alloc, Place::SourcePort, d);
        return Ok(());
    }
    to_step(alloc, w, d)
}

/// Takes `all`, `from`, or what follows.
fn hosts_step(alloc: Global, w: &Word, d: &mut Draft) -> Result<(), ReadFault>
    ensures { StepGiven result (draft_of d.new) (hosts_step w.now (draft_of d.old)) }
{
    if is(w.text.as_slice(), b"all") {
        d.expects = Expects::Option;
        return Ok(());
    }
    if is(w.text.as_slice(), b"from") {
        ask(alloc, Place::Source, d);
        return Ok(());
    }
    to_step(alloc, w, d)
}

/// Takes `proto`, or what follows.
fn proto_step(alloc: Global, w: &Word, d: &mut Draft) -> Result<(), ReadFault>
    ensures { StepGiven result (draft_of d.new) (proto_step w.now (draft_of d.old)) }
{
    if is(w.text.as_slice(), b"proto") {
        ask(alloc, Place::Proto, d);
        return Ok(());
    }
    hosts_step(alloc, w, d)
}

/// Takes `inet`, or what follows.
fn inet_step(alloc: Global, w: &Word, d: &mut Draft) -> Result<(), ReadFault>
    ensures { StepGiven result (draft_of d.new) (inet_step w.now (draft_of d.old)) }
{
    if is(w.text.as_slice(), b"inet") {
        d.expects = Expects::Proto;
        return Ok(());
    }
    proto_step(alloc, w, d)
}

/// Takes `on`, or what follows.
fn on_step(alloc: Global, w: &Word, d: &mut Draft) -> Result<(), ReadFault>
    ensures { StepGiven result (draft_of d.new) (on_step w.now (draft_of d.old)) }
{
    if is(w.text.as_slice(), b"on") {
        ask(alloc, Place::On, d);
        return Ok(());
    }
    inet_step(alloc, w, d)
}

/// Takes `quick`, or what follows.
fn quick_step(alloc: Global, w: &Word, d: &mut Draft) -> Result<(), ReadFault>
    ensures { StepGiven result (draft_of d.new) (quick_step w.now (draft_of d.old)) }
{
    if is(w.text.as_slice(), b"quick") {
        d.quick = true;
        d.expects = Expects::On;
        return Ok(());
    }
    on_step(alloc, w, d)
}

/// Takes the parenthesis behind `log`, or what follows.
fn logged_step(alloc: Global, w: &Word, d: &mut Draft) -> Result<(), ReadFault>
    ensures { StepGiven result (draft_of d.new) (logged_step w.now (draft_of d.old)) }
{
    if is_mark(w, b"(") {
        d.expects = Expects::LogAll;
        return Ok(());
    }
    quick_step(alloc, w, d)
}

/// Takes `log`, or what follows.
fn log_step(alloc: Global, w: &Word, d: &mut Draft) -> Result<(), ReadFault>
    ensures { StepGiven result (draft_of d.new) (log_step w.now (draft_of d.old)) }
{
    if is(w.text.as_slice(), b"log") {
        d.expects = Expects::Logged;
        return Ok(());
    }
    quick_step(alloc, w, d)
}

/// Takes `in`, `out`, or what follows.
fn way_step(alloc: Global, w: &Word, d: &mut Draft) -> Result<(), ReadFault>
    ensures { StepGiven result (draft_of d.new) (way_step w.now (draft_of d.old)) }
{
    if is(w.text.as_slice(), b"in") {
        d.way = Way::Inward;
        d.expects = Expects::Log;
        return Ok(());
    }
    if is(w.text.as_slice(), b"out") {
        d.way = Way::Outward;
        d.expects = Expects::Log;
        return Ok(());
    }
    log_step(alloc, w, d)
}

/// Whether it is what `block` answers, which makes no difference.
fn is_answer(text: &[u8]) -> bool
    ensures { result ≡ list_any (bytes_eq text.now) answers }
{
    is(text, b"drop") || is(text, b"return") || is(text, b"return-rst") || is(text, b"return-icmp")
}

/// Takes what `block` answers, or what follows.
fn answer_step(alloc: Global, w: &Word, d: &mut Draft) -> Result<(), ReadFault>
    ensures { StepGiven result (draft_of d.new) (answer_step w.now (draft_of d.old)) }
{
    if is_answer(w.text.as_slice()) {
        d.expects = Expects::Way;
        return Ok(());
    }
    way_step(alloc, w, d)
}

/// Takes `all` in parentheses behind `log`.
fn log_all_step(w: &Word, d: &mut Draft) -> Result<(), ReadFault>
    ensures { StepGiven result (draft_of d.new) (log_all_step w.now (draft_of d.old)) }
{
    if !is(w.text.as_slice(), b"all") {
        return Err(ReadFault::Bad(misplaced(w.text.as_slice())));
    }
    d.expects = Expects::LogEnd;
    Ok(())
}

/// Takes the parenthesis behind `all`.
fn log_end_step(w: &Word, d: &mut Draft) -> Result<(), ReadFault>
    ensures { StepGiven result (draft_of d.new) (log_end_step w.now (draft_of d.old)) }
{
    if !is_mark(w, b")") {
        return Err(ReadFault::Bad(Cause::Syntax));
    }
    d.expects = Expects::Quick;
    Ok(())
}

/// Takes `pass` of a translation, or what follows.
fn past_step(alloc: Global, w: &Word, d: &mut Draft) -> Result<(), ReadFault>
    ensures { StepGiven result (draft_of d.new) (past_step w.now (draft_of d.old)) }
{
    if is(w.text.as_slice(), b"pass") {
        d.past = true;
        d.expects = Expects::On;
        return Ok(());
    }
    on_step(alloc, w, d)
}

/// Takes a label.
fn label_step(w: &Word, d: &mut Draft) -> Result<(), ReadFault>
    ensures { StepGiven result (draft_of d.new) (no_mark w.now (going expect.Option (draft_of d.old))) }
{
    if is_any_mark(w) {
        return Err(ReadFault::Bad(Cause::Syntax));
    }
    d.expects = Expects::Option;
    Ok(())
}

/// Takes a word that belongs to no value, by what it is taken for.
fn word_step(
    alloc: Global,
    setting: &Setting<'_>,
    expects: Expects,
    w: &Word,
    d: &mut Draft,
) -> Result<(), ReadFault>
    requires { IsSound setting.now.site }
    ensures { StepGiven result (draft_of d.new) (word_step setting.now expects w.now (draft_of d.old)) }
{
    match expects {
        Expects::Answer => answer_step(alloc, w, d),
        Expects::Way => way_step(alloc, w, d),
        Expects::Log => log_step(alloc, w, d),
        Expects::Logged => logged_step(alloc, w, d),
        Expects::LogAll => log_all_step(w, d),
        Expects::LogEnd => log_end_step(w, d),
        Expects::Quick => quick_step(alloc, w, d),
        Expects::Past => past_step(alloc, w, d),
        Expects::On => on_step(alloc, w, d),
        Expects::Inet => inet_step(alloc, w, d),
        Expects::Proto => proto_step(alloc, w, d),
        Expects::Hosts => hosts_step(alloc, w, d),
        Expects::SourcePorts => source_ports_step(alloc, w, d),
        Expects::To => to_step(alloc, w, d),
        Expects::DestinationPorts => destination_ports_step(alloc, w, d),
        Expects::Option => option_step(alloc, w, d),
        Expects::Value(_) => Err(ReadFault::Bad(Cause::Syntax)),
        Expects::State(keeps) => state_step(keeps, w, d),
        Expects::Flags => flags_step(alloc, w, d),
        Expects::TagName => tag_name_step(alloc, w, d),
        Expects::NotTagged => not_tagged_step(w, d),
        Expects::TaggedName(asked) => tagged_name_step(alloc, asked, w, d),
        Expects::Label => label_step(w, d),
        Expects::Tagged => tagged_step(w, d),
        Expects::Arrow => arrow_step(Cause::Syntax, w, d),
        Expects::Target
        | Expects::TargetName
        | Expects::TargetEnd
        | Expects::Bitmask
        | Expects::Targeted
        | Expects::TargetPort
        | Expects::Ended => written_step(setting.site(), expects, w, d),
    }
}

/// Takes a word at which a value stands or has ended.
fn value_word_step(
    alloc: Global,
    setting: &Setting<'_>,
    place: Place,
    w: &Word,
    d: &mut Draft,
) -> Result<(), ReadFault>
    requires { IsSound setting.now.site }
    ensures { StepGiven result (draft_of d.new) (value_word_step setting.now place w.now (draft_of d.old)) }
{
    if d.value.step(alloc, setting, w)? {
        take_value(alloc, place, d)?;
        return Ok(());
    }
    put_value(alloc, place, d)?;
    word_step(alloc, setting, behind(place), w, d)
}

/// The place whose value the next word belongs to.
pub fn value_place(expects: Expects) -> Option<Place>
    ensures { result ≡ value_place expects }
{
    match expects {
        Expects::Value(place) => Some(place),
        _ => None,
    }
}

/// Takes words that belong to the value at which the rule is and don't end it, up to the first other word, and tells how many.
pub(crate) fn draft_within(
    alloc: Global,
    setting: &Setting<'_>,
    uses: &mut KnownUses,
    source: Source,
    name: &Text,
    words: &[Word],
    d: &mut Draft,
) -> Result<usize, Memory>
    requires { IsSound setting.now.site }
    ensures few { IfOk result (λ n. n ≤ length words.now) }
    ensures taken { (macros : List AnyMacro) → ArePiece macros source name.now words.now → AreUses setting.now macros d.old.value.items uses.old
        → IfOk result (λ n. (tags : List (List ℕ)) → words_taken setting.now tags (take n words.now) (any.Rule (draft_of d.old)) ≡ Ok (any.Rule (draft_of d.new))) }
    ensures known { (macros : List AnyMacro) → ArePiece macros source name.now words.now → AreUses setting.now macros d.old.value.items uses.old
        → OnOk result (AreUses setting.now macros d.new.value.items uses.new) }
{
    match value_place(d.expects) {
        Some(_) => {
            let n = uses.take(alloc, setting, source, name, words, &mut d.value)?;
            Ok(n)
        }
        None => Ok(0),
    }
}

/// Takes a word of a rule.
pub(crate) fn draft_step(
    alloc: Global,
    setting: &Setting<'_>,
    w: &Word,
    d: &mut Draft,
) -> Result<(), ReadFault>
    requires { IsSound setting.now.site }
    ensures { StepGiven result (draft_of d.new) (rule_step setting.now w.now (draft_of d.old)) }
{
    match value_place(d.expects) {
        Some(place) => value_word_step(alloc, setting, place, w, d),
        None => word_step(alloc, setting, d.expects, w, d),
    }
}
