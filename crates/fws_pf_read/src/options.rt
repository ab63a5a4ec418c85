//! Options of a filter rule, and those of a translation ahead of its arrow.

ghost use Rattle.std.specs.Prelude.{◌≡◌, [], ◌∷◌, IfOk, OnOk};
ghost use Rattle.fws_net.specs.Reading.{StepGiven};
ghost use Rattle.fws_rules.specs.Literals.{positive};
ghost use Rattle.fws_pf.specs.declared.rule_draft.Expects.TheVariants as expect;
ghost use Rattle.fws_pf.specs.RuleText.{arrow_step, behind_tag, behind_tagged, filter_option_step, flags_step, kind_at, not_tagged_step, only, option_begun, option_step, state_begun, state_step, tag_literals, tag_name_step, tagged_name_step, tagged_step, translation_option_step, with_choice, with_flags_test};
ghost use Rattle.fws_pf.specs.Values.{fresh_value};
ghost use Rattle.fws_pf_read.specs.Views.{draft_of};

use crate::draft::{Draft, is_translation, passes};
use crate::keywords::{misplaced, option_word};
use fws_net::{Cause, Cond, ReadFault, Test};
use fws_num::{Memory, Word};
use fws_pf::{Expects, OptionWord, Place, ValueKind, Verb};
use fws_pf_words::{LongValue, is_any_mark, is_mark, read_flags};
use fws_rules::{is, positive, put_literals};
use std::alloc::Global;

/// What stands at a place.
fn kind_at(place: Place) -> ValueKind
    ensures { result ≡ kind_at place }
{
    match place {
        Place::On => ValueKind::Interface,
        Place::Proto => ValueKind::Protocol,
        Place::Source | Place::Destination => ValueKind::Host,
        Place::SourcePort | Place::DestinationPort => ValueKind::Port,
        Place::IcmpType => ValueKind::IcmpType,
    }
}

/// Goes on to the value of a place.
pub(crate) fn ask(alloc: Global, place: Place, d: &mut Draft)
    ensures { draft_of d.new ≡ record (draft_of d.old) { expects = expect.Value place; value = fresh_value (kind_at place) } }
{
    d.value = LongValue::new(alloc, kind_at(place));
    d.expects = Expects::Value(place);
}

/// Asks for one condition more.
fn put_cond(cond: Cond, d: &mut Draft) -> Result<(), Memory>
    ensures { OnOk result (draft_of d.new ≡ with_choice (only cond) (draft_of d.old)) }
{
    d.options.put(cond)?;
    Ok(())
}

/// The condition of one literal.
fn flags_cond(alloc: Global, test: Test) -> Result<Cond, Memory>
    ensures { IfOk result (λ c. c ≡ positive test ∷ []) }
{
    let mut cond = Cond::new(alloc);
    cond.put(positive(test))?;
    Ok(cond)
}

/// Takes flags that are tested.
fn put_flags(alloc: Global, test: Test, d: &mut Draft) -> Result<(), Memory>
    ensures { OnOk result (draft_of d.new ≡ with_flags_test test (draft_of d.old)) }
{
    put_cond(flags_cond(alloc, test)?, d)?;
    d.tests_flags = true;
    d.expects = Expects::Option;
    Ok(())
}

/// Takes the flags behind `flags`.
pub(crate) fn flags_step(alloc: Global, w: &Word, d: &mut Draft) -> Result<(), ReadFault>
    ensures { StepGiven result (draft_of d.new) (flags_step w.now (draft_of d.old)) }
{
    if is(w.text.as_slice(), b"any") {
        d.expects = Expects::Option;
        return Ok(());
    }
    let test = read_flags(w.text.as_slice())?;
    put_flags(alloc, test, d)?;
    Ok(())
}

/// What the word behind the name of a tag is taken for that is put.
fn behind_tag(verb: Verb) -> Expects
    ensures { result ≡ behind_tag verb }
{
    if is_translation(verb) {
        Expects::Tagged
    } else {
        Expects::Option
    }
}

/// What the word behind the name of a tag is taken for that is asked for.
fn behind_tagged(verb: Verb) -> Expects
    ensures { result ≡ behind_tagged verb }
{
    if is_translation(verb) {
        Expects::Arrow
    } else {
        Expects::Option
    }
}

/// Takes the name of a tag that is put.
pub(crate) fn tag_name_step(alloc: Global, w: &Word, d: &mut Draft) -> Result<(), ReadFault>
    ensures { StepGiven result (draft_of d.new) (tag_name_step w.now (draft_of d.old)) }
{
    if is_any_mark(w) {
        return Err(ReadFault::Bad(Cause::Syntax));
    }
    let place = d.tags.place(alloc, w.text.as_slice())?;
    d.tag = Some(place);
    d.expects = behind_tag(d.verb);
    Ok(())
}

/// The condition that a packet has the tag at this place among the names, or else that it doesn't.
fn tag_cond(alloc: Global, asked: bool, place: u32) -> Result<Cond, Memory>
    ensures { IfOk result (λ c. c ≡ tag_literals asked place) }
{
    let mut cond = Cond::new(alloc);
    put_literals(&mut cond, !asked, Some(positive(Test::Tag(place))))?;
    Ok(cond)
}

/// Takes the name of a tag that is asked for, or else of one that may not be there.
pub(crate) fn tagged_name_step(
    alloc: Global,
    asked: bool,
    w: &Word,
    d: &mut Draft,
) -> Result<(), ReadFault>
    ensures { StepGiven result (draft_of d.new) (tagged_name_step asked w.now (draft_of d.old)) }
{
    if is_any_mark(w) {
        return Err(ReadFault::Bad(Cause::Syntax));
    }
    let place = d.tags.place(alloc, w.text.as_slice())?;
    put_cond(tag_cond(alloc, asked, place)?, d)?;
    d.expects = behind_tagged(d.verb);
    Ok(())
}

/// Goes on to `state`, which only rules have that pass packets.
fn begin_state(keeps: bool, d: &mut Draft) -> Result<(), ReadFault>
    ensures { StepGiven result (draft_of d.new) (state_begun keeps (draft_of d.old)) }
{
    if !passes(d.verb) {
        return Err(ReadFault::Bad(Cause::Syntax));
    }
    if d.has_state {
        return Err(ReadFault::Bad(Cause::Syntax));
    }
    d.has_state = true;
    d.expects = Expects::State(keeps);
    Ok(())
}

/// Takes `flags`.
fn begin_flags(d: &mut Draft) -> Result<(), ReadFault>
    ensures { StepGiven result (draft_of d.new) (option_begun OptionWord.Flags (draft_of d.old)) }
{
    if d.has_flags {
        return Err(ReadFault::Bad(Cause::Syntax));
    }
    d.has_flags = true;
    d.expects = Expects::Flags;
    Ok(())
}

/// Takes `icmp-type`.
fn begin_icmp_type(alloc: Global, d: &mut Draft) -> Result<(), ReadFault>
    ensures { StepGiven result (draft_of d.new) (option_begun OptionWord.IcmpType (draft_of d.old)) }
{
    if d.has_icmp_type {
        return Err(ReadFault::Bad(Cause::Syntax));
    }
    d.has_icmp_type = true;
    ask(alloc, Place::IcmpType, d);
    Ok(())
}

/// Takes `tag`.
fn begin_tag(d: &mut Draft) -> Result<(), ReadFault>
    ensures { StepGiven result (draft_of d.new) (option_begun OptionWord.Tag (draft_of d.old)) }
{
    if d.has_tag {
        return Err(ReadFault::Bad(Cause::Syntax));
    }
    d.has_tag = true;
    d.expects = Expects::TagName;
    Ok(())
}

/// Takes `tagged`.
fn begin_tagged(d: &mut Draft) -> Result<(), ReadFault>
    ensures { StepGiven result (draft_of d.new) (option_begun OptionWord.Tagged (draft_of d.old)) }
{
    if d.has_tagged {
        return Err(ReadFault::Bad(Cause::Syntax));
    }
    d.has_tagged = true;
    d.expects = Expects::TaggedName(true);
    Ok(())
}

/// Takes `label`.
fn begin_label(d: &mut Draft) -> Result<(), ReadFault>
    ensures { StepGiven result (draft_of d.new) (option_begun OptionWord.Label (draft_of d.old)) }
{
    if d.has_label {
        return Err(ReadFault::Bad(Cause::Syntax));
    }
    d.has_label = true;
    d.expects = Expects::Label;
    Ok(())
}

/// Takes an option, or goes on to its value.
fn begin_option(alloc: Global, option: OptionWord, d: &mut Draft) -> Result<(), ReadFault>
    ensures { StepGiven result (draft_of d.new) (option_begun option (draft_of d.old)) }
{
    match option {
        OptionWord::Flags => begin_flags(d),
        OptionWord::IcmpType => begin_icmp_type(alloc, d),
        OptionWord::Keep => begin_state(true, d),
        OptionWord::NoState => begin_state(false, d),
        OptionWord::Tag => begin_tag(d),
        OptionWord::Tagged => begin_tagged(d),
        OptionWord::Label => begin_label(d),
    }
}

/// Takes an option of a filter rule, or `!` before `tagged`.
fn filter_option_step(alloc: Global, w: &Word, d: &mut Draft) -> Result<(), ReadFault>
    ensures { StepGiven result (draft_of d.new) (filter_option_step w.now (draft_of d.old)) }
{
    if is_mark(w, b"!") {
        d.expects = Expects::NotTagged;
        return Ok(());
    }
    match option_word(w.text.as_slice()) {
        Some(option) => begin_option(alloc, option, d),
        None => Err(ReadFault::Bad(misplaced(w.text.as_slice()))),
    }
}

/// Takes `tagged` behind `!`.
pub(crate) fn not_tagged_step(w: &Word, d: &mut Draft) -> Result<(), ReadFault>
    ensures { StepGiven result (draft_of d.new) (not_tagged_step w.now (draft_of d.old)) }
{
    if !is(w.text.as_slice(), b"tagged") {
        return Err(ReadFault::Bad(misplaced(w.text.as_slice())));
    }
    if d.has_tagged {
        return Err(ReadFault::Bad(Cause::Syntax));
    }
    d.has_tagged = true;
    d.expects = Expects::TaggedName(false);
    Ok(())
}

/// Takes `state`, behind `keep` and `modulate`, or else behind `no`.
pub(crate) fn state_step(keeps: bool, w: &Word, d: &mut Draft) -> Result<(), ReadFault>
    ensures { StepGiven result (draft_of d.new) (state_step keeps w.now (draft_of d.old)) }
{
    if !is(w.text.as_slice(), b"state") {
        return Err(ReadFault::Bad(misplaced(w.text.as_slice())));
    }
    d.stateless = !keeps;
    d.expects = Expects::Option;
    Ok(())
}

/// Takes the arrow of a translation, which one with `no` lacks. Any other word is refused for this cause.
pub(crate) fn arrow_step(cause: Cause, w: &Word, d: &mut Draft) -> Result<(), ReadFault>
    ensures { StepGiven result (draft_of d.new) (arrow_step cause w.now (draft_of d.old)) }
{
    if is_mark(w, b"->") && !d.negated {
        d.expects = Expects::Target;
        return Ok(());
    }
    Err(ReadFault::Bad(cause))
}

/// Takes `tagged` of a translation, or the arrow.
pub(crate) fn tagged_step(w: &Word, d: &mut Draft) -> Result<(), ReadFault>
    ensures { StepGiven result (draft_of d.new) (tagged_step w.now (draft_of d.old)) }
{
    if is(w.text.as_slice(), b"tagged") {
        d.expects = Expects::TaggedName(true);
        return Ok(());
    }
    arrow_step(misplaced(w.text.as_slice()), w, d)
}

/// Takes `tag` of a translation, or what follows.
fn translation_option_step(w: &Word, d: &mut Draft) -> Result<(), ReadFault>
    ensures { StepGiven result (draft_of d.new) (translation_option_step w.now (draft_of d.old)) }
{
    if is(w.text.as_slice(), b"tag") {
        d.expects = Expects::TagName;
        return Ok(());
    }
    tagged_step(w, d)
}

/// Takes an option.
pub(crate) fn option_step(alloc: Global, w: &Word, d: &mut Draft) -> Result<(), ReadFault>
    ensures { StepGiven result (draft_of d.new) (option_step w.now (draft_of d.old)) }
{
    if is_translation(d.verb) {
        return translation_option_step(w, d);
    }
    filter_option_step(alloc, w, d)
}
