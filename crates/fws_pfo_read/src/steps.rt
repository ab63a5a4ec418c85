//! The words of a rule, from left to right (pf.conf(5) of OpenBSD).

ghost use Rattle.std.specs.Prelude.{◌≡◌, ℕ, ◌≤◌, Ok, List, length, take, IfOk, OnOk};
ghost use Rattle.fws_net.specs.Reading.{StepGiven};
ghost use Rattle.fws_net.specs.Routes.{IsSound};
ghost use Rattle.fws_pf.specs.declared.macros.Macro.{Macro as AnyMacro};
ghost use Rattle.fws_pf_words.specs.UsesKnown.{AreUses, ArePiece};
ghost use Rattle.fws_pfo.specs.declared.statement.PfoStatement.TheVariants as any;
ghost use Rattle.fws_pfo.specs.StatementText.{words_taken};
ghost use Rattle.fws_pfo.specs.RuleText.{closed_step, is_unmatched, keyword_step, may_be_quick, open_step, option_step, ported_step, rule_step, scrub_begun, scrub_step, scrubbed_step, shared_step, targeted_step, value_word_step, wants_keyword, word_step};
ghost use Rattle.fws_pfo.specs.TargetText.{destination_targeted, port_begun, source_targeted, targeted_by};
ghost use Rattle.fws_pfo.specs.Drafts.{is_outward};
ghost use Rattle.fws_pfo_read.specs.Views.{draft_of, is_at_value};

use crate::draft::{Draft, is_inward, is_match, is_outward};
use crate::keywords::{is_different, is_state_word, misplaced};
use crate::target::{
    begin_end, bitmask_step, goes_past_port, lifted_step, put_target, target_name_step, target_step,
};
use fws_net::{Cause, ReadFault};
use fws_num::{Memory, Text, Word};
use fws_pf::{Expects, Place, Target};
use fws_pf_read::{is_open, kept_static, mapped, may_be_mapped, value_place};
use fws_pf_words::{KnownUses, Setting, Source, is_mark};
use fws_pfo::PfoExpects;
use fws_rules::is;
use std::alloc::Global;

/// Goes on to the words in parentheses behind `scrub`, which stands once.
fn begin_scrub(d: &mut Draft) -> Result<(), ReadFault>
    ensures { StepGiven result (draft_of d.new) (scrub_begun (draft_of d.old)) }
{
    if d.has_scrub {
        return Err(ReadFault::Bad(Cause::Syntax));
    }
    d.has_scrub = true;
    d.expects = PfoExpects::Scrub;
    d.shared.expect(Expects::Option);
    Ok(())
}

/// Takes the parenthesis behind `scrub`.
fn scrub_step(w: &Word, d: &mut Draft) -> Result<(), ReadFault>
    ensures { StepGiven result (draft_of d.new) (scrub_step w.now (draft_of d.old)) }
{
    if !is_mark(w, b"(") {
        return Err(ReadFault::Bad(Cause::Syntax));
    }
    d.expects = PfoExpects::Scrubbed;
    Ok(())
}

/// Takes a word in parentheses behind `scrub`, or the parenthesis behind these.
fn scrubbed_step(w: &Word, d: &mut Draft) -> Result<(), ReadFault>
    ensures { StepGiven result (draft_of d.new) (scrubbed_step w.now (draft_of d.old)) }
{
    if is_mark(w, b")") {
        d.expects = PfoExpects::Shared;
    }
    Ok(())
}

/// Takes a word where a keyword may stand, but for keywords of one dialect alone.
fn keyword_step(
    alloc: Global,
    setting: &Setting<'_>,
    w: &Word,
    d: &mut Draft,
) -> Result<(), ReadFault>
    requires { IsSound setting.now.site }
    ensures { StepGiven result (draft_of d.new) (keyword_step setting.now w.now (draft_of d.old)) }
{
    if is_different(w.text.as_slice()) {
        return Err(ReadFault::Bad(misplaced(w.text.as_slice())));
    }
    lifted_step(alloc, setting, w, d)
}

/// Whether `quick` may stand there in other rules than `match`.
fn may_be_quick(next: Expects) -> bool
    ensures { result ≡ may_be_quick next }
{
    matches!(
        next,
        Expects::Way | Expects::Log | Expects::Logged | Expects::Quick
    )
}

/// Whether it is a word of other rules that is left out on `match`.
fn is_unmatched(w: &Word, d: &Draft) -> bool
    ensures { result ≡ is_unmatched w.now (draft_of d.now) }
{
    let text = w.text.as_slice();
    is_match(d.kind)
        && ((is(text, b"quick") && may_be_quick(d.shared.expects())) || is_state_word(text))
}

/// Takes a word where an option may stand.
fn open_step(alloc: Global, setting: &Setting<'_>, w: &Word, d: &mut Draft) -> Result<(), ReadFault>
    requires { IsSound setting.now.site }
    ensures { StepGiven result (draft_of d.new) (open_step setting.now w.now (draft_of d.old)) }
{
    if is(w.text.as_slice(), b"nat-to") {
        return begin_end(is_outward(d.shared.way()), d);
    }
    if is(w.text.as_slice(), b"rdr-to") {
        return begin_end(is_inward(d.shared.way()), d);
    }
    if is(w.text.as_slice(), b"scrub") {
        return begin_scrub(d);
    }
    if is_unmatched(w, d) {
        return Err(ReadFault::Bad(Cause::LeftOut));
    }
    keyword_step(alloc, setting, w, d)
}

/// Takes an option behind what is written.
fn option_step(
    alloc: Global,
    setting: &Setting<'_>,
    w: &Word,
    d: &mut Draft,
) -> Result<(), ReadFault>
    requires { IsSound setting.now.site }
    ensures { StepGiven result (draft_of d.new) (option_step setting.now w.now (draft_of d.old)) }
{
    d.shared.expect(Expects::Option);
    open_step(alloc, setting, w, d)
}

/// Takes a word behind the source that is written.
fn source_targeted(
    alloc: Global,
    setting: &Setting<'_>,
    w: &Word,
    target: Target,
    d: &mut Draft,
) -> Result<(), ReadFault>
    requires { IsSound setting.now.site }
    ensures { StepGiven result (draft_of d.new) (source_targeted (option_step setting.now w.now (draft_of d.old)) w.now (draft_of d.old) target) }
{
    if is(w.text.as_slice(), b"port") {
        return Err(ReadFault::Bad(Cause::LeftOut));
    }
    if is(w.text.as_slice(), b"static-port") && !target.is_static {
        return put_target(kept_static(target), d);
    }
    if is(w.text.as_slice(), b"bitmask") && may_be_mapped(target) {
        return put_target(mapped(target), d);
    }
    option_step(alloc, setting, w, d)
}

/// Goes on to the port of a destination, which a mapped network lacks.
fn begin_port(target: Target, d: &mut Draft) -> Result<(), ReadFault>
    ensures { StepGiven result (draft_of d.new) (port_begun target (draft_of d.old)) }
{
    if target.is_mapped {
        return Err(ReadFault::Bad(Cause::LeftOut));
    }
    d.shared.expect(Expects::TargetPort);
    Ok(())
}

/// Takes a word behind the destination that is written.
fn destination_targeted(
    alloc: Global,
    setting: &Setting<'_>,
    w: &Word,
    target: Target,
    d: &mut Draft,
) -> Result<(), ReadFault>
    requires { IsSound setting.now.site }
    ensures { StepGiven result (draft_of d.new) (destination_targeted (option_step setting.now w.now (draft_of d.old)) w.now (draft_of d.old) target) }
{
    if is(w.text.as_slice(), b"port") {
        return begin_port(target, d);
    }
    if is(w.text.as_slice(), b"bitmask") && may_be_mapped(target) {
        return put_target(mapped(target), d);
    }
    option_step(alloc, setting, w, d)
}

/// Takes a word behind what is written, by the way of the rule.
fn targeted_by(
    alloc: Global,
    setting: &Setting<'_>,
    w: &Word,
    target: Target,
    d: &mut Draft,
) -> Result<(), ReadFault>
    requires { IsSound setting.now.site }
    ensures { StepGiven result (draft_of d.new) (targeted_by (is_outward d.old.shared.way) (option_step setting.now w.now (draft_of d.old)) w.now (draft_of d.old) target) }
{
    if is_outward(d.shared.way()) {
        return source_targeted(alloc, setting, w, target, d);
    }
    destination_targeted(alloc, setting, w, target, d)
}

/// Takes a word behind what is written.
fn targeted_step(
    alloc: Global,
    setting: &Setting<'_>,
    w: &Word,
    d: &mut Draft,
) -> Result<(), ReadFault>
    requires { IsSound setting.now.site }
    ensures { StepGiven result (draft_of d.new) (targeted_step setting.now w.now (draft_of d.old)) }
{
    match d.shared.target() {
        Some(target) => targeted_by(alloc, setting, w, target, d),
        None => Err(ReadFault::Bad(Cause::Syntax)),
    }
}

/// Takes a word behind the port that is written.
fn ported_step(
    alloc: Global,
    setting: &Setting<'_>,
    w: &Word,
    d: &mut Draft,
) -> Result<(), ReadFault>
    requires { IsSound setting.now.site }
    ensures { StepGiven result (draft_of d.new) (ported_step setting.now w.now (draft_of d.old)) }
{
    if goes_past_port(w) {
        return Err(ReadFault::Bad(Cause::LeftOut));
    }
    option_step(alloc, setting, w, d)
}

/// Whether one keyword alone may stand there.
fn wants_keyword(next: Expects) -> bool
    ensures { result ≡ wants_keyword next }
{
    matches!(
        next,
        Expects::LogAll | Expects::State(_) | Expects::NotTagged
    )
}

/// Takes a word where no option may stand, by what it is taken for.
fn closed_step(
    alloc: Global,
    setting: &Setting<'_>,
    next: Expects,
    w: &Word,
    d: &mut Draft,
) -> Result<(), ReadFault>
    requires { IsSound setting.now.site }
    ensures { StepGiven result (draft_of d.new) (closed_step setting.now next w.now (draft_of d.old)) }
{
    match next {
        Expects::Target => target_step(alloc, setting, w, d),
        Expects::TargetName => target_name_step(alloc, setting, w, d),
        Expects::Bitmask => bitmask_step(w, d),
        Expects::Targeted => targeted_step(alloc, setting, w, d),
        Expects::Ended => ported_step(alloc, setting, w, d),
        _ => lifted_step(alloc, setting, w, d),
    }
}

/// Takes a word that belongs to no value.
fn word_step(alloc: Global, setting: &Setting<'_>, w: &Word, d: &mut Draft) -> Result<(), ReadFault>
    requires { IsSound setting.now.site }
    ensures { StepGiven result (draft_of d.new) (word_step setting.now w.now (draft_of d.old)) }
{
    if is_open(d.shared.expects()) {
        return open_step(alloc, setting, w, d);
    }
    if wants_keyword(d.shared.expects()) {
        return keyword_step(alloc, setting, w, d);
    }
    closed_step(alloc, setting, d.shared.expects(), w, d)
}

/// Takes a word at which a value stands or has ended.
fn value_word_step(
    alloc: Global,
    setting: &Setting<'_>,
    place: Place,
    w: &Word,
    d: &mut Draft,
) -> Result<(), ReadFault>
    requires { IsSound setting.now.site }
    ensures { StepGiven result (draft_of d.new) (value_word_step setting.now place w.now (draft_of d.old)) }
{
    if d.shared.step_value(alloc, setting, w)? {
        d.shared.take_value(alloc, place)?;
        return Ok(());
    }
    d.shared.put_value(alloc, place)?;
    word_step(alloc, setting, w, d)
}

/// Whether the next word belongs to a value of the rule.
fn is_at_value(d: &Draft) -> bool
    ensures { result ≡ is_at_value (draft_of d.now) }
{
    match d.expects {
        PfoExpects::Shared => value_place(d.shared.expects()).is_some(),
        PfoExpects::Scrub => false,
        PfoExpects::Scrubbed => false,
    }
}

/// Takes words that belong to the value at which the rule is and don't end it, up to the first other word, and tells how many.
pub(crate) fn draft_within(
    alloc: Global,
    setting: &Setting<'_>,
    uses: &mut KnownUses,
    source: Source,
    name: &Text,
    words: &[Word],
    d: &mut Draft,
) -> Result<usize, Memory>
    requires { IsSound setting.now.site }
    ensures few { IfOk result (λ n. n ≤ length words.now) }
    ensures taken { (macros : List AnyMacro) → ArePiece macros source name.now words.now → AreUses setting.now macros d.old.shared.value.items uses.old
        → IfOk result (λ n. (tags : List (List ℕ)) → words_taken setting.now tags (take n words.now) (any.Rule (draft_of d.old)) ≡ Ok (any.Rule (draft_of d.new))) }
    ensures known { (macros : List AnyMacro) → ArePiece macros source name.now words.now → AreUses setting.now macros d.old.shared.value.items uses.old
        → OnOk result (AreUses setting.now macros d.new.shared.value.items uses.new) }
{
    if !is_at_value(d) {
        return Ok(0);
    }
    let n = d
        .shared
        .take_within(alloc, setting, uses, source, name, words)?;
    Ok(n)
}

/// Takes a word of what both dialects have, or of the end.
fn shared_step(
    alloc: Global,
    setting: &Setting<'_>,
    w: &Word,
    d: &mut Draft,
) -> Result<(), ReadFault>
    requires { IsSound setting.now.site }
    ensures { StepGiven result (draft_of d.new) (shared_step setting.now d.old.shared.expects w.now (draft_of d.old)) }
{
    match value_place(d.shared.expects()) {
        Some(place) => value_word_step(alloc, setting, place, w, d),
        None => word_step(alloc, setting, w, d),
    }
}

/// Takes a word of a rule.
pub(crate) fn rule_step(
    alloc: Global,
    setting: &Setting<'_>,
    w: &Word,
    d: &mut Draft,
) -> Result<(), ReadFault>
    requires { IsSound setting.now.site }
    ensures { StepGiven result (draft_of d.new) (rule_step setting.now w.now (draft_of d.old)) }
{
    match d.expects {
        PfoExpects::Shared => shared_step(alloc, setting, w, d),
        PfoExpects::Scrub => scrub_step(w, d),
        PfoExpects::Scrubbed => scrubbed_step(w, d),
    }
}
