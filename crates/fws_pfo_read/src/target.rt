//! The end of a rule, behind `nat-to` and `rdr-to`.

ghost use Rattle.std.specs.Prelude.{◌≡◌};
ghost use Rattle.fws_net.specs.Reading.{StepGiven};
ghost use Rattle.fws_net.specs.Routes.{IsSound};
ghost use Rattle.fws_pf.specs.RuleText.{rule_step};
ghost use Rattle.fws_pfo.specs.Drafts.{lifted};
ghost use Rattle.fws_pfo.specs.TargetText.{bare_first, bitmask_step, end_begun, first_target, goes_past_port, mask_step, named_first, target_name_step, target_step, targeting};
ghost use Rattle.fws_pfo_read.specs.Views.{draft_of};

use crate::draft::{Draft, is_block, is_outward};
use fws_net::{Cause, ReadFault, Site};
use fws_num::{Word, split_once};
use fws_pf::{Expects, Target};
use fws_pf_read::{face_target, rule_step};
use fws_pf_words::{Setting, begins_with_digit, is_mark};
use fws_rules::is;
use std::alloc::Global;

/// Takes a word as both dialects do.
pub(crate) fn lifted_step(
    alloc: Global,
    setting: &Setting<'_>,
    w: &Word,
    d: &mut Draft,
) -> Result<(), ReadFault>
    requires { IsSound setting.now.site }
    ensures { StepGiven result (draft_of d.new) (lifted (rule_step setting.now w.now d.old.shared) (draft_of d.old)) }
{
    rule_step(alloc, setting, w, &mut d.shared)?;
    Ok(())
}

/// Goes on to the end of a rule, where it has the way along which this end is written.
pub(crate) fn begin_end(is_along: bool, d: &mut Draft) -> Result<(), ReadFault>
    ensures { StepGiven result (draft_of d.new) (end_begun is_along (draft_of d.old)) }
{
    if is_block(d.kind) || !is_along {
        return Err(ReadFault::Bad(Cause::LeftOut));
    }
    if d.shared.target().is_some() {
        return Err(ReadFault::Bad(Cause::Syntax));
    }
    d.shared.expect(Expects::Target);
    Ok(())
}

/// Takes the first address of an interface.
fn first_target(site: &Site, next: Expects, name: &[u8], d: &mut Draft) -> Result<(), ReadFault>
    requires { IsSound site.now }
    ensures { StepGiven result (draft_of d.new) (first_target site.now next name.now (draft_of d.old)) }
{
    let target = face_target(site, name)?;
    d.shared.put_target(target, next);
    Ok(())
}

/// Takes the first address of an interface that is named ahead of `:0`, or else the word as both dialects do.
fn named_first(
    alloc: Global,
    setting: &Setting<'_>,
    next: Expects,
    w: &Word,
    name: &[u8],
    behind: &[u8],
    d: &mut Draft,
) -> Result<(), ReadFault>
    requires { IsSound setting.now.site }
    ensures { StepGiven result (draft_of d.new) (named_first setting.now.site next (lifted (rule_step setting.now w.now d.old.shared) (draft_of d.old)) (draft_of d.old) (name.now, behind.now)) }
{
    if is(behind, b"0") {
        return first_target(setting.site(), next, name, d);
    }
    lifted_step(alloc, setting, w, d)
}

/// Takes the name of an interface in parentheses.
pub(crate) fn target_name_step(
    alloc: Global,
    setting: &Setting<'_>,
    w: &Word,
    d: &mut Draft,
) -> Result<(), ReadFault>
    requires { IsSound setting.now.site }
    ensures { StepGiven result (draft_of d.new) (target_name_step setting.now w.now (draft_of d.old)) }
{
    match split_once(w.text.as_slice(), b':') {
        Some((name, behind)) => named_first(alloc, setting, Expects::TargetEnd, w, name, behind, d),
        None => lifted_step(alloc, setting, w, d),
    }
}

/// Takes a word with a colon behind `nat-to` or `rdr-to`.
fn bare_first(
    alloc: Global,
    setting: &Setting<'_>,
    w: &Word,
    name: &[u8],
    behind: &[u8],
    d: &mut Draft,
) -> Result<(), ReadFault>
    requires { IsSound setting.now.site }
    ensures { StepGiven result (draft_of d.new) (bare_first setting.now.site (lifted (rule_step setting.now w.now d.old.shared) (draft_of d.old)) (draft_of d.old) (name.now, behind.now)) }
{
    if begins_with_digit(name) && is(behind, b"0") {
        return Err(ReadFault::Bad(Cause::Syntax));
    }
    named_first(alloc, setting, Expects::Targeted, w, name, behind, d)
}

/// Takes the word behind `nat-to` or `rdr-to`.
pub(crate) fn target_step(
    alloc: Global,
    setting: &Setting<'_>,
    w: &Word,
    d: &mut Draft,
) -> Result<(), ReadFault>
    requires { IsSound setting.now.site }
    ensures { StepGiven result (draft_of d.new) (target_step setting.now w.now (draft_of d.old)) }
{
    match split_once(w.text.as_slice(), b':') {
        Some((name, behind)) => bare_first(alloc, setting, w, name, behind, d),
        None => lifted_step(alloc, setting, w, d),
    }
}

/// Takes the word behind a network, by the way of the rule.
fn put_mask(w: &Word, target: Target, d: &mut Draft) -> Result<(), ReadFault>
    ensures { StepGiven result (draft_of d.new) (lifted (mask_step w.now (draft_of d.old) target) (draft_of d.old)) }
{
    if is_outward(d.shared.way()) {
        d.shared.put_source_mask(w, target)?;
        return Ok(());
    }
    d.shared.put_destination_mask(w, target)?;
    Ok(())
}

/// Takes the word behind a network, which is left out without `bitmask`.
pub(crate) fn bitmask_step(w: &Word, d: &mut Draft) -> Result<(), ReadFault>
    ensures { StepGiven result (draft_of d.new) (bitmask_step w.now (draft_of d.old)) }
{
    match d.shared.target() {
        Some(target) => put_mask(w, target, d),
        None => Err(ReadFault::Bad(Cause::Syntax)),
    }
}

/// Takes what is written so far.
pub(crate) fn put_target(target: Target, d: &mut Draft) -> Result<(), ReadFault>
    ensures { StepGiven result (draft_of d.new) (targeting target (draft_of d.old)) }
{
    d.shared.put_target(target, Expects::Targeted);
    Ok(())
}

/// Whether ranges of ports go on so behind one port, or it is `bitmask`, which a port excludes.
pub(crate) fn goes_past_port(w: &Word) -> bool
    ensures { result ≡ goes_past_port w.now }
{
    is_mark(w, b"><") || is_mark(w, b"<>") || is(w.text.as_slice(), b"bitmask")
}
