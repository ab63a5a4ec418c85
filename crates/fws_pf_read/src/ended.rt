//! The end of a rule's words (pf.conf(5)).

ghost use Rattle.std.specs.Prelude.{◌≡◌};
ghost use Rattle.fws_net.specs.Reading.{StepGiven};
ghost use Rattle.fws_pf.specs.declared.rule_draft.Expects.TheVariants as expect;
ghost use Rattle.fws_pf.specs.Drawn.{early, is_open, is_written, last_valued, may_end, rule_ended, writes};
ghost use Rattle.fws_pf_read.specs.Views.{draft_of};

use crate::draft::{Draft, is_translation};
use crate::steps::{put_value, value_place};
use fws_net::{Cause, ReadFault};
use fws_pf::{Expects, Place, ValueKind};
use fws_pf_words::LongValue;
use std::alloc::Global;
use std::mem;

/// Whether what follows may be left out.
pub fn is_open(expects: Expects) -> bool
    ensures { result ≡ is_open expects }
{
    matches!(
        expects,
        Expects::Answer
            | Expects::Way
            | Expects::Log
            | Expects::Logged
            | Expects::Quick
            | Expects::Past
            | Expects::On
            | Expects::Inet
            | Expects::Proto
            | Expects::Hosts
            | Expects::SourcePorts
            | Expects::To
            | Expects::DestinationPorts
            | Expects::Option
            | Expects::Tagged
            | Expects::Arrow
    )
}

/// Whether what is written stands there.
pub fn is_written(expects: Expects) -> bool
    ensures { result ≡ is_written expects }
{
    matches!(expects, Expects::Targeted | Expects::Ended)
}

/// Whether it is a translation without `no`.
fn writes(d: &Draft) -> bool
    ensures { result ≡ writes (draft_of d.now) }
{
    is_translation(d.verb) && !d.negated
}

/// Whether the words may end here.
fn may_end(d: &Draft) -> bool
    ensures { result ≡ may_end (draft_of d.now) }
{
    if writes(d) {
        is_written(d.expects)
    } else {
        is_open(d.expects)
    }
}

/// Why a rule is refused whose words end too early: a network without `bitmask` is left out.
pub fn early(expects: Expects) -> Cause
    ensures { result ≡ early expects }
{
    match expects {
        Expects::Bitmask => Cause::LeftOut,
        _ => Cause::Syntax,
    }
}

/// Takes the value at which the words end.
fn end_value(alloc: Global, place: Place, d: &mut Draft) -> Result<(), ReadFault>
    ensures { StepGiven result (draft_of d.new) (last_valued (expect.Value place) (draft_of d.old)) }
{
    let value = mem::replace(&mut d.value, LongValue::new(alloc, ValueKind::Interface));
    match value.ended(alloc)? {
        Some(whole) => {
            d.value = whole;
            put_value(alloc, place, d)?;
            Ok(())
        }
        None => Err(ReadFault::Bad(Cause::Syntax)),
    }
}

/// Takes the value at which the words end, if they end at one.
pub(crate) fn last_valued(alloc: Global, d: &mut Draft) -> Result<(), ReadFault>
    ensures { StepGiven result (draft_of d.new) (last_valued d.old.expects (draft_of d.old)) }
{
    match value_place(d.expects) {
        Some(place) => end_value(alloc, place, d),
        None => Ok(()),
    }
}

/// Takes the end of the words.
pub(crate) fn draft_ended(alloc: Global, d: &mut Draft) -> Result<(), ReadFault>
    ensures { StepGiven result (draft_of d.new) (rule_ended (draft_of d.old)) }
{
    last_valued(alloc, d)?;
    if !may_end(d) {
        return Err(ReadFault::Bad(early(d.expects)));
    }
    Ok(())
}
