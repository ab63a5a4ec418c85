//! The end of a rule's words (pf.conf(5) of OpenBSD).

ghost use Rattle.std.specs.Prelude.{◌≡◌};
ghost use Rattle.fws_net.specs.Reading.{StepGiven};
ghost use Rattle.fws_pfo.specs.Drawn.{closed, is_shared, may_end, rule_ended};
ghost use Rattle.fws_pfo_read.specs.Views.{draft_of};

use crate::draft::Draft;
use fws_net::ReadFault;
use fws_pf_read::{early, is_open, is_written};
use fws_pfo::PfoExpects;
use std::alloc::Global;

/// Whether no parenthesis of `scrub` is open, or lacks.
fn is_shared(expects: PfoExpects) -> bool
    ensures { result ≡ is_shared expects }
{
    matches!(expects, PfoExpects::Shared)
}

/// Whether the words may end here.
fn may_end(d: &Draft) -> bool
    ensures { result ≡ may_end (draft_of d.now) }
{
    is_shared(d.expects) && (is_open(d.shared.expects()) || is_written(d.shared.expects()))
}

/// Refuses a rule whose words end too early.
fn close(d: &mut Draft) -> Result<(), ReadFault>
    ensures { StepGiven result (draft_of d.new) (closed (draft_of d.old)) }
{
    if !may_end(d) {
        return Err(ReadFault::Bad(early(d.shared.expects())));
    }
    Ok(())
}

/// Takes the end of the words.
pub(crate) fn draft_ended(alloc: Global, d: &mut Draft) -> Result<(), ReadFault>
    ensures { StepGiven result (draft_of d.new) (rule_ended (draft_of d.old)) }
{
    d.shared.end_value(alloc)?;
    close(d)
}
