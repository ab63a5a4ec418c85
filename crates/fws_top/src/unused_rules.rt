//! Which rules of a configuration no packet uses.

ghost use Rattle.std.specs.Prelude.{◌≡◌, length, true, IfOk, IfErr, None};
ghost use Rattle.fws_dead.specs.Unused.{UseAlike, used_at};
ghost use Rattle.fws_ifcl.specs.Soundness.{ifcl_ok};
ghost use Rattle.fws_ifcl.specs.Spots.{are_spots_of};
ghost use Rattle.fws_net.specs.Routes.{IsSound};
ghost use Rattle.fws_top.specs.Judged.{Policy, diagram_refusal, judged_chains};
ghost use Rattle.fws_top.specs.Plan.{judged};
ghost use Rattle.fws_top.specs.Steps.{EndsIn};
ghost use Rattle.fws_top.specs.Tables.{IsUnusedText};
ghost use Rattle.fws_top.specs.Walked.{Uses};

use crate::answer::Stop;
use crate::placed::Placed;
use crate::policy::refused_diagram;
use fws_dead::{dead, put_dead};
use fws_net::Site;
use fws_num::{Memory, Text};
use std::alloc::Global;

/// How many labels there are, where there is a number for it: a function of its own, behind whose closure the prover sees the number.
fn count(labels: &[Text]) -> Result<u32, Memory>
    ensures { IfOk result (λ n. n ≡ length labels.now) }
{
    u32::try_from(labels.len()).map_err(|_| Memory)
}

/// Which rules no packet of the site uses, new or established, or the refusal of a chain.
pub(crate) fn unused(alloc: Global, site: &Site, name: &[u8], placed: &Placed) -> Result<Text, Stop>
    requires sound { IsSound site.now }
    requires ok { ifcl_ok placed.now.diagram ≡ true }
    requires spots { are_spots_of placed.now.diagram (length placed.now.labels.items) placed.now.spots.items ≡ true }
    ensures unrefused { IfOk result (λ text. diagram_refusal placed.now.diagram ≡ None) }
    ensures unused { (used : Uses) → UseAlike site.now (used_at placed.now.diagram site.now placed.now.spots.items) used
        → IfOk result (IsUnusedText site.now used placed.now.labels.items) }
    ensures refused { (policy : Policy) → IfErr result (EndsIn (judged name.now (judged_chains (diagram_refusal placed.now.diagram) policy))) }
{
    let labels = placed.labels.as_slice();
    let rules = count(labels)?;
    match dead(alloc, &placed.diagram, rules, placed.spots.as_slice(), site) {
        Ok(numbers) => Ok(put_dead(alloc, labels, numbers.as_slice())?),
        Err(why) => Err(Stop::Due(refused_diagram(alloc, name, &placed.diagram, why)?)),
    }
}
