//! How many rules of a diagram a rule is unfolded to.

ghost use Rattle.std.specs.Prelude.{◌≡◌, true, Some, IfOk};
ghost use Rattle.fws_ipfw.specs.Soundness.{are_apart};
ghost use Rattle.fws_ipfw_ifcl.specs.Blocks.{acting_width, keeping_width, tagging_width, width};
ghost use Rattle.fws_ipfw_ifcl.specs.Translating.{translating_width};

use crate::instances::Instances;
use crate::translating::redirecting_width;
use fws_ifcl_rules::sum;
use fws_ipfw::{IpfwAct, IpfwNat, IpfwRule, IpfwTag};
use fws_num::Memory;

/// How many rules translate by an instance. Fails if memory runs out.
pub(crate) fn translating_width(nat: &IpfwNat) -> Result<usize, Memory>
    ensures { IfOk result (λ n. n ≡ translating_width (Some nat.now)) }
{
    let inward = redirecting_width(false, nat.redirects.len())?;
    let outward = redirecting_width(true, nat.redirects.len())?;
    let both = sum(inward, outward)?;
    let all = sum(4, both)?;
    Ok(all)
}

/// How many rules an act is unfolded to, in the half of packets that were translated or in the other. Fails if memory runs out.
pub(crate) fn acting_width(
    instances: &Instances,
    nats: &[IpfwNat],
    translated: bool,
    act: IpfwAct,
) -> Result<usize, Memory>
    requires { are_apart nats.now ≡ true }
    ensures { IfOk result (λ n. n ≡ acting_width nats.now translated act) }
{
    match act {
        IpfwAct::Nat(number) => {
            if translated {
                return Ok(1);
            }
            match instances.find(nats, number) {
                Some(nat) => {
                    let inner = translating_width(nat)?;
                    sum(2, inner)
                }
                None => Ok(3),
            }
        }
        IpfwAct::Allow | IpfwAct::Deny | IpfwAct::Count | IpfwAct::Skip(_) | IpfwAct::Check => Ok(
            1,
        ),
    }
}

/// How many more rules there are for a tag.
fn tagging_width(tag: IpfwTag) -> usize
    ensures { result ≡ tagging_width tag }
{
    match tag {
        IpfwTag::Nothing => 0,
        IpfwTag::Add(_) | IpfwTag::Remove(_) => 3,
    }
}

/// How many more rules there are for a rule that keeps state.
fn keeping_width(keep: bool) -> usize
    ensures { result ≡ keeping_width keep }
{
    if keep { 1 } else { 0 }
}

/// How many rules a rule is unfolded to in a half. Fails if memory runs out.
pub(crate) fn width(
    instances: &Instances,
    nats: &[IpfwNat],
    translated: bool,
    rule: &IpfwRule,
) -> Result<usize, Memory>
    requires { are_apart nats.now ≡ true }
    ensures { IfOk result (λ n. n ≡ width nats.now translated rule.now) }
{
    let acts = acting_width(instances, nats, translated, rule.act)?;
    let more = keeping_width(rule.keep) + tagging_width(rule.tag);
    let all = sum(more, acts)?;
    Ok(all)
}
