//! Where the rules of rules stand.

ghost use Rattle.std.specs.Prelude.{◌≡◌, ℕ, ◌+◌, ◌≤◌, ◌<◌, Bool, List, true, drop, length, slice_index, slice_index_or, IfOk};
ghost use Rattle.std.specs.List.Sorted.{IsNonDecreasingBy};
ghost use Rattle.fws_ipfw.specs.declared.config.IpfwNat.{IpfwNat as AnyNat};
ghost use Rattle.fws_ipfw.specs.declared.config.IpfwRule.{IpfwRule as AnyRule};
ghost use Rattle.fws_ipfw.specs.Soundness.{are_apart, are_ordered};
ghost use Rattle.fws_ipfw_ifcl.specs.Blocks.{place_from, skipping_to, starts_from, widths};

use crate::instances::Instances;
use crate::widths::width;
use fws_ifcl_rules::sum;
use fws_ipfw::{IpfwAct, IpfwNat, IpfwRule};
use fws_num::Memory;
use std::alloc::Global;

/// The places of the rules of each rule, and the one behind all of them. Fails if memory runs out.
fn places_of(
    alloc: Global,
    instances: &Instances,
    nats: &[IpfwNat],
    translated: bool,
    first: usize,
    rules: &[IpfwRule],
) -> Result<Vec<usize>, Memory>
    requires { are_apart nats.now ≡ true }
    ensures { IfOk result (λ starts. starts.items ≡ starts_from nats.now translated first rules.now) }
{
    let mut starts = Vec::new(alloc);
    let mut place = first;
    for rule in rules {
        starts.push(place)?;
        let more = width(instances, nats, translated, rule)?;
        place = sum(place, more)?;
    }
    starts.push(place)?;
    Ok(starts)
}

/// The places at which the rules of each rule begin in a half, of which the first has the place `first`, and the place behind all
/// of them: one more than there are rules. Fails if memory runs out.
pub(crate) fn starts_from(
    alloc: Global,
    instances: &Instances,
    nats: &[IpfwNat],
    translated: bool,
    first: usize,
    rules: &[IpfwRule],
) -> Result<Vec<usize>, Memory>
    requires { are_apart nats.now ≡ true }
    ensures starts { IfOk result (λ starts. starts.items ≡ starts_from nats.now translated first rules.now) }
    ensures count { IfOk result (λ starts. length starts.items ≡ length rules.now + 1) }
    ensures last { IfOk result (λ starts. slice_index starts.items (length rules.now) ≡ first + widths nats.now translated rules.now) }
{
    let starts = places_of(alloc, instances, nats, translated, first, rules)?;
    Ok(starts)
}

/// How many rules have a number below n, of rules that stand by their numbers.
fn count_below(rules: &[IpfwRule], n: u32) -> usize
    requires { IsNonDecreasingBy (λ (rule : AnyRule). rule.number) rules.now }
    ensures bound { result ≤ length rules.now }
    ensures below { (k : ℕ) (d : AnyRule) → k < result → (slice_index_or rules.now k d).number < n }
    ensures above { (k : ℕ) (d : AnyRule) → result ≤ k → k < length rules.now → n ≤ (slice_index_or rules.now k d).number }
{
    rules.partition_point(|rule| rule.number < n)
}

/// The place of the first rule behind so many whose number is at least n.
fn place_from(starts: &[usize], rules: &[IpfwRule], behind: usize, n: u32) -> usize
    requires lengths { length starts.now ≡ length rules.now + 1 }
    requires ordered { are_ordered rules.now ≡ true }
    requires within { behind ≤ length rules.now }
    ensures { (nats : List AnyNat) (translated : Bool) (first : ℕ) → starts.now ≡ starts_from nats translated first rules.now → result ≡ place_from nats translated (slice_index starts.now behind) (drop behind rules.now) n }
{
    let place = behind.max(count_below(rules, n));
    starts[place]
}

/// Where a rule skips to that stands ahead of those behind so many; one that doesn't skip has 0.
pub(crate) fn skipping_to(
    starts: &[usize],
    rules: &[IpfwRule],
    behind: usize,
    act: IpfwAct,
) -> usize
    requires lengths { length starts.now ≡ length rules.now + 1 }
    requires ordered { are_ordered rules.now ≡ true }
    requires within { behind ≤ length rules.now }
    ensures { (nats : List AnyNat) (translated : Bool) (first : ℕ) → starts.now ≡ starts_from nats translated first rules.now → result ≡ skipping_to nats translated (slice_index starts.now behind) (drop behind rules.now) act }
{
    match act {
        IpfwAct::Skip(n) => place_from(starts, rules, behind, n),
        IpfwAct::Allow | IpfwAct::Deny | IpfwAct::Count | IpfwAct::Check | IpfwAct::Nat(_) => 0,
    }
}
