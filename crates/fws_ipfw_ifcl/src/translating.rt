//! The rules that translate a packet by an instance.

ghost use Rattle.std.specs.Prelude.{◌≡◌, ◌+◌, ◌*◌, ◌++◌, ◌∷◌, [], length, IfOk, OnOk};
ghost use Rattle.fws_ifcl_rules.specs.Rules.{always};
ghost use Rattle.fws_ipfw_ifcl.specs.Translating.{aliasing, aliasing_width, choosing_all, redirecting, tracking, translating_by, writing_all};

use crate::redirects::{asking, by_trial, writing};
use fws_ifcl::{Act, Rule};
use fws_ifcl_rules::{place_behind, put_always, put_rule, ruled_by, sum};
use fws_ipfw::{IpfwNat, Redirect};
use fws_net::{End, Test};
use fws_num::Memory;
use fws_rules::{negative, positive};
use std::alloc::Global;

/// Puts a rule that skips to a place behind the others. Fails if memory runs out.
pub(crate) fn put_skip(alloc: Global, rules: &mut Vec<Rule>, to: usize) -> Result<(), Memory>
    ensures { OnOk result (rules.new.items ≡ rules.old.items ++ always (Act.Skip to) ∷ []) }
{
    let place = place_behind(to, 0)?;
    put_always(alloc, rules, Act::Skip(place))
}

/// Puts a rule for each redirect behind the others, that skips where its condition holds: the first to this place, each other one
/// two further. Fails if memory runs out.
fn put_choosing(
    alloc: Global,
    rules: &mut Vec<Rule>,
    outward: bool,
    to: usize,
    redirects: &[Redirect],
) -> Result<(), Memory>
    ensures { OnOk result (rules.new.items ≡ rules.old.items ++ choosing_all outward to redirects.now) }
{
    let mut place = to;
    for redirect in redirects {
        let act = Act::Skip(place_behind(place, 0)?);
        put_rule(rules, asking(alloc, outward, *redirect)?, act)?;
        place = sum(place, 2)?;
    }
    Ok(())
}

/// Puts behind the others what is written for each redirect, behind which the walk goes on at the place done. Fails if memory runs
/// out.
fn put_writing(
    alloc: Global,
    rules: &mut Vec<Rule>,
    outward: bool,
    done: usize,
    redirects: &[Redirect],
) -> Result<(), Memory>
    ensures { OnOk result (rules.new.items ≡ rules.old.items ++ writing_all outward done redirects.now) }
{
    for redirect in redirects {
        put_always(alloc, rules, writing(outward, *redirect))?;
        put_skip(alloc, rules, done)?;
    }
    Ok(())
}

/// Puts behind the others what is written without a redirect. Fails if memory runs out.
fn put_aliasing(
    alloc: Global,
    rules: &mut Vec<Rule>,
    outward: bool,
    alias: u32,
) -> Result<(), Memory>
    ensures { OnOk result (rules.new.items ≡ rules.old.items ++ aliasing outward alias) }
{
    if outward {
        put_always(alloc, rules, Act::Src(End::host(alias, None)))
    } else {
        Ok(())
    }
}

/// How many rules are put where there is no redirect.
fn aliasing_width(outward: bool) -> usize
    ensures { result ≡ aliasing_width outward }
{
    if outward { 1 } else { 0 }
}

/// How many rules translate one end by so many redirects. Fails if memory runs out.
pub(crate) fn redirecting_width(outward: bool, redirects: usize) -> Result<usize, Memory>
    ensures { IfOk result (λ n. n ≡ 3 * redirects + (aliasing_width outward + 1)) }
{
    let all = redirects.checked_mul(3).ok_or(Memory)?;
    sum(all, aliasing_width(outward) + 1)
}

/// Puts behind the others the rules that write one end by the redirects, behind which the walk goes on at the place done. Fails if
/// memory runs out.
fn put_redirecting(
    alloc: Global,
    rules: &mut Vec<Rule>,
    outward: bool,
    alias: u32,
    done: usize,
    redirects: &[Redirect],
) -> Result<(), Memory>
    ensures { OnOk result (rules.new.items ≡ rules.old.items ++ redirecting outward alias (length rules.old.items) done redirects.now) }
{
    let others = aliasing_width(outward) + 1;
    let first = sum(rules.len(), sum(redirects.len(), others)?)?;
    put_choosing(alloc, rules, outward, first, redirects)?;
    put_aliasing(alloc, rules, outward, alias)?;
    put_skip(alloc, rules, done)?;
    put_writing(alloc, rules, outward, done, redirects)
}

/// Puts behind the others the four rules ahead of the redirects: a packet of a connection gets the end with which it leaves, and
/// the walk goes on at the place done; a new one that goes out skips to another place. Fails if memory runs out.
fn put_tracking(
    alloc: Global,
    rules: &mut Vec<Rule>,
    done: usize,
    outwards: usize,
) -> Result<(), Memory>
    ensures { OnOk result (rules.new.items ≡ rules.old.items ++ tracking done outwards) }
{
    let done = place_behind(done, 0)?;
    let outwards = place_behind(outwards, 0)?;
    let inward = ruled_by(alloc, negative(Test::Outward), Act::RecDst)?;
    rules.push(inward)?;
    let outward = ruled_by(alloc, positive(Test::Outward), Act::RecSrc)?;
    rules.push(outward)?;
    let known = ruled_by(alloc, positive(Test::Est), Act::Skip(done))?;
    rules.push(known)?;
    let leaving = ruled_by(alloc, positive(Test::Outward), Act::Skip(outwards))?;
    rules.push(leaving)?;
    Ok(())
}

/// Puts behind the others the rules that translate by an instance, behind which the walk goes on at the place done. Fails if memory
/// runs out.
pub(crate) fn put_translating(
    alloc: Global,
    rules: &mut Vec<Rule>,
    done: usize,
    nat: &IpfwNat,
) -> Result<(), Memory>
    ensures { OnOk result (rules.new.items ≡ rules.old.items ++ translating_by (length rules.old.items) done nat.now) }
{
    let redirects = by_trial(alloc, nat.redirects.as_slice())?;
    let inwards = redirecting_width(false, redirects.len())?;
    let behind = sum(4, inwards)?;
    let outwards = sum(rules.len(), behind)?;
    put_tracking(alloc, rules, done, outwards)?;
    put_redirecting(alloc, rules, false, nat.alias, done, redirects.as_slice())?;
    put_redirecting(alloc, rules, true, nat.alias, done, redirects.as_slice())?;
    Ok(())
}
