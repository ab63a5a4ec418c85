//! The rules to which translations are unfolded.

ghost use Rattle.std.specs.Prelude.{◌≡◌, ◌+◌, ◌≤◌, ◌++◌, Bool, length, IfOk, OnOk};
ghost use Rattle.fws_pf_ifcl.specs.Blocks.{changing, leaving, tagging, translation, translation_width, translation_widths, translations_from, writing};

use fws_ifcl::{Act, Rule};
use fws_ifcl_rules::{place_behind, put_always, put_guard, put_rule, sum};
use fws_net::End;
use fws_num::Memory;
use fws_pf::PfNat;
use std::alloc::Global;

/// What writes the end: over the source as packets go out, and over the destination as they come in.
fn writing(outward: bool, end: End) -> Act
    ensures { result ≡ writing outward end }
{
    if outward {
        Act::Src(end)
    } else {
        Act::Dst(end)
    }
}

/// Puts the rule behind the others that makes a tag the only one, if there is a tag. Fails if memory runs out.
fn put_tagging(alloc: Global, rules: &mut Vec<Rule>, tag: Option<u32>) -> Result<(), Memory>
    ensures { OnOk result (rules.new.items ≡ rules.old.items ++ tagging tag) }
{
    match tag {
        Some(n) => put_always(alloc, rules, Act::OnlyTag(n)),
        None => Ok(()),
    }
}

/// Puts behind the others what a translation writes, and the tag that it puts. Fails if memory runs out.
fn put_changing(
    alloc: Global,
    rules: &mut Vec<Rule>,
    outward: bool,
    nat: &PfNat,
) -> Result<(), Memory>
    ensures { OnOk result (rules.new.items ≡ rules.old.items ++ changing outward nat.now) }
{
    match nat.to {
        Some(end) => {
            put_always(alloc, rules, writing(outward, end))?;
            put_tagging(alloc, rules, nat.tag)
        }
        None => put_tagging(alloc, rules, nat.tag),
    }
}

/// How many rules make the changes of a translation.
fn count_changes(nat: &PfNat) -> usize
    ensures count { (outward : Bool) → result ≡ length (changing outward nat.now) }
    ensures few { result ≤ 2 }
{
    usize::from(nat.to.is_some()) + usize::from(nat.tag.is_some())
}

/// How many rules a translation is unfolded to.
pub(crate) fn translation_width(nat: &PfNat) -> usize
    ensures { (outward : Bool) → result ≡ translation_width outward nat.now }
{
    let changes = count_changes(nat);
    if changes == 0 { 1 } else { changes + 3 }
}

/// How many rules translations are unfolded to. Fails if memory runs out.
pub(crate) fn translation_widths(nats: &[PfNat]) -> Result<usize, Memory>
    ensures { IfOk result (λ n. (outward : Bool) → n ≡ translation_widths outward nats.now) }
{
    let mut count = 0;
    for nat in nats {
        count = sum(count, translation_width(nat))?;
    }
    Ok(count)
}

/// How a pass goes on behind a translation, where the filter rules begin at a place. Fails if memory runs out.
fn leaving(filter: usize, nat: &PfNat) -> Result<Act, Memory>
    ensures { IfOk result (λ act. act ≡ leaving filter nat.now) }
{
    if nat.past {
        Ok(Act::Accept)
    } else {
        Ok(Act::Skip(place_behind(filter, 0)?))
    }
}

/// Puts the rules to which a translation is unfolded behind the others, where the filter rules begin at a place. Fails if memory
/// runs out.
fn put_translation(
    alloc: Global,
    rules: &mut Vec<Rule>,
    outward: bool,
    filter: usize,
    nat: &PfNat,
) -> Result<(), Memory>
    ensures { OnOk result (rules.new.items ≡ rules.old.items ++ translation outward filter (length rules.old.items) nat.now) }
{
    let cond = nat.cond.copy(alloc)?;
    let leave = leaving(filter, nat)?;
    let changes = count_changes(nat);
    if changes == 0 {
        put_rule(rules, cond, leave)?;
        return Ok(());
    }
    put_guard(alloc, rules, cond, changes + 1)?;
    put_changing(alloc, rules, outward, nat)?;
    put_always(alloc, rules, leave)?;
    Ok(())
}

/// Puts the rules to which translations are unfolded behind the others, where the filter rules begin at a place. Fails if memory
/// runs out.
pub(crate) fn put_translations(
    alloc: Global,
    rules: &mut Vec<Rule>,
    outward: bool,
    filter: usize,
    nats: &[PfNat],
) -> Result<(), Memory>
    ensures { OnOk result (rules.new.items ≡ rules.old.items ++ translations_from outward filter (length rules.old.items) nats.now) }
{
    for nat in nats {
        put_translation(alloc, rules, outward, filter, nat)?;
    }
    Ok(())
}
