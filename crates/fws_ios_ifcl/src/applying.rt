//! The rules to which lists at interfaces are unfolded.

ghost use Rattle.std.specs.Prelude.{◌≡◌, ◌++◌, length, IfOk, OnOk};
ghost use Rattle.fws_ios.specs.Walk.{is_directed};
ghost use Rattle.fws_ios_ifcl.specs.Blocks.{applied, applied_from, applying, at_face};

use crate::listing::put_listing;
use crate::names::Lists;
use fws_ifcl::{Act, Rule};
use fws_ifcl_rules::{put_guard, put_rule, sum};
use fws_ios::IosGroup;
use fws_iv::one;
use fws_net::{Cond, Test};
use fws_num::Memory;
use fws_rules::positive;
use std::alloc::Global;

/// The condition of packets that come in by an interface, or go out by it. Fails if memory runs out.
fn at_face(alloc: Global, outward: bool, face: u8) -> Result<Cond, Memory>
    ensures { IfOk result (λ c. c ≡ at_face outward face) }
{
    let faces = one(alloc, u32::from(face), u32::from(face))?;
    let test = if outward {
        Test::Xmit(faces)
    } else {
        Test::Recv(faces)
    };
    let mut cond = Cond::new(alloc);
    cond.put(positive(test))?;
    Ok(cond)
}

/// Puts the rules of a list that is applied behind the others: every packet passes where there is no list of the name. Fails if
/// memory runs out.
fn put_applying(
    alloc: Global,
    rules: &mut Vec<Rule>,
    outward: bool,
    lists: &Lists,
    group: &IosGroup,
) -> Result<(), Memory>
    ensures { OnOk result (rules.new.items ≡ rules.old.items ++ applying outward (length rules.old.items) lists.now group.now) }
{
    let cond = at_face(alloc, outward, group.face)?;
    match lists.named(&group.list) {
        Some(list) => {
            let entries = list.entries.as_slice();
            put_guard(alloc, rules, cond, sum(entries.len(), 1)?)?;
            put_listing(alloc, rules, Act::Accept, Act::Drop, entries)
        }
        None => put_rule(rules, cond, Act::Accept),
    }
}

/// Whether a list is applied in this direction.
pub(crate) fn is_directed(outward: bool, group: &IosGroup) -> bool
    ensures { result ≡ is_directed outward group.now }
{
    if outward {
        group.outward
    } else {
        !group.outward
    }
}

/// Puts the rules of a list behind the others if it is applied in this direction. Fails if memory runs out.
pub(crate) fn put_applied(
    alloc: Global,
    rules: &mut Vec<Rule>,
    outward: bool,
    lists: &Lists,
    group: &IosGroup,
) -> Result<(), Memory>
    ensures { OnOk result (rules.new.items ≡ rules.old.items ++ applied outward (length rules.old.items) lists.now group.now) }
{
    if is_directed(outward, group) {
        put_applying(alloc, rules, outward, lists, group)?;
        return Ok(());
    }
    Ok(())
}

/// Puts the rules of all lists that are applied in this direction behind the others. Fails if memory runs out.
pub(crate) fn put_all_applied(
    alloc: Global,
    rules: &mut Vec<Rule>,
    outward: bool,
    lists: &Lists,
    groups: &[IosGroup],
) -> Result<(), Memory>
    ensures { OnOk result (rules.new.items ≡ rules.old.items ++ applied_from outward (length rules.old.items) lists.now groups.now) }
{
    for group in groups {
        put_applied(alloc, rules, outward, lists, group)?;
    }
    Ok(())
}
