//! Two decisions as one.

ghost use Rattle.std.specs.Prelude.{◌≡◌, ◌<◌, ◌+◌, ◌||◌, ◌++◌, ◌∷◌, take, drop, length, true, IfOk, IfSome, OnOk};
ghost use Rattle.fws_net.specs.declared.view.View.{View};
ghost use Rattle.fws_net.specs.Conditions.{holds, test_holds};
ghost use Rattle.fws_join.specs.Joined.{DiffersAt, IsEither, IsForBoth};

use crate::decision::Decision;
use crate::equal::{equal_front, same_lits};
use fws_net::{Cond, Lit, Test};
use fws_num::Memory;
use std::alloc::Global;

/// The test that holds where either does, if both are of sets of the same numbers.
fn joined_test(alloc: Global, a: &Test, b: &Test) -> Result<Option<Test>, Memory>
    ensures { IfOk result (λ o. IfSome o (λ t. (v : View) → test_holds v t ≡ (test_holds v a.now || test_holds v b.now))) }
{
    match (a, b) {
        (Test::Src(one), Test::Src(other)) => Ok(Some(Test::Src(one.union(alloc, other)?))),
        (Test::Dst(one), Test::Dst(other)) => Ok(Some(Test::Dst(one.union(alloc, other)?))),
        (Test::Sport(one), Test::Sport(other)) => Ok(Some(Test::Sport(one.union(alloc, other)?))),
        (Test::Dport(one), Test::Dport(other)) => Ok(Some(Test::Dport(one.union(alloc, other)?))),
        (Test::Proto(one), Test::Proto(other)) => Ok(Some(Test::Proto(one.union(alloc, other)?))),
        (Test::Icmp(one), Test::Icmp(other)) => Ok(Some(Test::Icmp(one.union(alloc, other)?))),
        (Test::Recv(one), Test::Recv(other)) => Ok(Some(Test::Recv(one.union(alloc, other)?))),
        (Test::Xmit(one), Test::Xmit(other)) => Ok(Some(Test::Xmit(one.union(alloc, other)?))),
        (Test::Via(one), Test::Via(other)) => Ok(Some(Test::Via(one.union(alloc, other)?))),
        _ => Ok(None),
    }
}

/// The literal that holds where either does, if none is negated and both are of sets of the same numbers.
fn joined_lit(alloc: Global, a: &Lit, b: &Lit) -> Result<Option<Lit>, Memory>
    ensures { IfOk result (λ o. IfSome o (IsEither a.now b.now)) }
{
    if a.not || b.not {
        return Ok(None);
    }
    match joined_test(alloc, &a.test, &b.test)? {
        Some(test) => Ok(Some(Lit { not: false, test })),
        None => Ok(None),
    }
}

/// The place of the one literal in which the conditions differ, if there is just one.
fn only_difference(a: &[Lit], b: &[Lit]) -> Option<usize>
    ensures { IfSome result (DiffersAt a.now b.now) }
{
    if a.len() != b.len() {
        return None;
    }
    let place = equal_front(a, b);
    if place >= a.len() {
        return None;
    }
    if same_lits(&a[place + 1..], &b[place + 1..]) {
        Some(place)
    } else {
        None
    }
}

/// Puts copies of literals behind those of a condition.
fn put_copies(alloc: Global, lits: &[Lit], cond: &mut Cond) -> Result<(), Memory>
    ensures { OnOk result (cond.new ≡ cond.old ++ lits.now) }
{
    for lit in lits {
        cond.put(lit.copy(alloc)?)?;
    }
    Ok(())
}

/// The condition with this literal at the place.
fn with_lit(alloc: Global, lits: &[Lit], place: usize, lit: Lit) -> Result<Cond, Memory>
    requires { place < length lits.now }
    ensures { IfOk result (λ c. c ≡ take place lits.now ++ lit ∷ drop (place + 1) lits.now) }
{
    let mut cond = Cond::new(alloc);
    put_copies(alloc, &lits[..place], &mut cond)?;
    cond.put(lit)?;
    put_copies(alloc, &lits[place + 1..], &mut cond)?;
    Ok(cond)
}

/// The condition that holds where either does, which differ at this place alone, if their literals there are joined.
fn joined_at(alloc: Global, a: &[Lit], b: &[Lit], place: usize) -> Result<Option<Cond>, Memory>
    requires { DiffersAt a.now b.now place }
    ensures { IfOk result (λ o. IfSome o (λ c. (v : View) → holds c v ≡ (holds a.now v || holds b.now v))) }
{
    match joined_lit(alloc, &a[place], &b[place])? {
        Some(lit) => Ok(Some(with_lit(alloc, a, place, lit)?)),
        None => Ok(None),
    }
}

/// The condition that holds where either does, if they differ in one set alone.
fn joined_cond(alloc: Global, a: &[Lit], b: &[Lit]) -> Result<Option<Cond>, Memory>
    ensures { IfOk result (λ o. IfSome o (λ c. (v : View) → holds c v ≡ (holds a.now v || holds b.now v))) }
{
    match only_difference(a, b) {
        Some(place) => joined_at(alloc, a, b, place),
        None => Ok(None),
    }
}

/// One decision for the two, if both say the same and they differ in one set alone. Fails if memory runs out.
pub(crate) fn joined_two(
    alloc: Global,
    a: &Decision,
    b: &Decision,
) -> Result<Option<Decision>, Memory>
    ensures { IfOk result (λ o. IfSome o (IsForBoth a.now b.now)) }
{
    if a.passes != b.passes {
        return Ok(None);
    }
    match joined_cond(alloc, a.cond.lits(), b.cond.lits())? {
        Some(cond) => Ok(Some(Decision {
            cond,
            passes: a.passes,
        })),
        None => Ok(None),
    }
}
