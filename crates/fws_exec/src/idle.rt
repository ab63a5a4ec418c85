//! Code without idle tags, which are those that no condition tests: they would keep packets apart that are alike for all
//! instructions.

ghost use Rattle.std.specs.Prelude.{◌≡◌, ◌||◌, ℕ, true, false, nat_eq, unwrap_or, IfOk, IfSome, MatchOption, OnOk};
ghost use Rattle.std.specs.HashSet.{contains};
ghost use Rattle.fws_net.specs.declared.packet.Packet.{Packet as AnyPacket};
ghost use Rattle.fws_net.specs.declared.connection.Kind.{Kind as AnyKind};
ghost use Rattle.fws_net.specs.declared.site.Site.{Site as AnySite};
ghost use Rattle.fws_flat.specs.Soundness.{flat_ok};
ghost use Rattle.fws_flat.specs.Uses.{uses};
ghost use Rattle.fws_flat.specs.Walk.{means};
ghost use Rattle.fws_exec.specs.Idle.{asks_for, tests_tag, is_tested, is_idle, puts_idle, act_without_idle, without_idle};

use fws_flat::{Flat, FlatAct, Ins};
use fws_net::{Lit, Test};
use fws_num::{Items, Memory};
use std::alloc::Global;
use std::collections::HashSet;

/// Adds the tag for which the test asks, if it asks for one.
fn add_asked(tested: &mut HashSet<u32>, test: &Test) -> Result<(), Memory>
    ensures { OnOk result ((n : ℕ) → contains nat_eq tested.new n ≡ (contains nat_eq tested.old n || asks_for n test.now)) }
{
    match test {
        Test::Tag(tag) => {
            tested.insert(*tag)?;
            Ok(())
        }
        _ => Ok(()),
    }
}

/// Adds the tags that the literals test, negated or not.
fn add_tested(tested: &mut HashSet<u32>, lits: &[Lit]) -> Result<(), Memory>
    ensures { OnOk result ((n : ℕ) → contains nat_eq tested.new n ≡ (contains nat_eq tested.old n || tests_tag n lits.now)) }
{
    for lit in lits {
        add_asked(tested, &lit.test)?;
    }
    Ok(())
}

/// The tags that some condition of the code tests.
fn tested_tags(alloc: Global, code: &[Ins]) -> Result<HashSet<u32>, Memory>
    ensures { IfOk result (λ tested. (n : ℕ) → contains nat_eq tested n ≡ is_tested code.now n) }
{
    let mut tested = HashSet::new(alloc);
    for ins in code {
        add_tested(&mut tested, ins.cond.lits())?;
    }
    Ok(tested)
}

/// The tag that the act puts, if it puts one that isn't tested.
fn idle_tag_of(tested: &HashSet<u32>, act: FlatAct) -> Option<u32>
    ensures { MatchOption result (is_idle (contains nat_eq tested.now) act ≡ false) (λ n. contains nat_eq tested.now n ≡ false) }
{
    match act {
        FlatAct::AddTag(tag) | FlatAct::OnlyTag(tag) => {
            if tested.contains(&tag) {
                None
            } else {
                Some(tag)
            }
        }
        _ => None,
    }
}

/// The first tag that the code puts and that isn't tested.
fn idle_tag(tested: &HashSet<u32>, code: &[Ins]) -> Option<u32>
    ensures { MatchOption result (puts_idle (contains nat_eq tested.now) code.now ≡ false) (λ n. contains nat_eq tested.now n ≡ false) }
{
    for ins in code {
        if let Some(tag) = idle_tag_of(tested, ins.act) {
            return Some(tag);
        }
    }
    None
}

/// What stands for the act, so that no tag is put that isn't tested, but the mark.
fn act_without_idle(tested: &HashSet<u32>, mark: u32, act: FlatAct) -> FlatAct
    ensures { result ≡ act_without_idle (contains nat_eq tested.now) mark act }
{
    match act {
        FlatAct::AddTag(tag) => {
            if tested.contains(&tag) {
                act
            } else {
                FlatAct::DelTag(tag)
            }
        }
        FlatAct::OnlyTag(tag) => {
            if tested.contains(&tag) {
                FlatAct::OnlyTag(tag)
            } else {
                FlatAct::OnlyTag(mark)
            }
        }
        _ => act,
    }
}

/// The code with what stands for its acts, so that no tag is put that isn't tested, but the mark. Fails if memory runs out.
fn without_idle(
    alloc: Global,
    tested: &HashSet<u32>,
    mark: u32,
    code: &[Ins],
) -> Result<Items<Ins>, Memory>
    ensures { IfOk result (λ all. all ≡ without_idle (contains nat_eq tested.now) mark code.now) }
{
    let mut all = Items::new(alloc);
    for ins in code {
        all.put(Ins {
            cond: ins.cond.copy(alloc)?,
            act: act_without_idle(tested, mark, ins.act),
        })?;
    }
    Ok(all)
}

/// Whether each act of the code stands for itself, so that nothing is to be changed.
fn are_kept(tested: &HashSet<u32>, mark: u32, code: &[Ins]) -> bool
    ensures { result ≡ true → code.now ≡ without_idle (contains nat_eq tested.now) mark code.now }
{
    for ins in code {
        if act_without_idle(tested, mark, ins.act) != ins.act {
            return false;
        }
    }
    true
}

/// Code that does to every packet what the code of `f` does, and of which it uses the same instructions, and that puts no tag which
/// no condition tests, but for one that stands for all that were made the only one. None where that is the code of `f` itself.
/// Fails if memory runs out.
pub(crate) fn without_idle_tags(alloc: Global, f: &Flat) -> Result<Option<Items<Ins>>, Memory>
    ensures idle { IfOk result (λ o. (mark : ℕ) × (unwrap_or o f.now.code ≡ without_idle (is_tested f.now.code) mark f.now.code)) }
    ensures ok { IfOk result (λ o. IfSome o (λ code. flat_ok (record f.now { code = code }) ≡ flat_ok f.now)) }
    ensures uses { IfOk result (λ o. IfSome o (λ code. (site : AnySite) (p : AnyPacket) (k : AnyKind) (n : ℕ) → uses (record f.now { code = code }) site p k n ≡ uses f.now site p k n)) }
    ensures means { IfOk result (λ o. IfSome o (λ code. (site : AnySite) (p : AnyPacket) (k : AnyKind) → means (record f.now { code = code }) site p k ≡ means f.now site p k)) }
{
    let code = f.code.as_slice();
    let tested = tested_tags(alloc, code)?;
    match idle_tag(&tested, code) {
        None => Ok(None),
        Some(mark) => {
            if are_kept(&tested, mark, code) {
                return Ok(None);
            }
            let all = without_idle(alloc, &tested, mark, code)?;
            Ok(Some(all))
        }
    }
}
