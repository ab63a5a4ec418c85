//! Translations of packets on a path.

ghost use Rattle.std.specs.Prelude.{◌≡◌, ◌≤◌, ◌++◌, ◌∷◌, [], Some, All, IfOk, IfSome, OnOk};
ghost use Rattle.fws_iv.specs.declared.iv.Iv.{Iv};
ghost use Rattle.fws_net.specs.declared.condition.Lit.{Lit};
ghost use Rattle.fws_pf_put_nat.specs.Paths.{cond_of, lits_of, nat_of, part_of, test_of};
ghost use Rattle.fws_pf_put_nat.specs.Writings.{nats_of};

use crate::path::Path;
use crate::side::Side;
use fws_iv::{Iv, Ivs, one};
use fws_net::{Cond, End, Lit, Test};
use fws_num::{Items, Memory};
use fws_pf::PfNat;
use std::alloc::Global;

// The test that a field is a member.
fn test_for(side: Side, set: Ivs) -> Test
    ensures { result ≡ test_of side set }
{
    match side {
        Side::Entry => Test::Via(set),
        Side::Proto => Test::Proto(set),
        Side::Dst => Test::Dst(set),
        Side::Dport => Test::Dport(set),
        Side::Src => Test::Src(set),
        Side::Sport => Test::Sport(set),
    }
}

// Appends the literal of a field, if it is tested.
fn put_part(alloc: Global, cond: &mut Cond, side: Side, part: Option<Iv>) -> Result<(), Memory>
    requires { IfSome part (λ range. range.lo ≤ range.hi) }
    ensures { OnOk result (cond.new ≡ cond.old ++ lits_of side part) }
{
    if let Some(range) = part {
        let set = one(alloc, range.lo, range.hi)?;
        cond.put(Lit {
            not: false,
            test: test_for(side, set),
        })?;
    }
    Ok(())
}

// Appends the literals of interface, protocol and source.
fn put_front(alloc: Global, cond: &mut Cond, path: Path) -> Result<(), Memory>
    requires { (side : Side) (part : Iv) → part_of side path ≡ Some part → part.lo ≤ part.hi }
    ensures { OnOk result (cond.new ≡ cond.old ++ lits_of Side.Entry path.entry ++ lits_of Side.Proto path.proto ++ lits_of Side.Src path.src) }
{
    put_part(alloc, cond, Side::Entry, path.entry)?;
    put_part(alloc, cond, Side::Proto, path.proto)?;
    put_part(alloc, cond, Side::Src, path.src)?;
    Ok(())
}

// Appends the literals of the source's port, the destination and its port.
fn put_back(alloc: Global, cond: &mut Cond, path: Path) -> Result<(), Memory>
    requires { (side : Side) (part : Iv) → part_of side path ≡ Some part → part.lo ≤ part.hi }
    ensures { OnOk result (cond.new ≡ cond.old ++ lits_of Side.Sport path.sport ++ lits_of Side.Dst path.dst ++ lits_of Side.Dport path.dport) }
{
    put_part(alloc, cond, Side::Sport, path.sport)?;
    put_part(alloc, cond, Side::Dst, path.dst)?;
    put_part(alloc, cond, Side::Dport, path.dport)?;
    Ok(())
}

// The condition that a packet is on the path.
fn cond_for(alloc: Global, path: Path) -> Result<Cond, Memory>
    requires { (side : Side) (part : Iv) → part_of side path ≡ Some part → part.lo ≤ part.hi }
    ensures { IfOk result (λ cond. cond ≡ cond_of path) }
{
    let mut cond = Cond::new(alloc);
    put_front(alloc, &mut cond, path)?;
    put_back(alloc, &mut cond, path)?;
    Ok(cond)
}

/// Appends the translation of packets on the path, which writes the end, if there is one, and puts the tag. Fails if memory runs
/// out.
pub(crate) fn put_rule(
    alloc: Global,
    rules: &mut Items<PfNat>,
    path: Path,
    to: Option<End>,
    tag: u32,
) -> Result<(), Memory>
    requires { (side : Side) (part : Iv) → part_of side path ≡ Some part → part.lo ≤ part.hi }
    ensures { OnOk result (rules.new ≡ rules.old ++ nat_of path to tag ∷ []) }
{
    rules.put(PfNat {
        cond: cond_for(alloc, path)?,
        to,
        past: false,
        tag: Some(tag),
    })?;
    Ok(())
}

/// Appends a translation for each path, which writes the end and puts the tag. Fails if memory runs out.
pub(crate) fn put_rules(
    alloc: Global,
    rules: &mut Items<PfNat>,
    paths: &[Path],
    end: End,
    tag: u32,
) -> Result<(), Memory>
    requires { All (λ path. (side : Side) (part : Iv) → part_of side path ≡ Some part → part.lo ≤ part.hi) paths.now }
    ensures { OnOk result (rules.new ≡ rules.old ++ nats_of paths.now end tag) }
{
    for path in paths {
        put_rule(alloc, rules, *path, Some(end), tag)?;
    }
    Ok(())
}
