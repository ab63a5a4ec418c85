//! Entries of access lists for paths.

ghost use Rattle.std.specs.Prelude.{◌≡◌, ◌≤◌, ◌++◌, ◌∷◌, [], true, Some, option_map, IfOk, IfSome, OnOk};
ghost use Rattle.fws_iv.specs.declared.iv.Iv.{Iv};
ghost use Rattle.fws_net.specs.Faces.{prefix_parts};
ghost use Rattle.fws_rules.specs.Literals.{one, positive};
ghost use Rattle.fws_ios_put_entries.specs.Entries.{behind_source, cond_of, flag_lits, lits_of, test_of, IsEntryOf, IsStateEntry, behind_front};
ghost use Rattle.fws_ios_put_entries.specs.Paths.{IsWritable};

use crate::act::Act;
use crate::path::Path;
use crate::side::Side;
use fws_ios::IosEntry;
use fws_iv::{Iv, Ivs, one};
use fws_net::{Cond, Lit, Test, prefix_set};
use fws_num::{Memory, Prefix};
use std::alloc::Global;

// The test that the field is a member.
fn test_for(side: Side, set: Ivs) -> Test
    ensures { result ≡ test_of side set }
{
    match side {
        Side::Proto => Test::Proto(set),
        Side::Src => Test::Src(set),
        Side::Sport => Test::Sport(set),
        Side::Dst => Test::Dst(set),
        Side::Dport => Test::Dport(set),
        Side::Icmp => Test::Icmp(set),
    }
}

// Appends the literal of a test.
fn put_test(cond: &mut Cond, test: Test) -> Result<(), Memory>
    ensures { OnOk result (cond.new ≡ cond.old ++ positive test ∷ []) }
{
    cond.put(Lit { not: false, test })?;
    Ok(())
}

// Appends the literal of a protocol or a type, if it is asked.
fn put_number(alloc: Global, cond: &mut Cond, side: Side, number: Option<u8>) -> Result<(), Memory>
    ensures { OnOk result (cond.new ≡ cond.old ++ lits_of side (option_map (λ n. one n n) number)) }
{
    if let Some(n) = number {
        let set = one(alloc, n as u32, n as u32)?;
        put_test(cond, test_for(side, set))?;
    }
    Ok(())
}

// Appends the literal of addresses, if they are asked.
fn put_net(alloc: Global, cond: &mut Cond, side: Side, net: Option<Prefix>) -> Result<(), Memory>
    ensures { OnOk result (cond.new ≡ cond.old ++ lits_of side (option_map prefix_parts net)) }
{
    if let Some(net) = net {
        let set = prefix_set(alloc, &net)?;
        put_test(cond, test_for(side, set))?;
    }
    Ok(())
}

// Appends the literal of ports, if they are asked.
fn put_range(alloc: Global, cond: &mut Cond, side: Side, range: Option<Iv>) -> Result<(), Memory>
    requires { IfSome range (λ part. part.lo ≤ part.hi) }
    ensures { OnOk result (cond.new ≡ cond.old ++ lits_of side (option_map (λ (part : Iv). part ∷ []) range)) }
{
    if let Some(part) = range {
        let set = one(alloc, part.lo, part.hi)?;
        put_test(cond, test_for(side, set))?;
    }
    Ok(())
}

// Appends the literal of ACK and RST, if they are asked.
fn put_flags(cond: &mut Cond, established: bool) -> Result<(), Memory>
    ensures { OnOk result (cond.new ≡ cond.old ++ flag_lits established) }
{
    if established {
        put_test(cond, Test::AnyFlag(20))?;
    }
    Ok(())
}

// Appends the literals of the protocol, the source and its port.
fn put_source(alloc: Global, cond: &mut Cond, path: Path) -> Result<(), Memory>
    requires { IsWritable path }
    ensures { OnOk result (cond.new ≡ behind_front cond.old path) }
{
    put_number(alloc, cond, Side::Proto, path.proto)?;
    put_net(alloc, cond, Side::Src, path.src)?;
    put_range(alloc, cond, Side::Sport, path.sport)?;
    Ok(())
}

// Appends the literals of the destination, its port and what stands behind it.
fn put_destination(
    alloc: Global,
    cond: &mut Cond,
    path: Path,
    established: bool,
) -> Result<(), Memory>
    requires { IsWritable path }
    ensures { OnOk result (cond.new ≡ cond.old ++ behind_source path established) }
{
    put_net(alloc, cond, Side::Dst, path.dst)?;
    put_range(alloc, cond, Side::Dport, path.dport)?;
    put_number(alloc, cond, Side::Icmp, path.icmp)?;
    put_flags(cond, established)?;
    Ok(())
}

// The condition that a packet is on the path.
fn cond_for(alloc: Global, path: Path, established: bool) -> Result<Cond, Memory>
    requires { IsWritable path }
    ensures { IfOk result (λ cond. cond ≡ cond_of path established) }
{
    let mut cond = Cond::new(alloc);
    put_source(alloc, &mut cond, path)?;
    put_destination(alloc, &mut cond, path, established)?;
    Ok(cond)
}

/// The entry that does this with the packets on the path. Fails if memory runs out.
pub fn entry_of(alloc: Global, act: Act, path: Path) -> Result<IosEntry, Memory>
    requires writable { IsWritable path }
    requires tcp { act.established ≡ true → path.proto ≡ Some 6 }
    requires keeps { act.reflect ≡ true → act.permit ≡ true }
    ensures { IfOk result (IsEntryOf act path) }
{
    Ok(IosEntry {
        permit: act.permit,
        cond: cond_for(alloc, path, act.established)?,
        reflect: act.reflect,
    })
}

/// The entry that permits the packets of connections. `evaluate`. Fails if memory runs out.
pub fn state_entry(alloc: Global) -> Result<IosEntry, Memory>
    ensures { IfOk result IsStateEntry }
{
    let mut cond = Cond::new(alloc);
    put_test(&mut cond, Test::Est)?;
    Ok(IosEntry {
        permit: true,
        cond,
        reflect: false,
    })
}
